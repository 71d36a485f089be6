ghost use Rattle.std.specs.Prelude.{◌≡◌, ◌<◌, ◌^◌, map, length};
ghost use Rattle.std.specs.List.{range_with_len};
ghost use Rattle.growth.specs.Entry.{about, at_distance};
ghost use Rattle.mesh.specs.Junction.{home};
ghost use Rattle.survey.specs.Found.{found};
ghost use Rattle.survey.specs.Clauses.{SealClause, ReopenClause};

use crate::records::{Junction, Record};
use crate::refusals::SurveyRefusal;
use crate::surveys::{MARKS, RADII, Survey};
use label::Label;
use net::{Draft, Line};
use std::array::from_fn;

// The most records that a pool has.
const MOST_RECORDS: usize = 65_535;

// Writes the home of each node into its record.
fn place_homes<L: Label>(homes: &mut [Record<L>])
    requires { length homes.old < 2 ^ 32 }
    ensures { found L.Label.stands (length homes.old) homes.new ≡ map (λ v. at_distance 0 (about v (home L.Label.group v))) (range_with_len 0 (length homes.old)) }
{
    for (v, record) in homes.iter_mut().enumerate() {
        let v = v as u32;
        let home = Junction {
            node: v,
            label: L::identity(),
        };
        *record = Record::unlinked(v, home, 0);
    }
}

impl Survey {
    // Ends drawing: a survey of radius 0 of the draft's net, over a pool that is lent again at each call.
    // No `?`: the draft is handed back with the refusal.
    pub fn seal<L: Label>(
        draft: Draft,
        list: &[Line<L>],
        pool: &mut [Record<L>],
    ) -> Result<Survey, (SurveyRefusal, Draft)>
        ensures { SealClause L.Label.group L.Label.order L.Label.stands draft list.now pool.old result pool.new }
    {
        let nodes = draft.nodes();
        // the length alone: what the draft's `drawn` says of the lines is not needed here
        if list.len() != draft.room() {
            return Err((SurveyRefusal::OtherLength, draft));
        }
        if pool.len() < nodes as usize || pool.len() > MOST_RECORDS {
            return Err((SurveyRefusal::PoolSize, draft));
        }
        place_homes(&mut pool[..nodes as usize]);
        let mut marks = [[0; MARKS]; RADII];
        // one record to a node
        marks[0] = from_fn(|v| v as u32);
        Ok(Survey {
            draft,
            radius: 0,
            used: nodes as usize,
            room: pool.len(),
            marks,
        })
    }

    // Ends the survey: the draft with its lines. Writes nothing.
    // No `?`: the survey is handed back with the refusal.
    pub fn reopen<L: Label>(
        self,
        list: &[Line<L>],
        pool: &[Record<L>],
    ) -> Result<Draft, (SurveyRefusal, Survey)>
        ensures { ReopenClause L.Label.group L.Label.order L.Label.stands self list.now pool.now result }
    {
        if let Err(refusal) = self.check_lent(list, pool) {
            return Err((refusal, self));
        }
        let Survey { draft, .. } = self;
        Ok(draft)
    }
}
