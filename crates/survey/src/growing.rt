ghost use Rattle.std.specs.Prelude.{◌≡◌, ◌<◌, ◌≤◌, length, suc, MatchResult};
ghost use Rattle.survey.specs.Clauses.{GrowClause};
ghost use Rattle.survey.specs.Marks.{mark_of};
ghost use Rattle.survey.specs.Rules.{Strange};
ghost use Rattle.survey.specs.Unfolding.{UnfoldClause};
ghost use Rattle.survey.specs.declared.refusals.SurveyRefusal.TheVariants.{OtherLength};

use crate::records::Record;
use crate::refusals::SurveyRefusal;
use crate::search::Exhausted;
use crate::shelling::Shelling;
use crate::surveys::{Frontier, MARKS, MOST_RADIUS, Survey};
use label::Label;
use net::Line;
use std::ops::Range;

impl Survey {
    // Where in the pool the shell k of the node v lies.
    pub(crate) fn shell(&self, v: u32, k: u32) -> Range<usize>
        requires { (v < self.now.draft.nodes) × (k ≤ self.now.radius) }
        ensures begins { result.start ≡ mark_of self.now.marks k v }
        ensures ends { result.end ≡ mark_of self.now.marks k (suc v) }
    {
        let marks = &self.marks[k as usize];
        let v = v as usize;
        marks[v] as usize..marks[v + 1] as usize
    }

    // Notes the next shell of each node after the other, and marks where each ends.
    fn unfold<L: Label>(
        &self,
        list: &[Line<L>],
        pool: &mut [Record<L>],
    ) -> Result<Frontier, Exhausted>
        requires { (self.now.radius < 16) × ((length list.now ≡ self.now.draft.room) × (length pool.old ≡ self.now.room)) }
        ensures { UnfoldClause L.Label.group L.Label.order L.Label.stands self.now list.now pool.old result pool.new }
    {
        // `grow` has checked the list's length, so the draft's `drawn` would bring a refusal that never comes
        let lines = &list[..self.draft.lines()];
        let mut used = self.used;
        let mut marks = [0; MARKS];
        marks[0] = used as u32;
        let distance = self.radius + 1;
        // by number: over a `zip` with the marks to write, an invariant has no name for those written so far
        for centre in 0..self.draft.nodes() {
            let mut shelling = Shelling {
                pool,
                used,
                centre,
                distance,
            };
            shelling.note_shell(lines, self.shell(centre, self.radius))?;
            used = shelling.used;
            marks[centre as usize + 1] = used as u32;
        }
        Ok(Frontier { used, marks })
    }

    // Refuses a list or a pool of another length than at opening or sealing.
    pub(crate) fn check_lent<L: Label>(
        &self,
        list: &[Line<L>],
        pool: &[Record<L>],
    ) -> Result<(), SurveyRefusal>
        ensures { MatchResult result (λ _. (length list.now ≡ self.now.draft.room) × (length pool.now ≡ self.now.room)) (λ e. (e ≡ OtherLength) × Strange self.now (length list.now) (length pool.now)) }
    {
        if self.draft.drawn(list).is_ok() && pool.len() == self.room {
            Ok(())
        } else {
            Err(SurveyRefusal::OtherLength)
        }
    }

    // Raises the radius by 1 for all nodes.
    pub fn grow<L: Label>(
        &mut self,
        list: &[Line<L>],
        pool: &mut [Record<L>],
    ) -> Result<(), SurveyRefusal>
        ensures { GrowClause L.Label.group L.Label.order L.Label.stands self.old list.now pool.old result self.new pool.new }
    {
        self.check_lent(list, pool)?;
        if self.radius >= MOST_RADIUS {
            return Err(SurveyRefusal::RadiusFull);
        }
        let Frontier { used, marks } = self.unfold(list, pool)?;
        self.radius += 1;
        self.used = used;
        self.marks[self.radius as usize] = marks;
        Ok(())
    }
}
