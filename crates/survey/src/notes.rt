ghost use Rattle.std.specs.Prelude.{◌≡◌, ◌<◌, [], ◌∷◌};
ghost use Rattle.growth.specs.Entry.{about};
ghost use Rattle.survey.specs.Found.{junction_of};
ghost use Rattle.survey.specs.Stepping.{with_link, Added, Stepped};

use crate::found::ask;
use crate::records::{Junction, Record};
use crate::search::{Exhausted, Place, Side};
use crate::shelling::Shelling;
use label::Label;

// The record with another link at that side.
fn linked<L: Label>(parent: Record<L>, side: Side, to: u32) -> Record<L>
    ensures { result ≡ with_link side to parent }
{
    match side {
        Side::Lesser => Record {
            below: to,
            ..parent
        },
        Side::Greater => Record {
            above: to,
            ..parent
        },
    }
}

impl<'a, L: Label> Shelling<'a, L> {
    // Takes one record more into use for the junction, and links it from its place.
    fn add(&mut self, junction: Junction<L>, place: Place) -> Result<(), Exhausted>
        requires { place.under < self.old.used }
        ensures { Added self.old junction place result self.new }
    {
        if self.used >= self.pool.len() {
            return Err(Exhausted);
        }
        let parent = self.pool[place.under];
        self.pool[place.under] = linked(parent, place.side, self.used as u32);
        self.pool[self.used] = Record::unlinked(self.centre, junction, self.distance);
        self.used += 1;
        Ok(())
    }

    // Asks for the junction about the centre, and adds it at the distance if it is not there.
    pub(crate) fn note(&mut self, junction: Junction<L>) -> Result<(), Exhausted>
        ensures { Stepped L.Label.order L.Label.stands self.old (about self.old.centre (junction_of L.Label.stands junction) ∷ []) result self.new }
    {
        // `&mut *`: out of a field, a slice whose elements have a type parameter is lent on only so
        let pool: &[Record<L>] = &mut *self.pool;
        match ask(&pool[..self.used], self.centre, junction) {
            Ok(_) => Ok(()),
            Err(place) => self.add(junction, place),
        }
    }
}
