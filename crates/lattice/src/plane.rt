ghost use Rattle.std.specs.Prelude.{◌≡◌};
ghost use Rattle.lattice.specs.Coord.{coord};
ghost use Rattle.lattice.specs.Screws.{place, quarter, quarters, turned};

// A place in the plane.
#[derive(Clone, Copy)]
pub(crate) struct Place {
    pub(crate) x: i32,
    pub(crate) y: i32,
}

impl Place {
    // The place turned from (x, y) to (-y, x).
    #[tactic(auto, using(crate::proofs::Wrapping::coord_neg))]
    fn quarter_turn(self) -> Place
        ensures { place result.x result.y ≡ quarter (place self.x self.y) }
    {
        Place {
            x: self.y.wrapping_neg(),
            y: self.x,
        }
    }

    // The place after k quarter turns, of which only k modulo 4 counts.
    #[tactic(auto, using(crate::specs::Screws::turned_by))]
    pub(crate) fn turned(self, k: i32) -> Place
        ensures { place result.x result.y ≡ turned (coord k) (place self.x self.y) }
    {
        let mut place = self;
        // one step, done so many times: a fold over the range would say no more
        for _ in 0..quarters_of(k) {
            place = place.quarter_turn();
        }
        place
    }
}

// How many quarter turns a climb makes: its remainder by 4, also where it is negative.
fn quarters_of(k: i32) -> u32
    ensures { result ≡ quarters k }
{
    k.rem_euclid(4) as u32
}
