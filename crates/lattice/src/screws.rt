ghost use Rattle.std.specs.Prelude.{Some, refl};
ghost use Rattle.lattice.specs.Texts.{screw_text};
ghost use Rattle.lattice.specs.Coord.{coord};
ghost use Rattle.lattice.specs.Screws.{ScrewMotion, place, screws, screw_order, screw_made};
ghost use Rattle.lattice.specs.Triples.{triple_form};

use crate::plane::Place;
use crate::triples::{COUNT, number_at, slot_at, three_of};
use label::{Label, LabelFault, NoWrittenForm, Slot};
use std::cmp::Ordering;
use std::fmt;

// A fourfold screw: a shift (x, y) of the plane, and a climb k that turns what follows by
// k quarter turns. All three wrap.
#[derive(Clone, Copy, PartialEq, Eq, PartialOrd, Ord, Debug)]
pub struct Screw {
    pub x: i32,
    pub y: i32,
    pub k: i32,
}

impl Label for Screw {
    const NUMBERS: usize = COUNT;

    ghost NUMBERS = { 3 };

    ghost Meaning = { ScrewMotion };

    ghost group = { screws };

    ghost order = { screw_order };

    ghost form = { triple_form screw_made };

    ghost stands = { λ s. (place s.x s.y, coord s.k) };

    ghost counted = { refl };

    fn identity() -> Screw {
        Screw { x: 0, y: 0, k: 0 }
    }

    #[tactic(auto, using(crate::proofs::Wrapping::coord_sum, crate::proofs::Wrapping::coord_stored))]
    fn product(self, other: Screw) -> Screw {
        let shift = Place {
            x: other.x,
            y: other.y,
        };
        let turned = shift.turned(self.k);
        Screw {
            x: self.x.wrapping_add(turned.x),
            y: self.y.wrapping_add(turned.y),
            k: self.k.wrapping_add(other.k),
        }
    }

    #[tactic(auto, using(crate::proofs::Wrapping::coord_neg, crate::proofs::Wrapping::coord_stored))]
    fn inverse(self) -> Screw {
        let back = Place {
            x: self.x.wrapping_neg(),
            y: self.y.wrapping_neg(),
        };
        let k = self.k.wrapping_neg();
        let Place { x, y } = back.turned(k);
        Screw { x, y, k }
    }

    // These four are as short for translations: each is one call, and the kinds differ in their groups.
    fn compare(self, other: Screw) -> Ordering {
        self.cmp(&other)
    }

    fn slot(at: usize) -> Option<Slot> {
        slot_at(at)
    }

    fn read(numbers: &[i32]) -> Result<Screw, LabelFault> {
        let [x, y, k] = three_of(numbers)?;
        Ok(Screw { x, y, k })
    }

    fn written(self, at: usize) -> Result<Option<i32>, NoWrittenForm> {
        number_at([self.x, self.y, self.k], at)
    }
}

// `(1, 0) climb 1`
impl fmt::Display for Screw {
    ghost output = { λ s. Some (screw_text s) };

    fn fmt<W: fmt::Write>(&self, f: &mut fmt::Formatter<W>) -> fmt::Result {
        let Screw { x, y, k } = *self;
        write!(f, "({x}, {y}) climb {k}")
    }
}
