ghost use Rattle.std.specs.Prelude.{Some, refl};
ghost use Rattle.lattice.specs.Texts.{translation_text};
ghost use Rattle.lattice.specs.Translations.{translations, translation_order};
ghost use Rattle.lattice.specs.Triples.{Triple, triple, triple_form, triple_made};

use crate::triples::{COUNT, number_at, slot_at, three_of};
use label::{Label, LabelFault, NoWrittenForm, Slot};
use std::cmp::Ordering;
use std::fmt;

// A shift of space: its three coordinates, added one by one, wrapping.
#[derive(Clone, Copy, PartialEq, Eq, PartialOrd, Ord, Debug)]
pub struct Translation {
    pub x: i32,
    pub y: i32,
    pub z: i32,
}

impl Label for Translation {
    const NUMBERS: usize = COUNT;

    ghost NUMBERS = { 3 };

    ghost Meaning = { Triple };

    ghost group = { translations };

    ghost order = { translation_order };

    ghost form = { triple_form triple_made };

    ghost stands = { λ t. triple t.x t.y t.z };

    ghost counted = { refl };

    fn identity() -> Translation {
        Translation { x: 0, y: 0, z: 0 }
    }

    #[tactic(auto, using(crate::proofs::Wrapping::coord_sum))]
    fn product(self, other: Translation) -> Translation {
        Translation {
            x: self.x.wrapping_add(other.x),
            y: self.y.wrapping_add(other.y),
            z: self.z.wrapping_add(other.z),
        }
    }

    #[tactic(auto, using(crate::proofs::Wrapping::coord_neg))]
    fn inverse(self) -> Translation {
        Translation {
            x: self.x.wrapping_neg(),
            y: self.y.wrapping_neg(),
            z: self.z.wrapping_neg(),
        }
    }

    // These four are as short for screws: each is one call, and the kinds differ in their groups.
    fn compare(self, other: Translation) -> Ordering {
        self.cmp(&other)
    }

    fn slot(at: usize) -> Option<Slot> {
        slot_at(at)
    }

    fn read(numbers: &[i32]) -> Result<Translation, LabelFault> {
        let [x, y, z] = three_of(numbers)?;
        Ok(Translation { x, y, z })
    }

    fn written(self, at: usize) -> Result<Option<i32>, NoWrittenForm> {
        number_at([self.x, self.y, self.z], at)
    }
}

// `(1, 0, -1)`
impl fmt::Display for Translation {
    ghost output = { λ t. Some (translation_text t) };

    fn fmt<W: fmt::Write>(&self, f: &mut fmt::Formatter<W>) -> fmt::Result {
        let Translation { x, y, z } = *self;
        write!(f, "({x}, {y}, {z})")
    }
}
