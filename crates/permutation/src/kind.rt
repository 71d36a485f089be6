ghost use Rattle.std.specs.Prelude.{◌≡◌, ◌<◌, true, false, map, pos, Some, MatchOption, refl};
ghost use Rattle.label.specs.Form.{inside, fit};
ghost use Rattle.symmetric.specs.Images.{Perm, points};
ghost use Rattle.symmetric.specs.Written.{image_slot, image_slots};
ghost use Rattle.permutation.specs.Texts.{permutation_text};
ghost use Rattle.permutation.specs.Permutations.{perm_group, perm_order, perm_form, perm_packed};

use crate::images::all_once;
use crate::packed::{PackedNumber, PackedPermutation};
use label::{Label, LabelFault, NoWrittenForm, Slot, Storage};
use std::cmp::Ordering;
use std::fmt;

// The number as an image; none unless it is 0 to 7.
// A range and no `u8::try_from(..).ok().filter(..)`: that took three times as long, and with it a sheet's reader cleared its array of numbers for each label.
fn image_in(number: i32) -> Option<u8>
    ensures { MatchOption result (inside image_slot number ≡ false) (λ x. (number ≡ pos x) × (x < 8)) }
{
    match number {
        0..=7 => Some(number as u8),
        _ => None,
    }
}

// The numbers as images, in an array, since nothing here allocates; none unless there are eight, each 0 to 7.
// By an index, for after an adapter of `iter_mut` a proof knows nothing of the elements.
fn images_in(numbers: &[i32]) -> Option<[u8; 8]>
    ensures { MatchOption result (fit image_slots numbers.now ≡ false) (λ xs. (numbers.now ≡ map pos xs) × (points xs ≡ true)) }
{
    if numbers.len() != 8 {
        return None;
    }
    let mut images = [0; 8];
    for (i, number) in numbers.iter().enumerate() {
        images[i] = image_in(*number)?;
    }
    Some(images)
}

// A number stands for the permutation that it packs, and for the identity where it packs none.
impl Label for PackedNumber {
    const NUMBERS: usize = 8;

    ghost NUMBERS = { 8 };

    ghost Meaning = { Perm };

    ghost group = { perm_group };

    ghost order = { perm_order };

    ghost form = { perm_form };

    ghost stands = { λ n. perm_packed n.0 };

    ghost counted = { refl };

    fn identity() -> PackedNumber {
        PackedPermutation::identity().into()
    }

    fn product(self, other: PackedNumber) -> PackedNumber {
        let first = PackedPermutation::from(self);
        let second = PackedPermutation::from(other);
        first.then(second).into()
    }

    fn inverse(self) -> PackedNumber {
        PackedPermutation::from(self).inverse().into()
    }

    fn compare(self, other: PackedNumber) -> Ordering {
        PackedPermutation::from(self).compare(PackedPermutation::from(other))
    }

    fn slot(at: usize) -> Option<Slot> {
        (at < Self::NUMBERS).then_some(Slot {
            storage: Storage::Image,
            least: 0,
            most: 7,
        })
    }

    fn read(numbers: &[i32]) -> Result<PackedNumber, LabelFault> {
        let images = images_in(numbers).ok_or(LabelFault::OutOfRange)?;
        if !all_once(&images) {
            return Err(LabelFault::NoPermutation);
        }
        Ok(PackedPermutation::with_images(&images).into())
    }

    fn written(self, at: usize) -> Result<Option<i32>, NoWrittenForm> {
        Ok(PackedPermutation::from(self).image(at).map(i32::from))
    }
}

// `[1 2 3 4 5 6 7 0]`
impl fmt::Display for PackedNumber {
    ghost output = { λ n. Some (permutation_text n) };

    fn fmt<W: fmt::Write>(&self, f: &mut fmt::Formatter<W>) -> fmt::Result {
        let images = PackedPermutation::from(*self).images();
        let first = images[0];
        write!(f, "[{first}")?;
        // the images after the first, as items: no index is counted
        for image in &images[1..] {
            write!(f, " {image}")?;
        }
        write!(f, "]")
    }
}
