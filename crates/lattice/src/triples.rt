ghost use Rattle.std.specs.Prelude.{◌≡◌};
ghost use Rattle.std.specs.List.{slice_get};
ghost use Rattle.label.specs.Form.{fit};
ghost use Rattle.label.specs.Clauses.{written_at};
ghost use Rattle.lattice.specs.Triples.{triple_slots, triple_of, triple_told, ThreeRead};

use label::{LabelFault, NoWrittenForm, Slot, Storage};

// How many numbers are written.
pub(crate) const COUNT: usize = 3;

// The least and the greatest number that a coordinate is written as.
const LEAST: i32 = -500;

const MOST: i32 = 500;

// How the number at a place is stored, and its range.
pub(crate) fn slot_at(at: usize) -> Option<Slot>
    ensures { result ≡ slice_get triple_slots at }
{
    (at < COUNT).then_some(Slot {
        storage: Storage::Signed,
        least: LEAST,
        most: MOST,
    })
}

// Whether there are three numbers, and each is in range.
fn all_in_range(numbers: &[i32]) -> bool
    ensures { result ≡ fit triple_slots numbers.now }
{
    numbers.len() == COUNT && numbers.iter().all(|n| (LEAST..=MOST).contains(n))
}

// The three numbers, if there are three and each is in range.
pub(crate) fn three_of(numbers: &[i32]) -> Result<[i32; COUNT], LabelFault>
    ensures { ThreeRead numbers.now result }
{
    match *numbers {
        [x, y, z] if all_in_range(numbers) => Ok([x, y, z]),
        _ => Err(LabelFault::OutOfRange),
    }
}

// The number at a place of the three, none past the end, unless one of them is out of range.
pub(crate) fn number_at(numbers: [i32; COUNT], at: usize) -> Result<Option<i32>, NoWrittenForm>
    ensures { result ≡ written_at (triple_told (triple_of numbers)) at }
{
    if all_in_range(&numbers) {
        Ok(numbers.get(at).copied())
    } else {
        Err(NoWrittenForm)
    }
}
