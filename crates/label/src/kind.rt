ghost use Rattle.std.specs.Prelude.{◌≡◌, ℕ, length};
ghost use Rattle.std.specs.List.{slice_get};
ghost use Rattle.label.specs.Group.{Group};
ghost use Rattle.label.specs.Order.{Order};
ghost use Rattle.label.specs.Form.{Form};
ghost use Rattle.label.specs.Clauses.{ReadClause, written_at};

use crate::refusals::{LabelFault, NoWrittenForm};
use crate::written::Slot;
use std::cmp::Ordering;

// A kind of labels. Each stored label stands for an element of a group with a total order;
// labels that stand for the same element are the same label.
pub trait Label: Copy {
    // How many numbers the written form has.
    const NUMBERS: usize;

    ghost NUMBERS: { ℕ };

    ghost Meaning: { Type 0 };

    ghost group: { Group Meaning };

    ghost order: { Order Meaning };

    ghost form: { Form Meaning };

    ghost stands: { Self → Meaning };

    fn identity() -> Self
        ensures { stands result ≡ group.one };

    fn product(self, other: Self) -> Self
        ensures { stands result ≡ group.mul (stands self) (stands other) };

    fn inverse(self) -> Self
        ensures { stands result ≡ group.inv (stands self) };

    fn compare(self, other: Self) -> Ordering
        ensures { result ≡ order.cmp (stands self) (stands other) };

    // How the number at a place of the written form is stored, and its range; none past the end.
    fn slot(at: usize) -> Option<Slot>
        ensures { result ≡ slice_get form.slots at };

    // The label that the numbers stand for.
    fn read(numbers: &[i32]) -> Result<Self, LabelFault>
        ensures { ReadClause form stands numbers.now result };

    // The number at a place of the label's written form; none past the end.
    fn written(self, at: usize) -> Result<Option<i32>, NoWrittenForm>
        ensures { result ≡ written_at (form.tells (stands self)) at };

    // The constant is the number of slots.
    ghost counted: { NUMBERS ≡ length form.slots };
}
