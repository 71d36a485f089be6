ghost use Rattle.std.specs.Prelude.{◌≡◌};
ghost use Rattle.label.specs.Numbers.{label_number, unwritten_number};

// Why numbers are no label.
#[derive(Clone, Copy, PartialEq, Eq, Debug)]
pub enum LabelFault {
    // a number outside its range, or more or fewer numbers than the kind has
    OutOfRange = 4,
    // eight images that are no permutation
    NoPermutation = 5,
}

impl LabelFault {
    // The number that the refusal has in the kit's table: outside the kit refusals are kept and told by number.
    pub fn number(self) -> u8
        ensures { result ≡ label_number self }
    {
        self as u8
    }
}

// The label has no written form.
#[derive(Clone, Copy, PartialEq, Eq, Debug)]
pub struct NoWrittenForm;

impl NoWrittenForm {
    // The number that the refusal has in the kit's table: outside the kit refusals are kept and told by number.
    pub fn number(self) -> u8
        ensures { result ≡ unwritten_number self }
    {
        31
    }
}
