ghost use Rattle.std.specs.Prelude.{◌≡◌};
ghost use Rattle.sheet.specs.Numbers.{write_number};

// Why writing a sheet is refused, by its number in the kit's table.
#[derive(Clone, Copy, PartialEq, Eq, Debug)]
pub enum WriteRefusal {
    // a line list of another length than at opening
    OtherLength = 12,
    // a label without written form
    NoWrittenForm = 31,
    // the output is shorter than the sheet
    OutputShort = 9,
}

impl WriteRefusal {
    // The number that the refusal has in the kit's table: outside the kit refusals are kept and told by number.
    pub fn number(self) -> u8
        ensures { result ≡ write_number self }
    {
        self as u8
    }
}
