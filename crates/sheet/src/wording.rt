ghost use Rattle.std.specs.Prelude.{◌≡◌, Some};
ghost use Rattle.sheet.specs.Words.{fault_line, refusal_line, words_of};

use crate::faults::SheetFault;
use crate::refusals::WriteRefusal;
use std::fmt;

// A refusal's number in words. One table by number serves every fault type, and what prints a fault takes its words from here.
#[tactic(auto, unfolding(crate::specs::Words::words_of))]
pub fn words(number: u8) -> &'static str
    ensures { result.now ≡ words_of number }
{
    match number {
        1 => "the sheet ends inside a number or before one",
        2 => "a number that is not in its shortest form",
        3 => "another kind than named",
        4 => "a number outside its range",
        5 => "eight images that are no permutation",
        6 => "bytes left over",
        7 => "no such node",
        9 => "the output is shorter than the result",
        10 => "a line from a node to itself with the identity",
        11 => "a line from a node to itself whose label is its own inverse",
        12 => "a line list of another length",
        20 => "the line list is full",
        22 => "the tail already has a port to the same head with the same label",
        23 => "a node would have more than 12 ports",
        24 => "no line to take back",
        31 => "a label without written form",
        _ => "no refusal of that number",
    }
}

// A fault in one line.
impl fmt::Display for SheetFault {
    ghost output = { λ f. Some (fault_line f) };

    fn fmt<W: fmt::Write>(&self, f: &mut fmt::Formatter<W>) -> fmt::Result {
        let number = self.number();
        let place = self.place();
        let layer = self.layer().number();
        let why = words(number);
        write!(
            f,
            "refused {number} at byte {place} in layer {layer}: {why}"
        )
    }
}

// A refusal to write in one line.
impl fmt::Display for WriteRefusal {
    ghost output = { λ r. Some (refusal_line r) };

    fn fmt<W: fmt::Write>(&self, f: &mut fmt::Formatter<W>) -> fmt::Result {
        let number = self.number();
        let why = words(number);
        write!(f, "refused {number}: {why}")
    }
}
