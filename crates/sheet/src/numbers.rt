ghost use Rattle.std.specs.Prelude.{◌≡◌, ℕ, ◌<◌, ◌≤◌, ◌⊎◌, List, length, MatchBool, Err};
ghost use Rattle.sheet.specs.Faults.{Unreadable};
ghost use Rattle.sheet.specs.Reading.{Reads, FrontClause, NumberClause, EndClause};

use crate::faults::{BytesFault, Placed};
use crate::reader::Reader;

// Whether the byte cannot be the last of three.
fn no_last(byte: u8) -> bool
    ensures { MatchBool result ((byte ≡ 0) ⊎ (128 ≤ byte)) ((1 ≤ byte) × (byte < 128)) }
{
    byte == 0 || byte >= 128
}

// The number at the front of the bytes, in its shortest form, and how many bytes it takes: by patterns of the bytes.
fn front(bytes: &[u8]) -> Result<(u32, usize), BytesFault>
    ensures { FrontClause bytes.now result }
{
    match bytes {
        [a, ..] if *a < 128 => Ok((u32::from(*a), 1)),
        [_, b, ..] if *b == 0 => Err(BytesFault::Malformed),
        [a, b, ..] if *b < 128 => Ok((u32::from(*a) - 128 + 128 * u32::from(*b), 2)),
        [_, _, c, ..] if no_last(*c) => Err(BytesFault::Malformed),
        [a, b, c, ..] => {
            let high = u32::from(*b) - 128 + 128 * u32::from(*c);
            Ok((u32::from(*a) - 128 + 128 * high, 3))
        }
        _ => Err(BytesFault::Ends),
    }
}

impl<'a> Reader<'a> {
    // A reader of all the bytes.
    pub(crate) fn new(bytes: &'a [u8]) -> Self
        ensures bytes { result.bytes.now ≡ bytes.now }
        ensures place { result.place ≡ 0 }
    {
        Reader { bytes, place: 0 }
    }

    // The fault of the next number with its place: bytes that end too early are at fault at their end.
    fn placed(&self, fault: BytesFault) -> Placed<BytesFault>
        ensures { (rest : List ℕ) → FrontClause rest (Err fault) → Unreadable self.now.place (length self.now.bytes.now) rest result }
    {
        let place = match fault {
            BytesFault::Ends => self.bytes.len(),
            _ => self.place,
        };
        Placed { fault, place }
    }

    // The next number.
    pub(crate) fn number(&mut self) -> Result<u32, Placed<BytesFault>>
        ensures { Reads NumberClause self.old self.new result }
    {
        // a match and no `map_err`: its closure would need a clause that says again what `placed` says
        match front(&self.bytes[self.place..]) {
            Ok((value, long)) => {
                self.place += long;
                Ok(value)
            }
            Err(fault) => Err(self.placed(fault)),
        }
    }

    // Whether all bytes are read.
    pub(crate) fn end(&self) -> Result<(), Placed<BytesFault>>
        ensures { EndClause self.now.bytes.now self.now.place result }
    {
        if self.place < self.bytes.len() {
            return Err(BytesFault::LeftOver.found_at(self.place));
        }
        Ok(())
    }
}
