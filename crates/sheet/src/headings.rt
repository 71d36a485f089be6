ghost use Rattle.std.specs.Prelude.{◌≡◌};
ghost use Rattle.sheet.specs.Reading.{Reads, HeadingClause};

use crate::faults::{BytesFault, Placed};
use crate::kinds::SheetKind;
use crate::reader::{Heading, Reader};
use net::{Draft, Line, MOST_LINES};

impl Reader<'_> {
    // The kind, the nodes and the number of lines, which the sheet begins with; opens the draft.
    pub(crate) fn heading<K: SheetKind>(
        &mut self,
        list: &[Line<K>],
    ) -> Result<Heading, Placed<BytesFault>>
        requires { self.old.place ≡ 0 }
        ensures { Reads (λ bytes _. HeadingClause K.SheetKind.KIND list.now bytes) self.old self.new result }
    {
        let place = self.place;
        if self.number()? != K::KIND {
            return Err(BytesFault::OtherKind.found_at(place));
        }
        let place = self.place;
        let nodes = self.number()?;
        let Ok(draft) = Draft::open(nodes, list) else {
            return Err(BytesFault::HeadingOutOfRange.found_at(place));
        };
        let place = self.place;
        let lines = self.number()?;
        if lines > MOST_LINES as u32 {
            return Err(BytesFault::HeadingOutOfRange.found_at(place));
        }
        Ok(Heading { draft, lines })
    }
}
