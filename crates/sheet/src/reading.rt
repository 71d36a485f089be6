ghost use Rattle.std.specs.Prelude.{length};
ghost use Rattle.sheet.specs.Clauses.{ReadSheet};

use crate::faults::SheetFault;
use crate::kinds::SheetKind;
use crate::reader::{Heading, Reader};
use net::{Draft, Line};

// Reads a net of the kind from a sheet: opens a draft over the list and draws each line.
pub fn read<K: SheetKind>(bytes: &[u8], list: &mut [Line<K>]) -> Result<Draft, SheetFault>
    ensures { ReadSheet K.Label.group K.Label.form K.Label.stands K.SheetKind.KIND bytes.now list.old result list.new }
{
    let mut reader = Reader::new(bytes);
    let Heading { mut draft, lines } = reader.heading(list)?;
    // the heading gives only how many lines come: there is no item to go over
    for _i in 0..lines {
        reader.draw_line(&mut draft, list)?;
    }
    reader.end()?;
    Ok(draft)
}
