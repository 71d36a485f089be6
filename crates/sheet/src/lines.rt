ghost use Rattle.sheet.specs.Reading.{Reads, LineAtClause, DrawClause};

use crate::faults::{SheetFault, at_place};
use crate::reader::Reader;
use label::Label;
use net::{Draft, Line};

impl Reader<'_> {
    // The next line: its tail, its head and its label.
    fn line<L: Label>(&mut self) -> Result<Line<L>, SheetFault>
        ensures { Reads (LineAtClause L.Label.form L.Label.stands) self.old self.new result }
    {
        let tail = self.number()?;
        let head = self.number()?;
        let label = self.label()?;
        Ok(Line { tail, head, label })
    }

    // Reads the next line and draws it.
    pub(crate) fn draw_line<L: Label>(
        &mut self,
        draft: &mut Draft,
        list: &mut [Line<L>],
    ) -> Result<(), SheetFault>
        ensures { Reads (DrawClause L.Label.form L.Label.stands L.Label.group draft.old list.old draft.new list.new) self.old self.new result }
    {
        let place = self.place;
        let line = self.line()?;
        at_place(draft.line(list, line), place)?;
        Ok(())
    }
}
