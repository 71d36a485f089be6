ghost use Rattle.std.specs.Prelude.{◌≡◌, ◌<◌, true, [], ◌∷◌, length, Some};
ghost use Rattle.std.specs.List.{slice_get};
ghost use Rattle.label.specs.declared.written.Slot.{Slot};
ghost use Rattle.label.specs.Form.{storable};
ghost use Rattle.sheet.specs.Reading.{Reads, SlotClause, LabelClause};

use crate::codes::decoded;
use crate::faults::{Placed, SheetFault, at_place};
use crate::reader::Reader;
use label::{Label, LabelFault, MOST_NUMBERS, Slot};

impl Reader<'_> {
    // The next number of a label, which is to be in the slot's range.
    fn slot_number(&mut self, slot: Slot) -> Result<i32, SheetFault>
        requires { storable (slot ∷ []) ≡ true }
        ensures { Reads (SlotClause slot) self.old self.new result }
    {
        let place = self.place;
        let number = self.number()?;
        let value = decoded(slot.storage, number);
        if !(slot.least..=slot.most).contains(&value) {
            return Err(SheetFault::Label(Placed {
                fault: LabelFault::OutOfRange,
                place,
            }));
        }
        Ok(value)
    }

    // The label's number with that index.
    fn label_number<L: Label>(&mut self, index: usize) -> Result<i32, SheetFault>
        requires { index < length L.Label.form.slots }
        ensures { (s : Slot) → slice_get L.Label.form.slots index ≡ Some s → Reads (SlotClause s) self.old self.new result }
    {
        match L::slot(index) {
            Some(slot) => self.slot_number(slot),
            None => unreachable!(),
        }
    }

    // The next label: its numbers, judged as they come, and then what they stand for.
    // The numbers stand in a local array of the most that a label has, since nothing here allocates.
    pub(crate) fn label<L: Label>(&mut self) -> Result<L, SheetFault>
        ensures { Reads (LabelClause L.Label.form L.Label.stands) self.old self.new result }
    {
        let place = self.place;
        let mut numbers = [0; MOST_NUMBERS];
        let written = &mut numbers[..L::NUMBERS];
        for (i, number) in written.iter_mut().enumerate() {
            *number = self.label_number::<L>(i)?;
        }
        let label = at_place(L::read(written), place)?;
        Ok(label)
    }
}
