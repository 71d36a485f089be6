ghost use Rattle.sheet.specs.RoundTrip.{WrittenAgain, ReadAgain, OneNet, OneAnswer};

use crate::kinds::SheetKind;

// Reading and writing undo each other, and a sheet has one answer: it computes nothing, its contract is the theorem.
pub fn sheets_round_trip<K: SheetKind>()
    ensures again { WrittenAgain K.Label.group K.Label.form K.Label.stands K.SheetKind.KIND }
    ensures back { ReadAgain K.Label.group K.Label.form K.Label.stands K.SheetKind.KIND }
    ensures net { OneNet K.Label.group K.Label.form K.Label.stands K.SheetKind.KIND }
    ensures answer { OneAnswer K.Label.group K.Label.form K.Label.stands K.SheetKind.KIND }
{}
