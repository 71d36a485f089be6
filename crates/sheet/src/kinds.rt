ghost use Rattle.std.specs.Prelude.{ℕ};
ghost use Rattle.sheet.specs.Stored.{Small};
ghost use Rattle.std.proofs.Common.{lit<};

use label::{Label, Pair};
use lattice::{Screw, Translation};
use permutation::PackedNumber;

// A label kind that sheets can be of: its number is the first of the sheet.
pub trait SheetKind: Label {
    ghost KIND: { ℕ };

    const KIND: u32;

    ghost small: { Small KIND };
}

impl SheetKind for Translation {
    ghost KIND = { 1 };

    const KIND: u32 = 1;

    ghost small = { lit< tt };
}

impl SheetKind for Screw {
    ghost KIND = { 2 };

    const KIND: u32 = 2;

    ghost small = { lit< tt };
}

impl SheetKind for PackedNumber {
    ghost KIND = { 3 };

    const KIND: u32 = 3;

    ghost small = { lit< tt };
}

impl SheetKind for Pair<Translation, PackedNumber> {
    ghost KIND = { 4 };

    const KIND: u32 = 4;

    ghost small = { lit< tt };
}
