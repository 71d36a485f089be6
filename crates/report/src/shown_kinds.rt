ghost use Rattle.std.specs.Prelude.{◌≡◌, ℕ, List, Some, codes, refl};
ghost use Rattle.lattice.specs.Texts.{translation_text, screw_text};
ghost use Rattle.permutation.specs.Texts.{permutation_text};
ghost use Rattle.report.specs.Texts.{pair_text};

use label::Pair;
use lattice::{Screw, Translation};
use permutation::PackedNumber;
use sheet::SheetKind;
use std::fmt::Display;

// A kind of sheets whose labels can be shown.
pub trait ShownKind: SheetKind + Display {
    ghost name: { List ℕ };

    // The text of a label.
    ghost shown: { Self → List ℕ };

    // What the labels of the kind are called.
    // A function, for no clause cites a constant that is a text: its value is a reference, with an address.
    fn name() -> &'static str
        ensures { result.now ≡ name };

    // A label is printed as its text.
    ghost printed: { (x : Self) → Self.output x ≡ Some (shown x) };
}

impl ShownKind for Translation {
    ghost name = { codes "translations" };

    ghost shown = { translation_text };

    ghost printed = { λ x. refl };

    fn name() -> &'static str {
        "translations"
    }
}

impl ShownKind for Screw {
    ghost name = { codes "fourfold screws" };

    ghost shown = { screw_text };

    ghost printed = { λ x. refl };

    fn name() -> &'static str {
        "fourfold screws"
    }
}

impl ShownKind for PackedNumber {
    ghost name = { codes "permutations" };

    ghost shown = { permutation_text };

    ghost printed = { λ x. refl };

    fn name() -> &'static str {
        "permutations"
    }
}

impl ShownKind for Pair<Translation, PackedNumber> {
    ghost name = { codes "translations paired with permutations" };

    ghost shown = { pair_text };

    ghost printed = { λ x. refl };

    fn name() -> &'static str {
        "translations paired with permutations"
    }
}
