// Rings in any graph, as mathematics: cycles without a shortcut, when two are the same, and how many go through two links at a junction.
#![tactic(auto)]

ghost use Rattle.std.specs.Prelude.{◌≡◌, ℕ, ◌≢◌};
ghost use Rattle.rings.specs.HalfWayLaws.{HalfWayLaws};
ghost use Rattle.rings.specs.SameRingLaws.{SameRingLaws};
ghost use Rattle.rings.specs.TurnLaws.{TurnLaws};
ghost use Rattle.rings.specs.FormLaws.{FormLaws};
ghost use Rattle.rings.specs.RingCountLaws.{RingCountLaws};
ghost use Rattle.rings.specs.SmallLaws.{SmallLaws};
ghost use Rattle.rings.specs.SquareLaws.{SquareLaws};

use mesh::AnyGraph;

// The functions below compute nothing: the contract of each is a theorem.

// A closed walk is a ring exactly if every two of its junctions that are half its length apart, rounded down, are at that distance.
pub fn rings_told_by_halves<K: AnyGraph>()
    ensures { HalfWayLaws K.AnyGraph.Joined }
{}

// To be the same ring is an equivalence.
pub fn same_ring_equivalent<K: AnyGraph>()
    ensures { SameRingLaws K.AnyGraph.Place }
{}

// A ring begun at another place, or gone round the other way, is the same ring.
pub fn rings_turned<K: AnyGraph>()
    ensures { TurnLaws K.AnyGraph.Joined }
{}

// A ring through two different links at a junction is the same ring as exactly one list in standard form.
pub fn one_standard_form<K: AnyGraph>()
    ensures { FormLaws K.AnyGraph.Joined }
{}

// The rings of a length through two different links at a junction are as many as the lists in standard form.
// That is one number, 0 exactly if there is no such ring, and different lists in standard form are no more.
pub fn rings_counted<K: AnyGraph>()
    ensures { (L : ℕ) (o x y : K.AnyGraph.Place) → (x ≢ y) → RingCountLaws K.AnyGraph.Joined L o x y }
{}

// A triangle is a ring of length 3, and a square with a diagonal is no ring.
pub fn smallest_rings<K: AnyGraph>()
    ensures { SmallLaws K.AnyGraph.Joined }
{}

// The square is the one ring of length 4 through two links at a corner; with one diagonal it has no ring of length 4.
pub fn square_rings()
    ensures { SquareLaws }
{}
