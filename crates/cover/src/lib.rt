// Covers of graphs and of meshes, as mathematics: a map that lifts links and does not fold at short range keeps distances, shells and rings up to that range.
// The functions here compute nothing: the contract of each is a theorem.
#![tactic(auto)]

ghost use Rattle.std.specs.Prelude.{◌≡◌, ℕ, ◌+◌, ◌*◌, ◌^◌, ◌<◌, List, ℤ, Some};
ghost use Rattle.mesh.specs.Net.{Net};
ghost use Rattle.mesh.specs.Junction.{Junction};
ghost use Rattle.mesh.specs.Link.{Link};
ghost use Rattle.lattice.specs.Triples.{Triple, triple_form, triple_made};
ghost use Rattle.cover.specs.Apart.{Apart};
ghost use Rattle.cover.specs.Covers.{Covers};
ghost use Rattle.cover.specs.CoverLaws.{CoverLaws};
ghost use Rattle.cover.specs.RingCoverLaws.{RingCoverLaws};
ghost use Rattle.cover.specs.MeshMap.{MeshMap};
ghost use Rattle.cover.specs.MeshCoverLaws.{MeshCoverLaws};
ghost use Rattle.cover.specs.Small.{Small, SmallLabels};
ghost use Rattle.cover.specs.WholeLaws.{WholeLaws};
ghost use Rattle.cover.specs.CubicLaws.{CubicLaws};

use mesh::{AnyGraph, AnyGroup};

// A cover keeps walks, and up to half its range distances and shells with their numbers.
pub fn covers_keep_shells<K: AnyGraph, B: AnyGraph>()
    ensures { (f : K.AnyGraph.Place → B.AnyGraph.Place) (R : ℕ) → Covers K.AnyGraph.Joined B.AnyGraph.Joined f R → CoverLaws K.AnyGraph.Joined B.AnyGraph.Joined f R }
{}

// A cover keeps the rings no longer than its range through any two links at a junction, with their numbers.
pub fn covers_keep_rings<K: AnyGraph, B: AnyGraph>()
    ensures { (f : K.AnyGraph.Place → B.AnyGraph.Place) (R : ℕ) → Covers K.AnyGraph.Joined B.AnyGraph.Joined f R → RingCoverLaws K.AnyGraph.Joined B.AnyGraph.Joined f R }
{}

// A map of meshes that goes port by port, and takes no two junctions to one at short range, is a cover up to that range.
pub fn mesh_maps_cover<K: AnyGroup, B: AnyGroup>()
    ensures { (net : Net K.AnyGroup.Meaning) (under : Net B.AnyGroup.Meaning) (f : Junction K.AnyGroup.Meaning → Junction B.AnyGroup.Meaning) (R : ℕ) → MeshMap K.AnyGroup.group net B.AnyGroup.group under f → Apart (Link K.AnyGroup.group net) f R → Covers (Link K.AnyGroup.group net) (Link B.AnyGroup.group under) f R }
{}

// Such a map keeps distances up to r, and rings up to the length 2·r + 1 through any two ports, with their numbers, if it takes no two junctions to one within that length.
// Within 33 links that is all up to the radius 16.
pub fn mesh_maps_keep_rings<K: AnyGroup, B: AnyGroup>()
    ensures any { (net : Net K.AnyGroup.Meaning) (under : Net B.AnyGroup.Meaning) (f : Junction K.AnyGroup.Meaning → Junction B.AnyGroup.Meaning) (r : ℕ) → MeshMap K.AnyGroup.group net B.AnyGroup.group under f → Apart (Link K.AnyGroup.group net) f (2 * r + 1) → MeshCoverLaws K.AnyGroup.group net B.AnyGroup.group under f r }
    ensures sixteen { (net : Net K.AnyGroup.Meaning) (under : Net B.AnyGroup.Meaning) (f : Junction K.AnyGroup.Meaning → Junction B.AnyGroup.Meaning) → MeshMap K.AnyGroup.group net B.AnyGroup.group under f → Apart (Link K.AnyGroup.group net) f 33 → MeshCoverLaws K.AnyGroup.group net B.AnyGroup.group under f 16 }
{}

// A net over the wrapping translations whose numbers are from -b to b has up to the radius r the distances, shells and rings of the same net over the whole numbers, if b times 2·r + 1 is below 2³¹.
// With numbers from -500 to 500 it has them up to the radius 16.
pub fn translations_do_not_wrap()
    ensures any { (b r : ℕ) → b * (2 * r + 1) < 2 ^ 31 → (net : Net Triple) → SmallLabels b net → WholeLaws net r }
    ensures sixteen { (net : Net Triple) → SmallLabels 500 net → WholeLaws net 16 }
{}

// A translation that has a written form has numbers from -500 to 500.
pub fn written_translations_are_small()
    ensures { (t : Triple) (xs : List ℤ) → (triple_form triple_made).tells t ≡ Some xs → Small 500 t }
{}

// The net of the cubic lattice has numbers from -500 to 500; far away wrapping folds its mesh over the whole numbers: a walk joins two different junctions that wrap to one.
pub fn cubic_mesh_folds_far_away()
    ensures { CubicLaws }
{}
