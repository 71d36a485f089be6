// The shells of the reference meshes, counted by a search that is proved to find them.
// The functions here compute nothing: the contract of each is a theorem.
#![tactic(auto)]

ghost use Rattle.mesh.specs.Net.{Net};
ghost use Rattle.reference_shells.specs.BreadthFirstLaws.{BreadthFirstLaws};
ghost use Rattle.reference_shells.specs.ReferenceLaws.{ReferenceLaws};

use mesh::AnyOrdered;

// Over any group with a total order, the lists of a search breadth first from the home of a node are exactly its shells and its balls, each junction once.
pub fn breadth_first_finds_shells<K: AnyOrdered>()
    ensures { (net : Net K.AnyOrdered.Meaning) → BreadthFirstLaws K.AnyOrdered.group K.AnyOrdered.order net }
{}

// The coordination sequences of the square mesh, the diamond mesh, the fourfold screw mesh and the closed mesh, as far as they are told.
pub fn reference_shells_counted()
    ensures { ReferenceLaws }
{}
