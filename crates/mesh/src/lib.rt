// The mesh that a net unfolds into, the derived graph of a voltage graph: its definitions, and what is proved of it.
// The functions here compute nothing: the contract of each is a theorem.
// A contract cannot speak of all types, so a theorem on every graph or every group is generic over a trait of ghost members alone.
#![tactic(auto)]

ghost use Rattle.std.specs.Prelude.{ℕ};
ghost use Rattle.label.specs.Group.{Group};
ghost use Rattle.label.specs.Order.{Order};
ghost use Rattle.mesh.specs.Net.{Net};
ghost use Rattle.mesh.specs.Link.{Link};
ghost use Rattle.mesh.specs.Shell.{Shell, Ball};
ghost use Rattle.mesh.specs.Drawn.{Drawn};
ghost use Rattle.mesh.specs.WalkLaws.{Symmetric, WalkLaws, DistanceLaws};
ghost use Rattle.mesh.specs.StepLaws.{StepLaws};
ghost use Rattle.mesh.specs.CountLaws.{CountLaws};
ghost use Rattle.mesh.specs.Carried.{Carried};
ghost use Rattle.mesh.specs.Ported.{Ported};
ghost use Rattle.mesh.specs.DrawnLaws.{DrawnLaws};
ghost use Rattle.mesh.specs.ShellLaws.{ShellLaws, FiniteLaws};

// Any graph whose links go both ways.
pub trait AnyGraph {
    ghost Place: { Type 0 };

    ghost Joined: { Place → Place → Type 0 };

    ghost symmetric: { Symmetric Joined };
}

// Any property of things.
pub trait AnyProperty {
    ghost Thing: { Type 0 };

    ghost Holds: { Thing → Type 0 };
}

// Any group.
pub trait AnyGroup {
    ghost Meaning: { Type 0 };

    ghost group: { Group Meaning };
}

// Any group with a total order, which decides what is equal.
// It repeats the group: under `AnyOrdered: AnyGroup` the order's type would name a member of the bound, and with no function here it would be a law, which no clause can cite.
pub trait AnyOrdered {
    ghost Meaning: { Type 0 };

    ghost group: { Group Meaning };

    ghost order: { Order Meaning };
}

// In any graph a walk read backward is a walk, two walks one after the other are a walk, and a walk splits after any number of its links.
pub fn walks_reverse_join_split<K: AnyGraph>()
    ensures { WalkLaws K.AnyGraph.Joined }
{}

// In any graph the distance is a metric, and the length of a shortest walk.
pub fn distance_is_a_metric<K: AnyGraph>()
    ensures { DistanceLaws K.AnyGraph.Joined }
{}

// In any graph what is k + 1 away is what is linked to something k away and is not within k; a link changes a distance by at most 1.
pub fn next_distance<K: AnyGraph>()
    ensures { StepLaws K.AnyGraph.Joined }
{}

// The things with a property have one number; a list of some of them without repetition is no longer, and if it is as long it has them all.
pub fn counting<K: AnyProperty>()
    ensures { CountLaws K.AnyProperty.Holds }
{}

// The links of a mesh go both ways.
pub fn links_are_symmetric<K: AnyGroup>()
    ensures { (net : Net K.AnyGroup.Meaning) → Symmetric (Link K.AnyGroup.group net) }
{}

// The walks of a mesh reverse, join and split: `walks_reverse_join_split` said of the links of a mesh.
pub fn mesh_walks_reverse_join_split<K: AnyGroup>()
    ensures { (net : Net K.AnyGroup.Meaning) → WalkLaws (Link K.AnyGroup.group net) }
{}

// The distance of a mesh is a metric: `distance_is_a_metric` said of the links of a mesh.
pub fn mesh_distance_is_a_metric<K: AnyGroup>()
    ensures { (net : Net K.AnyGroup.Meaning) → DistanceLaws (Link K.AnyGroup.group net) }
{}

// Multiplication on the left keeps links, distances, and how many junctions are at each distance.
// So the distance of (u, h) and (w, g) is that of the home of u and (w, h⁻¹·g), and what is counted round a home is counted round every junction.
pub fn distances_are_carried<K: AnyGroup>()
    ensures { (net : Net K.AnyGroup.Meaning) → Carried K.AnyGroup.group net }
{}

// The links of a junction are the ports of its node, and each port has a port back.
pub fn ports_are_the_links<K: AnyGroup>()
    ensures { (net : Net K.AnyGroup.Meaning) → Ported K.AnyGroup.group net }
{}

// In a drawn net the ports of a node differ and lead to different junctions, none of them the junction itself: the mesh is a simple graph.
// Its degrees are the numbers of ports, at most 12.
pub fn drawn_ports_differ<K: AnyGroup>()
    ensures { (net : Net K.AnyGroup.Meaning) → Drawn K.AnyGroup.group net → DrawnLaws K.AnyGroup.group net }
{}

// The next shell is what is linked to the shell and is not in the ball; the ball and the next shell add up to the next ball.
pub fn next_shell<K: AnyGroup>()
    ensures { (net : Net K.AnyGroup.Meaning) → ShellLaws K.AnyGroup.group net }
{}

// Shells and balls are counted by lists without repetition.
pub fn counting_shells<K: AnyGroup>()
    ensures { (net : Net K.AnyGroup.Meaning) (v k : ℕ) → CountLaws (Shell K.AnyGroup.group net v k) × CountLaws (Ball K.AnyGroup.group net v k) }
{}

// Where an order decides which labels are equal, each shell and each ball is finite, and it is decided what is in it.
pub fn balls_are_finite<K: AnyOrdered>()
    ensures { (net : Net K.AnyOrdered.Meaning) → FiniteLaws K.AnyOrdered.group net }
{}
