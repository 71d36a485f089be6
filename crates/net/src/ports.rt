ghost use Rattle.std.specs.Prelude.{◌≡◌, ◌*◌, ◌≤◌, map, length};
ghost use Rattle.std.specs.Bool.{Decides};
ghost use Rattle.mesh.specs.Drawn.{PortTaken};
ghost use Rattle.mesh.specs.Listed.{In};
ghost use Rattle.mesh.specs.Ports.{line_ports, ports_of, ahead};
ghost use Rattle.net.specs.Model.{line_of};

use crate::records::Line;
use label::Label;

// Whether two labels are the same, by their kind's own order: several stored labels may stand for one element, so none derives equality.
pub(crate) fn same<L: Label>(a: L, b: L) -> bool
    ensures { Decides result (L.Label.stands a ≡ L.Label.stands b) }
{
    a.compare(b).is_eq()
}

// How many ports the line gives the node: a loop gives two.
pub(crate) fn ports_given<L: Label>(line: Line<L>, node: u32) -> usize
    ensures value { result ≡ length (line_ports L.Label.group node (line_of L.Label.stands line)) }
    ensures upper_bound { result ≤ 2 }
{
    usize::from(line.tail == node) + usize::from(line.head == node)
}

// How many ports the lines give the node. By an index over the slice, by a rule of the project (docs/DECISIONS.md).
pub(crate) fn port_count<L: Label>(lines: &[Line<L>], node: u32) -> usize
    ensures value { result ≡ length (ports_of L.Label.group node (map (line_of L.Label.stands) lines.now)) }
    ensures upper_bound { result ≤ 2 * length lines.now }
{
    let mut count = 0;
    for i in 0..lines.len() {
        count += ports_given(lines[i], node);
    }
    count
}

// Whether a line that stands has the forward port of the new line: forward itself, or backward.
fn repeats<L: Label>(old: Line<L>, line: Line<L>) -> bool
    ensures { Decides result (In (ahead (line_of L.Label.stands line)) (line_ports L.Label.group line.tail (line_of L.Label.stands old))) }
{
    let ahead = old.tail == line.tail && old.head == line.head && same(line.label, old.label);
    let back = old.head == line.tail
        && old.tail == line.head
        && same(line.label, old.label.inverse());
    ahead || back
}

// Whether the tail of the line has a port to the same head with the same label.
pub(crate) fn port_taken<L: Label>(lines: &[Line<L>], line: Line<L>) -> bool
    ensures { Decides result (PortTaken L.Label.group (map (line_of L.Label.stands) lines.now) (line_of L.Label.stands line)) }
{
    lines.iter().any(|old| repeats(*old, line))
}
