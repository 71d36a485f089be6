ghost use Rattle.std.specs.Prelude.{◌≡◌, ℕ, ◌<◌, ◌≤◌, ◌⊎◌, List, map, length, take, MatchBool, MatchResult, OnOk, ◌≢◌};
ghost use Rattle.mesh.specs.Net.{Net};
ghost use Rattle.net.specs.Model.{line_of, net_of};
ghost use Rattle.net.specs.Rules.{LineBreaks, line_rules, node_rules, loop_rules, port_rules};
ghost use Rattle.net.specs.Verdict.{Judged};
ghost use Rattle.net.specs.declared.refusals.NetRefusal.TheVariants.{OtherLength};

use crate::drafts::Draft;
use crate::ports::{port_count, port_taken, ports_given, same};
use crate::records::Line;
use crate::refusals::NetRefusal;
use label::Label;

// The most lines that a net has.
pub const MOST_LINES: usize = 96;

// The most ports that a node has.
const MOST_PORTS: usize = 12;

// Whether a list with so many records has none for one more line.
fn full(lines: usize, room: usize) -> bool
    ensures { MatchBool result ((room ≤ lines) ⊎ (96 ≤ lines)) ((lines < room) × (lines < 96)) }
{
    lines >= room || lines >= MOST_LINES
}

// Whether a node may not have so many ports.
fn too_many(ports: usize) -> bool
    ensures { MatchBool result (12 < ports) (ports ≤ 12) }
{
    ports > MOST_PORTS
}

// Whether the label may stand on a line, where the line is a loop.
fn loop_allowed<L: Label>(line: Line<L>) -> Result<(), NetRefusal>
    ensures { (net : Net L.Label.Meaning) (room lent : ℕ) → Judged (LineBreaks L.Label.group net room lent (line_of L.Label.stands line)) loop_rules result }
{
    if line.tail == line.head {
        if same(line.label, L::identity()) {
            return Err(NetRefusal::IdentityLoop);
        }
        if same(line.label, line.label.inverse()) {
            return Err(NetRefusal::InvolutionLoop);
        }
    }
    Ok(())
}

// Whether the line's ports are new after the lines, and its ends have room for them.
fn ports_allowed<L: Label>(lines: &[Line<L>], line: Line<L>) -> Result<(), NetRefusal>
    requires { length lines.now ≤ 96 }
    ensures { (nodes room lent : ℕ) → Judged (LineBreaks L.Label.group (record { nodes = nodes; lines = map (line_of L.Label.stands) lines.now }) room lent (line_of L.Label.stands line)) port_rules result }
{
    if port_taken(lines, line) {
        return Err(NetRefusal::PortTaken);
    }
    let at_tail = port_count(lines, line.tail) + ports_given(line, line.tail);
    let at_head = port_count(lines, line.head) + ports_given(line, line.head);
    if too_many(at_tail) || too_many(at_head) {
        return Err(NetRefusal::PortsFull);
    }
    Ok(())
}

impl Draft {
    // The lines drawn so far, which are the first records of the list.
    pub fn drawn<'a, L>(&self, list: &'a [Line<L>]) -> Result<&'a [Line<L>], NetRefusal>
        ensures { MatchResult result (λ lines. (length list.now ≡ self.now.room) × (lines.now ≡ take self.now.lines list.now) × (length lines.now ≤ 96)) (λ e. (e ≡ OtherLength) × (length list.now ≢ self.now.room)) }
    {
        if list.len() != self.room {
            return Err(NetRefusal::OtherLength);
        }
        Ok(&list[..self.lines])
    }

    // Whether the line's ends are nodes, and the list has a record for it.
    fn has_place<L: Label>(&self, line: Line<L>) -> Result<(), NetRefusal>
        ensures { (list : List (Line L)) → length list ≡ self.now.room → Judged (LineBreaks L.Label.group (net_of L.Label.stands self.now list) self.now.room (length list) (line_of L.Label.stands line)) node_rules result }
    {
        if line.tail >= self.nodes || line.head >= self.nodes {
            return Err(NetRefusal::NoSuchNode);
        }
        if full(self.lines, self.room) {
            return Err(NetRefusal::ListFull);
        }
        Ok(())
    }

    // Whether the line may be drawn; there is a record for it then.
    pub(crate) fn allows<L: Label>(&self, list: &[Line<L>], line: Line<L>) -> Result<(), NetRefusal>
        ensures room { OnOk result (self.now.lines < length list.now) }
        ensures verdict { Judged (LineBreaks L.Label.group (net_of L.Label.stands self.now list.now) self.now.room (length list.now) (line_of L.Label.stands line)) line_rules result }
    {
        let lines = self.drawn(list)?;
        self.has_place(line)?;
        loop_allowed(line)?;
        ports_allowed(lines, line)
    }
}
