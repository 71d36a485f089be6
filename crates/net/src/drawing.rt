ghost use Rattle.net.specs.Clauses.{OpenClause, LineClause, BackClause, PortsClause};

use crate::drafts::Draft;
use crate::ports::port_count;
use crate::records::Line;
use crate::refusals::NetRefusal;
use label::Label;

// The most nodes that a net has.
pub const MOST_NODES: u32 = 24;

impl Draft {
    // A net of that many nodes without lines, over a list that is lent again at each call. Writes nothing.
    pub fn open<L: Label>(nodes: u32, list: &[Line<L>]) -> Result<Draft, NetRefusal>
        ensures { OpenClause L.Label.group L.Label.stands nodes list.now result }
    {
        if nodes < 1 || nodes > MOST_NODES {
            return Err(NetRefusal::NodesOutOfRange);
        }
        Ok(Draft {
            nodes,
            lines: 0,
            room: list.len(),
        })
    }

    // Draws one more line, the last.
    pub fn line<L: Label>(&mut self, list: &mut [Line<L>], line: Line<L>) -> Result<(), NetRefusal>
        ensures { LineClause L.Label.group L.Label.stands self.old list.old line result self.new list.new }
    {
        self.allows(list, line)?;
        list[self.lines] = line;
        self.lines += 1;
        Ok(())
    }

    // Takes the last line back. Writes nothing.
    pub fn take_back<L: Label>(&mut self, list: &[Line<L>]) -> Result<(), NetRefusal>
        ensures { BackClause L.Label.group L.Label.stands self.old list.now result self.new }
    {
        self.drawn(list)?;
        if self.lines == 0 {
            return Err(NetRefusal::NoLine);
        }
        self.lines -= 1;
        Ok(())
    }

    // How many ports the node has.
    pub fn ports<L: Label>(&self, list: &[Line<L>], node: u32) -> Result<usize, NetRefusal>
        ensures { PortsClause L.Label.group L.Label.stands self.now list.now node result }
    {
        let lines = self.drawn(list)?;
        if node >= self.nodes {
            return Err(NetRefusal::NoSuchNode);
        }
        Ok(port_count(lines, node))
    }
}
