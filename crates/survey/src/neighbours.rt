ghost use Rattle.std.specs.Prelude.{◌≡◌, ◌==◌, map};
ghost use Rattle.mesh.specs.Ports.{line_ports, ports_of, ahead};
ghost use Rattle.mesh.specs.Target.{target};
ghost use Rattle.net.specs.Model.{line_of};
ghost use Rattle.growth.specs.Entry.{about};
ghost use Rattle.survey.specs.Leading.{led, one_if, back};
ghost use Rattle.survey.specs.Stepping.{Stepped};

use crate::records::Junction;
use crate::search::Exhausted;
use crate::shelling::Shelling;
use label::Label;
use net::Line;

// The line read from its head to its tail.
fn reversed<L: Label>(line: Line<L>) -> Line<L>
    ensures { line_of L.Label.stands result ≡ back L.Label.group (line_of L.Label.stands line) }
{
    Line {
        tail: line.head,
        head: line.tail,
        label: line.label.inverse(),
    }
}

impl<'a, L: Label> Shelling<'a, L> {
    // Notes the junction at the head of the line, if the line leaves from the junction.
    fn note_ahead(&mut self, from: Junction<L>, line: Line<L>) -> Result<(), Exhausted>
        ensures { Stepped L.Label.order L.Label.stands self.old (one_if (line.tail == from.node) (about self.old.centre (target L.Label.group (L.Label.stands from.label) (ahead (line_of L.Label.stands line))))) result self.new }
    {
        if line.tail != from.node {
            return Ok(());
        }
        self.note(Junction {
            node: line.head,
            label: from.label.product(line.label),
        })
    }

    // Notes where the ports lead that the line gives the junction: forward, then backward.
    fn note_line(&mut self, from: Junction<L>, line: Line<L>) -> Result<(), Exhausted>
        ensures { Stepped L.Label.order L.Label.stands self.old (led L.Label.group self.old.centre (L.Label.stands from.label) (line_ports L.Label.group from.node (line_of L.Label.stands line))) result self.new }
    {
        self.note_ahead(from, line)?;
        self.note_ahead(from, reversed(line))
    }

    // Notes where the ports of the junction lead, which the lines give it.
    pub(crate) fn note_neighbours(
        &mut self,
        lines: &[Line<L>],
        from: Junction<L>,
    ) -> Result<(), Exhausted>
        ensures { Stepped L.Label.order L.Label.stands self.old (led L.Label.group self.old.centre (L.Label.stands from.label) (ports_of L.Label.group from.node (map (line_of L.Label.stands) lines.now))) result self.new }
    {
        for line in lines {
            self.note_line(from, *line)?;
        }
        Ok(())
    }
}
