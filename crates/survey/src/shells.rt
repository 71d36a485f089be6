ghost use Rattle.std.specs.Prelude.{◌≡◌, ℕ, ◌≤◌, map};
ghost use Rattle.std.specs.List.{between};
ghost use Rattle.net.specs.Model.{line_of};
ghost use Rattle.growth.specs.Entry.{junctions};
ghost use Rattle.growth.specs.Surveyed.{targets};
ghost use Rattle.survey.specs.Found.{found};
ghost use Rattle.survey.specs.Stepping.{Stepped};

use crate::search::Exhausted;
use crate::shelling::Shelling;
use label::Label;
use net::Line;
use std::ops::Range;

impl<'a, L: Label> Shelling<'a, L> {
    // Notes where the ports of the shell's records lead, which the lines give them.
    pub(crate) fn note_shell(
        &mut self,
        lines: &[Line<L>],
        shell: Range<usize>,
    ) -> Result<(), Exhausted>
        requires { (shell.start ≤ shell.end) × (shell.end ≤ self.old.used) }
        ensures { (nodes : ℕ) → Stepped L.Label.order L.Label.stands self.old (targets L.Label.group (record { nodes = nodes; lines = map (line_of L.Label.stands) lines.now }) self.old.centre (junctions (between shell.start shell.end (found L.Label.stands self.old.used self.old.pool.now)))) result self.new }
    {
        // by place and not by item: noting writes the pool that the shell lies in
        for at in shell {
            let from = self.pool[at].junction;
            self.note_neighbours(lines, from)?;
        }
        Ok(())
    }
}
