ghost use Rattle.std.specs.Prelude.{◌≡◌};
ghost use Rattle.mesh.specs.Junction as mesh;
ghost use Rattle.mesh.specs.JunctionOrder.{junction_order};
ghost use Rattle.survey.specs.Found.{junction_of};

use crate::records::{Junction, Record};
use label::Label;
use least::Ranked;
use std::cmp::Ordering;

// How two junctions compare: by node, then by label. Written by hand: labels compare in the order of their kind, which no derive takes.
pub(crate) fn junctions_compared<L: Label>(a: Junction<L>, b: Junction<L>) -> Ordering
    ensures { result ≡ (junction_order L.Label.order).cmp (junction_of L.Label.stands a) (junction_of L.Label.stands b) }
{
    a.node.cmp(&b.node).then(a.label.compare(b.label))
}

// Records are ranked by their junctions.
impl<L: Label> Ranked for Record<L> {
    ghost Rank = { mesh.Junction L.Label.Meaning };

    ghost order = { junction_order L.Label.order };

    ghost rank = { λ r. junction_of L.Label.stands r.junction };

    fn compare_rank(self, other: Record<L>) -> Ordering {
        junctions_compared(self.junction, other.junction)
    }
}
