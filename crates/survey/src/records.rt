ghost use Rattle.std.specs.Prelude.{◌≡◌};
ghost use Rattle.survey.specs.Found.{unlinked_record};

// A junction of the mesh: a node with a label.
#[derive(Clone, Copy)]
pub struct Junction<L> {
    pub node: u32,
    pub label: L,
}

// A record of a pool: one junction as it was found about the home of its centre, and its distance from there.
// `below` and `above` are the records at which a search goes on to a lesser and to a greater junction.
// The junction comes first: fields lie in the order of the source, and after one number of 32 bits a label of 64 would leave a gap.
// no heap: a link is a place in the pool. It is a plain number and no Option: a lent record may hold anything, so a link is judged by its place, and 0 is never later than its record.
#[derive(Clone, Copy)]
pub struct Record<L> {
    pub junction: Junction<L>,
    pub centre: u32,
    pub distance: u32,
    pub below: u32,
    pub above: u32,
}

impl<L> Record<L> {
    // The junction as it is found about the centre at the distance, with no links.
    pub(crate) fn unlinked(centre: u32, junction: Junction<L>, distance: u32) -> Record<L>
        ensures { result ≡ unlinked_record centre junction distance }
    {
        Record {
            centre,
            junction,
            distance,
            below: 0,
            above: 0,
        }
    }
}
