ghost use Rattle.std.specs.Prelude.{ℕ, suc, ◌<◌, ◌≤◌};
ghost use Rattle.survey.specs.Marks.{mark_of};

use net::{Draft, MOST_NODES};

// The greatest radius.
pub(crate) const MOST_RADIUS: u32 = 16;

// A shell of each node ends where the next node's begins.
pub(crate) const MARKS: usize = MOST_NODES as usize + 1;

// The radii from 0 to the greatest.
pub(crate) const RADII: usize = MOST_RADIUS as usize + 1;

// Where the shells of one radius begin and end: the node v's lies between the marks v and v + 1.
pub(crate) type Row = [u32; MARKS];

// A net that is sealed, unfolded up to a radius into a pool that is lent at each call and had `room` records at sealing.
// The first `used` records are in use. The marks of each radius tell where its shells lie.
// no heap, fixed memory: the pool is lent and its records in use are counted, and there is a row of marks for each radius that may come.
#[derive(Drop)]
pub struct Survey {
    pub(crate) draft: Draft,
    pub(crate) radius: u32,
    pub(crate) used: usize,
    pub(crate) room: usize,
    pub(crate) marks: [Row; RADII],
    ghost small_radius: { radius ≤ 16 },
    ghost few_records: { room ≤ 65535 },
    ghost homes: { draft.nodes ≤ used },
    ghost in_room: { used ≤ room },
    ghost ascend: { (k v : ℕ) → k ≤ radius → v < draft.nodes → mark_of marks k v ≤ mark_of marks k (suc v) },
    ghost inside: { (k v : ℕ) → k ≤ radius → v ≤ draft.nodes → mark_of marks k v ≤ used },
}

// Where a round of growth has come to: the records in use, and the marks of the next radius.
#[derive(Drop)]
pub(crate) struct Frontier {
    pub(crate) used: usize,
    pub(crate) marks: Row,
}
