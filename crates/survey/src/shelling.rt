ghost use Rattle.std.specs.Prelude.{◌<◌, ◌≤◌, length};

use crate::records::Record;

// The next shell of a node as it is noted into the pool: `used` records are in use, and what is new is noted about the centre at the distance.
// no heap, fixed memory: the pool is lent, and its records in use are counted.
#[derive(Drop)]
pub(crate) struct Shelling<'a, L> {
    pub(crate) pool: &'a mut [Record<L>],
    pub(crate) used: usize,
    pub(crate) centre: u32,
    pub(crate) distance: u32,
    ghost homed: { centre < used },
    ghost in_room: { used ≤ length pool.now },
    ghost few_records: { length pool.now ≤ 65535 },
}
