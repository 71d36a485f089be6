// A side of a record in a search tree.
#[derive(Clone, Copy, PartialEq, Eq, Debug)]
pub(crate) enum Side {
    Lesser,
    Greater,
}

// Where a record is missing from a search tree: under `under`, at that side.
#[derive(Clone, Copy, PartialEq, Eq, Debug)]
pub(crate) struct Place {
    pub(crate) under: usize,
    pub(crate) side: Side,
}

// How a search goes on from a record. Its three ends have names: `ControlFlow<Result<usize, Place>, usize>` would say no more.
#[derive(Clone, Copy, PartialEq, Eq, Debug)]
pub(crate) enum Turn {
    // the record has what is searched for
    Here,
    // on to another record
    On(usize),
    // no further, at that side of the record
    Stop(Side),
}

// Every record of the pool is in use, and one more is wanted.
#[derive(Clone, Copy, PartialEq, Eq, Debug)]
pub(crate) struct Exhausted;
