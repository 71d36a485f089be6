ghost use Rattle.std.specs.Prelude.{◌≤◌, length};

use net::Draft;

// The bytes of a sheet, and how many of them are read. A fault tells its place, so the rest of the bytes alone would not do.
#[derive(Drop)]
pub(crate) struct Reader<'a> {
    pub(crate) bytes: &'a [u8],
    pub(crate) place: usize,
    ghost within: { place ≤ length bytes.now },
}

// What a sheet's heading says: a draft with its nodes, and how many lines are to come.
#[derive(Drop)]
pub(crate) struct Heading {
    pub draft: Draft,
    pub lines: u32,
}
