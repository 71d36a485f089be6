// How a number of a written label is stored: signed, or as the image that it is.
#[derive(Clone, Copy, PartialEq, Eq, Debug)]
pub enum Storage {
    Signed,
    Image,
}

// One number of a written label: how it is stored, and its range, both ends included.
#[derive(Clone, Copy, PartialEq, Eq, Debug)]
pub struct Slot {
    pub storage: Storage,
    pub least: i32,
    pub most: i32,
}
