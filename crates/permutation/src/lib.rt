// Permutations of the points 0 to 7 as a kind of labels.
#![tactic(auto)]

mod images;
mod kind;
mod operations;
mod packed;

pub use packed::{PackedNumber, PackedPermutation};
