// The least entry of a lent slice above a given one, and with it the entries in the order of their ranks, each rank once.
#![tactic(auto)]

mod ranks;
mod search;
#[cfg(test)]
mod tests;

pub use ranks::Ranked;
pub use search::{least_above, nth_least};
