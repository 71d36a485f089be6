// Whole runs: lists of calls on a net, and what every survey has that calls reach.
#![tactic(auto)]

mod driver;
mod state;
mod theorems;

pub use driver::play;
pub use state::{Call, State};
pub use theorems::{findings_hold, runs_have_one_end};
