// Label kinds: a group and a total order behind every stored label, and a written form.
#![tactic(auto)]

mod kind;
mod pairs;
mod refusals;
mod written;

pub use kind::Label;
pub use pairs::{MOST_NUMBERS, Pair};
pub use refusals::{LabelFault, NoWrittenForm};
pub use written::{Slot, Storage};
