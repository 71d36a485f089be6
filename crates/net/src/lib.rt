// Nets: drawing a voltage graph line by line into a lent list.
#![tactic(auto)]

mod counts;
mod drafts;
mod drawing;
mod ports;
mod records;
mod refusals;
mod rules;

pub use drafts::Draft;
pub use drawing::MOST_NODES;
pub use records::Line;
pub use refusals::NetRefusal;
pub use rules::MOST_LINES;
