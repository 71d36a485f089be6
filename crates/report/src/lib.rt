// What the companion program prints of sheets and nets, as text.
#![tactic(auto)]

mod hex;
mod lines;
mod saying;
mod shown;
mod shown_kinds;

pub use hex::hex_bytes;
pub use lines::{again_text, line_text, nodes_text, ports_text, sheet_text};
pub use saying::show;
pub use sheet::words;
pub use shown::NotShown;
pub use shown_kinds::ShownKind;
