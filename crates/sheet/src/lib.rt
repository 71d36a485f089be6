// Sheets: nets as bytes.
#![tactic(auto)]

mod codes;
mod faults;
mod headings;
mod kinds;
mod labels;
mod lengths;
mod lines;
mod numbers;
mod reader;
mod reading;
mod refusals;
mod theorems;
mod wording;
mod writing;

pub use faults::{BytesFault, Layer, Placed, SheetFault};
pub use kinds::SheetKind;
pub use reading::read;
pub use refusals::WriteRefusal;
pub use theorems::sheets_round_trip;
pub use wording::words;
pub use writing::write;
