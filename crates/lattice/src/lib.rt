// Labels made of three wrapping coordinates: translations and fourfold screws.
#![tactic(auto)]

mod plane;
mod screws;
mod translations;
mod triples;

pub use screws::Screw;
pub use translations::Translation;
