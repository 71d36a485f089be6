// Surveys: the mesh of a sealed net, unfolded shell by shell into a lent pool.
#![tactic(auto)]

mod asking;
mod found;
mod growing;
mod neighbours;
mod notes;
mod ranks;
mod records;
mod refusals;
mod sealing;
mod search;
mod shelling;
mod shells;
mod surveys;

pub use records::{Junction, Record};
pub use refusals::SurveyRefusal;
pub use surveys::Survey;
