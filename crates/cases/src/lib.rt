// Examples of sheets, read, written and shown: they are the tests of this crate.
#![tactic(auto)]

#[cfg(test)]
mod blanks;
#[cfg(test)]
mod refusals;
#[cfg(test)]
mod texts;
#[cfg(test)]
mod writing;
