//! Checks a printed plan: whether a report is the one that the pages of a catalogue and a setting
//! have, and whether reasons show of themselves that they are what a project requires.
//! It promises upwards that it says yes exactly to the defined report, and else the first line at
//! which a report differs from it.
#![tactic(auto)]

mod certificates;
mod certifying;
mod checking;
mod claims;
mod comparing;
mod copies;
pub mod laws;
mod lines;
mod marks;
mod verdicts;

pub use certificates::certify;
pub use checking::check;
pub use comparing::compare;
pub use verdicts::Verdict;
