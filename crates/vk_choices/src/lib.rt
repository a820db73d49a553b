//! The choices of a project: a version for each port that it requires. It promises upwards that
//! each is the version that an overlay or an override gives, else the least one that meets all
//! floors, and that conflicts are told exactly where a port has none.
#![tactic(auto)]

mod asks;
mod choosing;
mod chosen;
mod floors;
mod settling;
mod tops;

pub use choosing::choose;
pub use chosen::{Choice, Choices, ChooseFault};
