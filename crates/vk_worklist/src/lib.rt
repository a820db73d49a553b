//! All that a project requires, each fact with its cause: a worklist, level by level, over whatever
//! tells what facts bring up.
//! It promises upwards the least list in its order, or that there are more facts than may be.
#![tactic(auto)]

mod askers;
mod closing;
mod faults;
mod joined_sources;
mod levels;
mod notes;
mod orders;
mod places;
mod rows;
mod sources;
mod visits;

pub use askers::Asker;
pub use closing::close_from;
pub use faults::CloseFault;
pub use joined_sources::Joins;
pub use places::{place_of, value_at};
pub use sources::Source;
