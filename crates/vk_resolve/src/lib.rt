//! What a project comes to over any catalogue: its plan, or the faults that stand, with the
//! reasons. It promises upwards that this is the outcome that the pages and the setting have, and
//! that there is none exactly where the project requires too many facts.
#![tactic(auto)]

mod decisions;
pub mod laws;
mod resolving;

pub use resolving::resolve;
