//! What the chosen versions alone require. It promises upwards that the needs are exactly those
//! that are planned, and which of them asks for which.
#![tactic(auto)]

mod bases;
mod expansions;
mod links;
mod manifests;
mod planning;
mod roots;

pub use planning::{Planned, plan_needs};
