//! The making of a plan's packages on a cache, one call at a time, alone or beside others.
//! It promises upwards that each step makes exactly the call that is asked next, and that installers
//! that take turns keep a cache whole and have the packages that are meant.
#![tactic(auto)]

mod items;
mod makings;
mod plays;
mod stocks;
mod tasks;

pub use makings::{Making, Stage};
pub use plays::play;
pub use tasks::Task;
