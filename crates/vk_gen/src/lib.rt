//! The load of a size: a project in memory whose registry has so many ports, each of which asks
//! for the next one. It promises upwards that the tree holds exactly the files of the load, that
//! it was asked for nothing, and that no call of it is to fail.
#![tactic(auto)]

mod generating;
pub mod laws;
mod names;
mod paths;
mod texts;

pub use generating::generate;
