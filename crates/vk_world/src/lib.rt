//! The world that a plan is made from: what the files of a project say of each port, read as it is
//! asked for. It promises upwards that each answer is what the files say, that no file is read
//! twice, and that each path that is looked at is one of those that some port's page asks for.
#![tactic(auto)]

mod answering;
mod homes;
mod libraries;
mod listed;
mod manifests;
mod port_asks;
mod row_manifests;
mod settling;
mod worlds;

pub use worlds::{Parts, Readings, World};
