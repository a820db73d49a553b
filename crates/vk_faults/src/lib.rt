//! What is wrong with the files that the facts of a plan need. It promises upwards that these are
//! the lines of the first phase, each with the first reason that meets it, and that finding them
//! only asks.
#![tactic(auto)]

mod asks;
mod firsts;
mod keys;
mod notes;
mod troubles;

pub use firsts::first_faults;
