//! A look at an entry of a cache: what it answers by the files that stand there, and the calls by
//! which it is found.
//! It promises upwards that what these calls come to is that answer, whatever stands there, and
//! that they only read, at the entry and below it.
#![tactic(auto)]

mod answers;
pub mod laws;

pub use answers::{Harm, Look};
