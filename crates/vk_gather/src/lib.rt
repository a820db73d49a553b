//! The files of a folder of a tree with their bytes, as a protocol: what is asked, one call after the
//! other; and as a machine that makes its calls.
//! It promises upwards that these calls only read, in the folder and below it, that over files that
//! stay they come to all files below it, or to the first limit that is passed, and that each step of
//! the machine makes exactly the call that is asked next.
#![tactic(auto)]

mod files;
mod gathering;
pub mod laws;
mod left;
mod seen;
mod walked;

pub use gathering::{Gathering, gathered_by};
