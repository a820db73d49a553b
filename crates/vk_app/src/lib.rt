//! The top call: from the words and a tree of files to the status and the bytes on both sinks.
//! It promises that status and bytes are the answer of words and files, and names the cause of
//! every other end.
#![tactic(auto)]

mod abi_texts;
mod checks;
mod endings;
mod ends;
pub mod laws;
mod loads;
mod requests;
mod runs;
mod tasks;

pub use runs::{Ran, Spent, run};
