//! The words of the command line: which command they ask for, with every option and default, or the
//! first fault of the words.
//! It promises upwards that words have one meaning, the one that the table of options gives.
#![tactic(auto)]

mod arguments;
mod commands;
mod faults;
pub mod laws;
mod options;
mod values;

pub use commands::{Command, read_words};
pub use faults::{Opt, WordFault, fault_text};
