//! The closure of a project: its least list of facts in order, each with its cause, and what is
//! wrong with the files that they need. It promises upwards that the answer is the one that the
//! pages of the catalogue and the setting give, and that the catalogue is only asked.
#![tactic(auto)]

mod closures;
mod floors;
mod known;
mod names;
mod page_askers;
mod pins;
mod ports;
pub mod projects;
mod roots;
mod steps;

pub use closures::{close, source_of};
pub use page_askers::PageAsker;
pub use roots::root_facts;
pub use vk_worklist::CloseFault;
