//! Versions: four schemes of version texts, and the partial order on what they read.
//! It promises upwards that a text is a version exactly where its scheme's rule says so, and that
//! two versions compare exactly as the order says.
#![tactic(auto)]

mod asks;
mod cuts;
mod days;
mod faults;
pub mod laws;
mod number_lists;
mod numbers;
mod plains;
mod readers;
mod schemes;
mod tails;
mod versions;

pub use asks::{Ask, read_ask};
pub use faults::VersionFault;
pub use plains::{is_plain, is_version_string};
pub use readers::read;
pub use schemes::{Class, Scheme};
pub use versions::{Version, order};
