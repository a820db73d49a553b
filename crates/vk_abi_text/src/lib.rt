//! The ABI text of one package: all that goes into its build, a line each, written and read back.
//! It promises upwards that a text is that of its input, and that right inputs with one text are
//! one build.
#![tactic(auto)]

mod gathering;
mod inputs;
mod kinds;
pub mod laws;
mod leaves;
mod lines;
mod readers;
mod values;
mod writing;

pub use inputs::{AbiInput, AbiSource, DepDigest};
pub use readers::{AbiFault, read_abi};
pub use vk_folder::FileDigest;
pub use writing::{abi_hash, abi_text};
