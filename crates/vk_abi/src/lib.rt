//! All that goes into the packages of a plan, down to the leaves: the ABI text of each, which names
//! everything that its build is given. It promises upwards that a text is that of its build, and
//! that builds with one text are one build, where no two of their messages share a digest.
#![tactic(auto)]

pub mod laws;
mod plans;

pub use plans::{AbiPair, texts};
pub use vk_abi_text::{
    AbiFault, AbiInput, AbiSource, DepDigest, FileDigest, abi_hash, abi_text, read_abi,
};
