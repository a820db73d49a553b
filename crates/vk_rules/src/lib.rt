//! What a feature of one manifest asks for, and what is wrong with one that is needed: the rules of
//! resolution that look at a single manifest.
//! It promises upwards that the answers are the whole lists of the definitions, in their order.
#![tactic(auto)]

mod asking;
mod flaws;
mod setting_rules;

pub use flaws::Flaw;
pub use setting_rules::{Rules, consequences};
