//! The making of a plan's packages on a cache, by one installer or by several at once, as a protocol.
//! It promises upwards that several installers keep a cache whole and have the packages that their
//! plans mean, whatever the turns of their calls.
#![tactic(auto)]

mod answers;
pub mod laws;

pub use answers::{MakeEnd, MakeItems, Mark};
