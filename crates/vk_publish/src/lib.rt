//! How an entry comes into a cache, and how a damaged one leaves it: in a folder of the agent's own,
//! which one rename moves.
//! It promises upwards that an entry's path has at every call what it had or the whole entry, and
//! that all else stays but one new name of the agent.
#![tactic(auto)]

mod answers;
mod asides;
mod jobs;
pub mod laws;
mod names;
mod publishing;

pub use answers::{Moved, Published};
pub use asides::{Aside, AsideNow, aside_step, set_aside};
pub use jobs::{PublishJob, Target};
pub use publishing::{PublishNow, Publishing, publish, publish_step};
