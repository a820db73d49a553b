//! The walk of a folder of a tree, as a protocol, as a machine that makes its calls, and as a call.
//! It promises upwards that a walk comes to the files below the folder, each once, or to the first
//! limit that they pass.
#![tactic(auto)]

mod laws;
mod walking;
mod walks;

pub use laws::{a_walk_only_lists, a_walk_tells_the_files};
pub use walking::{WalkFault, in_order_of_texts, seen_from, walk};
pub use walks::{Walk, WalkLimit, found_by};
