//! A look at an entry of a cache, one call at a time, and all its calls at once.
//! It promises upwards that each step makes exactly the call that a look asks next, and that the
//! answer is what the files say, whatever stands there.
#![tactic(auto)]

mod compared;
mod files;
mod left;
mod lists;
mod looking;
mod looks;
mod texts;
mod walks;

pub use left::{FilesLeft, Left, Lines};
pub use looking::{LookFor, LookNow, Looking};
pub use looks::look;
