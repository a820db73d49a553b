//! Platform expressions: which platforms a condition of a manifest speaks of.
//! It promises upwards that a text is read exactly by the grammar, with its first fault otherwise,
//! and that truth is what the expression says of the marks.
#![tactic(auto)]

mod exprs;
mod faults;
mod frames;
mod laws;
mod marks;
mod printing;
mod reader;
mod tokens;
mod truths;

pub use exprs::Expr;
pub use faults::ExprFault;
pub use laws::{fault_place, one_reading, print_again, reading_or_fault};
pub use marks::Marks;
pub use printing::print;
pub use reader::read;
pub use truths::truth;
