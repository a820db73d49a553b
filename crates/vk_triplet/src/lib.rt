//! Triplet files, and the marks that platform expressions ask for.
//! It promises upwards that a file is read exactly by its grammar, with the first line that has no
//! reading, and that the marks are those of the table.
#![tactic(auto)]

mod faults;
mod lines;
mod tables;
mod triplets;

pub use faults::TripletFault;
pub use lines::line_rule;
pub use tables::native_rule;
pub use triplets::{Triplet, Variable, read, triplet_rule, value_rule};
