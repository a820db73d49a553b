//! Fault lines in the order in which they are printed. It promises upwards that the order is that
//! of their bytes, each line once.
#![tactic(auto)]

mod sorting;

pub use sorting::sorted;
