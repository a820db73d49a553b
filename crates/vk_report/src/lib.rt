//! The report of what a project comes to, as bytes.
//! It promises upwards that the bytes are those of the defined report.
#![tactic(auto)]

mod reports;

pub use reports::report_bytes;
