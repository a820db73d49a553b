//! Reads a report back: the outcome that it was printed of, or the first line that isn't wanted
//! where it stands. Each line is read by a form, which says how values are printed.
//! It promises upwards that a line is read exactly where a right value is printed so.
#![tactic(auto)]

mod advances;
mod causes;
mod cycles;
mod earlies;
mod faults;
mod items;
pub mod laws;
mod reasons;
mod reports;

pub use causes::{FloorCause, NeedCause, VisitCause};
pub use earlies::AnyEarly;
pub use faults::AnyFault;
pub use items::AnyItem;
pub use reasons::AnyReason;
pub use reports::{ReportFault, read_report};
