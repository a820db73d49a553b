//! The files of a registry: the baseline file, and a port's versions file; where they stand, and
//! whether a manifest says what its row says. They promise upwards that each file is the value that
//! its definition gives, or the first fault with its place, that a look-up finds exactly what the
//! file says, and that the first field in which a manifest disagrees is told.
#![tactic(auto)]

mod agreement;
mod baselines;
mod folders;
mod laws;
mod paths;
mod tables;

pub use agreement::{agree, named, stated_version};
pub use baselines::{
    Baseline, BaselineEntry, baseline_in, baseline_of, baseline_rule, read_baseline,
};
pub use laws::fault_places;
pub use paths::{baseline_path, port_folder, table_path};
pub use tables::{Row, Table, find, read_table, table_in, table_rule};
