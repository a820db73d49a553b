//! The world outside: a tree of files and a sink of bytes, by what is known of each, and both in
//! memory. It promises upwards that a failure is told only where a count of faults may have
//! increased, and that a count that rose forces the answer which tells it.
#![tactic(auto)]

mod buffers;
mod file_maps;
mod listing;
mod mem_sinks;
mod mem_trees;
mod moving;
mod names;
mod sending;
mod sinks;
mod trees;

pub use mem_sinks::MemSink;
pub use mem_trees::MemTree;
pub use names::may_be_part;
pub use sending::{OutStop, send};
pub use sinks::{Sink, SinkFailed};
pub use trees::{Kind, ListFault, Listed, MoveFault, ReadFault, RemoveFault, Tree};
