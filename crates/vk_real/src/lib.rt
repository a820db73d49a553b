//! The host's files as a tree, and a stream as a sink. They tell nothing of what they hold or took:
//! what they promise upwards is that an error of the host is counted and answered as one, but for
//! those by which the host says that something isn't there, or is there already.
#![tactic(auto)]

mod changing;
mod files;
mod hosts;
mod looking;
mod streams;

pub use files::FileTree;
pub use streams::OutSink;
