//! Protocols: what is asked of a tree, as data; machines that make one's calls; and what running
//! one, alone or among others, leaves.
//! They promise upwards that a run is that of the protocol that a machine means.
#![tactic(auto)]

mod asking;
mod machines;

pub use asking::{
    ask_kind, ask_list, ask_piece, ask_read, ask_remove, ask_rename, ask_write, joined,
};
pub use machines::{Machine, run};
