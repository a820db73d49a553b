//! A tree and what was read of it, as one archive: what stands at a path is found once and kept,
//! and readers say what it means. It promises upwards that an answer is what the files say, and
//! that no path is read twice.
#![tactic(auto)]

mod archives;
mod bad_files;
mod caches;
mod found;
mod readers;
mod rooms;

pub use archives::{Archive, Parts};
pub use bad_files::{BadFile, TellsBadFile};
pub use caches::{FileCache, MOST_BYTES};
pub use found::{FileBytes, Found};
pub use readers::{FileReader, Standing};
