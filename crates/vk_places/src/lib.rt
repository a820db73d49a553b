//! Where a cache has what: its entries by the digests of their texts, the parts of an entry, and
//! the folders of an agent in which packages are made, or damaged ones set aside.
//! It promises upwards that a path is the one that the layout has for it.
#![tactic(auto)]

mod agents;
mod entries;
mod paths;

pub use agents::{agent_folder, damaged_folder, damaged_in, tmp_folder, tmp_in};
pub use entries::{contents_in, entry_in, file_in, text_in};
