//! The early files of a project: its manifest, its configuration, its triplets, its overlays and
//! the places of its store, read in their order, or the first early line. It promises upwards that
//! the answer is what the files say, and that each path is read once.
#![tactic(auto)]

mod configurations;
mod laws;
mod layouts;
mod opens;
mod overlays;
mod projects;
mod roots;
mod stores;
mod triplet_files;

pub use laws::{early_files, first_triplet, kept_apart, two_places};
pub use layouts::{Layout, Overlay};
pub use opens::{Opened, open};
pub use projects::{from_folder, manifest_path};
pub use roots::PortFile;
