//! Packages of files, and the lists of what packages contain.
//! It promises upwards that a package's files stand in the order of the texts of their paths, and
//! that a contents list is read exactly where it is one that is written.
#![tactic(auto)]

mod contents;
mod differences;
mod digests;
pub mod laws;
mod lines;
mod packages;
mod reading;

pub use contents::{ContentLine, contents_of, write_contents};
pub use differences::{Difference, find_difference};
pub use digests::{AnyDigest, DigestText};
pub use packages::{Package, PackageFile, is_package_path};
pub use reading::{EntryFault, read_contents};
