//! The digests of the files of one folder of a tree, read in pieces of at most 65,536 bytes and
//! hashed as they are read. It promises upwards that the answer is that of the files below the
//! folder, or the limit that they pass.
#![tactic(auto)]

mod digests;
mod hashing;
mod pieces;
mod rooms;

pub use digests::{FileDigest, folder_digests};
