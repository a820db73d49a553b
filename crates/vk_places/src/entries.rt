//! The entries of a cache, and what stands in one.
ghost use Rattle.std.specs.Prelude.{◌≡◌, IfOk, length, string_bytes};
ghost use Rattle.hex.specs.Hex.{IsBytes, encode_lower};
ghost use Rattle.vk_places.specs.Places.{entry_at, text_at, contents_at, file_at};

use crate::paths::below;
use hex::encode;
use std::alloc::Global;
use vk_base::{Memory, TreePath};
use vk_digest::Digest;

fn are_bytes(bytes: &[u8])
    ensures { IsBytes bytes.now }
{
    let _ = bytes;
}

// Tells a caller what every digest keeps: it is 32 bytes.
fn known(digest: &Digest)
    ensures bytes { IsBytes digest.now.bytes }
    ensures long { length digest.now.bytes ≡ 32 }
{
    are_bytes(digest.bytes.as_slice());
}

fn digits(alloc: Global, digest: &Digest) -> Result<String, Memory>
    ensures { IfOk result (λ t. string_bytes t ≡ encode_lower digest.now.bytes) }
{
    Ok(encode(alloc, digest.bytes.as_slice())?)
}

/// Where a cache has the entry of a text with this digest: the digest's digits, below `abi2`.
pub fn entry_in(alloc: Global, cache: &TreePath, digest: &Digest) -> Result<TreePath, Memory>
    ensures { IfOk result (λ p. p ≡ entry_at cache.now digest.now.bytes) }
{
    known(digest);
    let name = digits(alloc, digest)?;
    let entries = cache.child(alloc, "abi2")?;
    entries.child(alloc, name.as_str())
}

/// Where an entry has its text.
pub fn text_in(alloc: Global, entry: &TreePath) -> Result<TreePath, Memory>
    ensures { IfOk result (λ p. p ≡ text_at entry.now) }
{
    entry.child(alloc, "abi.txt")
}

/// Where an entry has the list of what its package contains.
pub fn contents_in(alloc: Global, entry: &TreePath) -> Result<TreePath, Memory>
    ensures { IfOk result (λ p. p ≡ contents_at entry.now) }
{
    entry.child(alloc, "contents.txt")
}

/// Where an entry has a file of its package: the parts of the file's path, below `files`.
pub fn file_in(alloc: Global, entry: &TreePath, path: &TreePath) -> Result<TreePath, Memory>
    ensures { IfOk result (λ p. p ≡ file_at entry.now path.now) }
{
    let files = entry.child(alloc, "files")?;
    below(alloc, &files, path)
}
