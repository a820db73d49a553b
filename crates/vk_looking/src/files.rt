//! The listed files of an entry, each read once.
ghost use Rattle.std.specs.Prelude.{◌≡◌, Ok, IfOk, map, nat_le};
ghost use Rattle.std.specs.Str.{bytes_eq};
ghost use Rattle.vk_spec.specs.Calls.{read_of};
ghost use Rattle.vk_tree.specs.Answers.{read_refusal};
ghost use Rattle.vk_protocol.specs.Asking.{ReadSays, reply_by};
ghost use Rattle.vk_protocol.specs.Runs.{Asked, NextIs};
ghost use Rattle.vk_places.specs.Places.{file_at};
ghost use Rattle.vk_entry.specs.ContentViews.{content_view};
ghost use Rattle.vk_look.specs.LookIs.{bytes_listed};
ghost use Rattle.vk_look.specs.Looks.{harm_of, keeps, look_files, looked, refused, with_file};
ghost use Rattle.vk_looking.specs.LookMachine.{after_file, at_file, files_left, left_means};
ghost use Rattle.vk_looking.specs.LookMachine.{now_means, wanted_view};

use crate::left::{FilesLeft, Left, Lines};
use crate::looking::{LookFor, LookNow, damaged};
use crate::texts::has_digest;
use std::alloc::Global;
use vk_base::{Limit, List, Memory, Outage, TreePath};
use vk_entry::{ContentLine, Package};
use vk_look::{Harm, Look};
use vk_places::file_in;
use vk_protocol::ask_read;
use vk_tree::{ReadFault, Tree};

// Whether the sizes of listed files are at most so many bytes together.
fn fits(lines: &[ContentLine], most: u64) -> bool
    ensures { result ≡ nat_le (bytes_listed (map content_view lines.now)) most }
{
    let mut left = most;
    for line in lines {
        if line.size > left {
            return false;
        }
        left -= line.size;
    }
    true
}

fn same_bytes(one: &[u8], other: &[u8]) -> bool
    ensures { result ≡ bytes_eq one.now other.now }
{
    one == other
}

// Whether the bytes of the files are kept.
fn keeps(wanted: &LookFor<'_>, kept: &[u8], lines: &[ContentLine]) -> bool
    ensures { result ≡ keeps (wanted_view wanted.now) kept.now (map content_view lines.now) }
{
    same_bytes(kept, wanted.text) && fits(lines, wanted.most)
}

// What a look comes to whose listed files are all as they are listed.
fn finish(wanted: &LookFor<'_>, kept: List<u8>, files: Option<Package>) -> Result<Look, Limit>
    ensures { result ≡ looked (wanted_view wanted.now) kept (Ok files) }
{
    if let Some(files) = files {
        return Ok(Look::Hit(files));
    }
    if same_bytes(kept.as_slice(), wanted.text) {
        return Err(Limit::Bytes(wanted.most));
    }
    Ok(Look::Collision(kept))
}

// Goes on with the next listed file.
fn go_on(wanted: &LookFor<'_>, kept: List<u8>, left: Left) -> LookNow
    ensures { now_means (wanted_view wanted.now) result
        ≡ left_means (wanted_view wanted.now) kept left }
{
    match left {
        Left::Next(left) => LookNow::Files { kept, left },
        Left::All(files) => LookNow::Ended(finish(wanted, kept, files)),
    }
}

/// Begins with the first listed file.
pub(crate) fn begin_files(
    alloc: Global,
    wanted: &LookFor<'_>,
    kept: List<u8>,
    lines: Lines,
) -> LookNow
    ensures { now_means (wanted_view wanted.now) result
        ≡ look_files (wanted_view wanted.now) kept lines }
{
    let keep = keeps(wanted, kept.as_slice(), lines.as_slice());
    go_on(wanted, kept, Left::all(alloc, lines, keep))
}

// How a file that was read isn't as it is listed.
fn harm_of(bytes: &[u8], line: &ContentLine) -> Option<Harm>
    ensures { result ≡ harm_of bytes.now (content_view line.now) }
{
    if bytes.len() as u64 != line.size {
        return Some(Harm::Size);
    }
    if has_digest(bytes, &line.digest) {
        return None;
    }
    Some(Harm::Hash)
}

// A file that isn't as it is listed, by why it wasn't read.
fn unread(fault: ReadFault) -> Harm
    ensures { result ≡ refused (read_refusal fault) }
{
    match fault {
        ReadFault::Missing => Harm::Missing,
        ReadFault::TooLarge => Harm::Size,
    }
}

// What follows a listed file that is as it is listed.
fn take_file(
    wanted: &LookFor<'_>,
    kept: List<u8>,
    left: FilesLeft,
    bytes: List<u8>,
) -> Result<LookNow, Memory>
    ensures { IfOk result (λ at. now_means (wanted_view wanted.now) at
        ≡ files_left (wanted_view wanted.now) kept left.later
        (with_file left.next bytes left.files)) }
{
    match left.take(bytes) {
        Ok(left) => Ok(go_on(wanted, kept, left)),
        Err(memory) => {
            drop(kept);
            Err(memory)
        }
    }
}

// What follows the bytes of a listed file.
fn bytes_next(
    wanted: &LookFor<'_>,
    kept: List<u8>,
    left: FilesLeft,
    bytes: List<u8>,
) -> Result<LookNow, Memory>
    ensures { IfOk result (λ at. now_means (wanted_view wanted.now) at
        ≡ after_file (wanted_view wanted.now) kept left (Ok bytes)) }
{
    match harm_of(bytes.as_slice(), left.next()) {
        None => take_file(wanted, kept, left, bytes),
        Some(harm) => {
            drop(kept);
            drop(left);
            drop(bytes);
            Ok(damaged(harm))
        }
    }
}

// What follows the reading of a listed file.
fn file_next(
    wanted: &LookFor<'_>,
    kept: List<u8>,
    left: FilesLeft,
    reply: Result<List<u8>, ReadFault>,
) -> Result<LookNow, Memory>
    ensures { IfOk result (λ at. now_means (wanted_view wanted.now) at
        ≡ after_file (wanted_view wanted.now) kept left (reply_by (λ b. b) read_refusal reply)) }
{
    match reply {
        Ok(bytes) => bytes_next(wanted, kept, left, bytes),
        Err(fault) => {
            drop(kept);
            drop(left);
            Ok(damaged(unread(fault)))
        }
    }
}

// Asks for a listed file, with its listed size as the limit.
fn ask_file<T: Tree>(
    alloc: Global,
    folder: &TreePath,
    line: &ContentLine,
    tree: &mut T,
) -> Result<Result<List<u8>, ReadFault>, Outage>
    ensures { Asked (read_of (file_at folder.now line.now.path) line.now.size) ReadSays result
        (T.state tree.old) (T.state tree.new) }
{
    let path = file_in(alloc, folder, &line.path)?;
    ask_read(tree, &path, line.size)
}

/// Reads the next listed file.
pub(crate) fn read_file<T: Tree>(
    alloc: Global,
    wanted: &LookFor<'_>,
    kept: List<u8>,
    left: FilesLeft,
    tree: &mut T,
) -> Result<LookNow, Outage>
    ensures { NextIs (at_file (wanted_view wanted.now) kept left)
        (now_means (wanted_view wanted.now)) result (T.state tree.old) (T.state tree.new) }
{
    match ask_file(alloc, wanted.folder, left.next(), tree) {
        Ok(reply) => Ok(file_next(wanted, kept, left, reply)?),
        Err(outage) => {
            drop(kept);
            drop(left);
            Err(outage)
        }
    }
}
