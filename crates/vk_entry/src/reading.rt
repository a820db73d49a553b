//! A contents list read back, line by line.
ghost use Rattle.std.specs.Prelude.{◌≡◌, ◌↔◌, ◌<◌, ◌^◌, ◌++◌, ◌∷◌, [], IfOk, IsTrue, MatchOption};
ghost use Rattle.std.specs.Prelude.{codes, length, map};
ghost use Rattle.vk_base.specs.Paths.{Lacks};
ghost use Rattle.vk_entry.specs.ContentLists.{Ascend, IsRefused};
ghost use Rattle.vk_entry.specs.ContentViews.{content_view};
ghost use Rattle.vk_entry.specs.Readings.{Appends, IsWhole, Lacking, Takes};
ghost use Rattle.vk_entry.specs.Answers.{Ends};

use crate::contents::ContentLine;
use crate::lines::read_line;
use std::alloc::Global;
use std::cmp::Ordering;
use vk_base::{List, Memory, Unread};
use vk_forms::{Either, cut_line};

/// Why bytes are no contents list.
#[derive(Clone, Copy, Debug, PartialEq, Eq, Drop)]
pub enum EntryFault {
    /// The first line, counted from 1, that is neither the first line of a list, nor then the line
    /// of a file or the last line.
    Line { n: u32 },
    /// The first line, counted from 1, whose path isn't above that of the line before it.
    Order { n: u32 },
    /// The lines are right, but the last one is missing or lacks its line feed, or something
    /// follows it.
    End,
}

fn is_heading(line: &[u8]) -> bool
    ensures { IsTrue result ↔ (line.now ≡ codes "contents 1") }
{
    line == b"contents 1".as_slice()
}

// Whether the path of a line is above that of the last of these.
fn is_above(lines: &[ContentLine], next: &ContentLine) -> bool
    requires { Ascend (map content_view lines.now) }
    ensures { IsTrue result ↔ Ascend (map content_view lines.now ++ content_view next.now ∷ []) }
{
    match lines.last() {
        Some(last) => last.path.cmp_text(&next.path) == Ordering::Less,
        None => true,
    }
}

// Puts the line of a file at the end, where its path is above the last one.
fn put_above(
    lines: &mut List<ContentLine>,
    next: ContentLine,
    number: u32,
) -> Result<(), Unread<EntryFault>>
    requires { Ascend (map content_view lines.old) }
    ensures { Appends (content_view next) number (map content_view lines.old) result
        (map content_view lines.new) }
{
    if !is_above(lines.as_slice(), &next) {
        return Err(Unread::Fault(EntryFault::Order { n: number }));
    }
    lines.push(next)?;
    Ok(())
}

// Takes a line that stands behind these. It answers whether it is the last one.
fn take_line(
    alloc: Global,
    lines: &mut List<ContentLine>,
    line: &[u8],
    number: u32,
) -> Result<bool, Unread<EntryFault>>
    requires { Ascend (map content_view lines.old) }
    ensures { Takes line.now number (map content_view lines.old) result
        (map content_view lines.new) }
{
    match read_line(alloc, line)? {
        Some(Either::One(())) => Ok(true),
        Some(Either::Other(next)) => {
            put_above(lines, next, number)?;
            Ok(false)
        }
        None => Err(Unread::Fault(EntryFault::Line { n: number })),
    }
}

// What is wrong with bytes that end behind so many lines, and without a line feed.
fn lacking(alloc: Global, last: &[u8], number: u32) -> Result<EntryFault, Memory>
    ensures { IfOk result (Lacking last.now number) }
{
    if last.is_empty() {
        return Ok(EntryFault::End);
    }
    let line = read_line(alloc, last)?;
    if line.is_some() {
        return Ok(EntryFault::End);
    }
    Ok(EntryFault::Line { n: number })
}

// What is wrong with bytes that have no line feed.
fn no_line(bytes: &[u8]) -> EntryFault
    requires { Lacks 10 bytes.now }
    ensures { IsRefused bytes.now result }
{
    if bytes.is_empty() || is_heading(bytes) {
        return EntryFault::End;
    }
    EntryFault::Line { n: 1 }
}

// The lines, where nothing follows the last one.
fn whole(lines: List<ContentLine>, more: &[u8]) -> Result<List<ContentLine>, Unread<EntryFault>>
    ensures { IsWhole lines more.now result }
{
    if more.is_empty() {
        return Ok(lines);
    }
    drop(lines);
    Err(Unread::Fault(EntryFault::End))
}

/// The lines of which these bytes are the contents list. `Line` and `Order` come exactly where a
/// line has no form or no path above the one before it, whichever is first; `End` exactly where
/// all lines are right and the last line of a list is missing or something follows it.
pub fn read_contents(alloc: Global, bytes: &[u8]) -> Result<List<ContentLine>, Unread<EntryFault>>
    requires { length bytes.now < 2 ^ 32 }
    ensures { Ends bytes.now result }
{
    let Some((heading, rest)) = cut_line(bytes) else {
        return Err(Unread::Fault(no_line(bytes)));
    };
    if !is_heading(heading) {
        return Err(Unread::Fault(EntryFault::Line { n: 1 }));
    }
    let mut lines = List::new(alloc);
    let mut number = 2;
    let mut left = rest;
    while let Some((line, more)) = cut_line(left) {
        if take_line(alloc, &mut lines, line, number)? {
            return whole(lines, more);
        }
        number += 1;
        left = more;
    }
    drop(lines);
    Err(Unread::Fault(lacking(alloc, left, number)?))
}
