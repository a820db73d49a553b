//! The lines of texts.
ghost use Rattle.std.specs.Prelude.{◌≡◌, ◌↔◌, ◌++◌, ◌∷◌, IfOk, IsTrue, MatchOption, option_map};
ghost use Rattle.std.specs.Prelude.{[], slice_get};
ghost use Rattle.vk_base.specs.Paths.{Lacks};
ghost use Rattle.vk_check.specs.Lines.{cut_lines, lines_of, without_feed};

use std::alloc::Global;
use vk_base::{List, Memory};

// What stands before the first line feed, and what behind it; `None` where there is none.
fn cut_at_feed(text: &[u8]) -> Option<(&[u8], &[u8])>
    ensures { MatchOption result (Lacks 10 text.now)
        (λ p. (text.now ≡ p.0.now ++ 10 ∷ p.1.now) × Lacks 10 p.0.now) }
{
    let end = text.iter().position(|b| *b == b'\n')?;
    Some((&text[..end], &text[end + 1..]))
}

/// The first line with its line feed, if it has one, and what stands behind it. Of no bytes there
/// is no line: both are empty.
pub(crate) fn split_line(text: &[u8]) -> (&[u8], &[u8])
    ensures text { text.now ≡ result.0.now ++ result.1.now }
    ensures lines { lines_of text.now ≡ cut_lines result.0.now result.1.now }
{
    match cut_at_feed(text) {
        Some((line, _)) => text.split_at(line.len() + 1),
        None => text.split_at(text.len()),
    }
}

// A line without its line feed.
fn before_feed(line: &[u8]) -> &[u8]
    ensures { result.now ≡ without_feed line.now }
{
    match cut_at_feed(line) {
        Some((before, _)) => before,
        None => line,
    }
}

/// A line to be shown, without its line feed; `None` where there is none.
pub(crate) fn shown_line(alloc: Global, line: &[u8]) -> Result<Option<List<u8>>, Memory>
    ensures { IfOk result (λ shown.
        shown ≡ option_map without_feed (slice_get (cut_lines line.now []) 0)) }
{
    if line.is_empty() {
        return Ok(None);
    }
    Ok(Some(List::from_slice(alloc, before_feed(line))?))
}

/// Whether two lines have the same bytes.
pub(crate) fn is_same(one: &[u8], other: &[u8]) -> bool
    ensures { IsTrue result ↔ (one.now ≡ other.now) }
{
    one == other
}
