//! A row's words, and what they stand for.
ghost use Rattle.std.specs.Prelude.{◌≡◌};
ghost use Rattle.std.specs.List.{before_first, after_first};
ghost use Rattle.vk_row_text.specs.Wording.{is_blank, IsPathOf, IsTextOf, ReadsBytes, ReadsNumber};
ghost use Rattle.vk_row_text.specs.Wording.{ReadsPath, ReadsText};

use crate::replies::NoRow;
use std::alloc::Global;
use std::str::FromStr;
use vk_base::{List, Text, TreePath, Unread, read_token};

/// A row's first word, and what stands after the blank behind it, which is nothing where the row
/// has no blank.
pub fn cut(row: &str) -> (&str, &str)
    ensures first { result.0.now ≡ before_first is_blank row.now }
    ensures rest { result.1.now ≡ after_first is_blank row.now }
{
    row.split_once(' ').unwrap_or((row, ""))
}

// The bytes of which a word is the token. `NoRow` exactly where it is the token of no bytes.
fn word_bytes(alloc: Global, word: &str) -> Result<List<u8>, Unread<NoRow>>
    ensures { ReadsBytes word.now result }
{
    match read_token(alloc, word)? {
        Some(bytes) => Ok(bytes),
        None => Err(Unread::Fault(NoRow)),
    }
}

// Bytes as a text. `NoRow` exactly where they are no UTF-8.
fn utf8(bytes: List<u8>) -> Result<Text, Unread<NoRow>>
    ensures { IsTextOf bytes result }
{
    match String::from_utf8(bytes.into_vec()) {
        Ok(text) => Ok(Text::from_string(text)),
        Err(_) => Err(Unread::Fault(NoRow)),
    }
}

/// The text of which a word is the token. `NoRow` exactly where it is the token of no text.
pub fn text_of(alloc: Global, word: &str) -> Result<Text, Unread<NoRow>>
    ensures { ReadsText word.now result }
{
    utf8(word_bytes(alloc, word)?)
}

// The path that a text is. `NoRow` exactly where it is none.
fn read_path(alloc: Global, text: &str) -> Result<TreePath, Unread<NoRow>>
    ensures { IsPathOf text.now result }
{
    match TreePath::read(alloc, text) {
        Ok(path) => Ok(path),
        Err(Unread::Fault(_)) => Err(Unread::Fault(NoRow)),
        Err(Unread::Memory(memory)) => Err(Unread::Memory(memory)),
    }
}

/// The path whose text a word is the token of. `NoRow` exactly where there is none.
pub fn path_of(alloc: Global, word: &str) -> Result<TreePath, Unread<NoRow>>
    ensures { ReadsPath word.now result }
{
    read_path(alloc, text_of(alloc, word)?.as_str())
}

/// The number that a word is. `NoRow` exactly where it is none of this type.
pub fn number_of<N: FromStr>(word: &str) -> Result<N, Unread<NoRow>>
where
    N::Err: Drop,
    ensures { ReadsNumber (N.from_str_gives word.now) result }
{
    match word.parse() {
        Ok(number) => Ok(number),
        Err(_) => Err(Unread::Fault(NoRow)),
    }
}

/// The bytes of words: those of which each is the token, with a blank between two.
pub fn bytes_of(alloc: Global, words: &str) -> Result<List<u8>, Unread<NoRow>> {
    let mut bytes = List::new(alloc);
    for (n, word) in words.split(' ').enumerate() {
        if n > 0 {
            bytes.push(b' ')?;
        }
        bytes.extend_from_slice(word_bytes(alloc, word)?.as_slice())?;
    }
    Ok(bytes)
}

/// The text of words, as `bytes_of` has its bytes.
pub fn texts_of(alloc: Global, words: &str) -> Result<Text, Unread<NoRow>> {
    utf8(bytes_of(alloc, words)?)
}
