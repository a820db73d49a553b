ghost use Rattle.std.specs.Prelude.{◌≡◌, ◌+◌, ◌<◌, length, not, slice_index, drop, option_map, Ok};
ghost use Rattle.vk_spec.specs.Reading.{Gives};
ghost use Rattle.vk_base.specs.Stops.{fault_in};
ghost use Rattle.std.specs.List.{position};
ghost use Rattle.std.specs.Str.{IsAscii};
ghost use Rattle.vk_expr.specs.Tokens.{is_blank, is_word_byte, word_of, sign_begun, sign_of_word};
ghost use Rattle.vk_expr.specs.Tokens.{sign_of_byte};
ghost use Rattle.vk_expr.specs.ReaderViews.{sign_of};

use crate::faults::ExprFault;
use std::alloc::Global;
use std::str;
use vk_base::{Text, Unread};

/// The two ways to join members.
#[derive(Clone, Copy, PartialEq, Eq)]
pub(crate) enum Joint {
    Both,
    Either,
}

/// What a token is.
#[derive(Drop)]
pub(crate) enum Sign {
    Name(Text),
    Negates,
    Joins(Joint),
    Opens,
    Closes,
    Stray,
}

/// Whether a byte is a blank.
pub(crate) fn is_blank(byte: u8) -> bool
    ensures { result ≡ is_blank byte }
{
    byte == b' ' || byte == b'\t' || byte == b'\r' || byte == b'\n'
}

/// Whether a byte may stand in a word.
pub(crate) fn is_word_byte(byte: u8) -> bool
    ensures { result ≡ is_word_byte byte }
{
    byte.is_ascii_lowercase() || byte.is_ascii_digit() || byte == b'_' || byte == b'-'
}

/// Where the word that some bytes begin with ends, if not with them.
fn word_end(bytes: &[u8]) -> Option<usize>
    ensures { result ≡ position (λ b. not (is_word_byte b)) bytes.now }
{
    bytes.iter().position(|byte| !is_word_byte(*byte))
}

/// The word that some bytes begin with.
fn word(bytes: &[u8]) -> &[u8]
    ensures { result.now ≡ word_of bytes.now }
{
    match word_end(bytes) {
        None => bytes,
        Some(end) => &bytes[..end],
    }
}

/// A word as a text.
fn word_text(word: &[u8]) -> &str
    requires { IsAscii word.now }
    ensures { result.now ≡ word.now }
{
    match str::from_utf8(word) {
        Ok(text) => text,
        Err(_) => "",
    }
}

/// What a word is.
#[tactic(auto, unfolding(crate::specs::Tokens::sign_of_word))]
fn sign_of_word(alloc: Global, word: &str) -> Result<Sign, Unread<ExprFault>>
    ensures { Gives sign_of fault_in result (Ok (sign_of_word word.now)) }
{
    if word == "not" {
        return Ok(Sign::Negates);
    }
    if word == "and" {
        return Ok(Sign::Joins(Joint::Both));
    }
    Ok(Sign::Name(Text::from_str(alloc, word)?))
}

/// What a byte is that is no blank and of no word.
#[tactic(auto, unfolding(crate::specs::Tokens::sign_of_byte))]
fn sign_of_byte(byte: u8) -> Sign
    ensures { sign_of result ≡ sign_of_byte byte }
{
    match byte {
        b'!' => Sign::Negates,
        b'&' => Sign::Joins(Joint::Both),
        b'|' | b',' => Sign::Joins(Joint::Either),
        b'(' => Sign::Opens,
        b')' => Sign::Closes,
        _ => Sign::Stray,
    }
}

/// What the word is that some bytes begin with.
fn sign_of_front(alloc: Global, bytes: &[u8]) -> Result<Sign, Unread<ExprFault>>
    ensures { Gives sign_of fault_in result (Ok (sign_of_word (word_of bytes.now))) }
{
    sign_of_word(alloc, word_text(word(bytes)))
}

/// The token that some bytes begin with, if one begins there, told whether the byte before is of a
/// word.
#[tactic(auto, unfolding(crate::specs::Tokens::sign_begun))]
pub(crate) fn sign_at(
    alloc: Global,
    bytes: &[u8],
    at: usize,
    inside: bool,
) -> Result<Option<Sign>, Unread<ExprFault>>
    requires { at < length bytes.now }
    ensures { Gives (option_map sign_of) fault_in result
        (Ok (sign_begun inside (slice_index bytes.now at) (drop (at + 1) bytes.now))) }
{
    let byte = bytes[at];
    if is_word_byte(byte) {
        if inside {
            return Ok(None);
        }
        return Ok(Some(sign_of_front(alloc, &bytes[at..])?));
    }
    if is_blank(byte) {
        return Ok(None);
    }
    Ok(Some(sign_of_byte(byte)))
}
