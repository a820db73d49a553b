//! Versions: a scheme, a text and a port-version, and how two of them compare.

use crate::kinds::meaning;
use crate::shows::{tell, tell_order, tell_reads};
use vk_base::Unread;
use vk_row_text::{Reply, cut};
use vk_version::{Scheme, Version, VersionFault, order, read, read_ask};

/// What is asked of versions.
#[derive(Clone, Copy)]
pub enum Question {
    Read,
    Shown,
    Order,
    Ask,
}

const SCHEMES: [(&str, Scheme); 4] = [
    ("relaxed", Scheme::Relaxed),
    ("semver", Scheme::Semver),
    ("date", Scheme::Date),
    ("string", Scheme::Text),
];

// What is read of a scheme, a text and a port-version.
type Reading = Result<Version, Unread<VersionFault>>;

fn scheme_of(word: &str, reply: &mut Reply) -> Scheme {
    match meaning(&SCHEMES, word) {
        Some(scheme) => scheme,
        None => {
            reply.refuse();
            Scheme::Relaxed
        }
    }
}

fn reading(scheme: &str, text: &str, port: &str, reply: &mut Reply) -> Reading {
    let scheme = scheme_of(scheme, reply);
    let port = reply.number(port);
    let text = reply.text(text);
    read(reply.alloc(), scheme, text.as_str(), port)
}

// The first version of a row, and what stands behind it.
fn first<'a>(rest: &'a str, reply: &mut Reply) -> (Reading, &'a str) {
    let (scheme, rest) = cut(rest);
    let (text, rest) = cut(rest);
    let (port, rest) = cut(rest);
    (reading(scheme, text, port, reply), rest)
}

fn compare_with(left: &Version, right: Reading, reply: &mut Reply) {
    if let Some(right) = reply.needed(right) {
        tell_order(order(left, &right), reply);
    }
}

fn compare(rest: &str, reply: &mut Reply) {
    let (left, rest) = first(rest, reply);
    let (right, _) = first(rest, reply);
    match reply.needed(left) {
        Some(left) => compare_with(&left, right, reply),
        None => reply.refuse(),
    }
}

fn reads(rest: &str, reply: &mut Reply) {
    let (reading, _) = first(rest, reply);
    tell_reads(reading, reply);
}

fn shows(rest: &str, reply: &mut Reply) {
    let (reading, _) = first(rest, reply);
    tell(reading, reply);
}

fn ask(rest: &str, reply: &mut Reply) {
    let text = reply.texts(rest);
    tell(read_ask(reply.alloc(), text.as_str()), reply);
}

/// - `read SCHEME TEXT N`: whether the text with this port-version reads, or the fault;
/// - `show SCHEME TEXT N`: the version;
/// - `order SCHEME TEXT N SCHEME TEXT N`: what the first version is to the second;
/// - `ask TEXT`: the text and the port-version of an ask, or the fault.
pub fn answer(question: Question, rest: &str, reply: &mut Reply) {
    match question {
        Question::Read => reads(rest, reply),
        Question::Shown => shows(rest, reply),
        Question::Order => compare(rest, reply),
        Question::Ask => ask(rest, reply),
    }
}
