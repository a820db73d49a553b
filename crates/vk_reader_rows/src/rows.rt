//! The rows. The first word says what is read, the second what is asked of it, but for those about
//! packages, which have one such word; then come words, the last of which may hold blanks.

use crate::kinds::{Kind, kind_of};
use crate::{
    command_lines, configurations, digests, documents, expressions, fields, manifests, names,
    packages, paths, registries, reports, tokens, triplets, versions,
};
use vk_row_text::{Answering, Reply, cut};

/// Answers rows about what is read of one text, and about packages.
#[derive(Drop)]
pub struct Rows;

fn answer(kind: Kind, rest: &str, reply: &mut Reply) {
    match kind {
        Kind::Name(question) => names::answer(question, rest, reply),
        Kind::Path(question) => paths::answer(question, rest, reply),
        Kind::Token(question) => tokens::answer(question, rest, reply),
        Kind::Digest(question) => digests::answer(question, rest, reply),
        Kind::Version(question) => versions::answer(question, rest, reply),
        Kind::Expression(question) => expressions::answer(question, rest, reply),
        Kind::Triplet(question) => triplets::answer(question, rest, reply),
        Kind::Json(question) => documents::answer(question, rest, reply),
        Kind::Field(question) => fields::answer(question, rest, reply),
        Kind::Manifest { is_root } => manifests::answer(is_root, rest, reply),
        Kind::Configuration(question) => configurations::answer(question, rest, reply),
        Kind::Registry(question) => registries::answer(question, rest, reply),
        Kind::Words => command_lines::answer(rest, reply),
        Kind::Report => reports::answer(rest, reply),
    }
}

// A row's first two words, and what stands behind them.
fn cut_two(row: &str) -> (&str, &str) {
    let (subject, rest) = cut(row);
    let (question, others) = cut(rest);
    let length = subject
        .len()
        .saturating_add(1)
        .saturating_add(question.len());
    match row.split_at_checked(length) {
        Some((words, _)) => (words, others),
        None => (row, ""),
    }
}

// Answers a row that has its kind in two words.
fn answer_reading(row: &str, reply: &mut Reply) {
    let (words, rest) = cut_two(row);
    match kind_of(words) {
        Some(kind) => answer(kind, rest, reply),
        None => reply.refuse(),
    }
}

impl Answering for Rows {
    fn answer(&mut self, row: &str, reply: &mut Reply) {
        let (word, rest) = cut(row);
        if word == "group" || word == "case" {
            return reply.silence();
        }
        match packages::kind_of(word) {
            Some(kind) => packages::answer(kind, rest, reply),
            None => answer_reading(row, reply),
        }
    }
}
