//! Fields that several kinds of files have: what stands under the key `x` by the rule of its kind,
//! and versions under their four keys.

use crate::documents::document_of;
use crate::shows::{Show, tell};
use vk_fields::{
    AskText, ExpressionText, FeatureNameText, PathText, PlainText, PortNameText, ask_under, key,
    port_version, scheme, version, version_needed,
};
use vk_json::{Reader, Scratch, Value, wanted};
use vk_row_text::{Reply, cut};
use vk_version::Scheme;

/// What is asked of fields.
#[derive(Clone, Copy)]
pub enum Question {
    PortName,
    FeatureName,
    Path,
    Expression,
    Ask,
    Text,
    Scheme,
    PortVersion,
    Version,
    VersionNeeded,
    AskUnder,
}

impl Show for Scheme {
    fn show(&self, reply: &mut Reply) {
        reply.push(key(*self));
    }
}

fn under<R: Reader>(value: &Value, reader: &R, reply: &mut Reply)
where
    R::Out: Show + Drop,
{
    tell(wanted(reply.alloc(), value, "x", reader), reply);
}

fn of_version(question: Question, value: &Value, reply: &mut Reply) {
    let alloc = reply.alloc();
    match question {
        Question::Scheme => tell(scheme(alloc, value), reply),
        Question::PortVersion => tell(port_version(alloc, value), reply),
        Question::Version => tell(version(alloc, value), reply),
        _ => tell(version_needed(alloc, value), reply),
    }
}

fn ask(question: Question, value: &Value, reply: &mut Reply) {
    match question {
        Question::PortName => under(value, &PortNameText, reply),
        Question::FeatureName => under(value, &FeatureNameText, reply),
        Question::Path => under(value, &PathText, reply),
        Question::Expression => under(value, &ExpressionText, reply),
        Question::Ask => under(value, &AskText, reply),
        Question::Text => under(value, &PlainText, reply),
        _ => of_version(question, value, reply),
    }
}

fn ask_at(rest: &str, reply: &mut Reply) {
    let (key, rest) = cut(rest);
    let bytes = reply.bytes(rest);
    let mut scratch = Scratch::new(reply.alloc());
    if let Some(document) = document_of(bytes.as_slice(), &mut scratch, reply) {
        tell(ask_under(reply.alloc(), document.value(), key), reply);
    }
}

fn in_document(question: Question, rest: &str, reply: &mut Reply) {
    let bytes = reply.bytes(rest);
    let mut scratch = Scratch::new(reply.alloc());
    if let Some(document) = document_of(bytes.as_slice(), &mut scratch, reply) {
        ask(question, document.value(), reply);
    }
}

/// - `port-name FILE`, `feature-name FILE`, `path FILE`, `expression FILE`, `ask FILE` and
///   `text FILE`: what stands in the object under the key `x`, or the fault;
/// - `scheme FILE`, `port-version FILE`, `version FILE`, `version-needed FILE`: what the object
///   says of a version;
/// - `ask-under KEY FILE`: the ask of a text under a key and of the port-version.
pub fn answer(question: Question, rest: &str, reply: &mut Reply) {
    match question {
        Question::AskUnder => ask_at(rest, reply),
        _ => in_document(question, rest, reply),
    }
}
