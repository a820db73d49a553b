//! The printed words of faults, both ways.
ghost use Rattle.std.specs.Prelude.{◌≡◌, Some, IfOk, IfSome, option_copied};
ghost use Rattle.std.specs.List.{find};
ghost use Rattle.std.specs.Str.{bytes_eq};
ghost use Rattle.vk_json.specs.Words.{HasSmallNumber, name_of, number_in, word_of};

use crate::faults::Why;
use std::alloc::Global;
use vk_base::{Memory, Text, read_u32};

// All that tell no number.
const PLAIN: [Why; 24] = [
    Why::Absent,
    Why::Large,
    Why::Json,
    Why::Object,
    Why::List,
    Why::Text,
    Why::Bool,
    Why::Number,
    Why::Item,
    Why::Missing,
    Why::Name,
    Why::Reserved,
    Why::TwoVersions,
    Why::NoVersion,
    Why::Version,
    Why::Range,
    Why::Day,
    Why::Depth,
    Why::Path,
    Why::Kind,
    Why::Pattern,
    Why::Twice,
    Why::Many,
    Why::Utf8,
];

impl Why {
    /// The printed word: a name, and after a colon the number in decimal, if there is one.
    pub fn word(&self, alloc: Global) -> Result<Text, Memory>
        ensures { IfOk result (λ word. word ≡ word_of self.now) }
    {
        let name = self.name();
        match self.number() {
            None => Ok(Text::from_str(alloc, name)?),
            Some(number) => Ok(Text::from_string(format!(in alloc; "{name}:{number}")?)),
        }
    }

    /// The fault whose printed word this is; `None` exactly where it is the word of none. Takes no
    /// memory.
    pub fn read(text: &str) -> Option<Why>
        ensures found { IfSome result (λ why. word_of why ≡ text.now) }
        ensures known { (why : Why) → HasSmallNumber why → word_of why ≡ text.now → result ≡ Some
            why }
    {
        match text.split_once(':') {
            None => named(text, None),
            Some((name, digits)) => named(name, Some(read_u32(digits)?)),
        }
    }

    // Its name.
    fn name(&self) -> &'static str
        ensures { result.now ≡ name_of self.now }
    {
        match self {
            Why::Absent => "absent",
            Why::Large => "large",
            Why::Json => "json",
            Why::Object => "object",
            Why::List => "list",
            Why::Text => "text",
            Why::Bool => "bool",
            Why::Number => "number",
            Why::Item => "item",
            Why::Missing => "missing",
            Why::Name => "name",
            Why::Reserved => "reserved",
            Why::TwoVersions => "two-versions",
            Why::NoVersion => "no-version",
            Why::Version => "version",
            Why::Range => "range",
            Why::Day => "day",
            Why::Unexpected(_) => "unexpected",
            Why::Mixed(_) => "mixed",
            Why::Open(_) => "open",
            Why::Depth => "depth",
            Why::Path => "path",
            Why::Kind => "kind",
            Why::Pattern => "pattern",
            Why::Twice => "twice",
            Why::Many => "many",
            Why::Line(_) => "line",
            Why::Utf8 => "utf8",
        }
    }

    // The number that is told with it.
    fn number(&self) -> Option<u32>
        ensures { result ≡ number_in self.now }
    {
        match *self {
            Why::Unexpected(n) | Why::Mixed(n) | Why::Open(n) | Why::Line(n) => Some(n),
            _ => None,
        }
    }

    fn is_named(&self, name: &str) -> bool
        ensures { result ≡ bytes_eq (name_of self.now) name.now }
    {
        self.name() == name
    }
}

/// The first of these with this name.
fn first_named<'a>(whys: &'a [Why], name: &str) -> Option<&'a Why>
    ensures { option_copied result ≡ find (λ why. bytes_eq (name_of why) name.now) whys.now }
{
    whys.iter().find(|why| why.is_named(name))
}

/// The fault with this name and number, or without a number.
fn named(name: &str, number: Option<u32>) -> Option<Why>
    ensures found { IfSome result (λ why. (name_of why ≡ name.now) × (number_in why ≡ number)) }
    ensures known { (why : Why) → name_of why ≡ name.now → number_in why ≡ number → result ≡ Some
        why }
{
    match number {
        None => first_named(&PLAIN, name).copied(),
        Some(n) => first_named(
            &[
                Why::Unexpected(n),
                Why::Mixed(n),
                Why::Open(n),
                Why::Line(n),
            ],
            name,
        )
        .copied(),
    }
}

/// No two faults have one word, so a word is read as the fault that it was printed for.
pub fn word_rule()
    ensures { (one other : Why) → HasSmallNumber one → HasSmallNumber other →
        word_of one ≡ word_of other → one ≡ other }
{}
