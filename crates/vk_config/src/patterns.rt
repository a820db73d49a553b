//! Patterns: which ports a registry has.
ghost use Rattle.std.specs.Prelude.{◌≡◌, ◌==◌, ◌&&◌, MatchOption, true, false, slice_index, Ok};
ghost use Rattle.std.specs.List.{list_any, list_all, before_first, after_first};
ghost use Rattle.vk_spec.specs.Reading.{Gives};
ghost use Rattle.vk_base.specs.Names as names;
ghost use Rattle.vk_base.specs.Stops.{fault_in};
ghost use Rattle.vk_fields.specs.Saying.{said_here};
ghost use Rattle.vk_config.specs.Configs as plain;
ghost use Rattle.vk_config.specs.Patterns.{is_star, is_beginning, pattern_word, starred, named};
ghost use Rattle.vk_config.specs.Patterns.{pattern_of, pattern_at};
ghost use Rattle.vk_config.specs.Views.{pattern_view};
ghost use Rattle.vk_json.specs.Places.{here};
ghost use Rattle.std.specs.Prelude.{option_map};

use std::alloc::Global;
use vk_base::{NameFault, PortName, Text, Unread};
use vk_json::{FileFault, Reader, Value, Why, text, wrong};

/// Which ports a registry has.
#[derive(Drop)]
pub enum Pattern {
    /// The port of this name.
    Exact(PortName),
    /// Each port whose name begins so; nothing at all begins every name.
    Prefix(Text),
}

// A text that is no name is no pattern.
fn wrong_pattern(alloc: Global, unread: Unread<NameFault>) -> Unread<FileFault>
    ensures { fault_in result ≡ option_map (λ f. here (pattern_word f)) (fault_in unread) }
{
    match unread {
        Unread::Fault(NameFault::Bad { .. } | NameFault::Reserved) => wrong(alloc, Why::Pattern),
        Unread::Memory(memory) => Unread::Memory(memory),
    }
}

#[tactic(auto, using(vk_fields::proofs::Saying::said_fails))]
fn read_name(alloc: Global, text: &str) -> Result<PortName, Unread<FileFault>>
    ensures { Gives (λ n. n) fault_in result
        (said_here pattern_word (names.reads_name names.port_rule text.now)) }
{
    match PortName::read(alloc, text) {
        Ok(name) => Ok(name),
        Err(fault) => Err(wrong_pattern(alloc, fault)),
    }
}

#[tactic(auto, unfolding(crate::specs::Patterns::named))]
fn read_named(alloc: Global, text: &str) -> Result<Pattern, Unread<FileFault>>
    ensures { Gives pattern_view fault_in result (named text.now) }
{
    Ok(Pattern::Exact(read_name(alloc, text)?))
}

fn are_name_bytes(bytes: &[u8]) -> bool
    ensures { result ≡ list_all (names.is_name_byte names.port_rule) bytes.now }
{
    bytes
        .iter()
        .all(|b| matches!(*b, b'a'..=b'z' | b'0'..=b'9' | b'-'))
}

fn begins_with_hyphen(bytes: &[u8]) -> bool
    ensures { result ≡ (slice_index bytes.now 0 == 45) }
{
    match bytes {
        [first, ..] => *first == b'-',
        [] => false,
    }
}

fn is_beginning(bytes: &[u8]) -> bool
    ensures { result ≡ is_beginning bytes.now }
{
    are_name_bytes(bytes) && !begins_with_hyphen(bytes)
}

fn read_starred(alloc: Global, text: &str, rest: &str) -> Result<Pattern, Unread<FileFault>>
    ensures { Gives pattern_view fault_in result (starred text.now rest.now) }
{
    if rest.is_empty() && is_beginning(text.as_bytes()) {
        return Ok(Pattern::Prefix(Text::from_str(alloc, text)?));
    }
    Err(wrong(alloc, Why::Pattern))
}

// What stands before the first star of a text, and what stands after it, if there is one.
fn at_star(text: &str) -> Option<(&str, &str)>
    ensures { MatchOption result (list_any is_star text.now ≡ false)
        (λ parts. (list_any is_star text.now ≡ true)
        × (parts.0.now ≡ before_first is_star text.now)
        × (parts.1.now ≡ after_first is_star text.now)) }
{
    text.split_once('*')
}

fn read_pattern(alloc: Global, text: &str) -> Result<Pattern, Unread<FileFault>>
    ensures { Gives pattern_view fault_in result (pattern_of text.now) }
{
    match at_star(text) {
        Some((beginning, rest)) => read_starred(alloc, beginning, rest),
        None => read_named(alloc, text),
    }
}

/// Reads a pattern: a port's name, or how names begin and then `*`. `Pattern` comes for a text that
/// is none.
#[derive(Drop)]
pub struct PatternText;

impl Reader for PatternText {
    type Out = Pattern;

    ghost Plain = { plain.Pattern };

    ghost plain = { pattern_view };

    ghost reads = { λ r. pattern_at };

    fn read(&self, alloc: Global, value: &Value) -> Result<Pattern, Unread<FileFault>> {
        read_pattern(alloc, text(alloc, value)?)
    }
}
