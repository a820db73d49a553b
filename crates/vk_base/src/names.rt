ghost use Rattle.std.specs.Prelude.{◌≡◌, ◌<◌, ◌≤◌, ◌-◌, ◌==◌, List, ℕ, Some, None};
ghost use Rattle.std.specs.Prelude.{length, not, take, slice_index, IfSome};
ghost use Rattle.std.specs.List.{position};
ghost use Rattle.std.specs.Cmp.{IsTotalOrder};
ghost use Rattle.std.specs.FinMap.{IsAntisymmetric};
ghost use Rattle.std.specs.Cmp.Lexicographic.{slice_cmp};
ghost use Rattle.std.specs.Ordering.{nat_cmp, on, then_cmp};
ghost use Rattle.vk_spec.specs.Reading.{Gives};
ghost use Rattle.vk_base.specs.Names.{IsName, BreaksFirst, port_rule, word_rule, rule_of};
ghost use Rattle.vk_base.specs.Names.{is_name_byte, end_fault, name_fault, reads_name};
ghost use Rattle.vk_base.specs.Stops.{fault_in};
ghost use Rattle.vk_base.specs.FeatureViews.{feature_view};

use crate::features::FeatureName;
use crate::instances::Instance;
use crate::shared_texts::SharedText;
use crate::stops::Unread;
use crate::text_handles::TextHandle;
use std::alloc::Global;
use std::fmt;
use std::hash::Hash;
use std::marker::Model;

/// Why a text is no name.
#[derive(Clone, Copy, Debug, PartialEq, Eq)]
pub enum NameFault {
    /// The first byte that breaks the rule, counted from 0: the length for an empty text and for
    /// one that only its end breaks, 200 for a text that is only too long.
    Bad { at: u32 },
    /// A word that has a meaning of its own.
    Reserved,
}

// What a kind of names allows besides lower-case letters, digits, and hyphens inside.
#[derive(Clone, Copy)]
pub(crate) struct Rule {
    underscore: bool,
    last_hyphen: bool,
}

const PORT: Rule = Rule {
    underscore: false,
    last_hyphen: false,
};

pub(crate) const WORD: Rule = Rule {
    underscore: true,
    last_hyphen: true,
};

fn is_name_byte(rule: Rule, b: u8) -> bool
    ensures { result ≡ is_name_byte (rule_of rule) b }
{
    matches!(b, b'a'..=b'z' | b'0'..=b'9' | b'-') || rule.underscore && b == b'_'
}

// The first of the bytes that no name may have.
fn odd_byte_at(rule: Rule, bytes: &[u8]) -> Option<usize>
    ensures { result ≡ position (λ b. not (is_name_byte (rule_of rule) b)) bytes.now }
{
    bytes.iter().position(|b| !is_name_byte(rule, *b))
}

fn begins_with_hyphen(bytes: &[u8]) -> bool
    ensures { result ≡ (slice_index bytes.now 0 == 45) }
{
    match bytes {
        [first, ..] => *first == b'-',
        [] => false,
    }
}

fn ends_with_hyphen(bytes: &[u8]) -> bool
    requires { 0 < length bytes.now }
    ensures { result ≡ (slice_index bytes.now (length bytes.now - 1) == 45) }
{
    bytes[bytes.len() - 1] == b'-'
}

fn end_fault(rule: Rule, bytes: &[u8]) -> Option<usize>
    ensures { result ≡ end_fault (rule_of rule) bytes.now }
{
    if bytes.len() > 200 {
        return Some(200);
    }
    if bytes.is_empty() || !rule.last_hyphen && ends_with_hyphen(bytes) {
        return Some(bytes.len());
    }
    None
}

fn front_of(bytes: &[u8]) -> &[u8]
    ensures { result.now ≡ take 200 bytes.now }
{
    if bytes.len() > 200 {
        return &bytes[..200];
    }
    bytes
}

// The place of the first byte that breaks the rule.
fn name_fault_at(rule: Rule, bytes: &[u8]) -> Option<usize>
    ensures place { result ≡ name_fault (rule_of rule) bytes.now }
    ensures small { IfSome result (λ at. at ≤ 200) }
{
    if begins_with_hyphen(bytes) {
        return Some(0);
    }
    match odd_byte_at(rule, front_of(bytes)) {
        Some(at) => Some(at),
        None => end_fault(rule, bytes),
    }
}

pub(crate) fn read_name(
    alloc: Global,
    rule: Rule,
    text: &str,
) -> Result<SharedText, Unread<NameFault>>
    ensures { Gives (λ t. t) fault_in result (reads_name (rule_of rule) text.now) }
{
    match name_fault_at(rule, text.as_bytes()) {
        Some(at) => Err(Unread::Fault(NameFault::Bad { at: at as u32 })),
        None => Ok(SharedText::from_str(alloc, text)?),
    }
}

/// A port's name: at most 200 bytes `a` to `z`, `0` to `9` and `-`, with no `-` at either end.
/// Contracts see it as its bytes, and its order is theirs.
#[derive(Clone, PartialEq, Eq, PartialOrd, Ord, Hash, Drop)]
pub struct PortName {
    text: SharedText,
}

impl Model for PortName {
    ghost use Rattle.std.specs.Prelude.{List, ℕ, None, ◌≡◌};
    ghost use Rattle.vk_base.specs.Names.{port_rule, name_fault};

    ghost Value = { List ℕ };

    ghost view = { λ n. n.text };

    ghost invariant = { λ n. name_fault port_rule n.text ≡ None };

    ghost inverse = { λ n. record { text = n } };
}

impl PortName {
    /// Reads a port's name. `Bad` comes exactly where the rule fails, with the first byte that
    /// breaks it.
    pub fn read(alloc: Global, text: &str) -> Result<PortName, Unread<NameFault>>
        ensures { Gives (λ n. n) fault_in result (reads_name port_rule text.now) }
    {
        Ok(PortName {
            text: read_name(alloc, PORT, text)?,
        })
    }

    /// The name as text, which has no fault.
    pub fn as_str(&self) -> &str
        ensures text { result.now ≡ self.now }
        ensures name { name_fault port_rule self.now ≡ None }
    {
        self.text.as_str()
    }
}

impl fmt::Display for PortName {
    ghost use Rattle.std.specs.Prelude.{Some};

    ghost output = { λ n. Some n };

    fn fmt<W: fmt::Write>(&self, f: &mut fmt::Formatter<W>) -> fmt::Result {
        f.write_str(self.as_str())
    }
}

/// A triplet's name: at most 200 bytes `a` to `z`, `0` to `9`, `-` and `_`, with no `-` in front.
/// Contracts see it as its bytes, and its order is theirs.
#[derive(Clone, PartialEq, Eq, PartialOrd, Ord, Hash, Drop)]
pub struct TripletName {
    text: TextHandle,
}

impl Model for TripletName {
    ghost use Rattle.std.specs.Prelude.{List, ℕ, None, ◌≡◌};
    ghost use Rattle.vk_base.specs.Names.{word_rule, name_fault};

    ghost Value = { List ℕ };

    ghost view = { λ n. n.text };

    ghost invariant = { λ n. name_fault word_rule n.text ≡ None };

    ghost inverse = { λ n. record { text = n } };
}

impl TripletName {
    /// Reads a triplet's name. `Bad` comes exactly where the rule fails, with the first byte that
    /// breaks it.
    pub fn read(alloc: Global, text: &str) -> Result<TripletName, Unread<NameFault>>
        ensures { Gives (λ n. n) fault_in result (reads_name word_rule text.now) }
    {
        Ok(TripletName {
            text: TextHandle::new(alloc, read_name(alloc, WORD, text)?)?,
        })
    }

    /// The name as text, which has no fault.
    pub fn as_str(&self) -> &str
        ensures text { result.now ≡ self.now }
        ensures name { name_fault word_rule self.now ≡ None }
    {
        self.text.as_str()
    }
}

impl fmt::Display for TripletName {
    ghost use Rattle.std.specs.Prelude.{Some};

    ghost output = { λ n. Some n };

    fn fmt<W: fmt::Write>(&self, f: &mut fmt::Formatter<W>) -> fmt::Result {
        f.write_str(self.as_str())
    }
}

/// The name of an agent, which installs: at most 200 bytes `a` to `z`, `0` to `9`, `-` and `_`,
/// with no `-` in front. Contracts see it as its bytes, and its order is theirs.
#[derive(Clone, PartialEq, Eq, PartialOrd, Ord, Hash, Drop)]
pub struct AgentName {
    text: SharedText,
}

impl Model for AgentName {
    ghost use Rattle.std.specs.Prelude.{List, ℕ, None, ◌≡◌};
    ghost use Rattle.vk_base.specs.Names.{word_rule, name_fault};

    ghost Value = { List ℕ };

    ghost view = { λ n. n.text };

    ghost invariant = { λ n. name_fault word_rule n.text ≡ None };

    ghost inverse = { λ n. record { text = n } };
}

impl AgentName {
    /// Reads an agent's name. `Bad` comes exactly where the rule fails, with the first byte that
    /// breaks it.
    pub fn read(alloc: Global, text: &str) -> Result<AgentName, Unread<NameFault>>
        ensures { Gives (λ n. n) fault_in result (reads_name word_rule text.now) }
    {
        Ok(AgentName {
            text: read_name(alloc, WORD, text)?,
        })
    }

    /// The name as text, which has no fault.
    pub fn as_str(&self) -> &str
        ensures text { result.now ≡ self.now }
        ensures name { name_fault word_rule self.now ≡ None }
    {
        self.text.as_str()
    }
}

impl fmt::Display for AgentName {
    ghost use Rattle.std.specs.Prelude.{Some};

    ghost output = { λ n. Some n };

    fn fmt<W: fmt::Write>(&self, f: &mut fmt::Formatter<W>) -> fmt::Result {
        f.write_str(self.as_str())
    }
}

/// A text is a port's name exactly where it has no fault, and nothing before a fault breaks the
/// rule.
pub fn port_rule()
    ensures holds { (text : List ℕ) → name_fault port_rule text ≡ None → IsName port_rule text }
    ensures only { (text : List ℕ) → IsName port_rule text → name_fault port_rule text ≡ None }
    ensures first { (text : List ℕ) (at : ℕ) → name_fault port_rule text ≡ Some at
        → BreaksFirst port_rule text at }
{}

/// A text is the name of a triplet, or of an agent, exactly where it has no fault, and nothing
/// before a fault breaks the rule.
pub fn triplet_rule()
    ensures holds { (text : List ℕ) → name_fault word_rule text ≡ None → IsName word_rule text }
    ensures only { (text : List ℕ) → IsName word_rule text → name_fault word_rule text ≡ None }
    ensures first { (text : List ℕ) (at : ℕ) → name_fault word_rule text ≡ Some at
        → BreaksFirst word_rule text at }
{}

/// The order on names is that of their bytes; it is total, and only equal names tie. Instances are
/// ordered by port, then by triplet.
pub fn name_order()
    ensures ports { ⟦<PortName as Ord>⟧.cmp ≡ slice_cmp nat_cmp }
    ensures triplets { ⟦<TripletName as Ord>⟧.cmp ≡ slice_cmp nat_cmp }
    ensures features { ⟦<FeatureName as Ord>⟧.cmp ≡ on feature_view (slice_cmp nat_cmp) }
    ensures instances { ⟦<Instance as Ord>⟧.cmp
        ≡ then_cmp (on (λ i. i.port) (slice_cmp nat_cmp))
        (on (λ i. i.triplet) (slice_cmp nat_cmp)) }
    ensures total { IsTotalOrder (slice_cmp nat_cmp) }
    ensures ties { IsAntisymmetric (slice_cmp nat_cmp) }
{}
