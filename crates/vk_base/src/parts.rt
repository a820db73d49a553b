//! The parts of a path, kept as one text.
ghost use Rattle.std.specs.Prelude.{◌≡◌, ◌==◌, ◌↔◌, ◌<◌, ◌-◌, ◌++◌, ◌∷◌, ◌⊎◌, [], List, ℕ};
ghost use Rattle.std.specs.Prelude.{bytes_eq, drop, length, map, take, string_bytes, suc};
ghost use Rattle.std.specs.Prelude.{IfOk, IsTrue, MatchOption, OnErr, OnOk};
ghost use Rattle.std.specs.List.{All, count_by, join_with_byte};
ghost use Rattle.std.specs.String.Boundary.{IsSplitPoint};
ghost use Rattle.std.specs.Cmp.Lexicographic.{pointwise, slice_cmp};
ghost use Rattle.std.specs.Ordering.{nat_cmp};
ghost use Rattle.vk_spec.specs.Paths.{Begins, path_cmp};
ghost use Rattle.vk_base.specs.Paths.{IsPart};
ghost use Rattle.vk_base.specs.Parts.{parts_in, rank, IsBelow, IsOtherwise};

use std::alloc::{AllocError, Global};
use std::cmp::Ordering;
use std::marker::Model;

// The parts of a path as one text with `/` between. Contracts see their list.
#[derive(Drop)]
pub(crate) struct Parts {
    joined: String,
}

impl Model for Parts {
    ghost use Rattle.std.specs.Prelude.{List, ℕ, string_bytes};
    ghost use Rattle.std.specs.List.{All};
    ghost use Rattle.vk_base.specs.Paths.{IsPart};
    ghost use Rattle.vk_base.specs.Parts.{parts_in};

    ghost Value = { List (List ℕ) };

    ghost view = { λ p. parts_in (string_bytes p.joined) };

    ghost invariant = { λ p. All IsPart (parts_in (string_bytes p.joined)) };
}

impl Parts {
    // No parts. Takes no memory.
    pub(crate) fn new(alloc: Global) -> Parts
        ensures { result ≡ [] }
    {
        Parts {
            joined: String::new(alloc),
        }
    }

    // No parts yet, with room for a text of so many bytes.
    pub(crate) fn with_room(alloc: Global, bytes: usize) -> Result<Parts, AllocError>
        ensures { IfOk result (λ p. p ≡ []) }
    {
        Ok(Parts {
            joined: String::with_capacity(alloc, bytes)?,
        })
    }

    // The parts with `/` between.
    pub(crate) fn as_str(&self) -> &str
        ensures joined { result.now ≡ join_with_byte 47 self.now }
        ensures parts { parts_in result.now ≡ self.now }
        ensures each { All IsPart (parts_in result.now) }
    {
        self.joined.as_str()
    }

    // Whether there are none.
    pub(crate) fn is_empty(&self) -> bool
        ensures { IsTrue result ↔ (self.now ≡ []) }
    {
        self.joined.is_empty()
    }

    // How many there are.
    pub(crate) fn len(&self) -> usize
        ensures { result ≡ length self.now }
    {
        count(self.joined.as_str())
    }

    // Puts a part at the end. When memory runs out, they stay as they were.
    pub(crate) fn push(&mut self, part: &str) -> Result<(), AllocError>
        requires { IsPart part.now }
        ensures ok { OnOk result (self.new ≡ self.old ++ part.now ∷ []) }
        ensures err { OnErr result (self.new ≡ self.old) }
    {
        push_part(&mut self.joined, part)
    }

    // Takes the last part away.
    pub(crate) fn pop(&mut self)
        ensures { self.new ≡ take (length self.old - 1) self.old }
    {
        let end = without_last(self.joined.as_str()).len();
        self.joined.truncate(end);
    }

    // These and one more.
    pub(crate) fn child(&self, alloc: Global, part: &str) -> Result<Parts, AllocError>
        requires { IsPart part.now }
        ensures { IfOk result (λ p. p ≡ self.now ++ part.now ∷ []) }
    {
        Ok(Parts {
            joined: both(alloc, self.joined.as_str(), part)?,
        })
    }

    // The first so many.
    pub(crate) fn kept(&self, alloc: Global, most: usize) -> Result<Parts, AllocError>
        ensures { IfOk result (λ p. p ≡ take most self.now) }
    {
        let fewer = self.len().saturating_sub(most);
        Ok(Parts {
            joined: String::from_str(alloc, without(self.joined.as_str(), fewer))?,
        })
    }

    // All but so many at the end, and then others.
    pub(crate) fn join(
        &self,
        alloc: Global,
        fewer: usize,
        more: &Parts,
    ) -> Result<Parts, AllocError>
        ensures { IfOk result (λ p. p ≡ take (length self.now - fewer) self.now ++ more.now) }
    {
        let front = without(self.joined.as_str(), fewer);
        Ok(Parts {
            joined: both(alloc, front, more.joined.as_str())?,
        })
    }

    // Whether others begin with these.
    pub(crate) fn begins(&self, others: &Parts) -> bool
        ensures { IsTrue result ↔ Begins self.now others.now }
    {
        below(others.joined.as_str(), self.joined.as_str()).is_some()
    }

    // What stands after those that these begin with.
    pub(crate) fn after(&self, alloc: Global, front: &Parts) -> Result<Parts, AllocError>
        requires { Begins front.now self.now }
        ensures { IfOk result (λ p. self.now ≡ front.now ++ p) }
    {
        let rest = rest_of(self.joined.as_str(), front.joined.as_str());
        Ok(Parts {
            joined: String::from_str(alloc, rest)?,
        })
    }

    // Whether they are the same.
    pub(crate) fn is_same(&self, other: &Parts) -> bool
        ensures { result ≡ pointwise (pointwise ◌==◌) self.now other.now }
    {
        self.joined == other.joined
    }

    // Their order, part by part.
    pub(crate) fn order(&self, other: &Parts) -> Ordering
        ensures { result ≡ path_cmp self.now other.now }
    {
        order(self.joined.as_bytes(), other.joined.as_bytes())
    }
}

impl Clone for Parts {
    ghost is_clone = { λ x y. y ≡ x };

    fn clone(&self) -> Result<Parts, AllocError> {
        Ok(Parts {
            joined: self.joined.clone()?,
        })
    }
}

fn slashes(bytes: &[u8]) -> usize
    ensures { result ≡ count_by (λ b. b == 47) bytes.now }
{
    bytes.iter().filter(|b| **b == b'/').count()
}

// How many parts a text has.
fn count(text: &str) -> usize
    ensures { result ≡ length (parts_in text.now) }
{
    if text.is_empty() {
        return 0;
    }
    slashes(text.as_bytes()) + 1
}

// Puts a part at the end of a text. When memory runs out, the text stays as it was.
fn push_part(text: &mut String, part: &str) -> Result<(), AllocError>
    requires { IsPart part.now }
    ensures ok { OnOk result
        (parts_in (string_bytes text.new) ≡ parts_in (string_bytes text.old) ++ part.now ∷ []) }
    ensures err { OnErr result (string_bytes text.new ≡ string_bytes text.old) }
{
    if text.as_str().is_empty() {
        return text.push_str(part);
    }
    text.reserve(part.len() + 1)?;
    text.push_str("/")?;
    text.push_str(part)
}

// The parts of the one text and then those of the other.
fn both(alloc: Global, front: &str, more: &str) -> Result<String, AllocError>
    ensures { IfOk result
        (λ t. parts_in (string_bytes t) ≡ parts_in front.now ++ parts_in more.now) }
{
    if front.is_empty() {
        return String::from_str(alloc, more);
    }
    if more.is_empty() {
        return String::from_str(alloc, front);
    }
    let mut text = String::with_capacity(alloc, front.len() + 1 + more.len())?;
    text.push_str(front)?;
    text.push_str("/")?;
    text.push_str(more)?;
    Ok(text)
}

// The first part, and the text of those after it.
fn cut_first(text: &str) -> Option<(&str, &str)>
    requires { All IsPart (parts_in text.now) }
    ensures { MatchOption result (parts_in text.now ≡ [])
        (λ cut. parts_in text.now ≡ cut.0.now ∷ parts_in cut.1.now) }
{
    if text.is_empty() {
        return None;
    }
    match text.split_once('/') {
        Some((part, after)) => Some((part, after)),
        None => Some((text, "")),
    }
}

// The text of the parts before the last one of several, and that one.
fn cut_last(text: &str) -> Option<(&str, &str)>
    requires { All IsPart (parts_in text.now) }
    ensures parts { MatchOption result (length (parts_in text.now) < 2)
        (λ cut. (parts_in text.now ≡ parts_in cut.0.now ++ cut.1.now ∷ [])
        × (0 < length (parts_in cut.0.now))) }
    ensures split { MatchOption result (length (parts_in text.now) < 2)
        (λ cut. text.now ≡ cut.0.now ++ 47 ∷ cut.1.now) }
{
    text.rsplit_once('/')
}

// The text of all parts but the last.
fn without_last(text: &str) -> &str
    requires { All IsPart (parts_in text.now) }
    ensures parts { parts_in result.now
        ≡ take (length (parts_in text.now) - 1) (parts_in text.now) }
    ensures front { result.now ≡ take (length result.now) text.now }
    ensures split { IsSplitPoint text.now (length result.now) }
{
    match cut_last(text) {
        Some((front, _)) => front,
        None => "",
    }
}

// The text of all parts but so many at the end.
fn without(text: &str, fewer: usize) -> &str
    requires { All IsPart (parts_in text.now) }
    ensures { parts_in result.now
        ≡ take (length (parts_in text.now) - fewer) (parts_in text.now) }
{
    let mut front = text;
    for _ in 0..fewer {
        if front.is_empty() {
            return front;
        }
        front = without_last(front);
    }
    front
}

// The text of the parts after those of a front; `None` exactly where the text doesn't begin with
// them.
fn below<'a>(text: &'a str, front: &str) -> Option<&'a str>
    requires { All IsPart (parts_in text.now) }
    ensures { MatchOption result (Begins (parts_in front.now) (parts_in text.now) → ⊥)
        (λ rest. parts_in text.now ≡ parts_in front.now ++ parts_in rest.now) }
{
    if front.is_empty() {
        return Some(text);
    }
    match text.strip_prefix(front) {
        Some(rest) => after_slash(rest),
        None => None,
    }
}

// The text of the parts after those that it begins with.
fn rest_of<'a>(text: &'a str, front: &str) -> &'a str
    requires each { All IsPart (parts_in text.now) }
    requires begins { Begins (parts_in front.now) (parts_in text.now) }
    ensures { parts_in text.now ≡ parts_in front.now ++ parts_in result.now }
{
    match below(text, front) {
        Some(rest) => rest,
        None => "",
    }
}

// What stands after a front: nothing, or what follows a slash. `None` where it is neither.
fn after_slash(rest: &str) -> Option<&str>
    ensures { MatchOption result (IsOtherwise rest.now) (λ more. IsBelow rest.now more.now) }
{
    if rest.is_empty() {
        return Some(rest);
    }
    rest.strip_prefix('/')
}

fn rank(byte: u8) -> u16
    ensures { result ≡ rank byte }
{
    if byte == b'/' {
        return 0;
    }
    u16::from(byte) + 1
}

// The order of two texts by the ranks of their bytes.
fn order(one: &[u8], other: &[u8]) -> Ordering
    ensures { result ≡ slice_cmp nat_cmp (map rank one.now) (map rank other.now) }
{
    let mut one = one;
    let mut other = other;
    'bytes: loop {
        let Some((first, after)) = one.split_first() else {
            return end_order(other);
        };
        let Some((second, rest)) = other.split_first() else {
            return Ordering::Greater;
        };
        match rank(*first).cmp(&rank(*second)) {
            Ordering::Equal => {}
            differ => return differ,
        }
        one = after;
        other = rest;
    }
}

// The order of an end and what is left of another text.
fn end_order(rest: &[u8]) -> Ordering
    ensures { result ≡ slice_cmp nat_cmp [] (map rank rest.now) }
{
    if rest.is_empty() {
        return Ordering::Equal;
    }
    Ordering::Less
}

// Whether a text has several parts, of which these are the last two.
fn ends_in(text: &str, folder: &str, file: &str) -> bool
    requires { All IsPart (parts_in text.now) }
    ensures { result ≡ pointwise bytes_eq
        (drop (length (parts_in text.now) - 2) (parts_in text.now)) (folder.now ∷ file.now ∷ []) }
{
    match cut_last(text) {
        Some((front, last)) => are(last_part(front), last, folder, file),
        None => false,
    }
}

// The last of some parts.
fn last_part(text: &str) -> &str
    requires each { All IsPart (parts_in text.now) }
    requires some { 0 < length (parts_in text.now) }
    ensures { parts_in text.now
        ≡ take (length (parts_in text.now) - 1) (parts_in text.now) ++ result.now ∷ [] }
{
    match cut_last(text) {
        Some((_, last)) => last,
        None => text,
    }
}

fn are(one: &str, two: &str, folder: &str, file: &str) -> bool
    ensures { result ≡ pointwise bytes_eq (one.now ∷ two.now ∷ []) (folder.now ∷ file.now ∷ []) }
{
    one == folder && two == file
}

/// The parts of a path that are still to come, each borrowed. Contracts see their list.
#[derive(Drop)]
pub struct PathParts<'a> {
    rest: &'a str,
}

impl<'a> Model for PathParts<'a> {
    ghost use Rattle.std.specs.Prelude.{List, ℕ};
    ghost use Rattle.std.specs.List.{All};
    ghost use Rattle.vk_base.specs.Paths.{IsPart};
    ghost use Rattle.vk_base.specs.Parts.{parts_in};

    ghost Value = { List (List ℕ) };

    ghost view = { λ p. parts_in p.rest.now };

    ghost invariant = { λ p. All IsPart (parts_in p.rest.now) };
}

impl<'a> PathParts<'a> {
    /// The next part; `None` exactly where none is left.
    pub fn next(&mut self) -> Option<&'a str>
        ensures { MatchOption result ((self.old ≡ []) × (self.new ≡ []))
            (λ part. self.old ≡ part.now ∷ self.new) }
    {
        let (part, rest) = cut_first(self.rest)?;
        self.rest = rest;
        Some(part)
    }
}

impl Parts {
    // The parts one by one.
    pub(crate) fn iter(&self) -> PathParts<'_>
        ensures { result ≡ self.now }
    {
        PathParts {
            rest: self.joined.as_str(),
        }
    }

    // Whether these are the last two of them.
    pub(crate) fn ends_in(&self, folder: &str, file: &str) -> bool
        ensures { result ≡ pointwise bytes_eq (drop (length self.now - 2) self.now)
            (folder.now ∷ file.now ∷ []) }
    {
        ends_in(self.joined.as_str(), folder, file)
    }
}
