//! The text of a path byte by byte, and the order that texts give to paths.
ghost use Rattle.std.specs.Prelude.{◌≡◌, ◌<◌, ◌∷◌, [], Some, MatchOption};
ghost use Rattle.std.specs.Cmp.Lexicographic.{slice_cmp};
ghost use Rattle.std.specs.Ordering.{nat_cmp};
ghost use Rattle.vk_base.specs.Paths.{steps_of, text_of_path};
ghost use Rattle.vk_base.specs.Printed.{path_text};
ghost use Rattle.vk_base.specs.PathTexts.{left_text};
ghost use Rattle.vk_base.specs.PathTexts.{parts_text, climbing_text, end_order};

use crate::paths::TreePath;
use crate::tokens::TokenOf;
use std::cmp::Ordering;
use std::fmt;

// What is left of a path's text: these bytes, then so many steps up, and then a text.
#[derive(Clone, Copy)]
struct Left<'a> {
    bytes: &'a [u8],
    steps: u32,
    rest: &'a [u8],
}

impl<'a> Left<'a> {
    // Goes on to what comes after the bytes.
    fn refill(&mut self)
        requires { self.old.bytes.now ≡ [] }
        ensures same { left_text self.new ≡ left_text self.old }
        ensures some { self.new.bytes.now ≡ [] → left_text self.new ≡ [] }
    {
        if self.steps > 0 {
            self.steps -= 1;
            self.bytes = b"../";
            return;
        }
        self.bytes = self.rest;
        self.rest = b"";
    }

    // The next byte.
    fn next(&mut self) -> Option<u8>
        ensures { MatchOption result (left_text self.old ≡ [])
            (λ b. left_text self.old ≡ b ∷ left_text self.new) }
    {
        if self.bytes.is_empty() {
            self.refill();
        }
        let (first, rest) = self.bytes.split_first()?;
        self.bytes = rest;
        Some(*first)
    }
}

// The text of parts that nothing stands before: `.` where there are none.
fn parts_left(parts: &str) -> Left<'_>
    ensures { left_text result ≡ parts_text parts.now }
{
    Left {
        bytes: if parts.is_empty() { b"." } else { b"" },
        steps: 0,
        rest: parts.as_bytes(),
    }
}

// The text of so many steps up and then these parts.
fn steps_left(steps: u32, parts: &str) -> Left<'_>
    requires { 0 < steps }
    ensures { left_text result ≡ climbing_text steps parts.now }
{
    if parts.is_empty() {
        return Left {
            bytes: b"",
            steps: steps - 1,
            rest: b"..",
        };
    }
    Left {
        bytes: b"",
        steps,
        rest: parts.as_bytes(),
    }
}

// All of a path's text.
fn all_left(path: &TreePath) -> Left<'_>
    ensures { left_text result ≡ text_of_path path.now }
{
    if path.is_rooted() {
        return Left {
            bytes: b"/",
            steps: 0,
            rest: path.parts_text().as_bytes(),
        };
    }
    if path.steps_up() == 0 {
        return parts_left(path.parts_text());
    }
    steps_left(path.steps_up(), path.parts_text())
}

// The order of what is left of two texts.
fn order(mut one: Left<'_>, mut other: Left<'_>) -> Ordering
    ensures { result ≡ slice_cmp nat_cmp (left_text one.entry) (left_text other.entry) }
{
    'bytes: loop {
        let Some(first) = one.next() else {
            return end_order(other.next());
        };
        let Some(second) = other.next() else {
            return Ordering::Greater;
        };
        match first.cmp(&second) {
            Ordering::Equal => {}
            differ => return differ,
        }
    }
}

// The order of an end and what another text has next.
fn end_order(next: Option<u8>) -> Ordering
    ensures { result ≡ end_order next }
{
    match next {
        None => Ordering::Equal,
        Some(_) => Ordering::Less,
    }
}

impl TreePath {
    /// The order of two paths by the bytes of their texts. Takes no memory.
    pub fn cmp_text(&self, other: &TreePath) -> Ordering
        ensures { result ≡ slice_cmp nat_cmp (text_of_path self.now) (text_of_path other.now) }
    {
        order(all_left(self), all_left(other))
    }
}

/// A path that is printed as the token of its text, which takes no memory.
#[derive(Clone, Copy)]
pub struct PathToken<'a>(pub &'a TreePath);

impl fmt::Display for PathToken<'_> {
    ghost output = { λ p. Some (path_text p.0.now) };

    fn fmt<W: fmt::Write>(&self, f: &mut fmt::Formatter<W>) -> fmt::Result {
        let left = all_left(self.0);
        let (front, rest) = (TokenOf(left.bytes), TokenOf(left.rest));
        write!(f, "{front}{}{rest}", StepsUp(left.steps))
    }
}

// So many times `../`.
#[derive(Clone, Copy)]
struct StepsUp(u32);

impl fmt::Display for StepsUp {
    ghost output = { λ s. Some (steps_of s.0) };

    fn fmt<W: fmt::Write>(&self, f: &mut fmt::Formatter<W>) -> fmt::Result {
        for _ in 0..self.0 {
            f.write_str("../")?;
        }
        Ok(())
    }
}
