ghost use Rattle.std.specs.Prelude.{◌≡◌, ◌≢◌, ◌↔◌, ◌==◌, ◌<◌, ◌≤◌, ◌+◌, ◌-◌, ◌^◌, ◌++◌, ◌∷◌};
ghost use Rattle.std.specs.Prelude.{[]};
ghost use Rattle.std.specs.Prelude.{List, ℕ, Ok, bytes_eq, drop, length, slice_index, take, true};
ghost use Rattle.std.specs.Prelude.{IfOk, OnOk, OnErr, IsTrue};
ghost use Rattle.std.proofs.Common.{rules, refl};
ghost use Rattle.std.proofs.lemmas.Slice.Eq.{slice_eq-Decides, bytes_eq-Decides};
ghost use Rattle.std.specs.Hash as fed;
ghost use Rattle.std.specs.Cmp.{partial_order_from_own_ties};
ghost use Rattle.std.specs.Cmp.Rules.{comparing};
ghost use Rattle.std.specs.Cmp.Lexicographic.{slice_cmp, pointwise, lists_ties};
ghost use Rattle.std.specs.List.{position, join_with_byte};
ghost use Rattle.std.specs.Ordering.{nat_cmp, as_partial_cmp};
ghost use Rattle.vk_spec.specs.Paths.{Path, anchor, path_cmp, Begins};
ghost use Rattle.vk_spec.specs.Reading.{Gives};
ghost use Rattle.vk_base.specs.Paths.{Lacks, IsPart, IsPath, IsFrom, is_part, is_rooted, ups_of};
ghost use Rattle.vk_base.specs.Paths.{parts_of};
ghost use Rattle.vk_base.specs.Paths.{climbed, joined, front_of, text_of_path, steps_of};
ghost use Rattle.vk_base.specs.Paths.{has_in_it, is_far_up, overlaps};
ghost use Rattle.vk_base.specs.PathHash.{path_fed};
ghost use Rattle.vk_base.specs.PathReading.{checked, segments, stays, climbs, with_segment, walked};
ghost use Rattle.vk_base.specs.PathReading.{start_of, path_of};
ghost use Rattle.vk_base.specs.Stops.{fault_in};

use crate::memory::Memory;
use crate::parts::{Parts, PathParts};
use crate::stops::Unread;
use crate::texts::Text;
use std::alloc::{AllocError, Global};
use std::cmp::Ordering;
use std::hash::{Hash, Hasher};
use std::marker::Model;

/// Why a text is no path. The first in this order.
#[derive(Clone, Copy, Debug, PartialEq, Eq)]
pub enum PathFault {
    /// It has no bytes.
    Empty,
    /// It has more than 4,096 bytes.
    TooLong,
    /// A byte 0, the first, at this place counted from 0.
    Zero { at: u32 },
}

/// A path of a tree of files, rooted or with so many steps up, and then its parts. Contracts see it
/// as its key: one anchor part (`/`, `.`, `..`, `../..` and so on), then its parts. Its order is
/// that of the keys.
#[derive(Drop)]
pub struct TreePath {
    rooted: bool,
    ups: u32,
    parts: Parts,
}

impl Model for TreePath {
    ghost use Rattle.std.specs.Prelude.{List, ℕ, ◌∷◌};
    ghost use Rattle.vk_spec.specs.Paths.{anchor};
    ghost use Rattle.vk_base.specs.Paths.{IsPathOf};

    ghost Value = { List (List ℕ) };

    ghost view = { λ p. anchor p.rooted p.ups ∷ p.parts };

    ghost invariant = { λ p. IsPathOf p.rooted p.ups p.parts };
}

impl TreePath {
    /// The path `.`, which has no parts and no steps up. Takes no memory.
    pub fn new(alloc: Global) -> TreePath
        ensures { result ≡ (46 ∷ []) ∷ [] }
    {
        TreePath {
            rooted: false,
            ups: 0,
            parts: Parts::new(alloc),
        }
    }

    /// Reads a path: texts between `/`, of which the empty ones and `.` are dropped; `..` takes
    /// away the part before it, or is one step up, and above `/` it is nothing.
    pub fn read(alloc: Global, text: &str) -> Result<TreePath, Unread<PathFault>>
        ensures { Gives (λ p. p) fault_in result (path_of text.now) }
    {
        check(text)?;
        Ok(walk(alloc, text)?)
    }

    /// Whether it begins at `/`.
    pub fn is_rooted(&self) -> bool
        ensures { result ≡ is_rooted self.now }
    {
        self.rooted
    }

    /// How many steps up it begins with.
    pub fn steps_up(&self) -> u32
        ensures { result ≡ ups_of self.now }
    {
        self.ups
    }

    /// How many parts it has. Takes no memory.
    pub fn part_count(&self) -> usize
        ensures { result ≡ length (parts_of self.now) }
    {
        self.parts.len()
    }

    /// Its parts, one by one, each borrowed. Takes no memory.
    pub fn parts(&self) -> PathParts<'_>
        ensures parts { result ≡ parts_of self.now }
        ensures key { anchor (is_rooted self.now) (ups_of self.now) ∷ result ≡ self.now }
        ensures path { IsPath self.now }
    {
        self.parts.iter()
    }

    /// Its parts with `/` between, borrowed.
    pub fn parts_text(&self) -> &str
        ensures parts { result.now ≡ join_with_byte 47 (parts_of self.now) }
        ensures path { IsPath self.now }
    {
        self.parts.as_str()
    }

    /// Whether its last two parts are these. Takes no memory.
    pub fn ends_in(&self, folder: &str, file: &str) -> bool
        ensures ends { result ≡ pointwise bytes_eq
            (drop (length (parts_of self.now) - 2) (parts_of self.now))
            (folder.now ∷ file.now ∷ []) }
        ensures key { anchor (is_rooted self.now) (ups_of self.now) ∷ parts_of self.now
            ≡ self.now }
    {
        self.parts.ends_in(folder, file)
    }

    /// Whether this path begins the other: it is rooted as that is, has the same steps up, and its
    /// parts are the first ones of that. Takes no memory.
    pub fn begins(&self, other: &TreePath) -> bool
        ensures { IsTrue result ↔ Begins self.now other.now }
    {
        same_anchor(self.rooted, self.ups, other.rooted, other.ups)
            && self.parts.begins(&other.parts)
    }

    /// Whether a folder here has the other path in it, as far as the two texts tell: it begins that
    /// one, is `/`, or has no parts and more steps up than that one, which isn't rooted. Takes no
    /// memory.
    pub fn has_in_it(&self, path: &TreePath) -> bool
        ensures { result ≡ has_in_it self.now path.now }
    {
        self.begins(path) || self.is_far_up(path)
    }

    /// Whether one of two folders has the other in it: one begins the other, one is `/`, or neither
    /// is rooted and the one with more steps up has no parts. Takes no memory.
    pub fn overlaps(&self, other: &TreePath) -> bool
        ensures { result ≡ overlaps self.now other.now }
    {
        self.has_in_it(other) || other.has_in_it(self)
    }

    // Whether it is `/`, or has no parts and more steps up than a path that isn't rooted.
    fn is_far_up(&self, path: &TreePath) -> bool
        ensures { result ≡ is_far_up self.now path.now }
    {
        self.part_count() == 0
            && (self.is_rooted() || (!path.is_rooted() && path.steps_up() < self.steps_up()))
    }

    /// The prefix of this path that has so many parts, or the path itself where it hasn't as many.
    pub fn prefix(&self, alloc: Global, count: usize) -> Result<TreePath, Memory>
        ensures { IfOk result (λ p. p ≡ take (count + 1) self.now) }
    {
        Ok(TreePath {
            rooted: self.rooted,
            ups: self.ups,
            parts: self.parts.kept(alloc, count)?,
        })
    }

    /// This path as it is seen from a folder: its parts below the folder. `None` exactly where the
    /// folder doesn't begin it.
    pub fn relative_to(&self, alloc: Global, folder: &TreePath) -> Result<Option<TreePath>, Memory>
        ensures { IfOk result (IsFrom folder.now self.now) }
    {
        if !folder.begins(self) {
            return Ok(None);
        }
        Ok(Some(TreePath {
            rooted: false,
            ups: 0,
            parts: self.parts.after(alloc, &folder.parts)?,
        }))
    }

    /// This path and from there the other; a rooted one is itself the answer.
    pub fn join(&self, alloc: Global, more: &TreePath) -> Result<TreePath, Memory>
        requires { ups_of self.now + ups_of more.now < 2 ^ 32 }
        ensures { IfOk result (λ p. p ≡ joined self.now more.now) }
    {
        if more.rooted {
            return Ok(more.clone()?);
        }
        Ok(TreePath {
            rooted: self.rooted,
            ups: ups_left(self.rooted, self.ups, self.parts.len(), more.ups),
            parts: self.parts.join(alloc, more.ups as usize, &more.parts)?,
        })
    }

    /// The path below this one that has one part more, which must be a part's text: not empty,
    /// neither `.` nor `..`, with no `/` and no byte 0.
    pub fn child(&self, alloc: Global, part: &str) -> Result<TreePath, Memory>
        requires { IsTrue (is_part part.now) }
        ensures { IfOk result (λ p. p ≡ self.now ++ part.now ∷ []) }
    {
        Ok(TreePath {
            rooted: self.rooted,
            ups: self.ups,
            parts: self.parts.child(alloc, part)?,
        })
    }

    /// Its text: steps up and parts with `/` between, after `/` where it is rooted. A path with
    /// neither is `.` or `/`.
    pub fn text(&self, alloc: Global) -> Result<Text, Memory>
        ensures { IfOk result (λ t. t ≡ text_of_path self.now) }
    {
        if self.parts.is_empty() {
            return anchor_text(alloc, self.rooted, self.ups);
        }
        let mut text = front_text(alloc, self.rooted, self.ups)?;
        text.push_str(self.parts.as_str())?;
        Ok(text)
    }

    // One step up.
    fn climb(&mut self)
        requires { ups_of self.old + 1 < 2 ^ 32 }
        ensures place { self.new ≡ climbed self.old 1 }
        ensures ups { ups_of self.new ≤ ups_of self.old + 1 }
    {
        self.ups = ups_left(self.rooted, self.ups, self.parts.len(), 1);
        self.parts.pop();
    }

    // One part down.
    fn push(&mut self, part: &str) -> Result<(), Memory>
        requires { IsPart part.now }
        ensures place { OnOk result (self.new ≡ self.old ++ part.now ∷ []) }
        ensures ups { OnOk result (ups_of self.new ≤ ups_of self.old + 1) }
    {
        self.parts.push(part)?;
        Ok(())
    }

    // Goes where a segment says.
    fn go(&mut self, segment: &str) -> Result<(), Memory>
        requires slash { Lacks 47 segment.now }
        requires zero { Lacks 0 segment.now }
        requires small { ups_of self.old + 1 < 2 ^ 32 }
        ensures place { OnOk result (self.new ≡ with_segment self.old segment.now) }
        ensures ups { OnOk result (ups_of self.new ≤ ups_of self.old + 1) }
    {
        if stays(segment) {
            return Ok(());
        }
        if climbs(segment) {
            self.climb();
            return Ok(());
        }
        self.push(segment)
    }
}

// The steps up after so many more from below so many parts.
fn ups_left(rooted: bool, ups: u32, parts: usize, more: u32) -> u32
    requires root { rooted ≡ true → ups ≡ 0 }
    requires small { ups + more < 2 ^ 32 }
    ensures root { rooted ≡ true → result ≡ 0 }
    ensures place { anchor rooted result ≡ anchor rooted (ups + (more - parts)) }
{
    if rooted {
        return 0;
    }
    ups + (more as usize).saturating_sub(parts) as u32
}

// So many times `../`.
fn steps_text(alloc: Global, count: u32) -> Result<Text, Memory>
    ensures { IfOk result (λ t. t ≡ steps_of count) }
{
    let mut text = Text::new(alloc);
    for _ in 0..count {
        text.push_str("../")?;
    }
    Ok(text)
}

fn anchor_text(alloc: Global, rooted: bool, ups: u32) -> Result<Text, Memory>
    ensures { IfOk result (λ t. t ≡ anchor rooted ups) }
{
    if rooted {
        return Ok(Text::from_str(alloc, "/")?);
    }
    if ups == 0 {
        return Ok(Text::from_str(alloc, ".")?);
    }
    let mut text = steps_text(alloc, ups - 1)?;
    text.push_str("..")?;
    Ok(text)
}

// What stands in front of the parts.
fn front_text(alloc: Global, rooted: bool, ups: u32) -> Result<Text, Memory>
    requires { rooted ≡ true → ups ≡ 0 }
    ensures { IfOk result (λ t. t ≡ front_of (anchor rooted ups ∷ [])) }
{
    if rooted {
        return Ok(Text::from_str(alloc, "/")?);
    }
    steps_text(alloc, ups)
}

fn zero_at(bytes: &[u8]) -> Option<usize>
    ensures { result ≡ position (λ b. b == 0) bytes.now }
{
    bytes.iter().position(|b| *b == 0)
}

fn check(text: &str) -> Result<(), Unread<PathFault>>
    ensures fault { Gives (λ u. u) fault_in result (checked text.now) }
    ensures short { OnOk result (length text.now ≤ 4096) }
    ensures whole { OnOk result (Lacks 0 text.now) }
{
    if text.is_empty() {
        return Err(Unread::Fault(PathFault::Empty));
    }
    if text.len() > 4096 {
        return Err(Unread::Fault(PathFault::TooLong));
    }
    match zero_at(text.as_bytes()) {
        Some(at) => Err(Unread::Fault(PathFault::Zero { at: at as u32 })),
        None => Ok(()),
    }
}

fn begins_rooted(bytes: &[u8]) -> bool
    ensures { result ≡ (slice_index bytes.now 0 == 47) }
{
    match bytes {
        [first, ..] => *first == b'/',
        [] => false,
    }
}

fn stays(segment: &str) -> bool
    ensures { result ≡ stays segment.now }
{
    segment.is_empty() || segment == "."
}

fn climbs(segment: &str) -> bool
    ensures { result ≡ climbs segment.now }
{
    segment == ".."
}

// Goes from the start through all segments.
fn walk(alloc: Global, text: &str) -> Result<TreePath, Memory>
    requires short { length text.now ≤ 4096 }
    requires whole { Lacks 0 text.now }
    ensures { IfOk result (λ p. p ≡ walked (start_of text.now) (segments text.now)) }
{
    let mut path = TreePath {
        rooted: begins_rooted(text.as_bytes()),
        ups: 0,
        parts: Parts::with_room(alloc, text.len())?,
    };
    let mut rest = text;
    while let Some((segment, after)) = rest.split_once('/') {
        path.go(segment)?;
        rest = after;
    }
    path.go(rest)?;
    Ok(path)
}

impl Clone for TreePath {
    ghost is_clone = { λ x y. y ≡ x };

    fn clone(&self) -> Result<TreePath, AllocError> {
        Ok(TreePath {
            rooted: self.rooted,
            ups: self.ups,
            parts: self.parts.clone()?,
        })
    }
}

// Whether two paths begin in the same place: both rooted, or the same steps up.
fn same_anchor(rooted: bool, ups: u32, other_rooted: bool, other_ups: u32) -> bool
    ensures { result ≡ pointwise ◌==◌ (anchor rooted ups) (anchor other_rooted other_ups) }
{
    match (rooted, other_rooted) {
        (true, true) => true,
        (false, false) => ups == other_ups,
        (true, false) => false,
        (false, true) => false,
    }
}

// The order of anchors: so many steps up, and rooted ones last.
fn anchor_cmp(rooted: bool, ups: u32, other_rooted: bool, other_ups: u32) -> Ordering
    ensures { result ≡ slice_cmp nat_cmp (anchor rooted ups) (anchor other_rooted other_ups) }
{
    match (rooted, other_rooted) {
        (true, true) => Ordering::Equal,
        (true, false) => Ordering::Greater,
        (false, true) => Ordering::Less,
        (false, false) => ups.cmp(&other_ups),
    }
}

impl PartialEq for TreePath {
    ghost eq = { pointwise (pointwise ◌==◌) };

    ghost laws = { Prim.search (comparing, rules) };

    fn eq(&self, other: &TreePath) -> bool {
        same_anchor(self.rooted, self.ups, other.rooted, other.ups)
            && self.parts.is_same(&other.parts)
    }
}

impl Eq for TreePath {
    ghost laws = { Prim.search (comparing, rules) };
}

impl Ord for TreePath {
    ghost cmp = { path_cmp };

    ghost total = { Prim.search (comparing, rules) };

    ghost matches_partial_cmp = { Prim.search (comparing, rules) };

    ghost matches_eq = { lists_ties (slice_cmp nat_cmp) (Prim.search (comparing, rules)) };

    fn cmp(&self, other: &TreePath) -> Ordering {
        match anchor_cmp(self.rooted, self.ups, other.rooted, other.ups) {
            Ordering::Equal => self.parts.order(&other.parts),
            differ => differ,
        }
    }
}

impl PartialOrd for TreePath {
    ghost partial_cmp = { as_partial_cmp path_cmp };

    ghost laws = { partial_order_from_own_ties
        (Prim.search (comparing, rules))
        (lists_ties (slice_cmp nat_cmp) (Prim.search (comparing, rules))) };

    fn partial_cmp(&self, other: &TreePath) -> Option<Ordering> {
        Some(self.cmp(other))
    }
}

impl Hash for TreePath {
    ghost hash_input = { path_fed };

    ghost respects_eq = { (fed.same_Alike path_fed
        (λ x y. slice_eq-Decides bytes_eq-Decides x y (pointwise (pointwise ◌==◌) x y) refl)).fed };

    fn hash<H: Hasher>(&self, state: &mut H) {
        self.is_rooted().hash(state);
        self.steps_up().hash(state);
        self.parts_text().hash(state);
    }
}

/// What is read is a path. A path's text reads as that path. Two texts with `/` between, of which
/// the second doesn't begin with `/`, read as the one path and from there the other. From a path
/// one without steps up only adds its parts.
pub fn path_rule()
    ensures path { (text : List ℕ) (key : Path) → path_of text ≡ Ok key → IsPath key }
    ensures again { (key : Path) → IsPath key → length (text_of_path key) ≤ 4096
        → path_of (text_of_path key) ≡ Ok key }
    ensures between { (one other : List ℕ) (key more : Path) → path_of one ≡ Ok key
        → path_of other ≡ Ok more → slice_index other 0 ≢ 47 → length one + length other < 4096
        → path_of (one ++ 47 ∷ other) ≡ Ok (joined key more) }
    ensures below { (key parts : Path) → IsPath key
        → joined key ((46 ∷ []) ∷ parts) ≡ key ++ parts }
{}
