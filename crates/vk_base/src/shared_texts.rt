ghost use Rattle.std.specs.Prelude.{◌≡◌, ◌==◌, ◌↔◌, List, ℕ, IfOk, IsTrue};
ghost use Rattle.std.proofs.Common.{rules};
ghost use Rattle.std.specs.List.{fold};
ghost use Rattle.std.specs.Cmp.{partial_order_from_own_ties};
ghost use Rattle.std.specs.Cmp.Rules.{comparing, hashing};
ghost use Rattle.std.specs.Cmp.Lexicographic.{slice_cmp, pointwise};
ghost use Rattle.std.specs.Ordering.{nat_cmp, as_partial_cmp};
ghost use Rattle.vk_base.specs.ShortTexts.{text_fed};

use crate::short_texts::ShortText;
use crate::texts::is_same;
use std::alloc::{AllocError, Global};
use std::cmp::Ordering;
use std::fmt;
use std::hash::{Hash, Hasher};
use std::marker::Model;
use std::rc::Rc;

// Most names and versions are short: they lie in the value itself, and copies share a long one.
#[derive(Drop)]
enum TextBytes {
    Short(ShortText),
    Long(Rc<String>),
}

/// A UTF-8 text that stays as it is. A clone takes no memory: it copies at most 14 bytes, or shares
/// them where there are more. Contracts see it as its bytes, and its order is theirs.
#[derive(Drop)]
pub struct SharedText {
    inner: TextBytes,
}

impl Model for SharedText {
    ghost use Rattle.std.specs.Prelude.{List, ℕ};
    ghost use Rattle.vk_base.specs.SharedTexts.{bytes_in};

    ghost Value = { List ℕ };

    ghost view = { λ t. bytes_in t.inner };
}

impl SharedText {
    /// A copy of a text.
    pub fn from_str(alloc: Global, text: &str) -> Result<SharedText, AllocError>
        ensures { IfOk result (λ t. t ≡ text.now) }
    {
        let inner = match ShortText::of(text) {
            Some(short) => TextBytes::Short(short),
            None => TextBytes::Long(Rc::new(alloc, String::from_str(alloc, text)?)?),
        };
        Ok(SharedText { inner })
    }

    /// The text, borrowed.
    pub fn as_str(&self) -> &str
        ensures { result.now ≡ self.now }
    {
        match &self.inner {
            TextBytes::Short(short) => short.as_str(),
            TextBytes::Long(long) => long.as_ref().as_str(),
        }
    }

    /// Its bytes, borrowed.
    pub fn as_bytes(&self) -> &[u8]
        ensures { result.now ≡ self.now }
    {
        self.as_str().as_bytes()
    }

    /// Whether it is this text.
    pub fn is(&self, other: &str) -> bool
        ensures { IsTrue result ↔ (self.now ≡ other.now) }
    {
        is_same(self.as_str(), other)
    }
}

impl fmt::Display for SharedText {
    ghost use Rattle.std.specs.Prelude.{Some};

    ghost output = { λ t. Some t };

    fn fmt<W: fmt::Write>(&self, f: &mut fmt::Formatter<W>) -> fmt::Result {
        f.write_str(self.as_str())
    }
}

impl Clone for SharedText {
    ghost is_clone = { λ x y. y ≡ x };

    fn clone(&self) -> Result<SharedText, AllocError> {
        let inner = match &self.inner {
            TextBytes::Short(short) => TextBytes::Short(short.clone()?),
            TextBytes::Long(long) => TextBytes::Long(long.clone()?),
        };
        Ok(SharedText { inner })
    }
}

impl PartialEq for SharedText {
    ghost eq = { pointwise ◌==◌ };

    ghost laws = { Prim.search (comparing, rules) };

    fn eq(&self, other: &SharedText) -> bool {
        match (&self.inner, &other.inner) {
            (TextBytes::Short(one), TextBytes::Short(another)) => one.is(another),
            _ => self.as_str() == other.as_str(),
        }
    }
}

impl Eq for SharedText {
    ghost laws = { Prim.search (comparing, rules) };
}

impl Ord for SharedText {
    ghost cmp = { slice_cmp nat_cmp };

    ghost total = { Prim.search (comparing, rules) };

    ghost matches_partial_cmp = { Prim.search (comparing, rules) };

    ghost matches_eq = { Prim.search (comparing, rules) };

    fn cmp(&self, other: &SharedText) -> Ordering {
        self.as_str().cmp(other.as_str())
    }
}

impl PartialOrd for SharedText {
    ghost partial_cmp = { as_partial_cmp (slice_cmp nat_cmp) };

    ghost laws = { partial_order_from_own_ties
        (Prim.search (comparing, rules))
        (Prim.search (comparing, rules)) };

    fn partial_cmp(&self, other: &SharedText) -> Option<Ordering> {
        Some(self.cmp(other))
    }
}

// What a text in a block of its own feeds to a hash: as much as in a value.
fn hash_long<H: Hasher>(text: &str, state: &mut H)
    ensures { state.new ≡ fold H.write state.old (text_fed text.now) }
{
    match ShortText::of(text) {
        Some(short) => state.write(short.padded()),
        None => state.write(text.as_bytes()),
    }
}

impl Hash for SharedText {
    ghost hash_input = { text_fed };

    ghost respects_eq = { Prim.search (hashing, rules) };

    fn hash<H: Hasher>(&self, state: &mut H) {
        match &self.inner {
            TextBytes::Short(short) => state.write(short.padded()),
            TextBytes::Long(long) => hash_long(long.as_ref().as_str(), state),
        }
    }
}
