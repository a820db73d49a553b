ghost use Rattle.std.specs.Prelude.{◌≡◌, ◌==◌, List, ℕ, IfOk};
ghost use Rattle.std.proofs.Common.{rules};
ghost use Rattle.std.specs.Cmp.{partial_order_from_own_ties};
ghost use Rattle.std.specs.Cmp.Rules.{comparing, hashing};
ghost use Rattle.std.specs.Cmp.Lexicographic.{slice_cmp, pointwise};
ghost use Rattle.std.specs.Ordering.{nat_cmp, as_partial_cmp};
ghost use Rattle.vk_base.specs.ShortTexts.{text_fed};

use crate::shared_texts::SharedText;
use std::alloc::{AllocError, Global};
use std::cmp::Ordering;
use std::hash::{Hash, Hasher};
use std::marker::Model;
use std::rc::Rc;

// A text that many values name and few are made of, in the eight bytes of a pointer. A clone takes
// no memory. Contracts see it as its bytes, and its order is theirs.
#[derive(Drop)]
pub(crate) struct TextHandle {
    text: Rc<SharedText>,
}

impl Model for TextHandle {
    ghost use Rattle.std.specs.Prelude.{List, ℕ};

    ghost Value = { List ℕ };

    ghost view = { λ t. t.text.value };
}

impl TextHandle {
    // A handle of a text, which takes a block of its own.
    pub(crate) fn new(alloc: Global, text: SharedText) -> Result<TextHandle, AllocError>
        ensures { IfOk result (λ t. t ≡ text) }
    {
        Ok(TextHandle {
            text: Rc::new(alloc, text)?,
        })
    }

    // The text, borrowed from where it stands.
    pub(crate) fn as_str(&self) -> &str
        ensures { result.now ≡ self.now }
    {
        self.text.as_ref().as_str()
    }
}

impl Clone for TextHandle {
    ghost is_clone = { λ x y. y ≡ x };

    fn clone(&self) -> Result<TextHandle, AllocError> {
        Ok(TextHandle {
            text: self.text.clone()?,
        })
    }
}

impl PartialEq for TextHandle {
    ghost eq = { pointwise ◌==◌ };

    ghost laws = { Prim.search (comparing, rules) };

    fn eq(&self, other: &TextHandle) -> bool {
        self.text.as_ref() == other.text.as_ref()
    }
}

impl Eq for TextHandle {
    ghost laws = { Prim.search (comparing, rules) };
}

impl Ord for TextHandle {
    ghost cmp = { slice_cmp nat_cmp };

    ghost total = { Prim.search (comparing, rules) };

    ghost matches_partial_cmp = { Prim.search (comparing, rules) };

    ghost matches_eq = { Prim.search (comparing, rules) };

    fn cmp(&self, other: &TextHandle) -> Ordering {
        self.text.as_ref().cmp(other.text.as_ref())
    }
}

impl PartialOrd for TextHandle {
    ghost partial_cmp = { as_partial_cmp (slice_cmp nat_cmp) };

    ghost laws = { partial_order_from_own_ties
        (Prim.search (comparing, rules))
        (Prim.search (comparing, rules)) };

    fn partial_cmp(&self, other: &TextHandle) -> Option<Ordering> {
        Some(self.cmp(other))
    }
}

impl Hash for TextHandle {
    ghost hash_input = { text_fed };

    ghost respects_eq = { Prim.search (hashing, rules) };

    fn hash<H: Hasher>(&self, state: &mut H) {
        self.text.as_ref().hash(state);
    }
}
