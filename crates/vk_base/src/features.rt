ghost use Rattle.std.specs.Prelude.{◌≡◌, ◌==◌, ◌↔◌, ◌⊎◌, List, ℕ, Ok, Err, Some, IfOk};
ghost use Rattle.std.specs.Prelude.{string_bytes};
ghost use Rattle.std.proofs.Common.{rules};
ghost use Rattle.std.specs.Cmp.{partial_order_from_own_ties};
ghost use Rattle.std.specs.Cmp.Rules.{comparing, hashing};
ghost use Rattle.std.specs.Hash as fed;
ghost use Rattle.std.specs.Cmp.Lexicographic.{slice_cmp, pointwise};
ghost use Rattle.std.specs.Ordering.{nat_cmp, on, as_partial_cmp};
ghost use Rattle.vk_spec.specs.Reading.{Gives};
ghost use Rattle.vk_spec.specs.Manifests.{core, default};
ghost use Rattle.vk_base.specs.declared.names.NameFault.TheVariants as fault;
ghost use Rattle.vk_base.specs.Names.{BreaksFirst, IsFeatureName, is_reserved, reads_feature};
ghost use Rattle.vk_base.specs.Names.{word_rule};
ghost use Rattle.vk_base.specs.Stops.{fault_in};
ghost use Rattle.vk_base.specs.FeatureViews.{feature_view, IsNamed};

use crate::names::{NameFault, WORD, read_name};
use crate::stops::Unread;
use crate::text_handles::TextHandle;
use std::alloc::{AllocError, Global};
use std::cmp::Ordering;
use std::fmt;
use std::hash::{Hash, Hasher};
use std::marker::Model;

fn is_reserved(text: &str) -> bool
    ensures { result ≡ is_reserved text.now }
{
    text == "core" || text == "default"
}

/// The name of a feature that a port's manifest has: at most 200 bytes `a` to `z`, `0` to `9`, `-`
/// and `_`, with no `-` in front, and neither `core` nor `default`. Contracts see it as its bytes,
/// and its order is theirs.
#[derive(Clone, PartialEq, Eq, PartialOrd, Ord, Hash, Drop)]
pub struct NamedFeature {
    text: TextHandle,
}

impl Model for NamedFeature {
    ghost use Rattle.std.specs.Prelude.{List, ℕ, Ok, ◌≡◌};
    ghost use Rattle.vk_base.specs.Names.{reads_feature};

    ghost Value = { List ℕ };

    ghost view = { λ n. n.text };

    ghost invariant = { λ n. reads_feature n.text ≡ Ok n.text };

    ghost inverse = { λ n. record { text = n } };
}

impl NamedFeature {
    /// Reads a feature's name. `Reserved` comes exactly for `core` and `default`, and `Bad` exactly
    /// where the rule fails, with the first byte that breaks it.
    pub fn read(alloc: Global, text: &str) -> Result<NamedFeature, Unread<NameFault>>
        ensures { Gives (λ n. n) fault_in result (reads_feature text.now) }
    {
        if is_reserved(text) {
            return Err(Unread::Fault(NameFault::Reserved));
        }
        Ok(NamedFeature {
            text: TextHandle::new(alloc, read_name(alloc, WORD, text)?)?,
        })
    }

    /// The name as text, which reads as itself.
    pub fn as_str(&self) -> &str
        ensures text { result.now ≡ self.now }
        ensures name { reads_feature self.now ≡ Ok self.now }
    {
        self.text.as_str()
    }
}

impl fmt::Display for NamedFeature {
    ghost use Rattle.std.specs.Prelude.{Some};

    ghost output = { λ n. Some n };

    fn fmt<W: fmt::Write>(&self, f: &mut fmt::Formatter<W>) -> fmt::Result {
        f.write_str(self.as_str())
    }
}

/// What a plan may require of a port besides a version. Contracts see it by `feature_view`, as a
/// text, and its order is that of the texts' bytes.
#[derive(Drop)]
pub enum FeatureName {
    /// What the port has without any feature.
    Core,
    /// Its default features.
    Default,
    /// A feature of its manifest.
    Named(NamedFeature),
}

impl FeatureName {
    /// Reads a feature's name, which is `Named`. `Reserved` comes exactly for `core` and `default`,
    /// and `Bad` exactly where the rule fails, with the first byte that breaks it.
    pub fn read(alloc: Global, text: &str) -> Result<FeatureName, Unread<NameFault>>
        ensures value { Gives feature_view fault_in result (reads_feature text.now) }
        ensures named { IfOk result IsNamed }
    {
        Ok(FeatureName::Named(NamedFeature::read(alloc, text)?))
    }

    /// The name as text.
    pub fn as_str(&self) -> &str
        ensures { result.now ≡ feature_view self.now }
    {
        match self {
            FeatureName::Core => "core",
            FeatureName::Default => "default",
            FeatureName::Named(name) => name.as_str(),
        }
    }
}

impl fmt::Display for FeatureName {
    ghost use Rattle.std.specs.Prelude.{Some};

    ghost output = { λ f. Some (feature_view f) };

    fn fmt<W: fmt::Write>(&self, f: &mut fmt::Formatter<W>) -> fmt::Result {
        f.write_str(self.as_str())
    }
}

impl Clone for FeatureName {
    ghost is_clone = { λ x y. y ≡ x };

    fn clone(&self) -> Result<FeatureName, AllocError> {
        match self {
            FeatureName::Core => Ok(FeatureName::Core),
            FeatureName::Default => Ok(FeatureName::Default),
            FeatureName::Named(name) => Ok(FeatureName::Named(name.clone()?)),
        }
    }
}

impl PartialEq for FeatureName {
    ghost eq = { on feature_view (pointwise ◌==◌) };

    ghost laws = { Prim.search (comparing, rules) };

    fn eq(&self, other: &FeatureName) -> bool {
        self.as_str() == other.as_str()
    }
}

impl Eq for FeatureName {
    ghost laws = { Prim.search (comparing, rules) };
}

impl Ord for FeatureName {
    ghost cmp = { on feature_view (slice_cmp nat_cmp) };

    ghost total = { Prim.search (comparing, rules) };

    ghost matches_partial_cmp = { Prim.search (comparing, rules) };

    ghost matches_eq = { Prim.search (comparing, rules) };

    fn cmp(&self, other: &FeatureName) -> Ordering {
        self.as_str().cmp(other.as_str())
    }
}

impl PartialOrd for FeatureName {
    ghost partial_cmp = { as_partial_cmp (on feature_view (slice_cmp nat_cmp)) };

    ghost laws = { partial_order_from_own_ties
        (Prim.search (comparing, rules))
        (Prim.search (comparing, rules)) };

    fn partial_cmp(&self, other: &FeatureName) -> Option<Ordering> {
        Some(self.cmp(other))
    }
}

impl Hash for FeatureName {
    ghost hash_input = { λ f. fed.str (feature_view f) };

    ghost respects_eq = { Prim.search (hashing, rules) };

    fn hash<H: Hasher>(&self, state: &mut H) {
        self.as_str().hash(state);
    }
}

/// A text is a feature's name exactly where it keeps the rule of words and is neither `core` nor
/// `default`. Those two alone are reserved, and nothing before a fault breaks the rule.
pub fn feature_rule()
    ensures holds { (text name : List ℕ) → reads_feature text ≡ Ok name → IsFeatureName text }
    ensures same { (text name : List ℕ) → reads_feature text ≡ Ok name → name ≡ text }
    ensures only { (text : List ℕ) → IsFeatureName text → reads_feature text ≡ Ok text }
    ensures reserved { (text : List ℕ)
        → (reads_feature text ≡ Err fault.Reserved) ↔ ((text ≡ core) ⊎ (text ≡ default)) }
    ensures first { (text : List ℕ) (at : ℕ) → reads_feature text ≡ Err (fault.Bad at)
        → BreaksFirst word_rule text at }
{}
