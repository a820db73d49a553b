//! What is wrong with a feature that is needed of a manifest.
ghost use Rattle.std.specs.Prelude.{◌≡◌, ℕ, List, Option};
ghost use Rattle.vk_spec.specs.Versions.{Version};
ghost use Rattle.vk_expr.specs.Views.{condition_of};
ghost use Rattle.vk_spec.specs.Conditions.{holds};
ghost use Rattle.vk_base.specs.FeatureViews.{feature_view};
ghost use Rattle.vk_resolution.specs.Settings as plain;
ghost use Rattle.vk_resolution.specs.Settings.{feature_of};
ghost use Rattle.vk_resolution.specs.Faults.{feature_faults};
ghost use Rattle.vk_model.specs.Views.{manifest_view};
ghost use Rattle.vk_rules.specs.Flaws.{flaw_faults, judged_under, support_faults};

use vk_base::FeatureName;
use vk_expr::{Expr, Marks, truth};
use vk_model::Manifest;
use vk_root::feature_of;

/// What is wrong with a feature that is needed.
#[derive(Clone, Copy, Debug, PartialEq, Eq)]
pub enum Flaw {
    /// The manifest lacks it.
    NoFeature,
    /// It isn't supported for its triplet.
    Unsupported,
}

// What is wrong with something that is supported where this holds.
fn support_flaw(supports: &Expr, marks: &Marks) -> Option<Flaw>
    ensures { (who : plain.Who) (f : List ℕ) (v : Option Version) (n : ℕ)
        → support_faults who f v n (holds (condition_of supports.now) marks.now.names)
        ≡ flaw_faults who f v n result }
{
    if truth(supports, marks) {
        return None;
    }
    Some(Flaw::Unsupported)
}

// What is wrong with a named feature of a manifest.
fn feature_flaw(manifest: &Manifest, name: &str, marks: &Marks) -> Option<Flaw>
    ensures { (who : plain.Who) (f : List ℕ) (v : Option Version) (n : ℕ)
        → feature_faults who f v marks.now.names
        (feature_of (manifest_view manifest.now) name.now) n
        ≡ flaw_faults who f v n result }
{
    match feature_of(manifest, name) {
        Some(feature) => support_flaw(&feature.supports, marks),
        None => Some(Flaw::NoFeature),
    }
}

// What is wrong with a feature of a manifest under these marks.
pub(crate) fn flaw_under(marks: &Marks, feature: &FeatureName, manifest: &Manifest) -> Option<Flaw>
    ensures { (who : plain.Who) (v : Option Version) (n : ℕ)
        → judged_under who (feature_view feature.now) v marks.now.names
        (manifest_view manifest.now) n
        ≡ flaw_faults who (feature_view feature.now) v n result }
{
    match feature {
        FeatureName::Core => support_flaw(&manifest.supports, marks),
        FeatureName::Default => None,
        FeatureName::Named(name) => feature_flaw(manifest, name.as_str(), marks),
    }
}
