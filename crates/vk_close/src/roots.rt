//! The facts from which all else follows.
ghost use Rattle.std.specs.Prelude.{◌≡◌, ◌++◌, ◌∷◌, [], IfOk, OnOk, flat_map, if◌then◌else◌};
ghost use Rattle.vk_spec.specs.Manifests.{default};
ghost use Rattle.vk_base.specs.FeatureViews.{feature_view};
ghost use Rattle.vk_model.specs.SettingViews.{setting_view};
ghost use Rattle.vk_worklist.specs.Entries.{AreRoots, reasons_in};
ghost use Rattle.vk_close.specs.Roots.{root_reason};

use std::alloc::Global;
use vk_base::{FeatureName, Memory, TripletName};
use vk_model::{Cause, Fact, Setting, Who};

fn root_need(triplet: &TripletName, feature: &FeatureName) -> Result<(Fact, Cause), Memory>
    ensures { IfOk result (λ e.
        reasons_in (e ∷ []) ≡ root_reason triplet.now (feature_view feature.now) ∷ []) }
{
    let who = Who::Root(triplet.clone()?);
    let feature = feature.clone()?;
    Ok((Fact::Need { who, feature }, Cause::Root))
}

// Adds the need of a feature of the root.
fn push_root(
    triplet: &TripletName,
    feature: &FeatureName,
    given: &mut Vec<(Fact, Cause)>,
) -> Result<(), Memory>
    ensures { OnOk result (reasons_in given.new.items ≡ reasons_in given.old.items
        ++ root_reason triplet.now (feature_view feature.now) ∷ []) }
{
    let entry = root_need(triplet, feature)?;
    given.push(entry)?;
    Ok(())
}

// Adds the needs of features of the root.
fn push_features(
    triplet: &TripletName,
    features: &[FeatureName],
    given: &mut Vec<(Fact, Cause)>,
) -> Result<(), Memory>
    ensures { OnOk result (reasons_in given.new.items ≡ reasons_in given.old.items
        ++ flat_map (λ f. root_reason triplet.now (feature_view f) ∷ []) features.now) }
{
    for feature in features {
        push_root(triplet, feature, given)?;
    }
    Ok(())
}

// Adds the need of the root's default features, unless they are switched off.
fn push_default(
    triplet: &TripletName,
    defaults: bool,
    given: &mut Vec<(Fact, Cause)>,
) -> Result<(), Memory>
    ensures { OnOk result (reasons_in given.new.items ≡ reasons_in given.old.items
        ++ (if defaults then root_reason triplet.now default ∷ [] else [])) }
{
    if defaults {
        return push_root(triplet, &FeatureName::Default, given);
    }
    Ok(())
}

/// The root facts of a setting, each with its cause.
pub fn root_facts(alloc: Global, setting: &Setting) -> Result<Vec<(Fact, Cause)>, Memory>
    ensures { IfOk result (λ given. AreRoots (setting_view setting.now) (reasons_in given.items)) }
{
    let triplet = setting.target.name();
    let mut given = Vec::new(alloc);
    push_root(triplet, &FeatureName::Core, &mut given)?;
    push_features(triplet, setting.features.as_slice(), &mut given)?;
    push_default(triplet, setting.defaults, &mut given)?;
    Ok(given)
}
