//! The needs from which all else follows.
ghost use Rattle.std.specs.Prelude.{◌≡◌, ◌∷◌, [], IfOk, OnOk, if◌then◌else◌, map};
ghost use Rattle.vk_spec.specs.Manifests.{core, default};
ghost use Rattle.vk_resolution.specs.Asking.{root_facts_of};
ghost use Rattle.vk_resolution.specs.Worklist.{Notes};
ghost use Rattle.vk_base.specs.FeatureViews.{feature_view};
ghost use Rattle.vk_model.specs.FactViews.{fact_view};
ghost use Rattle.vk_model.specs.SettingViews.{setting_view};
ghost use Rattle.vk_planned.specs.Needs.{facts_view, root_need, root_needs};

use indexmap::IndexSet;
use std::alloc::Global;
use vk_base::{FeatureName, Memory, TripletName};
use vk_model::{Fact, Setting, Who};

fn root_need(triplet: &TripletName, feature: &FeatureName) -> Result<Fact, Memory>
    ensures { IfOk result (λ x. fact_view x ≡ root_need triplet.now (feature_view feature.now)) }
{
    let who = Who::Root(triplet.clone()?);
    let feature = feature.clone()?;
    Ok(Fact::Need { who, feature })
}

// Puts a need behind the others, unless it is there.
fn put(needs: &mut IndexSet<Fact>, need: Fact) -> Result<(), Memory>
    ensures { OnOk result (Notes [] (fact_view need ∷ []) (facts_view needs.old.keys)
        (facts_view needs.new.keys)) }
{
    needs.insert(need)?;
    Ok(())
}

fn put_feature(
    triplet: &TripletName,
    feature: &FeatureName,
    needs: &mut IndexSet<Fact>,
) -> Result<(), Memory>
    ensures { OnOk result (Notes [] (root_need triplet.now (feature_view feature.now) ∷ [])
        (facts_view needs.old.keys) (facts_view needs.new.keys)) }
{
    let need = root_need(triplet, feature)?;
    put(needs, need)
}

fn put_features(
    triplet: &TripletName,
    features: &[FeatureName],
    needs: &mut IndexSet<Fact>,
) -> Result<(), Memory>
    ensures { OnOk result (Notes [] (root_needs triplet.now (map feature_view features.now))
        (facts_view needs.old.keys) (facts_view needs.new.keys)) }
{
    for feature in features {
        put_feature(triplet, feature, needs)?;
    }
    Ok(())
}

fn put_default(
    triplet: &TripletName,
    defaults: bool,
    needs: &mut IndexSet<Fact>,
) -> Result<(), Memory>
    ensures { OnOk result (Notes []
        (root_needs triplet.now (if defaults then default ∷ [] else []))
        (facts_view needs.old.keys) (facts_view needs.new.keys)) }
{
    if defaults {
        return put_feature(triplet, &FeatureName::Default, needs);
    }
    Ok(())
}

fn put_all(needs: &mut IndexSet<Fact>, setting: &Setting) -> Result<(), Memory>
    ensures { OnOk result (Notes [] (root_facts_of (setting_view setting.now))
        (facts_view needs.old.keys) (facts_view needs.new.keys)) }
{
    let triplet = setting.target.name();
    put_feature(triplet, &FeatureName::Core, needs)?;
    put_features(triplet, setting.features.as_slice(), needs)?;
    put_default(triplet, setting.defaults, needs)
}

/// The needs of the root from which all else follows, each once.
pub(crate) fn root_facts(alloc: Global, setting: &Setting) -> Result<IndexSet<Fact>, Memory>
    ensures { IfOk result (λ needs. Notes [] (root_facts_of (setting_view setting.now)) []
        (facts_view needs.keys)) }
{
    let mut needs = IndexSet::new(alloc);
    put_all(&mut needs, setting)?;
    Ok(needs)
}
