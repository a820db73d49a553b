//! What a dependency asks for, fact by fact.
ghost use Rattle.std.specs.Prelude.{◌≡◌, ◌++◌, ◌∷◌, [], OnOk, IfOk, map, flat_map, option_map};
ghost use Rattle.vk_spec.specs.Manifests.{core};
ghost use Rattle.vk_resolution.specs.Settings.{triplet_of, inst};
ghost use Rattle.vk_resolution.specs.Asking.{need, floor, floor_of, asked_of_own};
ghost use Rattle.vk_base.specs.FeatureViews.{feature_view};
ghost use Rattle.vk_version.specs.AskViews.{ask_view};
ghost use Rattle.vk_model.specs.Views.{use_view, dependency_view};
ghost use Rattle.vk_model.specs.SettingViews.{instance_view};
ghost use Rattle.vk_rules.specs.Asked.{facts_view, use_need, needs_of, default_need, own_floor};
ghost use Rattle.vk_rules.specs.Asked.{other_asked};
ghost use Rattle.vk_root.specs.Requirers.{requirer_view};

use vk_base::{FeatureName, List, Memory, PortName};
use vk_expr::{Marks, truth};
use vk_model::{Dependency, Fact, FeatureUse};
use vk_root::Requirer;
use vk_version::Ask;

// The need of a feature.
fn need_of(who: Requirer<'_>, feature: &FeatureName) -> Result<Fact, Memory>
    ensures { IfOk result (λ x. facts_view (x ∷ [])
        ≡ need (requirer_view who.entry) (feature_view feature.now) ∷ []) }
{
    Ok(Fact::Need {
        who: who.to_owned()?,
        feature: feature.clone()?,
    })
}

fn push_need(who: Requirer<'_>, feature: &FeatureName, facts: &mut List<Fact>) -> Result<(), Memory>
    ensures { OnOk result (facts_view facts.new
        ≡ facts_view facts.old ++ need (requirer_view who.entry) (feature_view feature.now) ∷ []) }
{
    let fact = need_of(who, feature)?;
    facts.push(fact)?;
    Ok(())
}

fn push_use(
    who: Requirer<'_>,
    wanted: &FeatureUse,
    marks: &Marks,
    facts: &mut List<Fact>,
) -> Result<(), Memory>
    ensures { OnOk result (facts_view facts.new
        ≡ facts_view facts.old ++ use_need (requirer_view who.entry) marks.now.names wanted.now) }
{
    if truth(&wanted.platform, marks) {
        return push_need(who, &wanted.name, facts);
    }
    Ok(())
}

// The needs of the features that a list names, where they apply.
pub(crate) fn push_uses(
    who: Requirer<'_>,
    uses: &[FeatureUse],
    marks: &Marks,
    facts: &mut List<Fact>,
) -> Result<(), Memory>
    ensures { OnOk result (facts_view facts.new ≡ facts_view facts.old
        ++ needs_of (requirer_view who.entry) marks.now.names (map use_view uses.now)) }
{
    for wanted in uses {
        push_use(who, wanted, marks, facts)?;
    }
    Ok(())
}

fn floor_of(port: &PortName, ask: &Ask) -> Result<Fact, Memory>
    ensures { IfOk result (λ x. facts_view (x ∷ []) ≡ floor port.now (ask_view ask.now) ∷ []) }
{
    Ok(Fact::Floor {
        port: port.clone()?,
        ask: ask.clone()?,
    })
}

// The floor of a minimum, if there is one.
fn push_floor(port: &PortName, minimum: &Option<Ask>, facts: &mut List<Fact>) -> Result<(), Memory>
    ensures { OnOk result (facts_view facts.new
        ≡ facts_view facts.old ++ floor_of port.now (option_map ask_view minimum.now)) }
{
    match minimum {
        Some(ask) => {
            let fact = floor_of(port, ask)?;
            facts.push(fact)?;
            Ok(())
        }
        None => Ok(()),
    }
}

// The floor of a minimum on one's own port; the root has none.
fn push_own_floor(
    who: Requirer<'_>,
    minimum: &Option<Ask>,
    facts: &mut List<Fact>,
) -> Result<(), Memory>
    ensures { OnOk result (facts_view facts.new ≡ facts_view facts.old
        ++ own_floor (requirer_view who.entry) (option_map ask_view minimum.now)) }
{
    match who {
        Requirer::Root(_) => Ok(()),
        Requirer::Inst(port, _) => push_floor(port, minimum, facts),
    }
}

// What a dependency on one's own instance asks for.
pub(crate) fn push_own(
    who: Requirer<'_>,
    marks: &Marks,
    dependency: &Dependency,
    facts: &mut List<Fact>,
) -> Result<(), Memory>
    ensures { OnOk result (facts_view facts.new ≡ facts_view facts.old
        ++ asked_of_own (requirer_view who.entry) marks.now.names
        (dependency_view dependency.now)) }
{
    push_uses(who, dependency.features.as_slice(), marks, facts)?;
    push_own_floor(who, &dependency.minimum, facts)
}

fn push_default(who: Requirer<'_>, off: bool, facts: &mut List<Fact>) -> Result<(), Memory>
    ensures { OnOk result (facts_view facts.new
        ≡ facts_view facts.old ++ default_need (requirer_view who.entry) off) }
{
    if off {
        return Ok(());
    }
    push_need(who, &FeatureName::Default, facts)
}

// The needs of another instance, without those that the dependency lists.
fn push_first(who: Requirer<'_>, off: bool, facts: &mut List<Fact>) -> Result<(), Memory>
    ensures { OnOk result (facts_view facts.new ≡ facts_view facts.old
        ++ need (requirer_view who.entry) core ∷ default_need (requirer_view who.entry) off) }
{
    push_need(who, &FeatureName::Core, facts)?;
    push_default(who, off, facts)
}

// What a dependency on another instance asks for.
pub(crate) fn push_other(
    other: Requirer<'_>,
    off: bool,
    marks: &Marks,
    dependency: &Dependency,
    facts: &mut List<Fact>,
) -> Result<(), Memory>
    ensures { OnOk result (facts_view facts.new ≡ facts_view facts.old
        ++ other_asked (requirer_view other.entry) off marks.now.names
        (dependency_view dependency.now)) }
{
    push_first(other, off, facts)?;
    push_uses(other, dependency.features.as_slice(), marks, facts)?;
    push_floor(&dependency.name, &dependency.minimum, facts)
}
