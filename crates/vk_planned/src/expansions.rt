//! What a need asks for in turn, and what is wrong with it.
ghost use Rattle.std.specs.Prelude.{◌≡◌, ◌+◌, ◌≤◌, ℕ, [], None, Option, IfOk};
ghost use Rattle.std.specs.List.{Contains};
ghost use Rattle.vk_spec.specs.Catalogues.{OnlyAsked, OnPages};
ghost use Rattle.vk_spec.specs.Versions.{Version};
ghost use Rattle.vk_base.specs.Stops.{was_out};
ghost use Rattle.vk_base.specs.FeatureViews.{feature_view};
ghost use Rattle.vk_resolution.specs.Asking as plain;
ghost use Rattle.vk_resolution.specs.Asking.{asked_of};
ghost use Rattle.vk_resolution.specs.Faults.{judged};
ghost use Rattle.vk_resolution.specs.Settings as settings;
ghost use Rattle.vk_model.specs.FactViews.{fact_view, who_view};
ghost use Rattle.vk_model.specs.SettingViews.{instance_view, setting_view};
ghost use Rattle.vk_model.specs.Views.{manifest_view};
ghost use Rattle.vk_planned.specs.Bases.{inputs_at, facts_at, IsRuled, IsSound};
ghost use Rattle.vk_rules.specs.Flaws.{flaw_faults};
ghost use Rattle.vk_planned.specs.Flaws.{HasFlaw};
ghost use Rattle.vk_planned.specs.Graphs.{asked_by_need};
ghost use Rattle.vk_planned.specs.Manifests.{asked_by_found, found_view, judged_by_found};
ghost use Rattle.vk_planned.specs.Needs.{facts_view, needs_in};

use crate::bases::Basis;
use crate::manifests::chosen_manifest;
use std::alloc::Global;
use std::rc::Rc;
use std::sync::ledger::Ledger;
use vk_base::{FeatureName, Instance, List, Memory, Outage, Steps};
use vk_catalogue::Catalogue;
use vk_model::{Fact, Manifest, Who};
use vk_rules::{Flaw, Rules};

/// What a need asks for.
#[derive(Drop)]
pub(crate) struct Expansion {
    /// The needs that it asks for, and minimums.
    pub(crate) asked: List<Fact>,
    /// What is wrong with the feature.
    pub(crate) flaw: Option<Flaw>,
}

// What is asked for where there is no manifest.
fn nothing(alloc: Global) -> Expansion
    ensures asked { result.asked ≡ [] }
    ensures flaw { result.flaw ≡ None }
{
    Expansion {
        asked: List::new(alloc),
        flaw: None,
    }
}

// What a feature of a manifest asks for. It is one step.
fn expand_by<L: Ledger>(
    alloc: Global,
    rules: &Rules<'_>,
    who: &Who,
    feature: &FeatureName,
    manifest: &Manifest,
    steps: &mut Steps<L>,
) -> Result<Expansion, Memory>
    ensures asked { IfOk result (λ e. facts_view e.asked ≡ asked_of (setting_view rules.now)
        (who_view who.now) (feature_view feature.now) (manifest_view manifest.now)) }
    ensures flaw { IfOk result (λ e. (v : Option Version) (n : ℕ)
        → judged (setting_view rules.now) (who_view who.now) (feature_view feature.now) v
        (manifest_view manifest.now) n
        ≡ flaw_faults (who_view who.now) (feature_view feature.now) v n e.flaw) }
    ensures ticks { steps.new ≡ steps.old + 1 }
{
    let flaw = rules.flaw(who, feature, manifest);
    let asked = rules.consequences(alloc, who, feature, manifest, steps)?;
    Ok(Expansion { asked, flaw })
}

// The same, where the manifest may not be there.
fn expand_found<L: Ledger>(
    alloc: Global,
    rules: &Rules<'_>,
    who: &Who,
    feature: &FeatureName,
    found: Option<Rc<Manifest>>,
    steps: &mut Steps<L>,
) -> Result<Expansion, Memory>
    ensures asked { IfOk result (λ e. facts_view e.asked ≡ asked_by_found (setting_view rules.now)
        (who_view who.now) (feature_view feature.now) (found_view found)) }
    ensures flaw { IfOk result (λ e. (v : Option Version) (n : ℕ)
        → judged_by_found (setting_view rules.now) (who_view who.now) (feature_view feature.now) v
        (found_view found) n
        ≡ flaw_faults (who_view who.now) (feature_view feature.now) v n e.flaw) }
    ensures ticks { steps.new ≤ steps.old + 1 }
{
    match found {
        Some(manifest) => expand_by(alloc, rules, who, feature, &manifest, steps),
        None => Ok(nothing(alloc)),
    }
}

// What a need of an instance asks for, by the manifest of the version that is chosen for its port.
fn expand_instance<C: Catalogue, L: Ledger>(
    alloc: Global,
    cat: &mut C,
    basis: &Basis<'_>,
    who: &Who,
    inst: &Instance,
    feature: &FeatureName,
    steps: &mut Steps<L>,
) -> Result<Expansion, Outage>
    requires who { who_view who.now ≡ settings.inst (instance_view inst.now) }
    requires ruled { IsRuled basis.now }
    requires sound { OnPages (IsSound basis.now) (C.state cat.old) }
    requires needed { OnPages (λ pages. Contains (facts_at basis.now)
        (plain.need (who_view who.now) (feature_view feature.now))) (C.state cat.old) }
    ensures asked { IfOk result (λ e. OnPages (λ pages. needs_in e.asked
        ≡ asked_by_need (inputs_at basis.now pages) (facts_at basis.now)
        (plain.need (who_view who.now) (feature_view feature.now))) (C.state cat.old)) }
    ensures flaw { IfOk result (λ e. OnPages (λ pages. HasFlaw (inputs_at basis.now pages)
        (facts_at basis.now) (plain.need (who_view who.now) (feature_view feature.now)) e.flaw)
        (C.state cat.old)) }
    ensures ticks { steps.new ≤ steps.old + 1 }
    ensures only { OnlyAsked (was_out result) (C.state cat.old) (C.state cat.new) }
{
    let found = chosen_manifest(cat, basis.choices, &inst.port)?;
    Ok(expand_found(alloc, &basis.rules, who, feature, found, steps)?)
}

// What a feature that someone needs asks for.
fn expand_need<C: Catalogue, L: Ledger>(
    alloc: Global,
    cat: &mut C,
    basis: &Basis<'_>,
    who: &Who,
    feature: &FeatureName,
    steps: &mut Steps<L>,
) -> Result<Expansion, Outage>
    requires ruled { IsRuled basis.now }
    requires sound { OnPages (IsSound basis.now) (C.state cat.old) }
    requires needed { OnPages (λ pages. Contains (facts_at basis.now)
        (plain.need (who_view who.now) (feature_view feature.now))) (C.state cat.old) }
    ensures asked { IfOk result (λ e. OnPages (λ pages. needs_in e.asked
        ≡ asked_by_need (inputs_at basis.now pages) (facts_at basis.now)
        (plain.need (who_view who.now) (feature_view feature.now))) (C.state cat.old)) }
    ensures flaw { IfOk result (λ e. OnPages (λ pages. HasFlaw (inputs_at basis.now pages)
        (facts_at basis.now) (plain.need (who_view who.now) (feature_view feature.now)) e.flaw)
        (C.state cat.old)) }
    ensures ticks { steps.new ≤ steps.old + 1 }
    ensures only { OnlyAsked (was_out result) (C.state cat.old) (C.state cat.new) }
{
    match who {
        Who::Root(_) => Ok(expand_by(
            alloc,
            &basis.rules,
            who,
            feature,
            &basis.setting.root,
            steps,
        )?),
        Who::Inst(inst) => expand_instance(alloc, cat, basis, who, inst, feature, steps),
    }
}

/// What a need asks for: one of the root by the root's manifest, one of an instance by that of the
/// version that is chosen for its port. A manifest's feature is a step.
pub(crate) fn expand<C: Catalogue, L: Ledger>(
    alloc: Global,
    cat: &mut C,
    basis: &Basis<'_>,
    need: &Fact,
    steps: &mut Steps<L>,
) -> Result<Expansion, Outage>
    requires ruled { IsRuled basis.now }
    requires sound { OnPages (IsSound basis.now) (C.state cat.old) }
    requires needed { OnPages (λ pages. Contains (facts_at basis.now) (fact_view need.now))
        (C.state cat.old) }
    ensures asked { IfOk result (λ e. OnPages (λ pages. needs_in e.asked
        ≡ asked_by_need (inputs_at basis.now pages) (facts_at basis.now) (fact_view need.now))
        (C.state cat.old)) }
    ensures flaw { IfOk result (λ e. OnPages (λ pages. HasFlaw (inputs_at basis.now pages)
        (facts_at basis.now) (fact_view need.now) e.flaw) (C.state cat.old)) }
    ensures ticks { steps.new ≤ steps.old + 1 }
    ensures only { OnlyAsked (was_out result) (C.state cat.old) (C.state cat.new) }
{
    match need {
        Fact::Need { who, feature } => expand_need(alloc, cat, basis, who, feature, steps),
        _ => Ok(nothing(alloc)),
    }
}
