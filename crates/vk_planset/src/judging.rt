//! The third phase: what the plan can't serve.
ghost use Rattle.std.specs.Prelude.{◌≡◌, ◌++◌, ◌∷◌, ◌<◌, ◌^◌, [], Some, IfOk, OnOk};
ghost use Rattle.std.specs.Prelude.{length, map, option_map, slice_get};
ghost use Rattle.vk_spec.specs.Settings as plain;
ghost use Rattle.vk_base.specs.FeatureViews.{feature_view};
ghost use Rattle.vk_resolution.specs.Faults.{third_faults_of};
ghost use Rattle.vk_resolution.specs.Givens.{Pages};
ghost use Rattle.vk_resolution.specs.Planner.{inputs_of};
ghost use Rattle.vk_resolution.specs.Reasons.{facts_of};
ghost use Rattle.vk_model.specs.FactViews.{fact_view, reasons_view, who_view};
ghost use Rattle.vk_model.specs.FaultViews.{fault_view};
ghost use Rattle.vk_rules.specs.Flaws.{flaw_faults};
ghost use Rattle.vk_planned.specs.Flaws.{flaw_in};
ghost use Rattle.vk_planset.specs.Judging.{IsJudged, faults_in, flaw_of, flaw_told, version_told};

use std::alloc::Global;
use vk_base::{FeatureName, Memory};
use vk_choices::Choices;
use vk_model::{Fact, Fault, Reason, Who};
use vk_planned::Planned;
use vk_rules::Flaw;
use vk_version::Version;

fn copy_of(who: &Who) -> Result<Who, Memory>
    ensures { IfOk result (λ w. who_view w ≡ who_view who.now) }
{
    match who {
        Who::Root(triplet) => Ok(Who::Root(triplet.clone()?)),
        Who::Inst(inst) => Ok(Who::Inst(inst.clone()?)),
    }
}

fn version_of(version: Option<&Version>) -> Result<Option<Version>, Memory>
    ensures { IfOk result (λ v. v ≡ option_map (λ w. w.now) version.entry) }
{
    match version {
        Some(version) => Ok(Some(version.clone()?)),
        None => Ok(None),
    }
}

// Who needs a feature, and the feature, copied.
fn need_of(who: &Who, feature: &FeatureName) -> Result<(Who, FeatureName), Memory>
    ensures { IfOk result (λ need. (who_view need.0 ≡ who_view who.now)
        × (feature_view need.1 ≡ feature_view feature.now)) }
{
    let feature = feature.clone()?;
    let who = copy_of(who)?;
    Ok((who, feature))
}

// A flaw of a need as it is told.
fn flawed(flaw: Flaw, who: Who, feature: FeatureName, version: Option<Version>, line: u32) -> Fault
    ensures { fault_view result ∷ [] ≡ flaw_faults (who_view who) (feature_view feature) version
        line (Some flaw) }
{
    match flaw {
        Flaw::NoFeature => Fault::NoFeature {
            who,
            feature,
            version,
            line,
        },
        Flaw::Unsupported => Fault::Unsupported {
            who,
            feature,
            version,
            line,
        },
    }
}

// A flaw as it is told.
fn fault_of(
    flaw: Flaw,
    who: &Who,
    feature: &FeatureName,
    version: Option<&Version>,
    line: u32,
) -> Result<Fault, Memory>
    ensures { IfOk result (λ f. fault_view f ∷ [] ≡ flaw_faults (who_view who.now)
        (feature_view feature.now) (option_map (λ w. w.now) version.entry) line (Some flaw)) }
{
    let version = version_of(version)?;
    match need_of(who, feature) {
        Ok((who, feature)) => Ok(flawed(flaw, who, feature, version, line)),
        Err(memory) => {
            drop(version);
            Err(memory)
        }
    }
}

// The version that is told with a need: that of its port's choice.
fn version_told<'a>(choices: &'a Choices, who: &Who) -> Option<&'a Version>
    ensures { option_map (λ v. v.now) result
        ≡ version_told choices.now.ports.entries (who_view who.now) }
{
    match who {
        Who::Root(_) => None,
        Who::Inst(inst) => Some(&choices.of(&inst.port)?.version),
    }
}

// A flaw of a fact, on the line of the fact.
fn tell_flaw(choices: &Choices, flaw: Flaw, fact: &Fact, line: u32) -> Result<Option<Fault>, Memory>
    ensures { IfOk result (λ o. faults_in o ≡ flaw_told choices.now.ports.entries
        (fact_view fact.now) (Some flaw) line) }
{
    match fact {
        Fact::Need { who, feature } => {
            let version = version_told(choices, who);
            Ok(Some(fault_of(flaw, who, feature, version, line)?))
        }
        Fact::Floor { .. } => Ok(None),
        Fact::Visit { .. } => Ok(None),
    }
}

// The flaw at a place, if there is one.
fn flaw_in(flaws: &[Option<Flaw>], place: usize) -> Option<Flaw>
    ensures { result ≡ flaw_in (slice_get flaws.now place) }
{
    match flaws.get(place) {
        Some(flaw) => *flaw,
        None => None,
    }
}

// The flaw of a fact, if it is a need that has one.
fn flaw_of(planned: &Planned, fact: &Fact) -> Option<Flaw>
    ensures { result ≡ flaw_of (map fact_view planned.now.needs.keys) planned.now.flaws.items
        (fact_view fact.now) }
{
    match planned.needs.get_index_of(fact) {
        Some(place) => flaw_in(planned.flaws.as_slice(), place),
        None => None,
    }
}

// What is told of a fact.
fn judge(
    choices: &Choices,
    planned: &Planned,
    fact: &Fact,
    line: u32,
) -> Result<Option<Fault>, Memory>
    ensures { IfOk result (λ o. faults_in o ≡ flaw_told choices.now.ports.entries
        (fact_view fact.now) (flaw_of (map fact_view planned.now.needs.keys)
        planned.now.flaws.items (fact_view fact.now)) line) }
{
    match flaw_of(planned, fact) {
        Some(flaw) => tell_flaw(choices, flaw, fact, line),
        None => Ok(None),
    }
}

// Pushes a fault, if there is one.
fn push_fault(fault: Option<Fault>, faults: &mut Vec<Fault>) -> Result<(), Memory>
    ensures { OnOk result (map fault_view faults.new.items ≡ map fault_view faults.old.items
        ++ faults_in fault) }
{
    if let Some(fault) = fault {
        faults.push(fault)?;
    }
    Ok(())
}

/// What is wrong with the needs among the facts, each on its line, in the order of lines.
pub(crate) fn third_faults(
    alloc: Global,
    reasons: &[Reason],
    choices: &Choices,
    planned: &Planned,
) -> Result<Vec<Fault>, Memory>
    requires small { length reasons.now < 2 ^ 32 }
    ensures { IfOk result (λ faults. (setting : plain.Setting) (pages : Pages)
        → IsJudged (inputs_of setting pages) (reasons_view reasons.now)
        choices.now.ports.entries (map fact_view planned.now.needs.keys) planned.now.edges.items
        planned.now.flaws.items
        → map fault_view faults.items ≡ third_faults_of (inputs_of setting pages)
        (facts_of (reasons_view reasons.now)) (map fact_view planned.now.needs.keys)) }
{
    let mut faults = Vec::new(alloc);
    let mut line = 0;
    for reason in reasons {
        line += 1;
        let fault = judge(choices, planned, &reason.fact, line)?;
        push_fault(fault, &mut faults)?;
    }
    Ok(faults)
}
