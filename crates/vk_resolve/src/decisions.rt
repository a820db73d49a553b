//! What clear reasons come to.
ghost use Rattle.std.specs.Prelude.{◌≡◌, ◌<◌, ◌^◌, ◌∷◌, [], Ok, IfOk, length, map};
ghost use Rattle.vk_spec.specs.Catalogues.{OnlyAsked, OnPages};
ghost use Rattle.vk_base.specs.Stops.{was_out};
ghost use Rattle.vk_resolution.specs.Faults.{has_cycle};
ghost use Rattle.vk_resolution.specs.Lines.{fault_line};
ghost use Rattle.vk_resolution.specs.Outcomes.{IsOutcome};
ghost use Rattle.vk_resolution.specs.Planner.{inputs_of};
ghost use Rattle.vk_resolution.specs.Reasons.{facts_of};
ghost use Rattle.vk_resolution.specs.Selections.{IsChoices};
ghost use Rattle.vk_model.specs.FactViews.{reasons_view};
ghost use Rattle.vk_model.specs.FaultViews.{faults_view, item_view, outcome_view};
ghost use Rattle.vk_model.specs.SettingViews.{instance_view, setting_view};
ghost use Rattle.vk_choices.specs.ChoiceViews.{choices_view};
ghost use Rattle.vk_choices.specs.Clear.{IsClear};
ghost use Rattle.vk_order.specs.Sets.{AreItems};
ghost use Rattle.vk_resolve.specs.Decided.{Orders, RefusesWith, decided};

use std::alloc::Global;
use std::sync::ledger::Ledger;
use vk_base::{Instance, List, Memory, Outage, Steps, Stop, Unread};
use vk_catalogue::Catalogue;
use vk_choices::{Choices, ChooseFault, choose};
use vk_model::{Fault, Outcome, Plan, PlanSet, Reason, Setting};
use vk_order::{OrderFault, plan_order};
use vk_planset::{PlanSetFault, plan_set};

/// What reasons come to, where nothing is wrong with the files that they need.
#[derive(Drop)]
pub(crate) enum Decision {
    Planned(Plan),
    /// The lines of the second phase, the third or the fourth.
    Refused(List<Fault>),
}

impl Decision {
    /// The outcome, with its reasons.
    pub(crate) fn with_reasons(self, reasons: List<Reason>) -> Outcome
        ensures { outcome_view result ≡ Ok (decided (reasons_view reasons) self) }
    {
        match self {
            Decision::Planned(plan) => Outcome::Planned(plan, reasons),
            Decision::Refused(faults) => Outcome::Refused(faults, reasons),
        }
    }
}

// The one line of a cycle.
fn cycle_line(alloc: Global, walk: List<Instance>) -> Result<List<Fault>, Memory>
    ensures { IfOk result (λ lines. faults_view lines ≡ has_cycle (map instance_view walk) ∷ []) }
{
    let mut lines = List::new(alloc);
    lines.push(Fault::Cycle(walk))?;
    Ok(lines)
}

// A set of items in order, or the line of its cycle.
fn ordered(alloc: Global, set: PlanSet) -> Result<Decision, Memory>
    requires items { AreItems (map item_view set.items) }
    requires few { length set.items < 2 ^ 32 }
    ensures { IfOk result (λ d. Orders (map item_view set.items) d) }
{
    match plan_order(alloc, set) {
        Ok(plan) => Ok(Decision::Planned(plan)),
        Err(Unread::Fault(OrderFault::Cycle(walk))) => {
            Ok(Decision::Refused(cycle_line(alloc, walk)?))
        }
        Err(Unread::Memory(memory)) => Err(memory),
    }
}

// What there is in place of a planned set.
fn refused(stop: Stop<PlanSetFault>) -> Result<Decision, Outage>
    ensures { RefusesWith stop result }
{
    match stop {
        Stop::Fault(PlanSetFault::Faults(faults)) => Ok(Decision::Refused(faults)),
        Stop::Failed => Err(Outage::Failed),
        Stop::Memory(memory) => Err(Outage::Memory(memory)),
    }
}

// What choices come to.
fn decide_chosen<C: Catalogue, L: Ledger>(
    alloc: Global,
    cat: &mut C,
    setting: &Setting,
    reasons: &[Reason],
    choices: &Choices,
    steps: &mut Steps<L>,
) -> Result<Decision, Outage>
    requires small { length reasons.now < 2 ^ 32 }
    requires clear { OnPages (λ pages. IsClear (inputs_of (setting_view setting.now) pages)
        (reasons_view reasons.now)) (C.state cat.old) }
    requires choices { OnPages (λ pages. IsChoices (inputs_of (setting_view setting.now) pages)
        (facts_of (reasons_view reasons.now)) (choices_view choices.now)) (C.state cat.old) }
    ensures outcome { IfOk result (λ d. OnPages (λ pages. IsOutcome
        (inputs_of (setting_view setting.now) pages) fault_line
        (decided (reasons_view reasons.now) d)) (C.state cat.old)) }
    ensures asked { OnlyAsked (was_out result) (C.state cat.old) (C.state cat.new) }
{
    match plan_set(alloc, cat, setting, reasons, choices, steps) {
        Ok(set) => Ok(ordered(alloc, set)?),
        Err(stop) => refused(stop),
    }
}

/// What the reasons of a closure without faults come to.
pub(crate) fn decide<C: Catalogue, L: Ledger>(
    alloc: Global,
    cat: &mut C,
    setting: &Setting,
    reasons: &[Reason],
    steps: &mut Steps<L>,
) -> Result<Decision, Outage>
    requires small { length reasons.now < 2 ^ 32 }
    requires clear { OnPages (λ pages. IsClear (inputs_of (setting_view setting.now) pages)
        (reasons_view reasons.now)) (C.state cat.old) }
    ensures outcome { IfOk result (λ d. OnPages (λ pages. IsOutcome
        (inputs_of (setting_view setting.now) pages) fault_line
        (decided (reasons_view reasons.now) d)) (C.state cat.old)) }
    ensures asked { OnlyAsked (was_out result) (C.state cat.old) (C.state cat.new) }
{
    match choose(alloc, cat, reasons) {
        Ok(choices) => decide_chosen(alloc, cat, setting, reasons, &choices, steps),
        Err(Stop::Fault(ChooseFault::Conflicts(faults))) => Ok(Decision::Refused(faults)),
        Err(Stop::Failed) => Err(Outage::Failed),
        Err(Stop::Memory(memory)) => Err(Outage::Memory(memory)),
    }
}
