//! The planned set of choices.
ghost use Rattle.std.specs.Prelude.{◌≡◌, ◌+◌, ◌<◌, ◌≤◌, ◌^◌, ℕ, [], false, true, List, None};
ghost use Rattle.std.specs.Prelude.{IfOk, OnOk, length, map, slice_get};
ghost use Rattle.vk_spec.specs.Catalogues.{OnlyAsked, OnPages};
ghost use Rattle.vk_spec.specs.Settings as plain_setting;
ghost use Rattle.vk_base.specs.Stops.{has_failed};
ghost use Rattle.vk_resolution.specs.Asking as plain;
ghost use Rattle.vk_resolution.specs.Faults.{third_faults_of};
ghost use Rattle.vk_resolution.specs.Givens.{Pages};
ghost use Rattle.vk_resolution.specs.Planner.{inputs_of};
ghost use Rattle.vk_resolution.specs.Planning.{IsPlanned};
ghost use Rattle.vk_resolution.specs.Reasons.{facts_of};
ghost use Rattle.vk_resolution.specs.Selections.{IsChoices};
ghost use Rattle.vk_model.specs.FactViews.{fact_view, reasons_view};
ghost use Rattle.vk_model.specs.FaultViews.{fault_view, item_view};
ghost use Rattle.vk_model.specs.SettingViews.{instance_view, setting_view};
ghost use Rattle.vk_worklist.specs.Ticks.{ticks};
ghost use Rattle.vk_choices.specs.ChoiceViews.{choices_view};
ghost use Rattle.vk_choices.specs.Clear.{IsClear};
ghost use Rattle.vk_order.specs.Sets.{AreItems};
ghost use Rattle.vk_planned.specs.Flaws.{flaw_in};
ghost use Rattle.vk_planset.specs.Assembled.{AreAssembled, IsTold};
ghost use Rattle.vk_planset.specs.Judging.{IsJudged};
ghost use Rattle.vk_planset.specs.Places.{seat_order};
ghost use Rattle.vk_planset.specs.Sets.{AreThird, IsSet, OnFaults};

use crate::items::items_of;
use crate::judging::third_faults;
use crate::orders::order_of;
use crate::seats::seats_of;
use indexmap::IndexSet;
use std::alloc::Global;
use std::sync::ledger::Ledger;
use vk_base::{Instance, List, Memory, Steps, Stop};
use vk_catalogue::Catalogue;
use vk_choices::Choices;
use vk_fault_lines::sorted;
use vk_model::{Fact, Fault, Item, PlanSet, Reason, Setting};
use vk_planned::{Planned, plan_needs};
use vk_rules::Flaw;

/// Why there is no planned set.
#[derive(Drop)]
pub enum PlanSetFault {
    /// The features that are needed and that the chosen versions lack, and what isn't supported,
    /// in the order in which the lines are printed.
    Faults(List<Fault>),
}

// The items of needs and of the edges between them, whose instances stand in this order.
fn items_in(
    alloc: Global,
    choices: &Choices,
    needs: &[Fact],
    edges: &[(usize, usize)],
    order: &IndexSet<Instance>,
) -> Result<List<Item>, Memory>
    requires { map instance_view order.now.keys
        ≡ seat_order choices.now.ports.entries (map fact_view needs.now) }
    ensures { IfOk result (λ items. AreAssembled choices.now.ports.entries
        (map fact_view needs.now) edges.now (map item_view items)) }
{
    let seats = seats_of(alloc, order, needs, edges)?;
    Ok(items_of(alloc, choices, order, &seats)?)
}

// The items of the planned needs. Those are among the facts of the reasons, so where the pages are
// told there are no more of them than reasons.
fn assembled(
    alloc: Global,
    choices: &Choices,
    planned: &Planned,
    most: usize,
) -> Result<PlanSet, Memory>
    ensures set { IfOk result (λ s. AreAssembled choices.now.ports.entries
        (map fact_view planned.now.needs.keys) planned.now.edges.items (map item_view s.items)) }
    ensures few { IfOk result (λ _. length planned.now.needs.keys ≤ most) }
{
    let needs = planned.needs.as_slice();
    if needs.len() > most {
        return Err(Memory::without_allocation());
    }
    let order = order_of(alloc, choices, needs)?;
    Ok(PlanSet {
        items: items_in(alloc, choices, needs, planned.edges.as_slice(), &order)?,
    })
}

// Whether no flaw is kept.
fn none_kept(flaws: &[Option<Flaw>]) -> bool
    ensures { result ≡ true → (m : ℕ) → flaw_in (slice_get flaws.now m) ≡ None }
{
    for flaw in flaws {
        if flaw.is_some() {
            return false;
        }
    }
    true
}

// The faults of the third phase. Mostly there are none, and no line is looked at.
fn faults_of(
    alloc: Global,
    reasons: &[Reason],
    choices: &Choices,
    planned: &Planned,
) -> Result<Vec<Fault>, Memory>
    requires small { length reasons.now < 2 ^ 32 }
    ensures { IfOk result (λ faults. (setting : plain_setting.Setting) (pages : Pages)
        → IsJudged (inputs_of setting pages) (reasons_view reasons.now)
        choices.now.ports.entries (map fact_view planned.now.needs.keys) planned.now.edges.items
        planned.now.flaws.items
        → map fault_view faults.items ≡ third_faults_of (inputs_of setting pages)
        (facts_of (reasons_view reasons.now)) (map fact_view planned.now.needs.keys)) }
{
    if none_kept(&planned.flaws) {
        return Ok(Vec::new(alloc));
    }
    third_faults(alloc, reasons, choices, planned)
}

// Tells the faults, if there are any.
fn tell(alloc: Global, faults: Vec<Fault>) -> Result<(), Stop<PlanSetFault>>
    ensures clear { OnOk result (map fault_view faults.items ≡ []) }
    ensures faults { OnFaults result (λ lines. IsTold (map fault_view faults.items) lines) }
    ensures calm { has_failed result ≡ false }
{
    if faults.is_empty() {
        return Ok(());
    }
    Err(Stop::Fault(PlanSetFault::Faults(sorted(alloc, faults)?)))
}

// That the plan can serve all that is needed.
fn check(
    alloc: Global,
    reasons: &[Reason],
    choices: &Choices,
    planned: &Planned,
) -> Result<(), Stop<PlanSetFault>>
    requires small { length reasons.now < 2 ^ 32 }
    ensures clear { OnOk result ((setting : plain_setting.Setting) (pages : Pages)
        → IsJudged (inputs_of setting pages) (reasons_view reasons.now)
        choices.now.ports.entries (map fact_view planned.now.needs.keys) planned.now.edges.items
        planned.now.flaws.items
        → third_faults_of (inputs_of setting pages) (facts_of (reasons_view reasons.now))
        (map fact_view planned.now.needs.keys) ≡ []) }
    ensures faults { OnFaults result (λ lines. (setting : plain_setting.Setting) (pages : Pages)
        → IsJudged (inputs_of setting pages) (reasons_view reasons.now)
        choices.now.ports.entries (map fact_view planned.now.needs.keys) planned.now.edges.items
        planned.now.flaws.items
        → AreThird (inputs_of setting pages) (facts_of (reasons_view reasons.now)) lines) }
    ensures calm { has_failed result ≡ false }
{
    let faults = faults_of(alloc, reasons, choices, planned)?;
    tell(alloc, faults)
}

// The planned set, or what it can't serve.
fn set_of(
    alloc: Global,
    reasons: &[Reason],
    choices: &Choices,
    planned: &Planned,
) -> Result<PlanSet, Stop<PlanSetFault>>
    requires small { length reasons.now < 2 ^ 32 }
    ensures set { IfOk result (λ s. (setting : plain_setting.Setting) (pages : Pages)
        → IsJudged (inputs_of setting pages) (reasons_view reasons.now)
        choices.now.ports.entries (map fact_view planned.now.needs.keys) planned.now.edges.items
        planned.now.flaws.items
        → IsSet (inputs_of setting pages) (facts_of (reasons_view reasons.now))
        (map item_view s.items)) }
    ensures items { IfOk result (λ s. AreItems (map item_view s.items)) }
    ensures few { IfOk result (λ s. length s.items < 2 ^ 32) }
    ensures faults { OnFaults result (λ lines. (setting : plain_setting.Setting) (pages : Pages)
        → IsJudged (inputs_of setting pages) (reasons_view reasons.now)
        choices.now.ports.entries (map fact_view planned.now.needs.keys) planned.now.edges.items
        planned.now.flaws.items
        → AreThird (inputs_of setting pages) (facts_of (reasons_view reasons.now)) lines) }
    ensures calm { has_failed result ≡ false }
{
    check(alloc, reasons, choices, planned)?;
    Ok(assembled(alloc, choices, planned, reasons.len())?)
}

/// An item for each planned instance, in the order of instances: its version, the line of its
/// floor, its features, and the places of what it depends on. `Faults` comes exactly where a
/// needed feature isn't there or isn't supported. The reasons are those of a closure without
/// faults, and the choices are made of them. It takes at most one step for each visit and each
/// need of the root that is planned.
pub fn plan_set<C: Catalogue, L: Ledger>(
    alloc: Global,
    cat: &mut C,
    setting: &Setting,
    reasons: &[Reason],
    choices: &Choices,
    steps: &mut Steps<L>,
) -> Result<PlanSet, Stop<PlanSetFault>>
    requires small { length reasons.now < 2 ^ 32 }
    requires clear { OnPages (λ pages. IsClear (inputs_of (setting_view setting.now) pages)
        (reasons_view reasons.now)) (C.state cat.old) }
    requires choices { OnPages (λ pages. IsChoices (inputs_of (setting_view setting.now) pages)
        (facts_of (reasons_view reasons.now)) (choices_view choices.now)) (C.state cat.old) }
    ensures set { IfOk result (λ s. OnPages (λ pages. IsSet
        (inputs_of (setting_view setting.now) pages) (facts_of (reasons_view reasons.now))
        (map item_view s.items)) (C.state cat.old)) }
    ensures items { IfOk result (λ s. AreItems (map item_view s.items)) }
    ensures few { IfOk result (λ s. length s.items < 2 ^ 32) }
    ensures faults { OnFaults result (λ lines. OnPages (λ pages. AreThird
        (inputs_of (setting_view setting.now) pages) (facts_of (reasons_view reasons.now))
        lines) (C.state cat.old)) }
    ensures ticks { OnPages (λ pages. (planned : List plain.Fact)
        → IsPlanned (inputs_of (setting_view setting.now) pages)
        (facts_of (reasons_view reasons.now)) planned → steps.new ≤ steps.old + ticks planned)
        (C.state cat.old) }
    ensures asked { OnlyAsked (has_failed result) (C.state cat.old) (C.state cat.new) }
{
    let planned = plan_needs(alloc, cat, setting, reasons, choices, steps)?;
    set_of(alloc, reasons, choices, &planned)
}
