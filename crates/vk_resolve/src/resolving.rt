//! The outcome of a setting.
ghost use Rattle.std.specs.Prelude.{◌≡◌, ◌<◌, ◌≤◌, ◌^◌, Ok, IfOk, length};
ghost use Rattle.vk_spec.specs.Catalogues.{OnlyAsked, OnPages};
ghost use Rattle.vk_base.specs.Stops.{has_failed, was_out};
ghost use Rattle.vk_resolution.specs.Closures.{HasTooManyFacts, IsClosure};
ghost use Rattle.vk_resolution.specs.Lines.{fault_line};
ghost use Rattle.vk_resolution.specs.Planner.{inputs_of};
ghost use Rattle.vk_model.specs.FaultViews.{closure_view};
ghost use Rattle.vk_model.specs.SettingViews.{setting_view};
ghost use Rattle.vk_worklist.specs.Faults.{OnFault};
ghost use Rattle.vk_resolve.specs.Resolved.{IsResolved};

use crate::decisions::decide;
use std::alloc::Global;
use std::sync::ledger::Ledger;
use vk_base::{Outage, Steps, Stop};
use vk_catalogue::Catalogue;
use vk_close::{CloseFault, close};
use vk_model::{Closure, Outcome, Setting};

// What a closure comes to.
fn outcome_of<C: Catalogue, L: Ledger>(
    alloc: Global,
    cat: &mut C,
    setting: &Setting,
    closure: Closure,
    steps: &mut Steps<L>,
) -> Result<Outcome, Outage>
    requires small { length closure.reasons < 2 ^ 32 }
    requires few { length closure.reasons ≤ setting.now.max_facts }
    requires closure { OnPages (λ pages. IsClosure (inputs_of (setting_view setting.now) pages)
        fault_line (closure_view closure)) (C.state cat.old) }
    ensures resolved { IfOk result (λ o. OnPages (λ pages. IsResolved
        (setting_view setting.now) pages o) (C.state cat.old)) }
    ensures asked { OnlyAsked (was_out result) (C.state cat.old) (C.state cat.new) }
{
    let Closure { reasons, faults } = closure;
    if !faults.is_empty() {
        return Ok(Outcome::Refused(faults, reasons));
    }
    let decision = decide(alloc, cat, setting, reasons.as_slice(), steps)?;
    Ok(decision.with_reasons(reasons))
}

/// What a project comes to: its plan, or the lines of the first phase that has any, with the
/// reasons. Where the catalogue tells its pages, this is the outcome that they and the setting
/// have, and there is no other. `Facts` comes with the setting's number exactly where the project
/// requires more facts than that. `Failed` comes only where the count of faults may have
/// increased. The catalogue is only asked.
pub fn resolve<C: Catalogue, L: Ledger>(
    alloc: Global,
    cat: &mut C,
    setting: &Setting,
    steps: &mut Steps<L>,
) -> Result<Outcome, Stop<CloseFault>>
    ensures resolved { IfOk result (λ o. OnPages (λ pages. IsResolved
        (setting_view setting.now) pages o) (C.state cat.old)) }
    ensures facts { OnFault result setting.now.max_facts (OnPages
        (λ pages. HasTooManyFacts (inputs_of (setting_view setting.now) pages))
        (C.state cat.old)) }
    ensures asked { OnlyAsked (has_failed result) (C.state cat.old) (C.state cat.new) }
{
    let closure = close(alloc, cat, setting, steps)?;
    Ok(outcome_of(alloc, cat, setting, closure, steps)?)
}
