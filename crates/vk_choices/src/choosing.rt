//! The choices of a closure.
ghost use Rattle.std.specs.Prelude.{◌≡◌, ◌≢◌, ◌<◌, ◌^◌, [], false, IfOk, length, map};
ghost use Rattle.vk_spec.specs.Catalogues.{OnlyAsked, OnPages};
ghost use Rattle.vk_spec.specs.Settings.{Setting};
ghost use Rattle.vk_base.specs.Stops.{has_failed};
ghost use Rattle.vk_resolution.specs.Lines.{fault_line};
ghost use Rattle.vk_resolution.specs.Outcomes.{lines_of};
ghost use Rattle.vk_resolution.specs.Planner.{inputs_of};
ghost use Rattle.vk_resolution.specs.Reasons.{facts_of};
ghost use Rattle.vk_resolution.specs.Selections.{IsChoices};
ghost use Rattle.vk_model.specs.FactViews.{reasons_view};
ghost use Rattle.vk_choices.specs.ChoiceViews.{choices_view};
ghost use Rattle.vk_choices.specs.Clear.{IsClear, IsClearOn};
ghost use Rattle.vk_choices.specs.Conflicts.{AreConflicts, OnConflicts};
ghost use Rattle.vk_choices.specs.Settling.{chosen_in, told_in};

use crate::asks::asks_of;
use crate::chosen::{Choices, ChooseFault};
use crate::settling::{Settled, settle};
use std::alloc::Global;
use vk_base::Stop;
use vk_catalogue::Catalogue;
use vk_fault_lines::sorted;
use vk_model::Reason;

// The choices, unless there are conflicts.
fn unless_conflicts(alloc: Global, settled: Settled) -> Result<Choices, Stop<ChooseFault>>
    ensures choices { IfOk result (λ c. choices_view c ≡ chosen_in settled) }
    ensures none { IfOk result (λ c. told_in settled ≡ []) }
    ensures told { OnConflicts result (λ lines. lines ≡ lines_of fault_line (told_in settled)) }
    ensures some { OnConflicts result (λ lines. told_in settled ≢ []) }
    ensures calm { has_failed result ≡ false }
{
    let Settled { choices, conflicts } = settled;
    if conflicts.is_empty() {
        return Ok(choices);
    }
    drop(choices);
    let lines = sorted(alloc, conflicts)?;
    Err(Stop::Fault(ChooseFault::Conflicts(lines)))
}

/// A version for each port that has a floor: of a port with an overlay or an override the one that
/// is given, of any other the floor at or above all its floors. `Conflicts` comes exactly where a
/// port has no such floor, with the first two of those that no other is above. The reasons are
/// those of a closure without faults. The catalogue is only asked.
pub fn choose<C: Catalogue>(
    alloc: Global,
    cat: &mut C,
    reasons: &[Reason],
) -> Result<Choices, Stop<ChooseFault>>
    requires small { length reasons.now < 2 ^ 32 }
    requires clear { OnPages (IsClearOn (reasons_view reasons.now)) (C.state cat.old) }
    ensures choices { IfOk result (λ c. OnPages (λ pages. (setting : Setting)
        → IsClear (inputs_of setting pages) (reasons_view reasons.now)
        → IsChoices (inputs_of setting pages) (facts_of (reasons_view reasons.now))
        (choices_view c)) (C.state cat.old)) }
    ensures conflicts { OnConflicts result (λ lines. OnPages (λ pages. (setting : Setting)
        → IsClear (inputs_of setting pages) (reasons_view reasons.now)
        → AreConflicts (inputs_of setting pages) (facts_of (reasons_view reasons.now)) lines)
        (C.state cat.old)) }
    ensures asked { OnlyAsked (has_failed result) (C.state cat.old) (C.state cat.new) }
{
    let rows = asks_of(alloc, reasons)?;
    let settled = settle(alloc, cat, &rows)?;
    unless_conflicts(alloc, settled)
}
