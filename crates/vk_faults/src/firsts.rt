ghost use Rattle.std.specs.Prelude.{◌≡◌, ◌<◌, ◌^◌, IfOk, length};
ghost use Rattle.vk_spec.specs.Catalogues.{OnPages, OnlyAsked};
ghost use Rattle.vk_spec.specs.Settings.{Setting};
ghost use Rattle.vk_base.specs.Stops.{was_out};
ghost use Rattle.vk_resolution.specs.Reasons.{IsReasons, facts_of};
ghost use Rattle.vk_resolution.specs.Faults.{first_faults_of};
ghost use Rattle.vk_resolution.specs.Lines.{fault_line};
ghost use Rattle.vk_resolution.specs.Outcomes.{lines_of};
ghost use Rattle.vk_resolution.specs.Planner.{inputs_of};
ghost use Rattle.vk_model.specs.FactViews.{reasons_view};
ghost use Rattle.vk_model.specs.FaultViews.{faults_view};

use crate::notes::{faults_of, notes_of};
use std::alloc::Global;
use vk_base::{List, Outage};
use vk_catalogue::Catalogue;
use vk_fault_lines::sorted;
use vk_model::{Fault, Reason};

/// The lines of the first phase for these reasons: what is wrong with the files that their facts
/// need, each with the first line that meets it, sorted by their printed bytes. It only asks, and
/// of a port without a given version nothing more.
pub fn first_faults<C: Catalogue>(
    alloc: Global,
    cat: &mut C,
    reasons: &[Reason],
) -> Result<List<Fault>, Outage>
    requires small { length reasons.now < 2 ^ 32 }
    ensures asked { OnlyAsked (was_out result) (C.state cat.old) (C.state cat.new) }
    ensures faults { IfOk result (λ faults. OnPages (λ pages. (setting : Setting)
        → IsReasons (inputs_of setting pages) (reasons_view reasons.now)
        → faults_view faults ≡ lines_of fault_line (first_faults_of (inputs_of setting pages)
        (facts_of (reasons_view reasons.now)))) (C.state cat.old)) }
{
    let notes = notes_of(alloc, cat, reasons)?;
    let faults = faults_of(alloc, notes)?;
    Ok(sorted(alloc, faults)?)
}
