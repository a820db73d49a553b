//! The certificate that reasons are.
ghost use Rattle.std.specs.Prelude.{◌≡◌, ◌+◌, ◌<◌, ◌≤◌, ◌^◌, [], IfOk, MatchBool, length};
ghost use Rattle.std.specs.Map.{keys_of};
ghost use Rattle.vk_spec.specs.Lists.{NoRepeats};
ghost use Rattle.vk_spec.specs.Catalogues.{OnlyAsked, OnPages};
ghost use Rattle.vk_base.specs.Stops.{was_out};
ghost use Rattle.vk_resolution.specs.Givens.{Pages};
ghost use Rattle.vk_resolution.specs.Planner.{inputs_of};
ghost use Rattle.vk_resolution.specs.Reasons.{facts_of};
ghost use Rattle.vk_model.specs.FactViews.{reasons_view};
ghost use Rattle.vk_model.specs.SettingViews.{setting_view};
ghost use Rattle.vk_worklist.specs.Entries.{AreRoots, facts_in, reasons_in};
ghost use Rattle.vk_worklist.specs.Rows.{AreRows};
ghost use Rattle.vk_worklist.specs.Ticks.{ticks};
ghost use Rattle.vk_close.specs.Kept.{Tracks};
ghost use Rattle.vk_check.specs.Certificates.{IsCertificate};

use crate::certifying::certify_from;
use crate::claims::put_lines;
use indexmap::IndexMap;
use std::alloc::Global;
use std::sync::ledger::Ledger;
use vk_base::{Outage, Steps};
use vk_catalogue::Catalogue;
use vk_close::{PageAsker, root_facts, source_of};
use vk_model::{Cause, Fact, Reason, Setting};
use vk_worklist::Joins;

// Whether reasons on lines are a certificate, by a source of the setting that has taken up nothing
// yet.
fn certify_by<C: Catalogue, L: Ledger>(
    alloc: Global,
    cat: &mut C,
    setting: &Setting,
    source: &mut Joins<PageAsker<'_>>,
    lines: &IndexMap<Fact, Cause>,
    given: &mut Vec<(Fact, Cause)>,
    steps: &mut Steps<L>,
) -> Result<bool, Outage>
    requires small { length lines.now.entries < 2 ^ 32 }
    requires distinct { NoRepeats (facts_in lines.now.entries) }
    requires setting { source.old.asker.setting.now ≡ setting.now }
    requires tracks { (pages : Pages) → Tracks source.old.asker pages [] }
    requires rows { (pages : Pages) →
        AreRows (inputs_of (setting_view source.old.asker.setting.now) pages)
        (keys_of source.old.asker.ports.entries) source.old.rows.items [] }
    requires roots { AreRoots (setting_view setting.now) (reasons_in given.old.items) }
    ensures ticks { steps.new ≤ steps.old + ticks (facts_in lines.now.entries) }
    ensures asked { OnlyAsked (was_out result) (C.state cat.old) (C.state cat.new) }
    ensures certified { IfOk result (λ holds. OnPages (λ pages. MatchBool holds
        (IsCertificate (inputs_of (setting_view setting.now) pages) (reasons_in lines.now.entries))
        (IsCertificate (inputs_of (setting_view setting.now) pages) (reasons_in lines.now.entries)
        → ⊥)) (C.state cat.old)) }
{
    certify_from(alloc, cat, source, lines, given, steps)
}

// Whether reasons on lines are a certificate.
fn certify_setting<C: Catalogue, L: Ledger>(
    alloc: Global,
    cat: &mut C,
    setting: &Setting,
    lines: &IndexMap<Fact, Cause>,
    steps: &mut Steps<L>,
) -> Result<bool, Outage>
    requires small { length lines.now.entries < 2 ^ 32 }
    requires distinct { NoRepeats (facts_in lines.now.entries) }
    ensures ticks { steps.new ≤ steps.old + ticks (facts_in lines.now.entries) }
    ensures asked { OnlyAsked (was_out result) (C.state cat.old) (C.state cat.new) }
    ensures certified { IfOk result (λ holds. OnPages (λ pages. MatchBool holds
        (IsCertificate (inputs_of (setting_view setting.now) pages) (reasons_in lines.now.entries))
        (IsCertificate (inputs_of (setting_view setting.now) pages) (reasons_in lines.now.entries)
        → ⊥)) (C.state cat.old)) }
{
    let mut given = root_facts(alloc, setting)?;
    let mut source = source_of(alloc, setting)?;
    certify_by(alloc, cat, setting, &mut source, lines, &mut given, steps)
}

/// Whether reasons show of themselves that they are the least list of what a project requires: no
/// fact stands twice, all that follows stands on a line, and each line is a root fact or follows
/// from the earlier lines that it cites. It searches for nothing that the lines say, and takes at
/// most one step for each visit and each need of the root among them. `Failed` comes only where the
/// count of faults may have increased. The catalogue is only asked. It has the condition that the
/// lines can be numbered by 32 bits.
pub fn certify<C: Catalogue, L: Ledger>(
    alloc: Global,
    reasons: &[Reason],
    cat: &mut C,
    setting: &Setting,
    steps: &mut Steps<L>,
) -> Result<bool, Outage>
    requires { length reasons.now < 2 ^ 32 }
    ensures certified { IfOk result (λ holds. OnPages (λ pages. MatchBool holds
        (IsCertificate (inputs_of (setting_view setting.now) pages) (reasons_view reasons.now))
        (IsCertificate (inputs_of (setting_view setting.now) pages) (reasons_view reasons.now)
        → ⊥)) (C.state cat.old)) }
    ensures ticks { steps.new ≤ steps.old + ticks (facts_of (reasons_view reasons.now)) }
    ensures asked { OnlyAsked (was_out result) (C.state cat.old) (C.state cat.new) }
{
    let mut lines = IndexMap::new(alloc);
    if !put_lines(&mut lines, reasons)? {
        return Ok(false);
    }
    certify_setting(alloc, cat, setting, &lines, steps)
}
