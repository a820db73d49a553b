ghost use Rattle.std.specs.Prelude.{◌≡◌, ◌↔◌, ◌+◌, ◌++◌, ◌<◌, ◌≤◌, ◌∷◌, [], false, length};
ghost use Rattle.std.specs.Prelude.{◌⊎◌, IsTrue, MatchBool, IfErr, OnOk};
ghost use Rattle.std.specs.List.{Contains};
ghost use Rattle.vk_base.specs.Stops.{has_failed, out_of_memory};
ghost use Rattle.vk_base.specs.declared.stops.Stop.TheVariants as stop;
ghost use Rattle.vk_resolution.specs.Closing.{IsTooMuch};
ghost use Rattle.vk_model.specs.FactViews.{fact_view};
ghost use Rattle.vk_worklist.specs.Entries.{reason_of, reasons_in, facts_in, IsNoted};
ghost use Rattle.vk_worklist.specs.Faults.{OnFault};

use crate::faults::CloseFault;
use indexmap::IndexMap;
use vk_base::Stop;
use vk_model::{Cause, Fact};

fn has(map: &IndexMap<Fact, Cause>, fact: &Fact) -> bool
    ensures { IsTrue result ↔ Contains (facts_in map.now.entries) (fact_view fact.now) }
{
    map.contains_key(fact)
}

fn is_full(lines: &IndexMap<Fact, Cause>, most: u32) -> bool
    requires { length lines.now.entries ≤ most }
    ensures { IsTrue result ↔ (most < length lines.now.entries + 1) }
{
    lines.len() >= most as usize
}

// Whether a fact is one more than there may be.
fn is_too_much(lines: &IndexMap<Fact, Cause>, most: u32, fact: &Fact) -> bool
    requires { length lines.now.entries ≤ most }
    ensures { MatchBool result
        ((Contains (facts_in lines.now.entries) (fact_view fact.now) → ⊥)
        × (most < length lines.now.entries + 1))
        (Contains (facts_in lines.now.entries) (fact_view fact.now)
        ⊎ (length lines.now.entries + 1 ≤ most)) }
{
    is_full(lines, most) && !has(lines, fact)
}

// Puts a fact behind the others with its cause, unless it is there.
fn put(lines: &mut IndexMap<Fact, Cause>, fact: Fact, cause: Cause) -> Result<(), Stop<CloseFault>>
    ensures known { OnOk result (Contains (facts_in lines.old.entries) (fact_view fact)
        → lines.new.entries ≡ lines.old.entries) }
    ensures new { OnOk result ((Contains (facts_in lines.old.entries) (fact_view fact) → ⊥)
        → lines.new.entries ≡ lines.old.entries ++ (fact, cause) ∷ []) }
    ensures memory { IfErr result (λ e. e ≡ stop.Memory out_of_memory) }
{
    lines.entry(fact)?.or_insert(cause);
    Ok(())
}

// Notes what is brought up, if it is new.
fn note(
    lines: &mut IndexMap<Fact, Cause>,
    most: u32,
    fact: Fact,
    cause: Cause,
) -> Result<(), Stop<CloseFault>>
    requires { length lines.old.entries ≤ most }
    ensures ok { OnOk result
        (IsNoted lines.old.entries ((fact, cause) ∷ []) lines.new.entries) }
    ensures few { OnOk result (length lines.new.entries ≤ most) }
    ensures facts { OnFault result most (IsTooMuch (facts_in lines.old.entries)
        (reason_of (fact, cause) ∷ []) [] most) }
    ensures calm { has_failed result ≡ false }
{
    if is_too_much(lines, most, &fact) {
        drop(fact);
        return Err(Stop::Fault(CloseFault::Facts(most)));
    }
    put(lines, fact, cause)
}

// Notes all that is brought up, if it is new, and leaves nothing of it.
pub(crate) fn note_all(
    lines: &mut IndexMap<Fact, Cause>,
    most: u32,
    brought: &mut Vec<(Fact, Cause)>,
) -> Result<(), Stop<CloseFault>>
    requires { length lines.old.entries ≤ most }
    ensures none { OnOk result (brought.new.items ≡ []) }
    ensures ok { OnOk result (IsNoted lines.old.entries brought.old.items lines.new.entries) }
    ensures few { OnOk result (length lines.new.entries ≤ most) }
    ensures facts { OnFault result most (IsTooMuch (facts_in lines.old.entries)
        (reasons_in brought.old.items) [] most) }
    ensures calm { has_failed result ≡ false }
{
    while let Some((fact, cause)) = brought.pop() {
        note(lines, most, fact, cause)?;
    }
    Ok(())
}
