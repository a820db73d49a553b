//! Reasons on lines: which fact stands on which, and the cause that is claimed of it.
ghost use Rattle.std.specs.Prelude.{◌≡◌, ◌≢◌, ◌↔◌, ◌+◌, ◌++◌, ◌<◌, ◌∷◌, [], Some, IfOk, IfSome};
ghost use Rattle.std.specs.Prelude.{IsTrue, MatchBool, MatchOption, length, slice_get};
ghost use Rattle.std.specs.List.{Contains};
ghost use Rattle.vk_spec.specs.Lists.{NoRepeats};
ghost use Rattle.vk_resolution.specs.Reasons.{facts_of};
ghost use Rattle.vk_model.specs.FactViews.{cause_view, fact_view, reason_view, reasons_view};
ghost use Rattle.vk_worklist.specs.Entries.{facts_in, reasons_in};
ghost use Rattle.vk_check.specs.Claims.{IsOnLine};

use crate::copies::copy_of;
use indexmap::IndexMap;
use vk_base::Memory;
use vk_model::{Cause, Fact, Reason};

/// The place of a fact's line, counted from 0, and the cause that is claimed of it; `None` exactly
/// where it stands on no line.
pub(crate) fn claim_of(lines: &IndexMap<Fact, Cause>, fact: &Fact) -> Option<(usize, Cause)>
    ensures found { MatchOption result
        (Contains (facts_in lines.now.entries) (fact_view fact.now) → ⊥)
        (λ p. slice_get (reasons_in lines.now.entries) p.0
        ≡ Some (record { fact = fact_view fact.now; cause = cause_view p.1 })) }
    ensures within { IfSome result (λ p. p.0 < length lines.now.entries) }
{
    match lines.get_full(fact) {
        Some((place, _, cause)) => Some((place, *cause)),
        None => None,
    }
}

// Puts a reason on the next line; tells whether its fact is new.
fn put_line(lines: &mut IndexMap<Fact, Cause>, reason: &Reason) -> Result<bool, Memory>
    ensures { IfOk result (λ new. MatchBool new
        ((Contains (facts_in lines.old.entries) (fact_view reason.now.fact) → ⊥)
        × (reasons_in lines.new.entries
        ≡ reasons_in lines.old.entries ++ reason_view reason.now ∷ []))
        (Contains (facts_in lines.old.entries) (fact_view reason.now.fact))) }
{
    if claim_of(lines, &reason.fact).is_some() {
        return Ok(false);
    }
    let fact = copy_of(&reason.fact)?;
    lines.insert(fact, reason.cause)?;
    Ok(true)
}

/// Puts reasons on lines, where nothing stands yet; tells whether no fact stands twice.
pub(crate) fn put_lines(
    lines: &mut IndexMap<Fact, Cause>,
    reasons: &[Reason],
) -> Result<bool, Memory>
    requires { lines.old.entries ≡ [] }
    ensures { IfOk result (λ distinct. MatchBool distinct
        ((reasons_in lines.new.entries ≡ reasons_view reasons.now)
        × NoRepeats (facts_of (reasons_view reasons.now)))
        (NoRepeats (facts_of (reasons_view reasons.now)) → ⊥)) }
{
    for reason in reasons {
        if !put_line(lines, reason)? {
            return Ok(false);
        }
    }
    Ok(true)
}

/// The fact of a line, counted from 0.
pub(crate) fn fact_on(lines: &IndexMap<Fact, Cause>, place: usize) -> &Fact
    requires { place < length lines.now.entries }
    ensures { IsOnLine (reasons_in lines.now.entries) place (fact_view result.now) }
{
    lines.get_index(place).unwrap().0
}
