//! Marks on the lines that are shown by those that were taken up.
ghost use Rattle.std.specs.Prelude.{◌≡◌, ◌↔◌, ◌||◌, ◌<◌, ◌∷◌, [], true, false, ℕ, IfOk, IsTrue};
ghost use Rattle.std.specs.Prelude.{MatchBool, get_or, length, set};
ghost use Rattle.std.specs.List.{Contains};
ghost use Rattle.vk_spec.specs.Lists.{IsWithin, NoRepeats};
ghost use Rattle.vk_model.specs.FactViews.{cause_view, fact_view};
ghost use Rattle.vk_worklist.specs.Entries.{facts_in, reason_of, reasons_in};
ghost use Rattle.vk_check.specs.Certifying.{IsMarked, MarksMore};

use crate::claims::claim_of;
use indexmap::IndexMap;
use std::alloc::Global;
use vk_base::Memory;
use vk_model::{Cause, Fact};

/// Marks for so many lines, none of which is marked.
pub(crate) fn no_marks(alloc: Global, count: usize) -> Result<Vec<bool>, Memory>
    ensures none { IfOk result (λ marks. (n : ℕ) → IsMarked marks.items n → ⊥) }
    ensures len { IfOk result (λ marks. length marks.items ≡ count) }
{
    Ok(vec![in alloc; false; count]?)
}

/// Whether a line, counted from 0, is marked.
pub(crate) fn is_marked(marks: &Vec<bool>, place: usize) -> bool
    requires { place < length marks.now.items }
    ensures { IsTrue result ↔ IsMarked marks.now.items place }
{
    marks[place]
}

// Marks a line, if it is to be.
fn mark(marks: &mut Vec<bool>, place: usize, also: bool)
    requires { place < length marks.old.items }
    ensures { marks.new.items
        ≡ set marks.old.items place (get_or marks.old.items place false || also) }
{
    let was = marks[place];
    marks[place] = was | also;
}

fn is_same(one: Cause, other: Cause) -> bool
    ensures { IsTrue result ↔ (cause_view one ≡ cause_view other) }
{
    one == other
}

// Marks the line of a fact, if this is the cause that is claimed of it; tells whether it stands on
// a line.
fn note(lines: &IndexMap<Fact, Cause>, marks: &mut Vec<bool>, fact: Fact, cause: Cause) -> bool
    requires distinct { NoRepeats (facts_in lines.now.entries) }
    requires long { length marks.old.items ≡ length lines.now.entries }
    ensures there { MatchBool result
        (Contains (facts_in lines.now.entries) (fact_view fact))
        (Contains (facts_in lines.now.entries) (fact_view fact) → ⊥) }
    ensures marks { result ≡ true → MarksMore (reasons_in lines.now.entries) marks.old.items
        marks.new.items (reason_of (fact, cause) ∷ []) }
    ensures long { length marks.new.items ≡ length marks.old.items }
{
    let claim = claim_of(lines, &fact);
    drop(fact);
    match claim {
        Some((place, claimed)) => {
            mark(marks, place, is_same(claimed, cause));
            true
        }
        None => false,
    }
}

/// Marks the lines whose facts were brought up with the causes that are claimed of them; tells
/// whether all that was brought up stands on lines. Nothing of it is left then.
pub(crate) fn note_all(
    lines: &IndexMap<Fact, Cause>,
    marks: &mut Vec<bool>,
    brought: &mut Vec<(Fact, Cause)>,
) -> bool
    requires distinct { NoRepeats (facts_in lines.now.entries) }
    requires long { length marks.old.items ≡ length lines.now.entries }
    ensures there { MatchBool result
        (IsWithin (facts_in brought.old.items) (facts_in lines.now.entries))
        (IsWithin (facts_in brought.old.items) (facts_in lines.now.entries) → ⊥) }
    ensures marks { result ≡ true → MarksMore (reasons_in lines.now.entries) marks.old.items
        marks.new.items (reasons_in brought.old.items) }
    ensures none { result ≡ true → brought.new.items ≡ [] }
    ensures long { length marks.new.items ≡ length marks.old.items }
{
    while let Some((fact, cause)) = brought.pop() {
        if !note(lines, marks, fact, cause) {
            return false;
        }
    }
    true
}
