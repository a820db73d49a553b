//! Troubles, each with the first line that meets it.
ghost use Rattle.std.specs.Prelude.{◌≡◌, ◌<◌, ◌^◌, ◌∷◌, [], IfOk, OnOk, length, map};
ghost use Rattle.vk_spec.specs.Catalogues.{OnPages, OnlyAsked};
ghost use Rattle.vk_base.specs.Stops.{was_out};
ghost use Rattle.vk_resolution.specs.Reasons.{facts_of};
ghost use Rattle.vk_resolution.specs.Faults.{trouble_key};
ghost use Rattle.vk_model.specs.FactViews.{fact_view, reasons_view};
ghost use Rattle.vk_faults.specs.Troubles.{trouble_view};
ghost use Rattle.vk_faults.specs.Met.{met_on};
ghost use Rattle.vk_model.specs.FaultViews.{fault_view};
ghost use Rattle.vk_faults.specs.Notes.{AreKeyed, HaveFirstLines, IsNoted, fault_of, noted};

use crate::asks::fact_trouble;
use crate::keys::Key;
use crate::troubles::Trouble;
use std::alloc::Global;
use std::collections::BTreeMap;
use vk_base::{Memory, Outage};
use vk_catalogue::Catalogue;
use vk_model::{Fact, Fault, Reason};

/// Troubles with the lines that meet them first, by the troubles' keys.
pub(crate) type Notes = BTreeMap<Key, (Trouble, u32)>;

// Puts a trouble under its key, unless something stands there.
fn put(notes: &mut Notes, key: Key, trouble: Trouble, line: u32) -> Result<(), Memory>
    requires key { key ≡ trouble_key (trouble_view trouble) }
    requires keyed { AreKeyed notes.old.entries }
    ensures keyed { OnOk result (AreKeyed notes.new.entries) }
    ensures noted { OnOk result (IsNoted (trouble_view trouble ∷ []) line
        (noted notes.old.entries) (noted notes.new.entries)) }
{
    if notes.contains_key(&key) {
        drop(key);
        drop(trouble);
        return Ok(());
    }
    drop(notes.insert(key, (trouble, line))?);
    Ok(())
}

// Notes a trouble on a line, unless it was noted.
fn note(alloc: Global, notes: &mut Notes, trouble: Trouble, line: u32) -> Result<(), Memory>
    requires { AreKeyed notes.old.entries }
    ensures keyed { OnOk result (AreKeyed notes.new.entries) }
    ensures noted { OnOk result (IsNoted (trouble_view trouble ∷ []) line
        (noted notes.old.entries) (noted notes.new.entries)) }
{
    match trouble.key(alloc) {
        Ok(key) => put(notes, key, trouble, line),
        Err(memory) => {
            drop(trouble);
            Err(memory)
        }
    }
}

// Notes what the fact of a line meets.
fn note_fact<C: Catalogue>(
    alloc: Global,
    cat: &mut C,
    notes: &mut Notes,
    fact: &Fact,
    line: u32,
) -> Result<(), Outage>
    requires { AreKeyed notes.old.entries }
    ensures asked { OnlyAsked (was_out result) (C.state cat.old) (C.state cat.new) }
    ensures keyed { OnOk result (AreKeyed notes.new.entries) }
    ensures noted { OnOk result (OnPages (λ pages. IsNoted (met_on pages (fact_view fact.now)) line
        (noted notes.old.entries) (noted notes.new.entries)) (C.state cat.old)) }
{
    match fact_trouble(cat, fact)? {
        Some(trouble) => Ok(note(alloc, notes, trouble, line)?),
        None => Ok(()),
    }
}

/// What the facts of these reasons meet, each with the first line that meets it.
pub(crate) fn notes_of<C: Catalogue>(
    alloc: Global,
    cat: &mut C,
    reasons: &[Reason],
) -> Result<Notes, Outage>
    requires { length reasons.now < 2 ^ 32 }
    ensures asked { OnlyAsked (was_out result) (C.state cat.old) (C.state cat.new) }
    ensures keyed { IfOk result (λ notes. AreKeyed notes.entries) }
    ensures noted { IfOk result (λ notes. OnPages (λ pages. HaveFirstLines (met_on pages)
        (facts_of (reasons_view reasons.now)) (noted notes.entries)) (C.state cat.old)) }
{
    let mut notes = BTreeMap::new(alloc);
    let mut line = 0;
    for reason in reasons {
        line += 1;
        note_fact(alloc, cat, &mut notes, &reason.fact, line)?;
    }
    Ok(notes)
}

/// The faults of the noted troubles, by their keys.
pub(crate) fn faults_of(alloc: Global, mut notes: Notes) -> Result<Vec<Fault>, Memory>
    ensures { IfOk result (λ faults. map fault_view faults.items
        ≡ map fault_of (noted notes.entries)) }
{
    let mut faults = Vec::new(alloc);
    while let Some((_, note)) = notes.pop_first() {
        let (trouble, line) = note;
        faults.push(trouble.on_line(line))?;
    }
    Ok(faults)
}
