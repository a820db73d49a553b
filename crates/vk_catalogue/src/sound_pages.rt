//! Whether a page keeps what every page keeps.
ghost use Rattle.std.specs.Prelude.{◌≡◌, ◌↔◌, ◌++◌, ◌∷◌, [], IsTrue, IfOk, map, not, true};
ghost use Rattle.std.specs.List.{list_any, list_all};
ghost use Rattle.vk_spec.specs.Versions.{ask_of, same_ask};
ghost use Rattle.vk_spec.specs.Catalogues.{CanBeOfGiven, HasOwnAlone, IsPage};
ghost use Rattle.vk_version.specs.AskViews.{ask_view};
ghost use Rattle.vk_catalogue.specs.Views.{given_view, wrong_view};
ghost use Rattle.vk_catalogue.specs.PageViews.{page_view, row_view};
ghost use Rattle.vk_catalogue.specs.SoundPages.{FitsGiven, asks_in, can_be_of_row, distinct_after};
ghost use Rattle.vk_catalogue.specs.SoundPages.{is_row_right};

use crate::pages::{Page, PageRow};
use indexmap::IndexSet;
use std::alloc::Global;
use std::cmp::Ordering;
use vk_base::Memory;
use vk_model::{Field, Given, Wrong};
use vk_version::{Ask, Version, order};

// Notes the ask of a row, and tells whether it is new.
fn note_ask(seen: &mut IndexSet<Ask>, row: &PageRow) -> Result<bool, Memory>
    ensures new { IfOk result
        (λ new. new ≡ not
        (list_any (same_ask (ask_of row.now.version)) (map ask_view seen.old.keys))) }
    ensures noted { IfOk result
        (λ new. new ≡ true → map ask_view seen.new.keys ≡ map ask_view seen.old.keys ++ ask_of
        row.now.version ∷ []) }
{
    let ask = row.version.ask().clone()?;
    let new = seen.insert(ask)?;
    Ok(new)
}

// Whether no two rows have the same text and port-version.
#[tactic(auto, using(crate::proofs::SoundLemmas::distinct_ends, crate::proofs::SoundLemmas::distinct_goes_on))]
fn are_distinct(alloc: Global, rows: &[PageRow]) -> Result<bool, Memory>
    ensures { IfOk result (λ distinct. distinct ≡ distinct_after [] (asks_in rows.now)) }
{
    let mut seen = IndexSet::new(alloc);
    for row in rows {
        if !note_ask(&mut seen, row)? {
            return Ok(false);
        }
    }
    Ok(true)
}

fn is_alone(version: &Version, rows: &[PageRow]) -> bool
    ensures { IsTrue result ↔ (map (λ r. r.version) (map row_view rows.now) ≡ version.now ∷ []) }
{
    match rows {
        [row] => order(&row.version, version) == Some(Ordering::Equal),
        _ => false,
    }
}

// Whether an overlay has its own version alone.
fn has_own_alone(given: &Given, rows: &[PageRow]) -> bool
    ensures { IsTrue result ↔ HasOwnAlone (map row_view rows.now) (given_view given.now) }
{
    match given {
        Given::Overlay(version) => is_alone(version, rows),
        Given::Override(_) => true,
        Given::Baseline(_) => true,
    }
}

fn can_be_of_given(wrong: &Wrong) -> bool
    ensures { IsTrue result ↔ CanBeOfGiven (wrong_view wrong.now) }
{
    match wrong {
        Wrong::NoRegistry => true,
        Wrong::NoBaseline => true,
        Wrong::BadFile { .. } => true,
        Wrong::Disagrees { field, .. } => *field == Field::Name,
    }
}

fn can_be_of_row(wrong: &Wrong) -> bool
    ensures { result ≡ can_be_of_row (wrong_view wrong.now) }
{
    match wrong {
        Wrong::NoRegistry => false,
        Wrong::NoBaseline => false,
        Wrong::BadFile { .. } => true,
        Wrong::Disagrees { .. } => true,
    }
}

fn is_row_right(row: &PageRow) -> bool
    ensures { result ≡ is_row_right (row_view row.now) }
{
    match &row.manifest {
        Ok(_) => true,
        Err(wrong) => can_be_of_row(wrong),
    }
}

fn are_rows_right(rows: &[PageRow]) -> bool
    ensures { result ≡ list_all (λ r. is_row_right (row_view r)) rows.now }
{
    rows.iter().all(is_row_right)
}

impl Page {
    fn is_given_right(&self) -> bool
        ensures { IsTrue result ↔ FitsGiven (page_view self.now) }
    {
        match &self.given {
            Ok(given) => has_own_alone(given, self.rows.as_slice()),
            Err(wrong) => can_be_of_given(wrong),
        }
    }

    /// Whether no two rows have the same text and port-version, an overlay has its own version
    /// alone, a row's wrong is `BadFile` or `Disagrees`, and a given's `Disagrees` has the field
    /// `Name`.
    pub fn is_sound(&self, alloc: Global) -> Result<bool, Memory>
        ensures { IfOk result (λ sound. IsTrue sound ↔ IsPage (page_view self.now)) }
    {
        let distinct = are_distinct(alloc, self.rows.as_slice())?;
        let given = self.is_given_right();
        let rows = are_rows_right(self.rows.as_slice());
        Ok(distinct & given & rows)
    }
}
