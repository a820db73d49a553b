ghost use Rattle.std.specs.Prelude.{◌≡◌, ◌++◌, ◌∷◌, [], ℕ, List, IfOk, OnOk, option_map, flat_map};
ghost use Rattle.std.specs.Prelude.{◌<◌, ◌≤◌, bytes_eq, length, zip, if◌then◌else◌};
ghost use Rattle.vk_base.specs.FeatureViews.{feature_view};
ghost use Rattle.vk_version.specs.AskViews.{ask_view};
ghost use Rattle.vk_resolution.specs.Settings as who;
ghost use Rattle.vk_resolution.specs.Asking as plain;
ghost use Rattle.vk_resolution.specs.Consequences.{by_two};
ghost use Rattle.vk_resolution.specs.Reasons.{fact_at};
ghost use Rattle.vk_model.specs.FactViews.{fact_view};
ghost use Rattle.vk_model.specs.SettingViews.{instance_view};
ghost use Rattle.vk_worklist.specs.Entries.{reasons_in, facts_in};
ghost use Rattle.vk_worklist.specs.Places.{IsSeat, IsSeatOf};
ghost use Rattle.vk_worklist.specs.Rows.{needs_of, floors_of, is_need_of, is_floor_at};
ghost use Rattle.vk_worklist.specs.Joining.{to_visit, at_need, joined};

use crate::rows::{Row, add_floor, add_need, floors_at, needs_at, see_to_row};
use indexmap::IndexMap;
use std::alloc::{AllocError, Global};
use vk_base::{FeatureName, Instance};
use vk_model::{Cause, Fact, Who};
use vk_version::Ask;

// The fact of a line, counted from 1.
fn fact_on(lines: &IndexMap<Fact, Cause>, line: u32) -> Option<&Fact>
    ensures { option_map (λ x. fact_view x.now) result ≡ fact_at (facts_in lines.now.entries) line }
{
    if line == 0 {
        return None;
    }
    match lines.get_index(line as usize - 1) {
        Some((fact, _)) => Some(fact),
        None => None,
    }
}

fn visit_of(inst: &Instance, feature: &FeatureName, ask: &Ask) -> Result<Fact, AllocError>
    ensures { IfOk result (λ x. fact_view x
        ≡ plain.visit (instance_view inst.now) (feature_view feature.now) (ask_view ask.now)) }
{
    Ok(Fact::Visit {
        inst: inst.clone()?,
        feature: feature.clone()?,
        ask: ask.clone()?,
    })
}

fn push_visit(
    brought: &mut Vec<(Fact, Cause)>,
    inst: &Instance,
    feature: &FeatureName,
    ask: &Ask,
    need: u32,
    floor: u32,
) -> Result<(), AllocError>
    ensures { OnOk result (reasons_in brought.new.items ≡ reasons_in brought.old.items ++ record {
      fact = plain.visit (instance_view inst.now) (feature_view feature.now) (ask_view ask.now);
      cause = by_two need floor;
    } ∷ []) }
{
    let visit = visit_of(inst, feature, ask)?;
    brought.push((visit, Cause::Both(need, floor)))?;
    Ok(())
}

// The visit of a need and of what stands on a line, if that is a floor.
fn visit_floor(
    lines: &IndexMap<Fact, Cause>,
    inst: &Instance,
    feature: &FeatureName,
    need: u32,
    floor: u32,
    brought: &mut Vec<(Fact, Cause)>,
) -> Result<(), AllocError>
    ensures { OnOk result (reasons_in brought.new.items ≡ reasons_in brought.old.items
        ++ to_visit (instance_view inst.now) (feature_view feature.now) need floor
        (fact_at (facts_in lines.now.entries) floor)) }
{
    match fact_on(lines, floor) {
        Some(Fact::Floor { port: _, ask }) => push_visit(brought, inst, feature, ask, need, floor),
        _ => Ok(()),
    }
}

// The visits of a need and of the floors on these lines.
fn visit_floors(
    lines: &IndexMap<Fact, Cause>,
    inst: &Instance,
    feature: &FeatureName,
    need: u32,
    floors: &[u32],
    brought: &mut Vec<(Fact, Cause)>,
) -> Result<(), AllocError>
    ensures { OnOk result (reasons_in brought.new.items ≡ reasons_in brought.old.items
        ++ flat_map (λ m. to_visit (instance_view inst.now) (feature_view feature.now) need m
        (fact_at (facts_in lines.now.entries) m)) floors.now) }
{
    for floor in floors {
        visit_floor(lines, inst, feature, need, *floor, brought)?;
    }
    Ok(())
}

// The visit of a floor and of what stands on a line, if that is a need of an instance.
fn visit_need(
    lines: &IndexMap<Fact, Cause>,
    ask: &Ask,
    floor: u32,
    need: u32,
    brought: &mut Vec<(Fact, Cause)>,
) -> Result<(), AllocError>
    ensures { OnOk result (reasons_in brought.new.items ≡ reasons_in brought.old.items
        ++ at_need (ask_view ask.now) floor need (fact_at (facts_in lines.now.entries) need)) }
{
    match fact_on(lines, need) {
        Some(
            Fact::Need {
                who: Who::Inst(inst),
                feature,
            },
        ) => push_visit(brought, inst, feature, ask, need, floor),
        _ => Ok(()),
    }
}

// The visits of a floor and of the needs on these lines.
fn visit_needs(
    lines: &IndexMap<Fact, Cause>,
    ask: &Ask,
    floor: u32,
    needs: &[u32],
    brought: &mut Vec<(Fact, Cause)>,
) -> Result<(), AllocError>
    ensures { OnOk result (reasons_in brought.new.items ≡ reasons_in brought.old.items
        ++ flat_map (λ m. at_need (ask_view ask.now) floor m
        (fact_at (facts_in lines.now.entries) m)) needs.now) }
{
    for need in needs {
        visit_need(lines, ask, floor, *need, brought)?;
    }
    Ok(())
}

// Joins a need with the floors of its port.
fn join_need(
    alloc: Global,
    rows: &mut Vec<Row>,
    place: usize,
    lines: &IndexMap<Fact, Cause>,
    inst: &Instance,
    feature: &FeatureName,
    line: u32,
    brought: &mut Vec<(Fact, Cause)>,
) -> Result<(), AllocError>
    ensures brought { OnOk result ((seats : List (List ℕ)) → IsSeat seats inst.now.port place
        → reasons_in brought.new.items ≡ reasons_in brought.old.items
        ++ joined (facts_in lines.now.entries) (zip seats rows.old.items) line
        (plain.need (who.inst (instance_view inst.now)) (feature_view feature.now))) }
    ensures few { OnOk result ((most : ℕ) → length rows.old.items ≤ most → place < most
        → length rows.new.items ≤ most) }
    ensures needs { OnOk result ((seats : List (List ℕ)) (p : List ℕ) →
        IsSeat seats inst.now.port place → needs_of (zip seats rows.new.items) p
        ≡ needs_of (zip seats rows.old.items) p
        ++ (if bytes_eq inst.now.port p then line ∷ [] else [])) }
    ensures floors { OnOk result ((seats : List (List ℕ)) (p : List ℕ) →
        floors_of (zip seats rows.new.items) p ≡ floors_of (zip seats rows.old.items) p) }
{
    see_to_row(alloc, rows, place)?;
    visit_floors(lines, inst, feature, line, floors_at(rows, place), brought)?;
    add_need(rows, place, line)?;
    Ok(())
}

// Joins a visited floor with the needs of its port.
fn join_floor(
    alloc: Global,
    rows: &mut Vec<Row>,
    place: usize,
    lines: &IndexMap<Fact, Cause>,
    ask: &Ask,
    line: u32,
    brought: &mut Vec<(Fact, Cause)>,
) -> Result<(), AllocError>
    ensures brought { OnOk result ((seats : List (List ℕ)) (port : List ℕ) →
        IsSeat seats port place → reasons_in brought.new.items ≡ reasons_in brought.old.items
        ++ joined (facts_in lines.now.entries) (zip seats rows.old.items) line
        (plain.floor port (ask_view ask.now))) }
    ensures few { OnOk result ((most : ℕ) → length rows.old.items ≤ most → place < most
        → length rows.new.items ≤ most) }
    ensures needs { OnOk result ((seats : List (List ℕ)) (p : List ℕ) →
        needs_of (zip seats rows.new.items) p ≡ needs_of (zip seats rows.old.items) p) }
    ensures floors { OnOk result ((seats : List (List ℕ)) (port p : List ℕ) →
        IsSeat seats port place → floors_of (zip seats rows.new.items) p
        ≡ floors_of (zip seats rows.old.items) p ++ (if bytes_eq port p then line ∷ [] else [])) }
{
    see_to_row(alloc, rows, place)?;
    visit_needs(lines, ask, line, needs_at(rows, place), brought)?;
    add_floor(rows, place, line)?;
    Ok(())
}

// Joins the fact of a line with those of the rows, and notes the line in that of its port, which
// stands at this place.
pub(crate) fn join(
    alloc: Global,
    rows: &mut Vec<Row>,
    place: usize,
    lines: &IndexMap<Fact, Cause>,
    fact: &Fact,
    line: u32,
    brought: &mut Vec<(Fact, Cause)>,
) -> Result<(), AllocError>
    ensures brought { OnOk result ((seats : List (List ℕ)) →
        IsSeatOf seats (fact_view fact.now) place
        → reasons_in brought.new.items ≡ reasons_in brought.old.items
        ++ joined (facts_in lines.now.entries) (zip seats rows.old.items) line
        (fact_view fact.now)) }
    ensures few { OnOk result ((most : ℕ) → length rows.old.items ≤ most → place < most
        → length rows.new.items ≤ most) }
    ensures needs { OnOk result ((seats : List (List ℕ)) (p : List ℕ) →
        IsSeatOf seats (fact_view fact.now) place → needs_of (zip seats rows.new.items) p
        ≡ needs_of (zip seats rows.old.items) p
        ++ (if is_need_of p (fact_view fact.now) then line ∷ [] else [])) }
    ensures floors { OnOk result ((seats : List (List ℕ)) (p : List ℕ) →
        IsSeatOf seats (fact_view fact.now) place → floors_of (zip seats rows.new.items) p
        ≡ floors_of (zip seats rows.old.items) p
        ++ (if is_floor_at p (fact_view fact.now) then line ∷ [] else [])) }
{
    match fact {
        Fact::Need {
            who: Who::Inst(inst),
            feature,
        } => {
            join_need(alloc, rows, place, lines, inst, feature, line, brought)?;
            Ok(())
        }
        Fact::Floor { port: _, ask } => {
            join_floor(alloc, rows, place, lines, ask, line, brought)?;
            Ok(())
        }
        _ => Ok(()),
    }
}
