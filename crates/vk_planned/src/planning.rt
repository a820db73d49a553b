//! The planned needs.
ghost use Rattle.std.specs.Prelude.{◌+◌, ◌<◌, ◌≤◌, List, IfOk, IsSome, OnOk, length, map};
ghost use Rattle.std.specs.Prelude.{slice_get};
ghost use Rattle.vk_spec.specs.Catalogues.{ArePages, OnlyAsked, OnPages};
ghost use Rattle.vk_base.specs.Stops.{was_out};
ghost use Rattle.vk_resolution.specs.Asking as plain;
ghost use Rattle.vk_resolution.specs.Planner.{inputs_of};
ghost use Rattle.vk_resolution.specs.Planning.{IsPlanned};
ghost use Rattle.vk_resolution.specs.Reasons.{facts_of};
ghost use Rattle.vk_resolution.specs.Selections.{IsChoices};
ghost use Rattle.vk_model.specs.FactViews.{fact_view, reasons_view};
ghost use Rattle.vk_model.specs.SettingViews.{setting_view};
ghost use Rattle.vk_worklist.specs.Ticks.{ticks};
ghost use Rattle.vk_choices.specs.ChoiceViews.{choices_view};
ghost use Rattle.vk_choices.specs.Clear.{IsClear};
ghost use Rattle.vk_planned.specs.Bases.{IsRuled, IsSound, inputs_at, facts_at};
ghost use Rattle.vk_planned.specs.Flaws.{AreFlaws};
ghost use Rattle.vk_planned.specs.Followed.{IsTakenUp};
ghost use Rattle.vk_planned.specs.Graphs.{IsGraph};

use crate::bases::Basis;
use crate::expansions::{Expansion, expand};
use crate::links::link_all;
use crate::roots::root_facts;
use indexmap::IndexSet;
use std::alloc::Global;
use std::sync::ledger::Ledger;
use vk_base::{Outage, Steps};
use vk_catalogue::Catalogue;
use vk_choices::Choices;
use vk_model::{Fact, Reason, Setting};
use vk_rules::{Flaw, Rules};

/// What the chosen versions alone require.
#[derive(Drop)]
pub struct Planned {
    /// The needs, each once.
    pub needs: IndexSet<Fact>,
    /// Which need asks for which, by their places among the needs, counted from 0.
    pub edges: Vec<(usize, usize)>,
    /// What is wrong with each need, at its place.
    pub flaws: Vec<Option<Flaw>>,
}

// Takes up the need at a place: what it asks for stands behind the needs, unless it is among them.
fn take_up<C: Catalogue, L: Ledger>(
    alloc: Global,
    cat: &mut C,
    basis: &Basis<'_>,
    planned: &mut Planned,
    place: usize,
    steps: &mut Steps<L>,
) -> Result<(), Outage>
    requires place { place < length planned.old.needs.keys }
    requires ruled { IsRuled basis.now }
    requires sound { OnPages (IsSound basis.now) (C.state cat.old) }
    requires taken { OnPages (IsTakenUp basis.now place planned.old) (C.state cat.old) }
    ensures taken { OnOk result (OnPages (IsTakenUp basis.now (place + 1) planned.new)
        (C.state cat.old)) }
    ensures grows { OnOk result (place + 1 ≤ length planned.new.needs.keys) }
    ensures ticks { steps.new ≤ steps.old + 1 }
    ensures asked { OnlyAsked (was_out result) (C.state cat.old) (C.state cat.new) }
{
    let Expansion { asked, flaw } = expand(alloc, cat, basis, &planned.needs[place], steps)?;
    link_all(&mut planned.needs, &mut planned.edges, place, asked)?;
    planned.flaws.push(flaw)?;
    Ok(())
}

// Takes up all needs, one after the other. There are no more of them than reasons.
fn follow<C: Catalogue, L: Ledger>(
    alloc: Global,
    cat: &mut C,
    basis: &Basis<'_>,
    planned: &mut Planned,
    steps: &mut Steps<L>,
) -> Result<(), Outage>
    requires ruled { IsRuled basis.now }
    requires sound { OnPages (IsSound basis.now) (C.state cat.old) }
    requires first { OnPages (IsTakenUp basis.now 0 planned.old) (C.state cat.old) }
    ensures taken { OnOk result (OnPages (IsTakenUp basis.now (length planned.new.needs.keys)
        planned.new) (C.state cat.old)) }
    ensures ticks { OnPages (λ pages. (facts : List plain.Fact)
        → IsPlanned (inputs_at basis.now pages) (facts_at basis.now) facts
        → steps.new ≤ steps.old + ticks facts) (C.state cat.old) }
    ensures asked { OnlyAsked (was_out result) (C.state cat.old) (C.state cat.new) }
{
    for place in 0..basis.reasons.len() {
        if place >= planned.needs.len() {
            return Ok(());
        }
        take_up(alloc, cat, basis, planned, place, steps)?;
    }
    Ok(())
}

// The needs of the root, and all that follows from them.
fn plan_from<C: Catalogue, L: Ledger>(
    alloc: Global,
    cat: &mut C,
    basis: &Basis<'_>,
    steps: &mut Steps<L>,
) -> Result<Planned, Outage>
    requires ruled { IsRuled basis.now }
    requires sound { OnPages (IsSound basis.now) (C.state cat.old) }
    ensures graph { IfOk result (λ p. OnPages (λ pages. (planned : List plain.Fact)
        × IsGraph (inputs_at basis.now pages) (facts_at basis.now) planned
        (map fact_view p.needs.keys) p.edges.items) (C.state cat.old)) }
    ensures flaws { IfOk result (λ p. OnPages (λ pages. AreFlaws (inputs_at basis.now pages)
        (facts_at basis.now) (map fact_view p.needs.keys) p.flaws.items) (C.state cat.old)) }
    ensures ticks { OnPages (λ pages. (facts : List plain.Fact)
        → IsPlanned (inputs_at basis.now pages) (facts_at basis.now) facts
        → steps.new ≤ steps.old + ticks facts) (C.state cat.old) }
    ensures asked { OnlyAsked (was_out result) (C.state cat.old) (C.state cat.new) }
{
    let needs = root_facts(alloc, basis.setting)?;
    let mut planned = Planned {
        needs,
        edges: Vec::new(alloc),
        flaws: Vec::new(alloc),
    };
    match follow(alloc, cat, basis, &mut planned, steps) {
        Ok(()) => Ok(planned),
        Err(outage) => {
            drop(planned);
            Err(outage)
        }
    }
}

// Asks for a port that has a choice, if any has: an answer shows that every page is as pages are,
// so the manifest of each choice can be asked for.
fn ask_first<C: Catalogue>(cat: &mut C, choices: &Choices) -> Result<(), Outage>
    ensures asked { OnlyAsked (was_out result) (C.state cat.old) (C.state cat.new) }
    ensures are { OnOk result (OnPages (λ pages.
        IsSome (slice_get choices.now.ports.entries 0) → ArePages pages) (C.state cat.old)) }
{
    if let Some((port, _)) = choices.ports.get_index(0) {
        drop(cat.given(port)?);
    }
    Ok(())
}

/// The needs of the root, and all that the manifests of the chosen versions need in turn, with what
/// is wrong with each. It takes at most a step for each manifest's feature that is looked at. The
/// reasons are those of a closure without faults, and the choices are made of them. The catalogue
/// is only asked.
pub fn plan_needs<C: Catalogue, L: Ledger>(
    alloc: Global,
    cat: &mut C,
    setting: &Setting,
    reasons: &[Reason],
    choices: &Choices,
    steps: &mut Steps<L>,
) -> Result<Planned, Outage>
    requires clear { OnPages (λ pages. IsClear (inputs_of (setting_view setting.now) pages)
        (reasons_view reasons.now)) (C.state cat.old) }
    requires choices { OnPages (λ pages. IsChoices (inputs_of (setting_view setting.now) pages)
        (facts_of (reasons_view reasons.now)) (choices_view choices.now)) (C.state cat.old) }
    ensures graph { IfOk result (λ p. OnPages (λ pages. (planned : List plain.Fact)
        × IsGraph (inputs_of (setting_view setting.now) pages)
        (facts_of (reasons_view reasons.now)) planned (map fact_view p.needs.keys)
        p.edges.items) (C.state cat.old)) }
    ensures flaws { IfOk result (λ p. OnPages (λ pages. AreFlaws
        (inputs_of (setting_view setting.now) pages) (facts_of (reasons_view reasons.now))
        (map fact_view p.needs.keys) p.flaws.items) (C.state cat.old)) }
    ensures ticks { OnPages (λ pages. (planned : List plain.Fact)
        → IsPlanned (inputs_of (setting_view setting.now) pages)
        (facts_of (reasons_view reasons.now)) planned → steps.new ≤ steps.old + ticks planned)
        (C.state cat.old) }
    ensures asked { OnlyAsked (was_out result) (C.state cat.old) (C.state cat.new) }
{
    ask_first(cat, choices)?;
    let rules = Rules::new(alloc, setting)?;
    let basis = Basis {
        setting,
        rules,
        reasons,
        choices,
    };
    let planned = plan_from(alloc, cat, &basis, steps);
    drop(basis);
    planned
}
