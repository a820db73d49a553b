//! What a manifest, or a need, brings up on a line.
ghost use Rattle.std.specs.Prelude.{◌≡◌, ◌++◌, ◌∷◌, [], IfOk, OnOk, Some, flat_map, map};
ghost use Rattle.std.specs.Prelude.{option_map, if◌then◌else◌};
ghost use Rattle.std.specs.Map.{keys_of};
ghost use Rattle.vk_spec.specs.Catalogues.{OnlyAsked, OnPages};
ghost use Rattle.vk_spec.specs.Pages.{is_pinned_by};
ghost use Rattle.vk_base.specs.Stops.{was_out};
ghost use Rattle.vk_model.specs.WrongViews.{given_view};
ghost use Rattle.vk_model.specs.FactViews.{fact_view};
ghost use Rattle.vk_close.specs.Known.{AreKnown};
ghost use Rattle.vk_close.specs.Steps.{asked_on, falls_away, given_on, reason_on};
ghost use Rattle.vk_worklist.specs.Entries.{reasons_in};
ghost use Rattle.vk_worklist.specs.Places.{KeepsSeats};

use crate::known::KnownPort;
use crate::names::copy_of;
use crate::ports::{known_at, see_to_port};
use indexmap::IndexMap;
use vk_base::{List, Memory, Outage, PortName};
use vk_catalogue::Catalogue;
use vk_model::{Cause, Fact, Given};
use vk_root::Overrides;

// Whether a port is pinned.
fn is_pinned<C: Catalogue>(
    overrides: &Overrides,
    ports: &mut IndexMap<PortName, KnownPort>,
    cat: &mut C,
    port: &PortName,
) -> Result<bool, Outage>
    requires known { OnPages
        (λ pages. AreKnown overrides.now pages ports.old.entries)
        (C.state cat.old) }
    ensures asked { OnlyAsked (was_out result) (C.state cat.old) (C.state cat.new) }
    ensures known { OnOk result (OnPages
        (λ pages. AreKnown overrides.now pages ports.new.entries)
        (C.state cat.old)) }
    ensures seats { OnOk result
        (KeepsSeats (keys_of ports.old.entries) (keys_of ports.new.entries)) }
    ensures pinned { IfOk result (λ pinned. OnPages (λ pages. pinned
        ≡ is_pinned_by overrides.now port.now (pages port.now).given)
        (C.state cat.old)) }
{
    let place = see_to_port(overrides, ports, cat, port)?;
    Ok(known_at(ports, place).pinned)
}

// Whether what a manifest asks for falls away: the floor of a pinned port does.
fn falls_away<C: Catalogue>(
    overrides: &Overrides,
    ports: &mut IndexMap<PortName, KnownPort>,
    cat: &mut C,
    fact: &Fact,
) -> Result<bool, Outage>
    requires known { OnPages
        (λ pages. AreKnown overrides.now pages ports.old.entries)
        (C.state cat.old) }
    ensures asked { OnlyAsked (was_out result) (C.state cat.old) (C.state cat.new) }
    ensures known { OnOk result (OnPages
        (λ pages. AreKnown overrides.now pages ports.new.entries)
        (C.state cat.old)) }
    ensures seats { OnOk result
        (KeepsSeats (keys_of ports.old.entries) (keys_of ports.new.entries)) }
    ensures falls { IfOk result (λ falls. OnPages (λ pages.
        falls ≡ falls_away overrides.now pages (fact_view fact.now))
        (C.state cat.old)) }
{
    match fact {
        Fact::Need { .. } => Ok(false),
        Fact::Floor { port, .. } => is_pinned(overrides, ports, cat, port),
        Fact::Visit { .. } => Ok(true),
    }
}

fn cause_on(fact: &Fact, line: u32) -> Cause
    ensures { reasons_in ((fact.now, result) ∷ []) ≡ reason_on line (fact_view fact.now) ∷ [] }
{
    match fact {
        Fact::Need { .. } => Cause::From(line),
        _ => Cause::Minimum(line),
    }
}

fn push_reason(fact: Fact, line: u32, brought: &mut Vec<(Fact, Cause)>) -> Result<(), Memory>
    ensures { OnOk result (reasons_in brought.new.items
        ≡ reasons_in brought.old.items ++ reason_on line (fact_view fact) ∷ []) }
{
    let cause = cause_on(&fact, line);
    brought.push((fact, cause))?;
    Ok(())
}

fn push_unless(
    falls: bool,
    fact: Fact,
    line: u32,
    brought: &mut Vec<(Fact, Cause)>,
) -> Result<(), Memory>
    ensures { OnOk result (reasons_in brought.new.items ≡ reasons_in brought.old.items
        ++ (if falls then [] else reason_on line (fact_view fact) ∷ [])) }
{
    if falls {
        drop(fact);
        return Ok(());
    }
    push_reason(fact, line, brought)
}

// Adds what a manifest asks for, unless it falls away.
fn push_asked<C: Catalogue>(
    overrides: &Overrides,
    ports: &mut IndexMap<PortName, KnownPort>,
    cat: &mut C,
    fact: Fact,
    line: u32,
    brought: &mut Vec<(Fact, Cause)>,
) -> Result<(), Outage>
    requires known { OnPages
        (λ pages. AreKnown overrides.now pages ports.old.entries)
        (C.state cat.old) }
    ensures asked { OnlyAsked (was_out result) (C.state cat.old) (C.state cat.new) }
    ensures known { OnOk result (OnPages
        (λ pages. AreKnown overrides.now pages ports.new.entries)
        (C.state cat.old)) }
    ensures seats { OnOk result
        (KeepsSeats (keys_of ports.old.entries) (keys_of ports.new.entries)) }
    ensures brought { OnOk result (OnPages (λ pages.
        reasons_in brought.new.items ≡ reasons_in brought.old.items
        ++ asked_on overrides.now pages line (fact_view fact))
        (C.state cat.old)) }
{
    match falls_away(overrides, ports, cat, &fact) {
        Ok(falls) => Ok(push_unless(falls, fact, line, brought)?),
        Err(outage) => {
            drop(fact);
            Err(outage)
        }
    }
}

/// Adds all that a manifest asks for, but for what falls away.
pub(crate) fn push_all<C: Catalogue>(
    overrides: &Overrides,
    ports: &mut IndexMap<PortName, KnownPort>,
    cat: &mut C,
    facts: List<Fact>,
    line: u32,
    brought: &mut Vec<(Fact, Cause)>,
) -> Result<(), Outage>
    requires known { OnPages
        (λ pages. AreKnown overrides.now pages ports.old.entries)
        (C.state cat.old) }
    ensures asked { OnlyAsked (was_out result) (C.state cat.old) (C.state cat.new) }
    ensures known { OnOk result (OnPages
        (λ pages. AreKnown overrides.now pages ports.new.entries)
        (C.state cat.old)) }
    ensures seats { OnOk result
        (KeepsSeats (keys_of ports.old.entries) (keys_of ports.new.entries)) }
    ensures brought { OnOk result (OnPages (λ pages.
        reasons_in brought.new.items ≡ reasons_in brought.old.items
        ++ flat_map (asked_on overrides.now pages line)
        (map fact_view facts))
        (C.state cat.old)) }
{
    for fact in facts.into_vec() {
        push_asked(overrides, ports, cat, fact, line, brought)?;
    }
    Ok(())
}

// The floor of a given version, on a line.
fn floor_of(port: &PortName, given: &Given, line: u32) -> Result<(Fact, Cause), Memory>
    ensures { IfOk result (λ e.
        reasons_in (e ∷ []) ≡ given_on line port.now (Some (given_view given.now))) }
{
    let port = copy_of(port)?;
    let ask = given.ask().clone()?;
    let cause = match given {
        Given::Overlay(_) => Cause::Overlay(line),
        Given::Override(_) => Cause::Override(line),
        Given::Baseline(_) => Cause::Baseline(line),
    };
    Ok((Fact::Floor { port, ask }, cause))
}

// Adds the floor of a given version.
fn push_floor(
    port: &PortName,
    given: &Given,
    line: u32,
    brought: &mut Vec<(Fact, Cause)>,
) -> Result<(), Memory>
    ensures { OnOk result (reasons_in brought.new.items
        ≡ reasons_in brought.old.items ++ given_on line port.now (Some (given_view given.now))) }
{
    let entry = floor_of(port, given, line)?;
    brought.push(entry)?;
    Ok(())
}

/// Adds the floor of a port's given version, if it has one.
pub(crate) fn push_given(
    port: &PortName,
    given: &Option<Given>,
    line: u32,
    brought: &mut Vec<(Fact, Cause)>,
) -> Result<(), Memory>
    ensures { OnOk result (reasons_in brought.new.items
        ≡ reasons_in brought.old.items
        ++ given_on line port.now (option_map given_view given.now)) }
{
    match given {
        Some(given) => push_floor(port, given, line, brought),
        None => Ok(()),
    }
}
