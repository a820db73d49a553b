//! What the floors of ports come to.
ghost use Rattle.std.specs.Prelude.{◌≡◌, ◌++◌, ◌∷◌, [], None, IfOk, OnOk, bytes_eq, map};
ghost use Rattle.std.specs.List.Sorted.{IsPermutation};
ghost use Rattle.std.specs.Map.{keys_of, lookup};
ghost use Rattle.vk_spec.specs.Catalogues.{CanAskVersion, OnlyAsked, OnPage, OnPages};
ghost use Rattle.vk_base.specs.Stops.{was_out};
ghost use Rattle.vk_resolution.specs.Faults as plain;
ghost use Rattle.vk_model.specs.FaultViews.{fault_view};
ghost use Rattle.vk_choices.specs.Asks.{asked_view};
ghost use Rattle.vk_choices.specs.ChoiceViews.{choices_view};
ghost use Rattle.vk_choices.specs.Floors.{CanAskPorts};
ghost use Rattle.vk_choices.specs.Rows.{AreInOrder};
ghost use Rattle.vk_choices.specs.Settling.{AreSettledFor, IsAdded, IsAddedFor, TellsTwo};
ghost use Rattle.vk_choices.specs.Settling.{choice_on};

use crate::asks::{Asked, Rows};
use crate::chosen::{Choice, Choices};
use crate::floors::{Floor, floors_of};
use crate::tops::{first_two, greatest};
use indexmap::IndexMap;
use std::alloc::Global;
use vk_base::{List, Memory, Outage, PortName};
use vk_catalogue::Catalogue;
use vk_model::Fault;
use vk_version::Version;

/// The choices of ports, and the conflicts of those that have none.
#[derive(Drop)]
pub(crate) struct Settled {
    pub choices: Choices,
    pub conflicts: Vec<Fault>,
}

// Puts the choice of a port that has none yet.
fn put_choice(choices: &mut Choices, port: PortName, floor: Floor) -> Result<(), Memory>
    requires { lookup (bytes_eq port) choices.old.ports.entries ≡ None }
    ensures { OnOk result (choices_view choices.new
        ≡ choices_view choices.old ++ choice_on port floor ∷ []) }
{
    let Floor { version, line } = floor;
    drop(choices.ports.insert(port, Choice { version, line })?);
    Ok(())
}

// The versions of two floors, copied.
fn versions_of(first: &Floor, second: &Floor) -> Result<(Version, Version), Memory>
    ensures { IfOk result (λ two. two ≡ (first.now.version, second.now.version)) }
{
    let one = first.version.clone()?;
    match second.version.clone() {
        Ok(other) => Ok((one, other)),
        Err(lack) => {
            drop(one);
            Err(Memory::from(lack))
        }
    }
}

// The fault line of a port with these two floors.
fn conflict(port: PortName, first: &Floor, second: &Floor) -> Result<Fault, Memory>
    ensures { IfOk result (λ fault. fault_view fault ≡ plain.conflicts port first.now.version
        first.now.line second.now.version second.now.line) }
{
    match versions_of(first, second) {
        Ok((one, other)) => Ok(Fault::Conflict {
            port,
            first: one,
            first_line: first.line,
            second: other,
            second_line: second.line,
        }),
        Err(memory) => {
            drop(port);
            Err(memory)
        }
    }
}

// Tells the first two of a port's floors that no other is above.
fn put_conflict(conflicts: &mut Vec<Fault>, port: PortName, floors: &[Floor]) -> Result<(), Memory>
    ensures { OnOk result (TellsTwo port floors.now (map fault_view conflicts.old.items)
        (map fault_view conflicts.new.items)) }
{
    match first_two(floors) {
        Some((first, second)) => {
            conflicts.push(conflict(port, first, second)?)?;
            Ok(())
        }
        None => Ok(()),
    }
}

// The floors in the order in which they are told: then few are looked at before the first two that
// no other is above.
fn by_ask(floors: List<Floor>) -> Vec<Floor>
    ensures { IsPermutation floors result.items }
{
    let mut floors = floors.into_vec();
    floors.sort_unstable_by(|a, b| a.version.ask().cmp(b.version.ask()));
    floors
}

impl Settled {
    // Settles one port more.
    fn settle_port(&mut self, port: PortName, floors: List<Floor>) -> Result<(), Memory>
        requires { lookup (bytes_eq port) self.old.choices.ports.entries ≡ None }
        ensures { OnOk result (IsAdded port floors self.old self.new) }
    {
        match greatest(floors.as_slice()) {
            Some(place) => {
                put_choice(
                    &mut self.choices,
                    port,
                    floors.into_vec().swap_remove(place),
                )
            }
            None => put_conflict(&mut self.conflicts, port, &by_ask(floors)),
        }
    }

    // Settles one port more, of which this is asked.
    fn settle_asked<C: Catalogue>(
        &mut self,
        alloc: Global,
        cat: &mut C,
        port: &PortName,
        asks: &[Asked<'_>],
    ) -> Result<(), Outage>
        requires new { lookup (bytes_eq port.now) self.old.choices.ports.entries ≡ None }
        requires given { OnPage port.now CanAskVersion (C.state cat.old) }
        ensures asked { OnlyAsked (was_out result) (C.state cat.old) (C.state cat.new) }
        ensures added { OnOk result (IsAddedFor (C.state cat.old).pages port.now
            (map asked_view asks.now) self.old self.new) }
    {
        let floors = floors_of(alloc, cat, port, asks)?;
        self.settle_port(port.clone()?, floors)?;
        Ok(())
    }

    // Settles these ports, where none is settled yet.
    fn settle_rows<C: Catalogue>(
        &mut self,
        alloc: Global,
        cat: &mut C,
        rows: &Rows<'_>,
    ) -> Result<(), Outage>
        requires none { self.old.choices.ports.entries ≡ [] }
        requires untold { self.old.conflicts.items ≡ [] }
        requires ordered { AreInOrder rows.now.entries }
        requires given { OnPages (CanAskPorts (keys_of rows.now.entries)) (C.state cat.old) }
        ensures asked { OnlyAsked (was_out result) (C.state cat.old) (C.state cat.new) }
        ensures settled { OnOk result
            (OnPages (λ pages. AreSettledFor pages rows.now.entries self.new) (C.state cat.old)) }
    {
        for (port, asks) in rows.iter() {
            self.settle_asked(alloc, cat, port, asks.as_slice())?;
        }
        Ok(())
    }
}

/// The choices and the conflicts of these ports, of which the catalogue is asked for the versions
/// of one port after the other.
pub(crate) fn settle<C: Catalogue>(
    alloc: Global,
    cat: &mut C,
    rows: &Rows<'_>,
) -> Result<Settled, Outage>
    requires ordered { AreInOrder rows.now.entries }
    requires given { OnPages (CanAskPorts (keys_of rows.now.entries)) (C.state cat.old) }
    ensures asked { OnlyAsked (was_out result) (C.state cat.old) (C.state cat.new) }
    ensures settled { IfOk result (λ s. OnPages (λ pages. AreSettledFor pages rows.now.entries s)
        (C.state cat.old)) }
{
    let mut settled = Settled {
        choices: Choices {
            ports: IndexMap::with_capacity(alloc, rows.len())?,
        },
        conflicts: Vec::new(alloc),
    };
    match settled.settle_rows(alloc, cat, rows) {
        Ok(()) => Ok(settled),
        Err(outage) => {
            drop(settled);
            Err(outage)
        }
    }
}
