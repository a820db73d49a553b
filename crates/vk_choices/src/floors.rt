//! The floors of a port.
ghost use Rattle.std.specs.Prelude.{◌≡◌, ◌++◌, IfOk, OnOk, map, option_map};
ghost use Rattle.std.specs.Option.{option_to_list};
ghost use Rattle.vk_spec.specs.Catalogues.{CanAskVersion, OnlyAsked, OnPage, OnPages};
ghost use Rattle.vk_base.specs.Stops.{was_out};
ghost use Rattle.vk_choices.specs.Asks.{asked_view};
ghost use Rattle.vk_choices.specs.Floors.{AreFloors, on_line};

use crate::asks::Asked;
use std::alloc::Global;
use vk_base::{List, Memory, Outage, PortName};
use vk_catalogue::Catalogue;
use vk_version::Version;

/// A version that a port is required to be at least, and the line that says so, counted from 1.
#[derive(Drop)]
pub(crate) struct Floor {
    pub version: Version,
    pub line: u32,
}

// Puts the version for a line behind the floors, if there is one.
fn push_found(floors: &mut List<Floor>, found: Option<Version>, line: u32) -> Result<(), Memory>
    ensures { OnOk result (floors.new
        ≡ floors.old ++ option_to_list (option_map (on_line line) found)) }
{
    match found {
        Some(version) => Ok(floors.push(Floor { version, line })?),
        None => Ok(()),
    }
}

/// The floors of a port of which this is asked: a version that isn't there is none.
pub(crate) fn floors_of<C: Catalogue>(
    alloc: Global,
    cat: &mut C,
    port: &PortName,
    asks: &[Asked<'_>],
) -> Result<List<Floor>, Outage>
    requires { OnPage port.now CanAskVersion (C.state cat.old) }
    ensures asked { OnlyAsked (was_out result) (C.state cat.old) (C.state cat.new) }
    ensures floors { IfOk result (λ floors. OnPages (λ pages. AreFloors pages port.now
        (map asked_view asks.now) floors) (C.state cat.old)) }
{
    let mut floors = List::with_capacity(alloc, asks.len())?;
    for asked in asks {
        let found = cat.version(port, asked.ask)?;
        push_found(&mut floors, found, asked.line)?;
    }
    Ok(floors)
}
