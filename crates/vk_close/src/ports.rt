//! What is known of the ports that were asked about: each is asked about once.
ghost use Rattle.std.specs.Prelude.{◌≡◌, ◌<◌, ℕ, List, IsSome, Some, OnOk, IfOk, bytes_eq, map};
ghost use Rattle.std.specs.Prelude.{length, if◌then◌else◌};
ghost use Rattle.std.specs.Map.{keys_of, lookup};
ghost use Rattle.vk_spec.specs.Catalogues.{OnlyAsked, OnPages};
ghost use Rattle.vk_base.specs.Stops.{was_out};
ghost use Rattle.vk_worklist.specs.Places.{IsPlace, IsSeat, KeepsSeats};
ghost use Rattle.vk_close.specs.Known.{AreKnown};

use crate::known::{Known, KnownPort, ask_port};
use crate::names::copy_of;
use indexmap::IndexMap;
use vk_base::{Memory, Outage, PortName};
use vk_catalogue::Catalogue;
use vk_root::Overrides;
use vk_worklist::{place_of, value_at};

/// What is known of the port at a place.
pub(crate) fn known_at(ports: &IndexMap<PortName, KnownPort>, place: usize) -> &Known
    requires { place < length ports.now.entries }
    ensures { (port : List ℕ) → IsPlace ports.now.entries port place
        → lookup (bytes_eq port) ports.now.entries ≡ Some result.now }
{
    value_at(ports, place).known()
}

fn put(ports: &mut IndexMap<PortName, KnownPort>, key: PortName, known: Known) -> Result<(), Memory>
    ensures put { OnOk result ((p : List ℕ) → lookup (bytes_eq p) ports.new.entries
        ≡ (if bytes_eq key p then Some known else lookup (bytes_eq p) ports.old.entries)) }
    ensures seats { OnOk result
        (KeepsSeats (keys_of ports.old.entries) (keys_of ports.new.entries)) }
{
    let known = KnownPort::new(*ports.allocator(), known)?;
    drop(ports.insert(key, known)?);
    Ok(())
}

// Keeps what is known of a port.
fn keep(
    ports: &mut IndexMap<PortName, KnownPort>,
    port: &PortName,
    known: Known,
) -> Result<(), Memory>
    ensures put { OnOk result ((p : List ℕ) → lookup (bytes_eq p) ports.new.entries
        ≡ (if bytes_eq port.now p then Some known else lookup (bytes_eq p) ports.old.entries)) }
    ensures seats { OnOk result
        (KeepsSeats (keys_of ports.old.entries) (keys_of ports.new.entries)) }
{
    match copy_of(port) {
        Ok(key) => put(ports, key, known),
        Err(memory) => {
            drop(known);
            Err(memory)
        }
    }
}

// Asks about a port of which nothing is known yet.
fn ask_new<C: Catalogue>(
    overrides: &Overrides,
    ports: &mut IndexMap<PortName, KnownPort>,
    cat: &mut C,
    port: &PortName,
) -> Result<(), Outage>
    requires known { OnPages
        (λ pages. AreKnown overrides.now pages ports.old.entries)
        (C.state cat.old) }
    ensures asked { OnlyAsked (was_out result) (C.state cat.old) (C.state cat.new) }
    ensures there { OnOk result (IsSome (lookup (bytes_eq port.now) ports.new.entries)) }
    ensures known { OnOk result (OnPages
        (λ pages. AreKnown overrides.now pages ports.new.entries)
        (C.state cat.old)) }
    ensures seats { OnOk result
        (KeepsSeats (keys_of ports.old.entries) (keys_of ports.new.entries)) }
{
    let known = ask_port(overrides, cat, port)?;
    keep(ports, port, known)?;
    Ok(())
}

/// Sees to it that a port is known, and tells its place among those that are.
pub(crate) fn see_to_port<C: Catalogue>(
    overrides: &Overrides,
    ports: &mut IndexMap<PortName, KnownPort>,
    cat: &mut C,
    port: &PortName,
) -> Result<usize, Outage>
    requires known { OnPages
        (λ pages. AreKnown overrides.now pages ports.old.entries)
        (C.state cat.old) }
    ensures asked { OnlyAsked (was_out result) (C.state cat.old) (C.state cat.new) }
    ensures there { IfOk result (IsPlace ports.new.entries port.now) }
    ensures within { IfOk result (λ place. place < length ports.new.entries) }
    ensures seat { IfOk result (IsSeat (keys_of ports.new.entries) port.now) }
    ensures known { OnOk result (OnPages
        (λ pages. AreKnown overrides.now pages ports.new.entries)
        (C.state cat.old)) }
    ensures seats { OnOk result
        (KeepsSeats (keys_of ports.old.entries) (keys_of ports.new.entries)) }
{
    if let Some(place) = place_of(ports, port) {
        return Ok(place);
    }
    ask_new(overrides, ports, cat, port)?;
    Ok(place_of(ports, port).unwrap())
}
