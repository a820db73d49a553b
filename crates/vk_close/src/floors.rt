//! What a catalogue is asked about a floor.
ghost use Rattle.std.specs.Prelude.{◌≡◌, IfOk, Some, not, option_map};
ghost use Rattle.vk_spec.specs.Pages.{version_in};
ghost use Rattle.vk_spec.specs.Versions.{same_ask};
ghost use Rattle.vk_spec.specs.Catalogues.{OnlyAsked, OnPage, OnPages, CanAskVersion};
ghost use Rattle.vk_base.specs.Stops.{was_out};
ghost use Rattle.vk_version.specs.AskViews.{ask_view};
ghost use Rattle.vk_model.specs.WrongViews.{given_view};
ghost use Rattle.vk_close.specs.Known.{given_in};
ghost use Rattle.vk_close.specs.Floors.{found_by, is_base, is_below, is_clear};
ghost use Rattle.vk_close.specs.Floors.{not_below, visited_by};

use crate::known::Known;
use std::cmp::Ordering;
use vk_base::{Outage, PortName};
use vk_catalogue::Catalogue;
use vk_model::Given;
use vk_version::{Ask, Version, order};

// Looks the version of a floor up in the table, if the port has one.
fn find_given<C: Catalogue>(
    cat: &mut C,
    port: &PortName,
    given: &Given,
    ask: &Ask,
) -> Result<Option<Version>, Outage>
    requires { OnPage port.now CanAskVersion (C.state cat.old) }
    ensures asked { OnlyAsked (was_out result) (C.state cat.old) (C.state cat.new) }
    ensures found { IfOk result (λ found. OnPages (λ pages. found ≡ found_by
        (Some (given_view given.now)) (version_in (pages port.now) (ask_view ask.now)))
        (C.state cat.old)) }
{
    match given {
        Given::Overlay(_) => Ok(None),
        Given::Override(_) => cat.version(port, ask),
        Given::Baseline(_) => cat.version(port, ask),
    }
}

/// Looks the version of a floor up in the table, if the port has one.
pub(crate) fn find<C: Catalogue>(
    cat: &mut C,
    port: &PortName,
    given: &Option<Given>,
    ask: &Ask,
) -> Result<Option<Version>, Outage>
    requires { OnPages (λ pages. option_map given_view given.now ≡ given_in (pages port.now).given)
        (C.state cat.old) }
    ensures asked { OnlyAsked (was_out result) (C.state cat.old) (C.state cat.new) }
    ensures found { IfOk result (λ found. OnPages (λ pages. found ≡ found_by
        (option_map given_view given.now) (version_in (pages port.now) (ask_view ask.now)))
        (C.state cat.old)) }
{
    match given {
        Some(given) => find_given(cat, port, given, ask),
        None => Ok(None),
    }
}

fn stands(found: &Version, given: &Version) -> bool
    ensures { result ≡ not (is_below found.now given.now) }
{
    match order(found, given) {
        Some(Ordering::Less) => false,
        _ => true,
    }
}

fn is_not_below(base: &Option<Version>, found: &Option<Version>) -> bool
    ensures { result ≡ not_below base.now found.now }
{
    match (base, found) {
        (Some(base), Some(found)) => stands(found, base),
        _ => false,
    }
}

fn is_same(one: &Ask, other: &Ask) -> bool
    ensures { result ≡ same_ask (ask_view one.now) (ask_view other.now) }
{
    one == other
}

/// Whether a floor is that of the version that a baseline gives.
pub(crate) fn is_base(given: &Option<Given>, ask: &Ask) -> bool
    ensures { result ≡ is_base (option_map given_view given.now) (ask_view ask.now) }
{
    match given {
        Some(Given::Baseline(base)) => is_same(ask, base),
        _ => false,
    }
}

/// Whether the version of a floor is visited.
pub(crate) fn is_visited(known: &Known, ask: &Ask, found: &Option<Version>) -> bool
    ensures { result ≡ visited_by (option_map given_view known.now.given) known.now.base
        (ask_view ask.now) found.now }
{
    match &known.given {
        Some(Given::Overlay(version)) => is_same(ask, version.ask()),
        Some(Given::Override(wanted)) => is_same(ask, wanted) && found.is_some(),
        Some(Given::Baseline(_)) => is_not_below(&known.base, found),
        None => false,
    }
}

/// Whether a floor lies in the table of its port, if the port has one.
pub(crate) fn is_clear(given: &Option<Given>, found: &Option<Version>) -> bool
    ensures { result ≡ is_clear (option_map given_view given.now) found.now }
{
    match given {
        Some(Given::Override(_)) => found.is_some(),
        Some(Given::Baseline(_)) => found.is_some(),
        _ => true,
    }
}
