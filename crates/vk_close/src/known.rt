//! What is known of a port, asked for once.
ghost use Rattle.std.specs.Prelude.{◌≡◌, List, IfOk, Ok, Err, Some, None, map, option_map};
ghost use Rattle.vk_spec.specs.Manifests as plain;
ghost use Rattle.vk_spec.specs.Pages.{is_pinned_by};
ghost use Rattle.vk_spec.specs.Catalogues.{OnlyAsked, OnPage, OnPages, ArePages, CanAskVersion};
ghost use Rattle.vk_base.specs.Stops.{was_out};
ghost use Rattle.vk_model.specs.WrongViews.{given_view, wrong_view};
ghost use Rattle.vk_close.specs.Known.{base_by, given_in};

use crate::pins::{is_pinned_given, is_pinned_wrong};
use std::alloc::Global;
use std::marker::Model;
use vk_base::{Memory, Outage, PortName};
use vk_catalogue::Catalogue;
use vk_model::{Given, Wrong};
use vk_root::Overrides;
use vk_version::Version;

/// What is known of a port.
#[derive(Drop)]
pub(crate) struct Known {
    /// Whether an overlay has it, or an override is for it.
    pub(crate) pinned: bool,
    /// Its given version, unless something is wrong with that.
    pub(crate) given: Option<Given>,
    /// What the table has for what a baseline gives.
    pub(crate) base: Option<Version>,
}

/// What is known of a port, in a block of its own: a map of ports moves little of it when it grows.
/// Contracts see what is known.
#[derive(Drop)]
pub(crate) struct KnownPort {
    block: Box<Known>,
}

impl Model for KnownPort {
    ghost use Rattle.vk_close.specs.declared.known.Known.{Known};

    ghost Value = { Known };

    ghost view = { λ k. k.block.value };
}

impl KnownPort {
    pub(crate) fn new(alloc: Global, known: Known) -> Result<KnownPort, Memory>
        ensures { IfOk result (λ k. k ≡ known) }
    {
        Ok(KnownPort {
            block: Box::new(alloc, known)?,
        })
    }

    pub(crate) fn known(&self) -> &Known
        ensures { result.now ≡ self.now }
    {
        self.block.as_ref()
    }
}

// What the table has for what a baseline gives.
fn base_of<C: Catalogue>(
    cat: &mut C,
    port: &PortName,
    given: &Given,
) -> Result<Option<Version>, Outage>
    requires { OnPage port.now CanAskVersion (C.state cat.old) }
    ensures asked { OnlyAsked (was_out result) (C.state cat.old) (C.state cat.new) }
    ensures base { IfOk result (λ base. OnPages (λ pages.
        base ≡ base_by (pages port.now) (Ok (given_view given.now))) (C.state cat.old)) }
{
    match given {
        Given::Baseline(ask) => cat.version(port, ask),
        _ => Ok(None),
    }
}

// What is known of a port with a given version.
fn known_given<C: Catalogue>(cat: &mut C, port: &PortName, given: Given) -> Result<Known, Outage>
    requires { OnPage port.now CanAskVersion (C.state cat.old) }
    ensures asked { OnlyAsked (was_out result) (C.state cat.old) (C.state cat.new) }
    ensures given { IfOk result
        (λ known. option_map given_view known.given ≡ Some (given_view given)) }
    ensures base { IfOk result (λ known. OnPages (λ pages.
        known.base ≡ base_by (pages port.now) (Ok (given_view given))) (C.state cat.old)) }
    ensures pinned { IfOk result (λ known. (overrides : List plain.Override)
        → known.pinned ≡ is_pinned_by overrides port.now (Ok (given_view given))) }
{
    let base = base_of(cat, port, &given)?;
    let pinned = is_pinned_given(&given);
    Ok(Known {
        given: Some(given),
        base,
        pinned,
    })
}

// What is known of a port without one.
fn known_wrong(overrides: &Overrides, port: &PortName, wrong: &Wrong) -> Known
    ensures given { result.given ≡ None }
    ensures base { result.base ≡ None }
    ensures pinned { result.pinned
        ≡ is_pinned_by overrides.now port.now (Err (wrong_view wrong.now)) }
{
    Known {
        given: None,
        base: None,
        pinned: is_pinned_wrong(overrides, port, wrong),
    }
}

/// What a catalogue knows of a port.
pub(crate) fn ask_port<C: Catalogue>(
    overrides: &Overrides,
    cat: &mut C,
    port: &PortName,
) -> Result<Known, Outage>
    ensures asked { OnlyAsked (was_out result) (C.state cat.old) (C.state cat.new) }
    ensures given { IfOk result (λ known. OnPages (λ pages.
        option_map given_view known.given ≡ given_in (pages port.now).given) (C.state cat.old)) }
    ensures base { IfOk result (λ known. OnPages (λ pages.
        known.base ≡ base_by (pages port.now) (pages port.now).given) (C.state cat.old)) }
    ensures pinned { IfOk result (λ known. OnPages (λ pages. known.pinned
        ≡ is_pinned_by overrides.now port.now (pages port.now).given)
        (C.state cat.old)) }
    ensures sound { IfOk result (λ known. OnPages ArePages (C.state cat.old)) }
{
    match cat.given(port)? {
        Ok(given) => known_given(cat, port, given),
        Err(wrong) => Ok(known_wrong(overrides, port, &wrong)),
    }
}
