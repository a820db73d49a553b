//! What a catalogue says is wrong with the files that one fact needs.
ghost use Rattle.std.specs.Prelude.{◌≡◌, Ok, IfOk};
ghost use Rattle.vk_spec.specs.Catalogues.{OnPage, OnPages, OnlyAsked, CanAskVersion};
ghost use Rattle.vk_spec.specs.Catalogues.{CanAskManifest};
ghost use Rattle.vk_spec.specs.Pages.{manifest_in, version_in};
ghost use Rattle.vk_base.specs.Stops.{was_out};
ghost use Rattle.vk_version.specs.AskViews.{ask_view};
ghost use Rattle.vk_resolution.specs.Faults.{given_troubles, manifest_troubles};
ghost use Rattle.vk_resolution.specs.Faults.{lacks_version, wrong_of};
ghost use Rattle.vk_model.specs.WrongViews.{given_view, wrong_view};
ghost use Rattle.vk_model.specs.FactViews.{fact_view};
ghost use Rattle.vk_faults.specs.Troubles.{trouble_view, troubles_in};
ghost use Rattle.vk_faults.specs.Met.{lacking, floor_met, visit_met, met_on};

use crate::troubles::Trouble;
use vk_base::{Memory, Outage, PortName};
use vk_catalogue::Catalogue;
use vk_model::{Fact, Given, Who, Wrong};
use vk_version::Ask;

fn wrong_trouble(port: &PortName, wrong: Wrong) -> Result<Trouble, Memory>
    ensures { IfOk result (λ t. trouble_view t ≡ wrong_of port.now (wrong_view wrong)) }
{
    match port.clone() {
        Ok(port) => Ok(Trouble::Wrong { port, wrong }),
        Err(lack) => {
            drop(wrong);
            Err(Memory::from(lack))
        }
    }
}

// What is wrong with a port's given version.
fn given_trouble<C: Catalogue>(cat: &mut C, port: &PortName) -> Result<Option<Trouble>, Outage>
    ensures asked { OnlyAsked (was_out result) (C.state cat.old) (C.state cat.new) }
    ensures met { IfOk result (λ o. OnPages (λ pages. troubles_in o
        ≡ given_troubles port.now (pages port.now).given) (C.state cat.old)) }
{
    match cat.given(port)? {
        Ok(given) => {
            drop(given);
            Ok(None)
        }
        Err(wrong) => Ok(Some(wrong_trouble(port, wrong)?)),
    }
}

fn no_version(port: &PortName, ask: &Ask) -> Result<Trouble, Memory>
    ensures { IfOk result (λ t. trouble_view t ≡ lacks_version port.now (ask_view ask.now)) }
{
    Ok(Trouble::NoVersion {
        port: port.clone()?,
        ask: ask.clone()?,
    })
}

// That the table lacks a version.
fn lacking<C: Catalogue>(cat: &mut C, port: &PortName, ask: &Ask) -> Result<Option<Trouble>, Outage>
    requires { OnPage port.now CanAskVersion (C.state cat.old) }
    ensures asked { OnlyAsked (was_out result) (C.state cat.old) (C.state cat.new) }
    ensures met { IfOk result (λ o. OnPages (λ pages. troubles_in o
        ≡ lacking port.now (ask_view ask.now) (version_in (pages port.now) (ask_view ask.now)))
        (C.state cat.old)) }
{
    match cat.version(port, ask)? {
        Some(version) => {
            drop(version);
            Ok(None)
        }
        None => Ok(Some(no_version(port, ask)?)),
    }
}

// That the table lacks a floor's version, where the given version is no overlay's.
fn table_trouble<C: Catalogue>(
    cat: &mut C,
    port: &PortName,
    given: &Given,
    ask: &Ask,
) -> Result<Option<Trouble>, Outage>
    requires { OnPage port.now CanAskVersion (C.state cat.old) }
    ensures asked { OnlyAsked (was_out result) (C.state cat.old) (C.state cat.new) }
    ensures met { IfOk result (λ o. OnPages (λ pages. troubles_in o
        ≡ floor_met port.now (ask_view ask.now) (pages port.now) (Ok (given_view given.now)))
        (C.state cat.old)) }
{
    match given {
        Given::Overlay(_) => Ok(None),
        Given::Override(_) => lacking(cat, port, ask),
        Given::Baseline(_) => lacking(cat, port, ask),
    }
}

// That the table lacks a floor.
fn floor_trouble<C: Catalogue>(
    cat: &mut C,
    port: &PortName,
    ask: &Ask,
) -> Result<Option<Trouble>, Outage>
    ensures asked { OnlyAsked (was_out result) (C.state cat.old) (C.state cat.new) }
    ensures met { IfOk result (λ o. OnPages (λ pages. troubles_in o
        ≡ floor_met port.now (ask_view ask.now) (pages port.now) (pages port.now).given)
        (C.state cat.old)) }
{
    match cat.given(port)? {
        Ok(given) => {
            let trouble = table_trouble(cat, port, &given, ask);
            drop(given);
            trouble
        }
        Err(wrong) => {
            drop(wrong);
            Ok(None)
        }
    }
}

// What is wrong with the manifest of a version that is there.
fn manifest_trouble<C: Catalogue>(
    cat: &mut C,
    port: &PortName,
    ask: &Ask,
) -> Result<Option<Trouble>, Outage>
    requires { OnPage port.now (CanAskManifest (ask_view ask.now)) (C.state cat.old) }
    ensures asked { OnlyAsked (was_out result) (C.state cat.old) (C.state cat.new) }
    ensures met { IfOk result (λ o. OnPages (λ pages. troubles_in o
        ≡ manifest_troubles port.now (manifest_in (pages port.now) (ask_view ask.now)))
        (C.state cat.old)) }
{
    match cat.manifest(port, ask)? {
        Ok(manifest) => {
            drop(manifest);
            Ok(None)
        }
        Err(wrong) => Ok(Some(wrong_trouble(port, wrong)?)),
    }
}

// What is wrong with the manifest of a version, if it is there.
fn row_trouble<C: Catalogue>(
    cat: &mut C,
    port: &PortName,
    ask: &Ask,
) -> Result<Option<Trouble>, Outage>
    requires { OnPage port.now CanAskVersion (C.state cat.old) }
    ensures asked { OnlyAsked (was_out result) (C.state cat.old) (C.state cat.new) }
    ensures met { IfOk result (λ o. OnPages (λ pages. troubles_in o
        ≡ manifest_troubles port.now (manifest_in (pages port.now) (ask_view ask.now)))
        (C.state cat.old)) }
{
    match cat.version(port, ask)? {
        Some(version) => {
            drop(version);
            manifest_trouble(cat, port, ask)
        }
        None => Ok(None),
    }
}

// What is wrong with the manifest of a visit, where its port has a given version.
fn visit_trouble<C: Catalogue>(
    cat: &mut C,
    port: &PortName,
    ask: &Ask,
) -> Result<Option<Trouble>, Outage>
    ensures asked { OnlyAsked (was_out result) (C.state cat.old) (C.state cat.new) }
    ensures met { IfOk result (λ o. OnPages (λ pages. troubles_in o
        ≡ visit_met port.now (ask_view ask.now) (pages port.now) (pages port.now).given)
        (C.state cat.old)) }
{
    match cat.given(port)? {
        Ok(given) => {
            drop(given);
            row_trouble(cat, port, ask)
        }
        Err(wrong) => {
            drop(wrong);
            Ok(None)
        }
    }
}

/// What is wrong with the files that a fact needs, if anything is.
pub(crate) fn fact_trouble<C: Catalogue>(
    cat: &mut C,
    fact: &Fact,
) -> Result<Option<Trouble>, Outage>
    ensures asked { OnlyAsked (was_out result) (C.state cat.old) (C.state cat.new) }
    ensures met { IfOk result (λ o. OnPages (λ pages. troubles_in o
        ≡ met_on pages (fact_view fact.now)) (C.state cat.old)) }
{
    match fact {
        Fact::Need {
            who: Who::Root(_),
            ..
        } => Ok(None),
        Fact::Need {
            who: Who::Inst(instance),
            ..
        } => given_trouble(cat, &instance.port),
        Fact::Floor { port, ask } => floor_trouble(cat, port, ask),
        Fact::Visit { inst, ask, .. } => visit_trouble(cat, &inst.port, ask),
    }
}
