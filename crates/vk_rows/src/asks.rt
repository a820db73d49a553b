//! What a catalogue is asked. A version is asked only of a port with a given one, and a manifest
//! only of a version that is there: a row that asks otherwise isn't answered.
ghost use Rattle.vk_spec.specs.Catalogues.{OnPage, CanAskVersion, CanAskManifest};
ghost use Rattle.vk_version.specs.AskViews.{ask_view};

use crate::lines::{tell_given, tell_manifest, tell_version, tell_wrong};
use crate::projects::{ask_of, port_of};
use vk_base::{Outage, PortName};
use vk_catalogue::{Catalogue, GivenManifest, manifest_at_given};
use vk_model::lines::no_version_line;
use vk_row_text::{Reply, cut};
use vk_version::Ask;

fn given<C: Catalogue>(cat: &mut C, port: &PortName, reply: &mut Reply) -> Result<(), Outage> {
    match cat.given(port)? {
        Ok(given) => {
            tell_given(&given, reply);
            drop(given);
        }
        Err(wrong) => {
            tell_wrong(port, &wrong, reply);
            drop(wrong);
        }
    }
    Ok(())
}

fn at<C: Catalogue>(cat: &mut C, port: &PortName, reply: &mut Reply) -> Result<(), Outage> {
    match manifest_at_given(cat, port)? {
        GivenManifest::Found(manifest) => tell_manifest(&manifest, reply),
        GivenManifest::NoVersion(ask) => {
            let line = no_version_line(reply.alloc(), port, &ask);
            reply.push_made(line);
        }
        GivenManifest::Bad(wrong) => tell_wrong(port, &wrong, reply),
    }
    Ok(())
}

fn listed<C: Catalogue>(
    cat: &mut C,
    port: &PortName,
    ask: &Ask,
    reply: &mut Reply,
) -> Result<(), Outage>
    requires { OnPage port.now (CanAskManifest (ask_view ask.now)) (C.state cat.old) }
{
    match cat.manifest(port, ask)? {
        Ok(manifest) => tell_manifest(&manifest, reply),
        Err(wrong) => tell_wrong(port, &wrong, reply),
    }
    Ok(())
}

fn version<C: Catalogue>(
    cat: &mut C,
    port: &PortName,
    ask: &Ask,
    reply: &mut Reply,
) -> Result<(), Outage>
    requires { OnPage port.now CanAskVersion (C.state cat.old) }
{
    let version = cat.version(port, ask)?;
    tell_version(version.as_ref(), reply);
    Ok(())
}

// Tells the manifest of a version, where that is there.
#[tactic(auto, using(vk_spec::proofs::AskLemmas::can_ask_manifest))]
fn manifest<C: Catalogue>(
    cat: &mut C,
    port: &PortName,
    ask: &Ask,
    reply: &mut Reply,
) -> Result<(), Outage>
    requires { OnPage port.now CanAskVersion (C.state cat.old) }
{
    match cat.version(port, ask)? {
        Some(version) => {
            drop(version);
            listed(cat, port, ask, reply)
        }
        None => {
            reply.refuse();
            Ok(())
        }
    }
}

// Tells a version, where the port has a given one.
#[tactic(auto, using(vk_spec::proofs::AskLemmas::can_ask_version))]
fn version_of<C: Catalogue>(
    cat: &mut C,
    port: &PortName,
    ask: &Ask,
    reply: &mut Reply,
) -> Result<(), Outage> {
    match cat.given(port)? {
        Ok(given) => {
            drop(given);
            version(cat, port, ask, reply)
        }
        Err(wrong) => {
            drop(wrong);
            reply.refuse();
            Ok(())
        }
    }
}

// Tells a manifest, where the port has a given version.
#[tactic(auto, using(vk_spec::proofs::AskLemmas::can_ask_version))]
fn manifest_of<C: Catalogue>(
    cat: &mut C,
    port: &PortName,
    ask: &Ask,
    reply: &mut Reply,
) -> Result<(), Outage> {
    match cat.given(port)? {
        Ok(given) => {
            drop(given);
            manifest(cat, port, ask, reply)
        }
        Err(wrong) => {
            drop(wrong);
            reply.refuse();
            Ok(())
        }
    }
}

fn with_ask<C: Catalogue>(
    cat: &mut C,
    question: &str,
    port: &PortName,
    rest: &str,
    reply: &mut Reply,
) -> Result<(), Outage> {
    match ask_of(rest, reply) {
        Some(ask) if question == "manifest" => manifest_of(cat, port, &ask, reply),
        Some(ask) => version_of(cat, port, &ask, reply),
        None => Ok(()),
    }
}

fn of_port<C: Catalogue>(
    cat: &mut C,
    question: &str,
    port: &PortName,
    rest: &str,
    reply: &mut Reply,
) -> Result<(), Outage> {
    match question {
        "given" => given(cat, port, reply),
        "at" => at(cat, port, reply),
        _ => with_ask(cat, question, port, rest, reply),
    }
}

/// - `given PORT`: what is given for a port;
/// - `version PORT ASK`: the version that the ask means;
/// - `manifest PORT ASK`: the manifest of that version;
/// - `at PORT`: the manifest of a port at its given version.
pub fn ask<C: Catalogue>(cat: &mut C, question: &str, row: &str, reply: &mut Reply) {
    let (port, rest) = cut(row);
    let Some(port) = port_of(port, reply) else {
        return;
    };
    match of_port(cat, question, &port, rest, reply) {
        Ok(()) => {}
        Err(Outage::Failed) => reply.push("failed"),
        Err(Outage::Memory(memory)) => reply.lack(memory),
    }
}
