//! The manifest of a port at its given version.
ghost use Rattle.vk_spec.specs.Catalogues.{Asks, OnPage, CanAskManifest, CanAskVersion};
ghost use Rattle.vk_version.specs.AskViews.{ask_view};
ghost use Rattle.vk_catalogue.specs.GivenManifests.{SaysAt, SaysAtGiven, at_answer};

use crate::catalogues::Catalogue;
use std::rc::Rc;
use vk_base::{Outage, PortName};
use vk_model::{Manifest, Wrong};
use vk_version::Ask;

/// What a port has at its given version.
#[derive(Drop)]
pub enum GivenManifest {
    /// The manifest.
    Found(Rc<Manifest>),
    /// No version: none has the text and the port-version that are given.
    NoVersion(Ask),
    /// Something is wrong with the given version or with the manifest.
    Bad(Wrong),
}

// The manifest of a version that is there.
#[tactic(auto, using(crate::proofs::GivenLemmas::manifest_there, crate::proofs::GivenLemmas::manifest_bad, vk_spec::proofs::AskLemmas::asks_stopped))]
fn listed_manifest<C: Catalogue>(
    cat: &mut C,
    port: &PortName,
    ask: &Ask,
) -> Result<GivenManifest, Outage>
    requires { OnPage port.now (CanAskManifest (ask_view ask.now)) (C.state cat.old) }
    ensures { Asks port.now (SaysAt (ask_view ask.now)) (at_answer result) (C.state cat.old)
        (C.state cat.new) }
{
    match cat.manifest(port, ask)? {
        Ok(manifest) => Ok(GivenManifest::Found(manifest)),
        Err(wrong) => Ok(GivenManifest::Bad(wrong)),
    }
}

// The manifest for an ask, where there is a version for it.
#[tactic(auto, using(crate::proofs::GivenLemmas::not_listed, crate::proofs::GivenLemmas::listed_then, vk_spec::proofs::AskLemmas::can_ask_manifest, vk_spec::proofs::AskLemmas::asks_stopped))]
fn manifest_for<C: Catalogue>(
    cat: &mut C,
    port: &PortName,
    ask: &Ask,
) -> Result<GivenManifest, Outage>
    requires { OnPage port.now CanAskVersion (C.state cat.old) }
    ensures { Asks port.now (SaysAt (ask_view ask.now)) (at_answer result) (C.state cat.old)
        (C.state cat.new) }
{
    match cat.version(port, ask)? {
        Some(version) => {
            drop(version);
            listed_manifest(cat, port, ask)
        }
        None => Ok(GivenManifest::NoVersion(ask.clone()?)),
    }
}

/// The manifest of a port at its given version, or the first thing that is wrong with it: no given
/// version, no version for what is given, no manifest there.
#[tactic(auto, using(crate::proofs::GivenLemmas::given_then, crate::proofs::GivenLemmas::given_bad, vk_spec::proofs::AskLemmas::can_ask_version, vk_spec::proofs::AskLemmas::asks_stopped))]
pub fn manifest_at_given<C: Catalogue>(
    cat: &mut C,
    port: &PortName,
) -> Result<GivenManifest, Outage>
    ensures { Asks port.now SaysAtGiven (at_answer result) (C.state cat.old) (C.state cat.new) }
{
    match cat.given(port)? {
        Ok(given) => {
            let found = manifest_for(cat, port, given.ask());
            drop(given);
            found
        }
        Err(wrong) => Ok(GivenManifest::Bad(wrong)),
    }
}
