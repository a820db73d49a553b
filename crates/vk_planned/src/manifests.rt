//! The manifest of the version that is chosen for a port.
ghost use Rattle.std.specs.Prelude.{◌≡◌, IfOk};
ghost use Rattle.vk_spec.specs.Catalogues.{OnlyAsked, OnPage, OnPages, CanAskManifest};
ghost use Rattle.vk_spec.specs.Pages.{manifest_in};
ghost use Rattle.vk_base.specs.Stops.{was_out};
ghost use Rattle.vk_version.specs.AskViews.{ask_view};
ghost use Rattle.vk_planned.specs.Manifests.{CanAskChosen, chosen_manifest, found_view, readable};

use std::rc::Rc;
use vk_base::{Outage, PortName};
use vk_catalogue::Catalogue;
use vk_choices::Choices;
use vk_model::Manifest;
use vk_version::Ask;

// The manifest of a version that is there, unless something is wrong with it.
fn row_manifest<C: Catalogue>(
    cat: &mut C,
    port: &PortName,
    ask: &Ask,
) -> Result<Option<Rc<Manifest>>, Outage>
    requires { OnPage port.now (CanAskManifest (ask_view ask.now)) (C.state cat.old) }
    ensures asked { OnlyAsked (was_out result) (C.state cat.old) (C.state cat.new) }
    ensures found { IfOk result (λ found. OnPages (λ pages. found_view found
        ≡ readable (manifest_in (pages port.now) (ask_view ask.now))) (C.state cat.old)) }
{
    match cat.manifest(port, ask)? {
        Ok(manifest) => Ok(Some(manifest)),
        Err(wrong) => {
            drop(wrong);
            Ok(None)
        }
    }
}

/// The manifest of the version that is chosen for a port, if there is one.
pub(crate) fn chosen_manifest<C: Catalogue>(
    cat: &mut C,
    choices: &Choices,
    port: &PortName,
) -> Result<Option<Rc<Manifest>>, Outage>
    requires { OnPages (λ pages. CanAskChosen pages choices.now.ports.entries port.now)
        (C.state cat.old) }
    ensures asked { OnlyAsked (was_out result) (C.state cat.old) (C.state cat.new) }
    ensures found { IfOk result (λ found. OnPages (λ pages. found_view found
        ≡ chosen_manifest pages choices.now.ports.entries port.now) (C.state cat.old)) }
{
    match choices.of(port) {
        Some(choice) => row_manifest(cat, port, choice.version.ask()),
        None => Ok(None),
    }
}
