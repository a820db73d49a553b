ghost use Rattle.std.specs.Prelude.{◌≡◌};
ghost use Rattle.vk_spec.specs.Catalogues.{CatalogueState, Asks, OnPage, CanAskVersion};
ghost use Rattle.vk_spec.specs.Catalogues.{CanAskManifest, SaysGiven, SaysVersion, SaysManifest};
ghost use Rattle.vk_version.specs.AskViews.{ask_view};
ghost use Rattle.vk_spec.specs.Conditions.{Condition};

use std::rc::Rc;
use vk_base::{Outage, PortName};
use vk_model::{Given, Manifest, Wrong};
use vk_version::{Ask, Version};

/// What there is of each port: its given version, its versions, and their manifests, or what is
/// wrong with them. That is the port's page, and no call changes it. `Failed` comes only where the
/// count of faults may have increased; any other answer leaves the count.
pub trait Catalogue {
    ghost use Rattle.vk_catalogue.specs.Views.{given_answer, version_answer, manifest_answer};

    /// What is known of it: the pages, where it tells them; what it was made of; how many calls
    /// were made and how many failed, and whether none is to fail.
    ghost state: { Self → CatalogueState Condition };

    /// The given version of a port, or why there is none.
    fn given(&mut self, port: &PortName) -> Result<Result<Given, Wrong>, Outage>
        ensures { Asks port.now SaysGiven (given_answer result) (state self.old) (state self.new) };

    /// The version of a port with the ask's text and port-version; `None` exactly where the port
    /// has none such. It is asked only of a port with a given version.
    fn version(&mut self, port: &PortName, ask: &Ask) -> Result<Option<Version>, Outage>
        requires { OnPage port.now CanAskVersion (state self.old) }
        ensures { Asks port.now (SaysVersion (ask_view ask.now)) (version_answer result)
            (state self.old) (state self.new) };

    /// The manifest of that version, or what is wrong with it. It is asked only where there is a
    /// version for the ask.
    fn manifest(
        &mut self,
        port: &PortName,
        ask: &Ask,
    ) -> Result<Result<Rc<Manifest>, Wrong>, Outage>
        requires { OnPage port.now (CanAskManifest (ask_view ask.now)) (state self.old) }
        ensures { Asks port.now (SaysManifest (ask_view ask.now)) (manifest_answer result)
            (state self.old) (state self.new) };

    /// Its count of faults, which never falls.
    fn faults(&self) -> u64
        ensures { result ≡ (state self.now).faults };
}
