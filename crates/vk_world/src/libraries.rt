//! What a world keeps, and what it learns.
ghost use Rattle.std.specs.Prelude.{◌≡◌, IfOk, bytes_eq};
ghost use Rattle.vk_spec.specs.Files.{Files};
ghost use Rattle.vk_version.specs.AskViews.{ask_view};
ghost use Rattle.vk_files.specs.Notes.{IsNoteAt};
ghost use Rattle.vk_files.specs.Views.{held};
ghost use Rattle.vk_opening.specs.Views.{layout_view};
ghost use Rattle.vk_world.specs.Learning.{SaysNothing};
ghost use Rattle.vk_world.specs.HomeNotes.{homes_in};
ghost use Rattle.vk_world.specs.Libraries.{layout_of, IsRight, Serves, SaysGivenAt, SaysVersionAt};
ghost use Rattle.vk_world.specs.Libraries.{SaysFolderAt, SaysManifestAt};

use crate::answering::{answer_folder, answer_given, answer_version};
use crate::homes::Homes;
use crate::manifests::{Manifests, shared};
use crate::port_asks::PortAsk;
use crate::row_manifests::manifest_for;
use std::alloc::Global;
use std::rc::Rc;
use vk_base::{Outage, PortName, TreePath};
use vk_catalogue::{Given, Wrong};
use vk_files::Archive;
use vk_model::Manifest;
use vk_opening::Layout;
use vk_tree::Tree;
use vk_version::{Ask, Version};

/// What is known of a project, and what was learned from its files.
#[derive(Drop)]
pub struct Library {
    pub layout: Layout,
    /// How many paths were looked at before the first question.
    pub opened: usize,
    pub homes: Homes,
    pub manifests: Manifests,
}

impl Library {
    /// What is known of a project after so many paths were looked at, and nothing learned yet.
    /// Takes no memory.
    pub fn new(alloc: Global, layout: Layout, opened: usize) -> Library
        ensures layout { layout_of result ≡ layout_view layout }
        ensures opened { result.opened ≡ opened }
        ensures right { (files : Files) → IsRight result files }
    {
        Library {
            layout,
            opened,
            homes: Homes::new(alloc),
            manifests: Manifests::new(alloc),
        }
    }

    // Looks for the home of a port, and tells its place.
    fn look<T: Tree>(&mut self, archive: &mut Archive<T>, port: &PortName) -> Result<usize, Outage>
        ensures serves { Serves result (λ f found. SaysNothing f) port.now self.old self.new
            (held T.state archive.old) (held T.state archive.new) }
        ensures there { IfOk result (IsNoteAt (bytes_eq port.now) (homes_in self.new.homes)) }
    {
        self.homes.look(archive, &self.layout, port)
    }

    /// What is given for a port, or what is wrong.
    pub fn given<T: Tree>(
        &mut self,
        archive: &mut Archive<T>,
        port: &PortName,
    ) -> Result<Result<Given, Wrong>, Outage>
        ensures { Serves result (SaysGivenAt port.now) port.now
            self.old self.new (held T.state archive.old) (held T.state archive.new) }
    {
        let place = self.look(archive, port)?;
        answer_given(self.homes.at(place))
    }

    /// The version of a port that an ask means; `None` exactly where there is none.
    pub fn version<T: Tree>(
        &mut self,
        archive: &mut Archive<T>,
        port: &PortName,
        ask: &Ask,
    ) -> Result<Option<Version>, Outage>
        ensures { Serves result (SaysVersionAt port.now (ask_view ask.now)) port.now
            self.old self.new (held T.state archive.old) (held T.state archive.new) }
    {
        let place = self.look(archive, port)?;
        answer_version(self.homes.at(place), ask)
    }

    /// Where a version of a port stands; `None` exactly where the port has no such version.
    pub fn folder<T: Tree>(
        &mut self,
        archive: &mut Archive<T>,
        port: &PortName,
        version: &Version,
    ) -> Result<Option<TreePath>, Outage>
        ensures { Serves result (SaysFolderAt version.now) port.now
            self.old self.new (held T.state archive.old) (held T.state archive.new) }
    {
        let place = self.look(archive, port)?;
        answer_folder(archive.alloc(), self.homes.at(place), version)
    }

    // Reads the manifest of the version that an ask means.
    fn read_manifest<T: Tree>(
        &mut self,
        archive: &mut Archive<T>,
        port: &PortName,
        ask: &Ask,
    ) -> Result<Result<Rc<Manifest>, Wrong>, Outage>
        ensures { Serves result (SaysManifestAt port.now (ask_view ask.now)) port.now
            self.old self.new (held T.state archive.old) (held T.state archive.new) }
    {
        let place = self.look(archive, port)?;
        let found = self.homes.at(place);
        manifest_for(archive, port, found, ask)
    }

    // Reads a manifest that is to be kept.
    fn new_manifest<T: Tree>(
        &mut self,
        archive: &mut Archive<T>,
        key: PortAsk,
    ) -> Result<Result<Rc<Manifest>, Wrong>, Outage>
        ensures { Serves result (SaysManifestAt key.port (ask_view key.ask)) key.port
            self.old self.new (held T.state archive.old) (held T.state archive.new) }
    {
        let found = self.read_manifest(archive, &key.port, &key.ask)?;
        match self.manifests.keep(archive.alloc(), key, &found) {
            Ok(()) => Ok(found),
            Err(outage) => {
                drop(found);
                Err(outage)
            }
        }
    }

    /// The manifest of the version that an ask means, or what is wrong with it: read once, and then
    /// kept. Where no version is meant, nothing is promised.
    pub fn manifest<T: Tree>(
        &mut self,
        archive: &mut Archive<T>,
        port: &PortName,
        ask: &Ask,
    ) -> Result<Result<Rc<Manifest>, Wrong>, Outage>
        ensures { Serves result (SaysManifestAt port.now (ask_view ask.now)) port.now
            self.old self.new (held T.state archive.old) (held T.state archive.new) }
    {
        let key = PortAsk::of(port, ask)?;
        match self.manifests.get(&key) {
            Some(found) => shared(found),
            None => self.new_manifest(archive, key),
        }
    }
}
