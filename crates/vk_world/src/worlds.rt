//! A catalogue of ports over the files of a tree.
ghost use Rattle.std.specs.Prelude.{◌≡◌, IfOk, option_map};
ghost use Rattle.vk_spec.specs.Catalogues.{OnlyAsked, OnPages};
ghost use Rattle.vk_base.specs.Stops.{was_out};
ghost use Rattle.vk_files.specs.Kept.{paths_of};
ghost use Rattle.vk_files.specs.Views.{held};
ghost use Rattle.vk_opening.specs.Opened.{Opens};
ghost use Rattle.vk_opening.specs.Views.{layout_view};
ghost use Rattle.vk_world.specs.Worlds.{state_of, origin_on, pages_in, IsReadSince};

use crate::libraries::Library;
use std::marker::Model;
use std::rc::Rc;
use vk_base::{Outage, PortName, TreePath};
use vk_catalogue::{Catalogue, Given, Wrong};
use vk_files::{Archive, FileCache};
use vk_model::{Manifest, Project, Store};
use vk_opening::{Layout, Opened, open};
use vk_tree::Tree;
use vk_version::{Ask, Version};

/// The pages of ports that the files of a tree hold, read as they are asked for. No path is read
/// twice, and none that opening had read. Where the tree tells its files, each path that is looked
/// at is one of those that some port's page asks for.
#[derive(Drop)]
pub struct World<T: Tree> {
    archive: Archive<T>,
    library: Library,
}

/// What a world had read of its tree.
#[derive(Drop)]
pub struct Readings {
    files: FileCache,
    library: Library,
}

/// A world taken apart.
#[derive(Drop)]
pub struct Parts<T> {
    /// The tree.
    pub tree: T,
    /// What was read of it. Freeing it takes as long as making it did, so that a program that ends
    /// had better forget it.
    pub read: Readings,
}

impl<T: Tree> Model for World<T> {
    ghost use Rattle.vk_files.specs.Views.{held};
    ghost use Rattle.vk_world.specs.Worlds.{WorldView, learned_view, IsSound};
    ghost use Rattle.vk_expr.specs.contracts.exprs.Expr as expr;
    ghost use Rattle.std.specs.Coded.{codes};

    ghost Value = { WorldView T };

    ghost coded = { Prim.hlevel (codes, expr.the_row.coded) };

    ghost view = { λ w. record { archive = w.archive; learned = learned_view w.library } };

    ghost invariant = { λ w. IsSound (held T.state w.archive) w.library };
}

impl<T: Tree> World<T> {
    /// Opens a project: reads its root manifest, its configuration, its triplets and its overlays,
    /// each path once, and then looks where packages are to be kept, if a store is named. `Refused`
    /// exactly where files or store have a fault, with the first in this order; `Failed` exactly
    /// where a call of the tree failed.
    pub fn open(
        archive: &mut Archive<T>,
        project: &Project,
        store: Option<&Store>,
    ) -> Result<Opened, Outage>
        ensures { Opens project.now (option_map (λ s. s.now) store.entry) result
            (held T.state archive.old) (held T.state archive.new) }
    {
        open(archive, project, store)
    }

    /// The world of a project that was opened over an archive. Takes no memory.
    pub fn on(archive: Archive<T>, layout: Layout) -> World<T>
        ensures archive { result.archive ≡ archive }
        ensures pages { (state_of T.state result).pages ≡ pages_in (layout_view layout)
            (T.state archive.tree).told }
        ensures origin { (state_of T.state result).origin ≡ origin_on (layout_view layout)
            (paths_of archive.kept) (T.state archive.tree) }
    {
        let library = Library::new(archive.alloc(), layout, archive.len());
        World { archive, library }
    }

    /// The tree as it stands: no path was looked at twice, by opening or since, and where it tells
    /// its files, each path since is one that some port's page asks for. Takes no memory.
    pub fn into_tree(self) -> T
        ensures tree { result ≡ self.archive.tree }
        ensures read { IsReadSince (state_of T.state self).origin (T.state result) }
    {
        let Parts { tree, read } = self.into_parts();
        drop(read);
        tree
    }

    /// The tree as it stands, as `into_tree` answers it, and what was read of it, which a program
    /// that ends need not free. Takes no memory.
    pub fn into_parts(self) -> Parts<T>
        ensures tree { result.tree ≡ self.archive.tree }
        ensures read { IsReadSince (state_of T.state self).origin (T.state result.tree) }
    {
        self.archive.known();
        let parts = self.archive.into_parts();
        Parts {
            tree: parts.tree,
            read: Readings {
                files: parts.files,
                library: self.library,
            },
        }
    }

    /// The folder where a version of a port stands; `None` exactly where the port has no such
    /// version. The port is asked about, as in the calls of a catalogue.
    pub fn folder(&mut self, port: &PortName, version: &Version) -> Result<Option<TreePath>, Outage>
        ensures stands { IfOk result (λ folder. OnPages
            (λ _. folder ≡ (state_of T.state self.old).origin.places port.now version.now)
            (state_of T.state self.old)) }
        ensures asked { OnlyAsked (was_out result) (state_of T.state self.old)
            (state_of T.state self.new) }
    {
        self.library.folder(&mut self.archive, port, version)
    }
}

impl<T: Tree> Catalogue for World<T> {
    ghost state = { state_of T.state };

    fn given(&mut self, port: &PortName) -> Result<Result<Given, Wrong>, Outage> {
        self.library.given(&mut self.archive, port)
    }

    fn version(&mut self, port: &PortName, ask: &Ask) -> Result<Option<Version>, Outage> {
        self.library.version(&mut self.archive, port, ask)
    }

    fn manifest(
        &mut self,
        port: &PortName,
        ask: &Ask,
    ) -> Result<Result<Rc<Manifest>, Wrong>, Outage> {
        self.library.manifest(&mut self.archive, port, ask)
    }

    fn faults(&self) -> u64 {
        self.archive.tree().faults()
    }
}
