ghost use Rattle.std.specs.Prelude.{◌≡◌, ◌↔◌, ◌++◌, ◌∷◌, [], IsTrue, IfOk, OnOk, OnErr, false};
ghost use Rattle.vk_spec.specs.Catalogues.{Asks, OnlyAsked, OnPage, CanAskVersion, CanAskManifest};
ghost use Rattle.vk_spec.specs.Catalogues.{SaysGiven, SaysVersion, SaysManifest};
ghost use Rattle.vk_version.specs.AskViews.{ask_view};
ghost use Rattle.vk_base.specs.Stops.{was_out};
ghost use Rattle.vk_catalogue.specs.Views.{given_answer, version_answer};
ghost use Rattle.vk_catalogue.specs.Views.{manifest_answer};
ghost use Rattle.vk_catalogue.specs.PageViews.{page_view};
ghost use Rattle.vk_base.specs.Schedules.{with_listed};
ghost use Rattle.vk_catalogue.specs.Shelves.{page_on};
ghost use Rattle.vk_catalogue.specs.MemCatalogues.{IsNewCatalogue, IsPageFor, MemCalls};
ghost use Rattle.vk_catalogue.specs.MemCatalogues.{mem_schedule, mem_state, pages_put};
ghost use Rattle.vk_catalogue.specs.MemCatalogues.{with_schedule};

use crate::catalogues::Catalogue;
use crate::pages::Page;
use crate::shelves::Shelf;
use std::alloc::Global;
use std::rc::Rc;
use vk_base::{Memory, Outage, PortName, Schedule};
use vk_model::{Given, Manifest, Wrong};
use vk_version::{Ask, Version};

/// A catalogue in memory that tells its pages. A port without a page is given
/// `Wrong::NoRegistry`, and has no versions.
#[derive(Drop)]
pub struct MemCatalogue {
    alloc: Global,
    shelf: Shelf,
    faults: u64,
    schedule: Schedule,
}

impl MemCatalogue {
    /// A catalogue without pages: its count of faults is 0, and no call is to fail.
    pub fn new(alloc: Global) -> Result<MemCatalogue, Memory>
        ensures { IfOk result IsNewCatalogue }
    {
        Ok(MemCatalogue {
            alloc,
            shelf: Shelf::new(alloc),
            faults: 0,
            schedule: Schedule::new(alloc),
        })
    }

    /// Whether a page may be put: its port has none yet, and it is sound.
    pub fn fits(&self, page: &Page) -> Result<bool, Memory>
        ensures { IfOk result
            (λ fits. IsTrue fits ↔ IsPageFor page.now.port (page_view page.now)
            (pages_put self.now)) }
    {
        if !self.shelf.lacks(&page.port) {
            return Ok(false);
        }
        page.is_sound(self.alloc)
    }

    /// Puts the page of a port that has none yet. It counts as no call. When memory runs out,
    /// the catalogue stays as it was.
    pub fn put(&mut self, page: Page) -> Result<(), Memory>
        requires { IsPageFor page.port (page_view page) (pages_put self.old) }
        ensures ok { OnOk result
            (pages_put self.new ≡ pages_put self.old ++ (page.port, page_view page) ∷ []) }
        ensures err { OnErr result (pages_put self.new ≡ pages_put self.old) }
        ensures faults { (mem_state self.new).faults ≡ (mem_state self.old).faults }
        ensures schedule { mem_schedule self.new ≡ mem_schedule self.old }
    {
        self.shelf.put(page)
    }

    /// The calls with these numbers fail, counted from 1 over every call of the trait but
    /// `faults`, in place of those named before. The calls are counted on.
    pub fn fail_at(&mut self, calls: &[u64]) -> Result<(), Memory>
        ensures ok { OnOk result
            (self.new ≡ with_schedule (with_listed calls.now (mem_schedule self.old)) self.old) }
        ensures err { OnErr result (self.new ≡ self.old) }
    {
        self.schedule.list(self.alloc, calls)?;
        Ok(())
    }

    // Counts a call, and tells whether it fails.
    fn next_fails(&mut self) -> bool
        ensures exact { MemCalls result self.old self.new }
        ensures asked { OnlyAsked result (mem_state self.old) (mem_state self.new) }
        ensures pages { self.new.shelf ≡ self.old.shelf }
    {
        if self.schedule.next_is_wrong() {
            self.faults = self.faults.saturating_add(1);
            return true;
        }
        false
    }
}

// What is given for a port.
fn given_on(shelf: &Shelf, port: &PortName) -> Result<Result<Given, Wrong>, Outage>
    ensures told { IfOk (given_answer result) (SaysGiven (page_on shelf.now port.now)) }
    ensures calm { was_out result ≡ false }
{
    match shelf.get(port) {
        Some(held) => Ok(held.given.clone()?),
        None => Ok(Err(Wrong::NoRegistry)),
    }
}

// The version that a port has for an ask.
fn version_on(shelf: &Shelf, port: &PortName, ask: &Ask) -> Result<Option<Version>, Outage>
    ensures told { IfOk (version_answer result)
        (SaysVersion (ask_view ask.now) (page_on shelf.now port.now)) }
    ensures calm { was_out result ≡ false }
{
    match shelf.row(port, ask) {
        Some(row) => Ok(Some(row.version.clone()?)),
        None => Ok(None),
    }
}

// The manifest that a port has for an ask.
fn manifest_on(
    shelf: &Shelf,
    port: &PortName,
    ask: &Ask,
) -> Result<Result<Rc<Manifest>, Wrong>, Outage>
    requires { CanAskManifest (ask_view ask.now) (page_on shelf.now port.now) }
    ensures told { IfOk (manifest_answer result)
        (SaysManifest (ask_view ask.now) (page_on shelf.now port.now)) }
    ensures calm { was_out result ≡ false }
{
    let row = shelf.row(port, ask).unwrap();
    Ok(row.manifest.clone()?)
}

impl Catalogue for MemCatalogue {
    ghost state = { mem_state };

    fn given(&mut self, port: &PortName) -> Result<Result<Given, Wrong>, Outage>
        ensures asks { Asks port.now SaysGiven (given_answer result) (mem_state self.old)
            (mem_state self.new) }
        ensures exact { MemCalls (was_out result) self.old self.new }
    {
        self.shelf.known();
        if self.next_fails() {
            return Err(Outage::Failed);
        }
        given_on(&self.shelf, port)
    }

    fn version(&mut self, port: &PortName, ask: &Ask) -> Result<Option<Version>, Outage>
        requires { OnPage port.now CanAskVersion (mem_state self.old) }
        ensures asks { Asks port.now (SaysVersion (ask_view ask.now)) (version_answer result)
            (mem_state self.old) (mem_state self.new) }
        ensures exact { MemCalls (was_out result) self.old self.new }
    {
        self.shelf.known();
        if self.next_fails() {
            return Err(Outage::Failed);
        }
        version_on(&self.shelf, port, ask)
    }

    fn manifest(
        &mut self,
        port: &PortName,
        ask: &Ask,
    ) -> Result<Result<Rc<Manifest>, Wrong>, Outage>
        requires { OnPage port.now (CanAskManifest (ask_view ask.now)) (mem_state self.old) }
        ensures asks { Asks port.now (SaysManifest (ask_view ask.now)) (manifest_answer result)
            (mem_state self.old) (mem_state self.new) }
        ensures exact { MemCalls (was_out result) self.old self.new }
    {
        self.shelf.known();
        if self.next_fails() {
            return Err(Outage::Failed);
        }
        manifest_on(&self.shelf, port, ask)
    }

    fn faults(&self) -> u64 {
        self.faults
    }
}
