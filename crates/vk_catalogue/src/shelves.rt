ghost use Rattle.std.specs.Prelude.{◌≡◌, ◌↔◌, ◌++◌, ◌∷◌, [], None, IsTrue, OnOk, OnErr, bytes_eq};
ghost use Rattle.std.specs.Prelude.{option_map};
ghost use Rattle.std.specs.Map.{lookup};
ghost use Rattle.std.specs.Option.{option_copied};
ghost use Rattle.vk_spec.specs.Pages.{row_in};
ghost use Rattle.vk_spec.specs.Catalogues.{ArePages};
ghost use Rattle.vk_version.specs.AskViews.{ask_view};
ghost use Rattle.vk_catalogue.specs.PageViews.{page_view, held_view, row_view};
ghost use Rattle.vk_catalogue.specs.Shelves.{IsPageFor, page_on, pages_of};

use crate::pages::{Page, PageRow};
use crate::rows::row_for;
use indexmap::IndexMap;
use std::alloc::Global;
use std::marker::Model;
use vk_base::{List, Memory, PortName};
use vk_model::{Given, Wrong};
use vk_version::Ask;

/// What is held of a port.
#[derive(Drop)]
pub struct Held {
    pub given: Result<Given, Wrong>,
    pub rows: List<PageRow>,
}

/// The pages of a catalogue in memory, in the order in which they were put. A port's is found by
/// its name without a scan.
#[derive(Drop)]
pub struct Shelf {
    inner: IndexMap<PortName, Held>,
}

impl Model for Shelf {
    ghost use Rattle.std.specs.Prelude.{List, ℕ};
    ghost use Rattle.vk_spec.specs.Catalogues.{ArePages};
    ghost use Rattle.vk_catalogue.specs.declared.shelves.Held.{Held};
    ghost use Rattle.vk_expr.specs.contracts.exprs.Expr as expr;
    ghost use Rattle.std.specs.Coded.{codes};

    ghost Value = { List (List ℕ × Held) };

    ghost coded = { Prim.hlevel (codes, expr.the_row.coded) };

    ghost use Rattle.vk_catalogue.specs.Shelves.{page_on};

    ghost view = { λ s. s.inner.entries };

    ghost invariant = { λ s. ArePages (page_on s.inner.entries) };
}

impl Shelf {
    /// No pages. Takes no memory.
    pub fn new(alloc: Global) -> Shelf
        ensures { result ≡ [] }
    {
        Shelf {
            inner: IndexMap::new(alloc),
        }
    }

    /// Tells a caller what every shelf keeps.
    pub fn known(&self)
        ensures { ArePages (page_on self.now) }
    {
        let _ = &self.inner;
    }

    /// Puts the page of a port that has none. When memory runs out, the shelf stays as it was.
    pub fn put(&mut self, page: Page) -> Result<(), Memory>
        requires { IsPageFor page.port (page_view page) (pages_of self.old) }
        ensures ok { OnOk result
            (pages_of self.new ≡ pages_of self.old ++ (page.port, page_view page) ∷ []) }
        ensures err { OnErr result (self.new ≡ self.old) }
    {
        let Page { port, given, rows } = page;
        drop(self.inner.insert(port, Held { given, rows })?);
        Ok(())
    }

    /// Whether no page was put for a port.
    pub fn lacks(&self, port: &PortName) -> bool
        ensures { IsTrue result ↔ (lookup (bytes_eq port.now) (pages_of self.now) ≡ None) }
    {
        match self.inner.get(port) {
            Some(_) => false,
            None => true,
        }
    }

    /// What is held of a port; `None` exactly where no page was put for it.
    pub fn get(&self, port: &PortName) -> Option<&Held>
        ensures { option_map held_view (option_copied result) ≡ lookup (bytes_eq port.now)
            (pages_of self.now) }
    {
        self.inner.get(port)
    }

    /// The row of a port that an ask means; `None` exactly where there is none.
    pub fn row(&self, port: &PortName, ask: &Ask) -> Option<&PageRow>
        ensures { option_map row_view (option_copied result) ≡ row_in
            (page_on self.now port.now).rows (ask_view ask.now) }
    {
        match self.get(port) {
            Some(held) => row_for(held.rows.as_slice(), ask),
            None => None,
        }
    }
}
