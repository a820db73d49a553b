//! The homes of ports that were found.
ghost use Rattle.std.specs.Prelude.{◌≡◌, ◌<◌, ◌++◌, ◌∷◌, [], Some, None, IfOk, bytes_eq};
ghost use Rattle.std.specs.Prelude.{length, option_map, slice_get};
ghost use Rattle.indexmap.specs.IndexMap.{spare};
ghost use Rattle.vk_spec.specs.Files.{Files};
ghost use Rattle.vk_opening.specs.Layouts as plain;
ghost use Rattle.vk_files.specs.Notes.{IsNoteAt};
ghost use Rattle.vk_files.specs.Views.{held};
ghost use Rattle.vk_pages.specs.Homes.{home_of};
ghost use Rattle.vk_pages.specs.Asked.{home_paths};
ghost use Rattle.vk_opening.specs.Views.{layout_view};
ghost use Rattle.vk_pages.specs.BaselineNotes.{AreBaselines};
ghost use Rattle.vk_pages.specs.NoteViews.{notes_of};
ghost use Rattle.vk_world.specs.Learning.{Learns, Means, SaysNothing};
ghost use Rattle.vk_world.specs.HomeNotes.{boxed_home, found_home, homes_in, home_noted};
ghost use Rattle.vk_world.specs.HomeNotes.{AreHomes};

use crate::settling::settle;
use indexmap::IndexMap;
use std::alloc::Global;
use vk_base::{Outage, PortName};
use vk_catalogue::Wrong;
use vk_files::Archive;
use vk_opening::Layout;
use vk_pages::{Baselines, Home, home_of};
use vk_tree::Tree;

/// Where the versions of ports are, or what is wrong, by port; and the baselines that were read.
#[derive(Drop)]
pub struct Homes {
    baselines: Baselines,
    found: IndexMap<PortName, Box<Result<Home, Wrong>>>,
}

// The home of a port, or what is wrong.
#[tactic(auto, using(crate::proofs::LearnLemmas::learns_settled))]
fn find_home<T: Tree>(
    archive: &mut Archive<T>,
    layout: &Layout,
    baselines: &mut Baselines,
    port: &PortName,
) -> Result<Result<Home, Wrong>, Outage>
    ensures { Learns result (Means found_home (home_of (layout_view layout.now) port.now))
        (λ f. home_paths (layout_view layout.now) f port.now)
        (AreBaselines (notes_of baselines.old)) (AreBaselines (notes_of baselines.new))
        (held T.state archive.old) (held T.state archive.new) }
{
    settle(home_of(archive, layout, baselines, port))
}

// The same in a block of its own, since a map moves its values as it grows.
fn boxed_home<T: Tree>(
    archive: &mut Archive<T>,
    layout: &Layout,
    baselines: &mut Baselines,
    port: &PortName,
) -> Result<Box<Result<Home, Wrong>>, Outage>
    ensures { Learns result (Means boxed_home (home_of (layout_view layout.now) port.now))
        (λ f. home_paths (layout_view layout.now) f port.now)
        (AreBaselines (notes_of baselines.old)) (AreBaselines (notes_of baselines.new))
        (held T.state archive.old) (held T.state archive.new) }
{
    let home = find_home(archive, layout, baselines, port)?;
    Ok(Box::new(archive.alloc(), home)?)
}

impl Homes {
    /// None was found yet. Takes no memory.
    pub fn new(alloc: Global) -> Homes
        ensures homes { homes_in result ≡ [] }
        ensures right { (layout : plain.Layout) (files : Files) → AreHomes layout result files }
    {
        Homes {
            baselines: Baselines::new(alloc),
            found: IndexMap::new(alloc),
        }
    }

    // Keeps what was found for a port, for which there is room.
    fn keep(&mut self, port: PortName, home: Box<Result<Home, Wrong>>)
        requires room { 0 < spare self.old.found }
        requires new { home_noted port self.old ≡ None }
        ensures homes { homes_in self.new ≡ homes_in self.old ++ (port, boxed_home home) ∷ [] }
        ensures baselines { self.new.baselines ≡ self.old.baselines }
    {
        drop(self.found.insert(port, home));
    }

    // Finds the home of a port for which it wasn't found yet. The room for it is taken first.
    fn ask<T: Tree>(
        &mut self,
        archive: &mut Archive<T>,
        layout: &Layout,
        port: &PortName,
    ) -> Result<usize, Outage>
        requires { home_noted port.now self.old ≡ None }
        ensures learns { Learns result SaysNothing
            (λ f. home_paths (layout_view layout.now) f port.now)
            (AreHomes (layout_view layout.now) self.old)
            (AreHomes (layout_view layout.now) self.new)
            (held T.state archive.old) (held T.state archive.new) }
        ensures there { IfOk result (IsNoteAt (bytes_eq port.now) (homes_in self.new)) }
    {
        self.found.reserve(1)?;
        let key = port.clone()?;
        match boxed_home(archive, layout, &mut self.baselines, port) {
            Ok(found) => {
                let place = self.found.len();
                self.keep(key, found);
                Ok(place)
            }
            Err(outage) => {
                drop(key);
                Err(outage)
            }
        }
    }

    /// Looks for the home of a port, for which files are read unless it was found before, and
    /// tells the place of what was found, counted from 0.
    pub fn look<T: Tree>(
        &mut self,
        archive: &mut Archive<T>,
        layout: &Layout,
        port: &PortName,
    ) -> Result<usize, Outage>
        ensures learns { Learns result SaysNothing
            (λ f. home_paths (layout_view layout.now) f port.now)
            (AreHomes (layout_view layout.now) self.old)
            (AreHomes (layout_view layout.now) self.new)
            (held T.state archive.old) (held T.state archive.new) }
        ensures there { IfOk result (IsNoteAt (bytes_eq port.now) (homes_in self.new)) }
    {
        match self.found.get_index_of(port) {
            Some(place) => Ok(place),
            None => self.ask(archive, layout, port),
        }
    }

    /// What was found for the port with this place.
    pub fn at(&self, place: usize) -> &Result<Home, Wrong>
        requires { place < length (homes_in self.now) }
        ensures { option_map (λ e. e.1) (slice_get (homes_in self.now) place)
            ≡ Some (found_home result.now) }
    {
        self.found.get_index(place).unwrap().1.as_ref()
    }
}
