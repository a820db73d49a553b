//! The baselines that were read, so that each is read and parsed once.
ghost use Rattle.std.specs.Prelude.{◌≡◌, ◌<◌, ◌++◌, ◌∷◌, [], List, Result, Ok, Some, None, IfOk};
ghost use Rattle.std.specs.Prelude.{false, length, option_map, slice_get};
ghost use Rattle.indexmap.specs.IndexMap.{spare};
ghost use Rattle.vk_spec.specs.Reading.{Gives};
ghost use Rattle.vk_registry.specs.Baselines.{Entry};
ghost use Rattle.vk_catalogue.specs.Views.{wrong_view, given_view};
ghost use Rattle.vk_files.specs.Notes.{IsNoteAt};
ghost use Rattle.vk_files.specs.Views.{held};
ghost use Rattle.vk_base.specs.Stops.{has_failed};
ghost use Rattle.vk_base.specs.Stops.{fault_seen};
ghost use Rattle.vk_files.specs.Readings.{Bad, bad_view};
ghost use Rattle.vk_registry.specs.RegistryFiles.{baseline_path};
ghost use Rattle.vk_pages.specs.Homes.{baseline_file, baseline_given, baseline_for};
ghost use Rattle.vk_pages.specs.BaselineNotes.{AreBaselines, baseline_noted};
ghost use Rattle.vk_pages.specs.BaselineNotes.{nothing_said, same_served};
ghost use Rattle.vk_files.specs.Finds.{Finds, ReadsFrom};
ghost use Rattle.vk_pages.specs.HomeViews.{served_view};
ghost use Rattle.vk_pages.specs.NoteViews.{read_view, notes_of};

use crate::contents::NamedBaseline;
use crate::served::Served;
use indexmap::IndexMap;
use std::alloc::Global;
use vk_base::{PortName, Stop};
use vk_catalogue::{Given, Wrong};
use vk_files::{Archive, BadFile, TellsBadFile};
use vk_registry::{Baseline, baseline_of, baseline_path};
use vk_tree::Tree;

/// The baselines that were read, a bad one too, by the registry's folder and the baseline's name:
/// registries that share both share the baseline.
#[derive(Drop)]
pub struct Baselines {
    read: IndexMap<Served, Result<Baseline, BadFile>>,
}

// What was read, where a bad file is an answer too.
fn or_bad(read: Result<Baseline, Stop<BadFile>>) -> Result<Result<Baseline, BadFile>, Stop<Wrong>>
    ensures told { (meaning : Result (List Entry) Bad) →
        Gives (λ baseline. baseline) (fault_seen bad_view) read meaning →
        Gives read_view (fault_seen wrong_view) result (Ok meaning) }
    ensures failed { has_failed result ≡ has_failed read }
{
    match read {
        Ok(baseline) => Ok(Ok(baseline)),
        Err(Stop::Fault(bad)) => Ok(Err(bad)),
        Err(Stop::Failed) => Err(Stop::Failed),
        Err(Stop::Memory(memory)) => Err(Stop::Memory(memory)),
    }
}

// The baseline of a registry, or its bad file.
fn read_baseline<T: Tree>(
    archive: &mut Archive<T>,
    served: &Served,
) -> Result<Result<Baseline, BadFile>, Stop<Wrong>>
    ensures { ReadsFrom wrong_view read_view result
        (λ f. Ok (baseline_file (served_view served.now) f))
        (λ f. baseline_path served.now.folder ∷ [])
        (held T.state archive.old) (held T.state archive.new) }
{
    let path = baseline_path(archive.alloc(), &served.folder)?;
    let reader = NamedBaseline {
        name: &served.baseline,
    };
    or_bad(archive.read(&path, &reader))
}

// What a baseline has for a port.
fn given_by_baseline(baseline: &Baseline, port: &PortName) -> Result<Given, Stop<Wrong>>
    ensures told { Gives given_view (fault_seen wrong_view) result
        (baseline_given port.now (Ok baseline.now)) }
    ensures calm { has_failed result ≡ false }
{
    match baseline_of(baseline, port) {
        Some(ask) => Ok(Given::Baseline(ask.clone()?)),
        None => Err(Stop::Fault(Wrong::NoBaseline)),
    }
}

// What a baseline that was read has for a port, or what is wrong with its file.
fn given_in(read: &Result<Baseline, BadFile>, port: &PortName) -> Result<Given, Stop<Wrong>>
    ensures told { Gives given_view (fault_seen wrong_view) result
        (baseline_given port.now (read_view read.now)) }
    ensures calm { has_failed result ≡ false }
{
    match read {
        Ok(baseline) => given_by_baseline(baseline, port),
        Err(bad) => Err(Stop::Fault(Wrong::of(bad.clone()?))),
    }
}

impl Baselines {
    /// None was read yet. Takes no memory.
    pub fn new(alloc: Global) -> Baselines
        ensures { notes_of result ≡ [] }
    {
        Baselines {
            read: IndexMap::new(alloc),
        }
    }

    // Keeps what was read of a registry of which nothing is kept, and for which there is room.
    fn keep(&mut self, served: Served, read: Result<Baseline, BadFile>)
        requires room { 0 < spare self.old.read }
        requires new { baseline_noted served (notes_of self.old) ≡ None }
        ensures { notes_of self.new ≡ notes_of self.old ++ (served, read_view read) ∷ [] }
    {
        drop(self.read.insert(served, read));
    }

    // Reads the baseline of a registry that wasn't looked at yet, and tells its place among those
    // that were read. The room for it is taken first, so that nothing that was read is forgotten.
    fn note<T: Tree>(
        &mut self,
        archive: &mut Archive<T>,
        served: &Served,
    ) -> Result<usize, Stop<Wrong>>
        requires { baseline_noted served.now (notes_of self.old) ≡ None }
        ensures noted { Finds wrong_view (λ done. tt) result nothing_said
            (λ f. baseline_path served.now.folder ∷ [])
            (AreBaselines (notes_of self.old)) (AreBaselines (notes_of self.new))
            (held T.state archive.old) (held T.state archive.new) }
        ensures there { IfOk result (IsNoteAt (same_served served.now) (notes_of self.new)) }
    {
        self.read.reserve(1)?;
        let key = served.clone()?;
        match read_baseline(archive, served) {
            Ok(read) => {
                let place = self.read.len();
                self.keep(key, read);
                Ok(place)
            }
            Err(stop) => {
                drop(key);
                Err(stop)
            }
        }
    }

    // Reads the baseline of a registry, unless it was read before, and tells its place among those
    // that were read, counted from 0.
    fn look<T: Tree>(
        &mut self,
        archive: &mut Archive<T>,
        served: &Served,
    ) -> Result<usize, Stop<Wrong>>
        ensures noted { Finds wrong_view (λ done. tt) result nothing_said
            (λ f. baseline_path served.now.folder ∷ [])
            (AreBaselines (notes_of self.old)) (AreBaselines (notes_of self.new))
            (held T.state archive.old) (held T.state archive.new) }
        ensures there { IfOk result (IsNoteAt (same_served served.now) (notes_of self.new)) }
    {
        match self.read.get_index_of(served) {
            Some(place) => Ok(place),
            None => self.note(archive, served),
        }
    }

    // What was read of the registry with this place among those that were read.
    fn at(&self, place: usize) -> &Result<Baseline, BadFile>
        requires { place < length (notes_of self.now) }
        ensures { option_map (λ e. e.1) (slice_get (notes_of self.now) place)
            ≡ Some (read_view result.now) }
    {
        self.read.get_index(place).unwrap().1
    }

    // What a registry's baseline has for a port. `Fault` says that it has nothing, or what is
    // wrong with its file, which is the only one that is looked at.
    pub(crate) fn given<T: Tree>(
        &mut self,
        archive: &mut Archive<T>,
        served: &Served,
        port: &PortName,
    ) -> Result<Given, Stop<Wrong>>
        ensures { Finds wrong_view given_view result
            (baseline_for (served_view served.now) port.now)
            (λ f. baseline_path served.now.folder ∷ [])
            (AreBaselines (notes_of self.old)) (AreBaselines (notes_of self.new))
            (held T.state archive.old) (held T.state archive.new) }
    {
        let place = self.look(archive, served)?;
        given_in(self.at(place), port)
    }
}
