//! The triplets of a project, each the first file of its name in folders of triplets.
ghost use Rattle.std.specs.Prelude.{◌≡◌, Err, IfOk, false, map, option_map};
ghost use Rattle.std.specs.List.{find};
ghost use Rattle.vk_spec.specs.Reading.{Fails};
ghost use Rattle.vk_spec.specs.Earlies as early;
ghost use Rattle.vk_base.specs.Stops.{fault_in, fault_seen, is_failure};
ghost use Rattle.vk_json.specs.Places.{here};
ghost use Rattle.vk_triplet.specs.TripletReadings as plain;
ghost use Rattle.vk_model.specs.EarlyViews.{early_view};
ghost use Rattle.vk_files.specs.Readings.{is_at};
ghost use Rattle.vk_files.specs.Views.{held};
ghost use Rattle.vk_files.specs.Within.{up_to_first};
ghost use Rattle.vk_files.specs.Finds.{ReadsFrom};
ghost use Rattle.vk_opening.specs.Asked.{both_paths, tried_paths};
ghost use Rattle.vk_opening.specs.Projects.{triplet_path};
ghost use Rattle.vk_opening.specs.TripletFiles.{triplet_from, triplet_in, triplet_word};
ghost use Rattle.vk_opening.specs.TripletFiles.{triplet_at, triplets_at};
ghost use Rattle.vk_opening.specs.Views.{triplets_view};

use crate::projects::triplet_path;
use std::alloc::Global;
use vk_base::{List, Memory, Stop, TreePath, TripletName, Unread};
use vk_files::{Archive, FileReader};
use vk_json::{FileFault, Scratch, Why, wrong};
use vk_model::Early;
use vk_tree::Tree;
use vk_triplet::{Triplet, TripletFault};

// What is wrong with a triplet file, told of the whole.
fn wrong_triplet(alloc: Global, unread: Unread<TripletFault>) -> Unread<FileFault>
    ensures { fault_in result ≡ option_map (λ f. here (triplet_word f)) (fault_in unread) }
{
    match unread {
        Unread::Fault(TripletFault::Line { n }) => wrong(alloc, Why::Line(n)),
        Unread::Fault(TripletFault::NotText) => wrong(alloc, Why::Utf8),
        Unread::Memory(memory) => Unread::Memory(memory),
    }
}

// Reads the file of the triplet of this name.
#[derive(Drop)]
struct TripletFile<'a>(&'a TripletName);

#[tactic(auto, unfolding(crate::specs::TripletFiles::triplet_in), using(vk_fields::proofs::Saying::said_fails))]
impl FileReader for TripletFile<'_> {
    type Out = Triplet;

    ghost Plain = { plain.Triplet };

    ghost plain = { λ t. t };

    ghost reads = { λ r. triplet_in r.0.now };

    fn read(
        &self,
        alloc: Global,
        bytes: &[u8],
        _scratch: &mut Scratch,
    ) -> Result<Triplet, Unread<FileFault>> {
        match vk_triplet::read(alloc, self.0, bytes) {
            Ok(triplet) => Ok(triplet),
            Err(unread) => Err(wrong_triplet(alloc, unread)),
        }
    }
}

// The files of a triplet in folders, in their order.
fn triplet_paths(
    alloc: Global,
    name: &TripletName,
    folders: &[TreePath],
) -> Result<List<TreePath>, Memory>
    ensures { IfOk result (λ paths. paths ≡ map (triplet_path name.now) folders.now) }
{
    let mut paths = List::new(alloc);
    for folder in folders {
        paths.push(triplet_path(alloc, name, folder)?)?;
    }
    Ok(paths)
}

fn no_triplet(name: &TripletName) -> Stop<Early>
    ensures told { Fails {Y = plain.Triplet} (fault_seen early_view result)
        (Err (early.no_triplet name.now)) }
    ensures calm { is_failure result ≡ false }
{
    match name.clone() {
        Ok(name) => Stop::Fault(Early::NoTriplet { name }),
        Err(lack) => Stop::from(lack),
    }
}

// The triplet of a name in the first of these files that is there.
fn first_triplet<T: Tree>(
    archive: &mut Archive<T>,
    name: &TripletName,
    paths: &[TreePath],
) -> Result<Triplet, Stop<Early>>
    ensures { ReadsFrom early_view (λ t. t) result
        (λ files. triplet_from name.now (find (is_at files) paths.now) files)
        (λ files. up_to_first (is_at files) paths.now)
        (held T.state archive.old) (held T.state archive.new) }
{
    match archive.first::<Early>(paths)? {
        Some(path) => archive.read(path, &TripletFile(name)),
        None => Err(no_triplet(name)),
    }
}

// The triplet of a name in folders.
fn read_triplet<T: Tree>(
    archive: &mut Archive<T>,
    name: &TripletName,
    folders: &[TreePath],
) -> Result<Triplet, Stop<Early>>
    ensures { ReadsFrom early_view (λ t. t) result (triplet_at name.now folders.now)
        (tried_paths name.now folders.now) (held T.state archive.old) (held T.state archive.new) }
{
    let paths = triplet_paths(archive.alloc(), name, folders)?;
    first_triplet(archive, name, paths.as_slice())
}

/// The triplet that is built for, and that of the machine that builds.
#[derive(Drop)]
pub struct Triplets {
    pub target: Triplet,
    pub host: Triplet,
}

/// The two triplets of these names in folders. Where the names are one, so is the file, which is
/// read once.
pub fn read_triplets<T: Tree>(
    archive: &mut Archive<T>,
    target: &TripletName,
    host: &TripletName,
    folders: &[TreePath],
) -> Result<Triplets, Stop<Early>>
    ensures { ReadsFrom early_view triplets_view result
        (triplets_at target.now host.now folders.now) (both_paths target.now host.now folders.now)
        (held T.state archive.old) (held T.state archive.new) }
{
    let target = read_triplet(archive, target, folders)?;
    let host = read_triplet(archive, host, folders)?;
    Ok(Triplets { target, host })
}
