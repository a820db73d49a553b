//! Installers that take turns on one tree.
ghost use Rattle.std.specs.Prelude.{◌≡◌, ◌<◌, IfOk, OnErr, OnOk, Some, length, map, slice_get};
ghost use Rattle.std.specs.List.{All};
ghost use Rattle.std.specs.Option.{option_copied};
ghost use Rattle.vk_spec.specs.Standing.{OnFiles};
ghost use Rattle.vk_entry.specs.PackageViews.{file_view};
ghost use Rattle.vk_make.specs.Makes.{Supplies};
ghost use Rattle.vk_make.specs.Several.{meant_of};
ghost use Rattle.vk_shared.specs.MakeMachine.{CanGo, IsWaiting, make_left, stage_of};
ghost use Rattle.vk_shared.specs.Plays.{IsServed, MakesCall, MayPlay, PlayTurn, Plays};
ghost use Rattle.vk_shared.specs.Plays.{PlaysWhole, TakesTurn, CanTake};
ghost use Rattle.vk_shared.specs.declared.makings.Stage.TheVariants as stage;

use crate::makings::{Making, Stage};
use std::alloc::Global;
use vk_base::{List, Memory};
use vk_entry::{Package, PackageFile};
use vk_tree::Tree;

// A copy of a file.
fn copy_of_file(file: &PackageFile) -> Result<PackageFile, Memory>
    ensures { IfOk result (λ copy. file_view copy ≡ file_view file.now) }
{
    Ok(PackageFile {
        path: file.path.clone()?,
        bytes: file.bytes.clone()?,
    })
}

// Copies of files.
fn copies_of(alloc: Global, files: &[PackageFile]) -> Result<List<PackageFile>, Memory>
    ensures { IfOk result (λ copies. map file_view copies ≡ map file_view files.now) }
{
    let mut copies = List::with_capacity(alloc, files.len())?;
    for file in files {
        copies.push(copy_of_file(file)?)?;
    }
    Ok(copies)
}

// A copy of a package.
fn copy_of(alloc: Global, built: &Package) -> Result<Package, Memory>
    ensures { IfOk result (λ copy. copy ≡ built.now) }
{
    Ok(Package::from_files(copies_of(alloc, built.files())?))
}

// The package that is meant for an item.
fn meant_at(packages: &[Package], item: u32) -> Option<&Package>
    ensures { option_copied result ≡ slice_get packages.now item }
{
    packages.get(item as usize)
}

// Supplies a copy of the package that is meant for the item that waits, or refuses one where none is.
fn supply_one(
    alloc: Global,
    making: &mut Making,
    packages: &[Package],
    item: u32,
) -> Result<(), Memory>
    requires { stage_of making.old ≡ stage.Builds item }
    ensures left { make_left (meant_of packages.now) making.new
        ≡ make_left (meant_of packages.now) making.old }
    ensures served { OnOk result (IsWaiting (stage_of making.new) → ⊥) }
    ensures waits { OnErr result (IsWaiting (stage_of making.new)) }
{
    match meant_at(packages, item) {
        Some(built) => making.supply(copy_of(alloc, built)?),
        None => making.refuse(),
    }
    Ok(())
}

// Supplies what is meant, where an item waits.
fn serve(alloc: Global, making: &mut Making, packages: &[Package]) -> Result<(), Memory>
    ensures left { make_left (meant_of packages.now) making.new
        ≡ make_left (meant_of packages.now) making.old }
    ensures served { OnOk result (IsWaiting (stage_of making.new) → ⊥) }
    ensures waits { OnErr result (IsWaiting (stage_of making.new)) }
{
    match making.state() {
        Stage::Builds(item) => supply_one(alloc, making, packages, item),
        Stage::Calls => Ok(()),
        Stage::Done => Ok(()),
        Stage::Ended => Ok(()),
    }
}

// Makes a call. Where it stops, that ends this installer alone.
fn call<T: Tree>(making: &mut Making, tree: &mut T)
    requires calls { stage_of making.old ≡ stage.Calls }
    requires may { OnFiles (λ d. (s : Supplies) × CanGo (make_left s making.old) d) (T.state tree.old) }
    ensures { (s : Supplies) → MakesCall (make_left s making.old) (T.state tree.old)
        (make_left s making.new) (T.state tree.new) }
{
    let _ = making.step(tree);
}

// The turn of an installer.
fn take_turn<T: Tree>(
    alloc: Global,
    tree: &mut T,
    making: &mut Making,
    packages: &[Package],
) -> Result<(), Memory>
    requires { OnFiles (λ d. (s : Supplies) × CanGo (make_left s making.old) d) (T.state tree.old) }
    ensures takes { TakesTurn (stage_of making.old) packages.now making.old (T.state tree.old)
        making.new (T.state tree.new) }
    ensures served { IsServed result making.old making.new }
{
    match making.state() {
        Stage::Calls => {
            call(making, tree);
            serve(alloc, making, packages)
        }
        Stage::Builds(_) => Ok(()),
        Stage::Done => Ok(()),
        Stage::Ended => Ok(()),
    }
}

// The packages that are meant for the installer with a number.
fn packages_of(meant: &[List<Package>], who: usize) -> &[Package]
    requires { who < length meant.now }
    ensures { Some result.now ≡ slice_get meant.now who }
{
    meant[who].as_slice()
}

// The turn of the installer with a number.
fn play_turn<T: Tree>(
    alloc: Global,
    tree: &mut T,
    all: &mut [Making],
    meant: &[List<Package>],
    who: usize,
) -> Result<(), Memory>
    requires within { who < length all.old }
    requires even { length meant.now ≡ length all.old }
    requires may { CanTake meant.now who all.old (T.state tree.old) }
    ensures { PlayTurn meant.now who result all.old (T.state tree.old) all.new (T.state tree.new) }
{
    take_turn(alloc, tree, &mut all[who], packages_of(meant, who))
}

/// Lets installers take turns. For each number of `order` the installer at this place, counted from
/// 0, makes its next call, where it is to make one. Where an item then waits, it is supplied a copy
/// of the package that is meant for it, or refused where none is. A call that stops ends its
/// installer alone. `Memory` only where a package couldn't be copied; the item then still waits.
/// Where the tree tells its files, the installers have to stand at their start, on a whole cache.
pub fn play<T: Tree>(
    alloc: Global,
    tree: &mut T,
    all: &mut [Making],
    meant: &[List<Package>],
    order: &[u32],
) -> Result<(), Memory>
    requires numbers { All (λ who. who < length all.old) order.now }
    requires even { length meant.now ≡ length all.old }
    requires may { MayPlay meant.now all.old (T.state tree.old) }
    ensures turns { Plays meant.now order.now result all.old (T.state tree.old) all.new
        (T.state tree.new) }
    ensures whole { PlaysWhole meant.now all.old (T.state tree.old) all.new (T.state tree.new) }
{
    for who in order.iter() {
        play_turn(alloc, tree, all, meant, *who as usize)?;
    }
    Ok(())
}
