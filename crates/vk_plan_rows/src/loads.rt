//! Large projects over catalogues in memory.

use crate::chains::{chain, chain_root};
use crate::parts::{Making, NoLoad, Unmade};
use crate::rings::{ring, ring_root};
use crate::sides::{side_by_side, side_root};
use std::alloc::Global;
use vk_base::{List, TripletName, Unread};
use vk_catalogue::MemCatalogue;
use vk_model::{Manifest, Setting};
use vk_triplet::{Triplet, read};

// How many facts there may be.
const MOST: u32 = 1_000_000;

/// How ports depend on each other.
#[derive(Clone, Copy, Debug, PartialEq, Eq)]
pub enum Shape {
    /// Each on the next.
    Chain,
    /// The same, with each name and version made once and shared.
    Shared,
    /// None on another.
    Side,
    /// Each on the next, and the last two on each other.
    Ring,
}

/// A catalogue, and what a plan is made under.
#[derive(Drop)]
pub struct Load {
    pub pages: MemCatalogue,
    pub setting: Setting,
}

fn triplet(alloc: Global) -> Result<Triplet, Unmade> {
    let Ok(name) = TripletName::read(alloc, "x64-linux") else {
        return Err(Unread::Fault(NoLoad));
    };
    match read(alloc, &name, b"set(VCPKG_CMAKE_SYSTEM_NAME Linux)\n") {
        Ok(triplet) => Ok(triplet),
        Err(Unread::Fault(_)) => Err(Unread::Fault(NoLoad)),
        Err(Unread::Memory(memory)) => Err(Unread::Memory(memory)),
    }
}

fn setting_of(alloc: Global, root: Manifest, target: Triplet, host: Triplet) -> Setting {
    Setting {
        root,
        target,
        host,
        features: List::new(alloc),
        defaults: true,
        off: List::new(alloc),
        max_facts: MOST,
    }
}

fn root_of(alloc: Global, shape: Shape, size: u32) -> Result<Manifest, Unmade> {
    match shape {
        Shape::Chain | Shape::Shared => chain_root(alloc),
        Shape::Side => side_root(alloc, size),
        Shape::Ring => ring_root(alloc),
    }
}

fn pages_of(alloc: Global, shape: Shape, size: u32) -> Result<MemCatalogue, Unmade> {
    match shape {
        Shape::Chain => chain(alloc, Making::Anew, size),
        Shape::Shared => chain(alloc, Making::Once, size),
        Shape::Side => side_by_side(alloc, size),
        Shape::Ring => ring(alloc, size),
    }
}

// The triplets of the target and of the host, which are one.
fn triplets(alloc: Global) -> Result<(Triplet, Triplet), Unmade> {
    let target = triplet(alloc)?;
    match triplet(alloc) {
        Ok(host) => Ok((target, host)),
        Err(unmade) => {
            drop(target);
            Err(unmade)
        }
    }
}

fn setting_for(alloc: Global, shape: Shape, size: u32) -> Result<Setting, Unmade> {
    let root = root_of(alloc, shape, size)?;
    match triplets(alloc) {
        Ok((target, host)) => Ok(setting_of(alloc, root, target, host)),
        Err(unmade) => {
            drop(root);
            Err(unmade)
        }
    }
}

/// The load of so many ports.
pub fn load_of(alloc: Global, shape: Shape, size: u32) -> Result<Load, Unmade> {
    let setting = setting_for(alloc, shape, size)?;
    match pages_of(alloc, shape, size) {
        Ok(pages) => Ok(Load { pages, setting }),
        Err(unmade) => {
            drop(setting);
            Err(unmade)
        }
    }
}
