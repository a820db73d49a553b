//! What a plan is made under, as rows set it.

use std::alloc::Global;
use std::mem::replace;
use vk_base::{FeatureName, List, Memory, TripletName, Unread};
use vk_expr::Expr;
use vk_manifest::read_manifest;
use vk_model::{Manifest, PortFeatures, Setting};
use vk_row_text::{NoRow, Reply, cut};
use vk_triplet::{Triplet, read};

// The stock file of a triplet for 64-bit Linux.
const STOCK: &str = "set(VCPKG_TARGET_ARCHITECTURE x64)\nset(VCPKG_CRT_LINKAGE dynamic)\n\
    set(VCPKG_LIBRARY_LINKAGE static)\nset(VCPKG_CMAKE_SYSTEM_NAME Linux)\n";

// How many facts there may be, where no row says.
const MOST: u32 = 1000;

// As many bytes as a row's file may have.
const MOST_BYTES: usize = 1_000_000;

/// What is asked of a root without a name, which asks for nothing.
pub fn empty_root(alloc: Global) -> Manifest {
    Manifest {
        name: None,
        version: None,
        supports: Expr::Always,
        dependencies: List::new(alloc),
        default_features: List::new(alloc),
        features: PortFeatures::none(alloc),
        overrides: List::new(alloc),
    }
}

fn stock(alloc: Global) -> Result<Triplet, Unread<NoRow>> {
    triplet_with(alloc, "x64-linux", STOCK.as_bytes())
}

// The triplet of a name and its file's bytes.
fn triplet_with(alloc: Global, name: &str, bytes: &[u8]) -> Result<Triplet, Unread<NoRow>> {
    let name = named(TripletName::read(alloc, name))?;
    if bytes.len() > MOST_BYTES {
        return Err(Unread::Fault(NoRow));
    }
    named(read(alloc, &name, bytes))
}

// What is read, where it is needed.
fn named<T, F: Drop>(reading: Result<T, Unread<F>>) -> Result<T, Unread<NoRow>> {
    match reading {
        Ok(value) => Ok(value),
        Err(Unread::Fault(_)) => Err(Unread::Fault(NoRow)),
        Err(Unread::Memory(memory)) => Err(Unread::Memory(memory)),
    }
}

fn setting_with(alloc: Global, target: Triplet, host: Triplet) -> Setting {
    Setting {
        root: empty_root(alloc),
        target,
        host,
        features: List::new(alloc),
        defaults: true,
        off: List::new(alloc),
        max_facts: MOST,
    }
}

/// A root that asks for nothing, for the stock triplet.
pub fn stock_setting(alloc: Global) -> Result<Setting, Unread<NoRow>> {
    let target = stock(alloc)?;
    let host = stock(alloc)?;
    Ok(setting_with(alloc, target, host))
}

// The triplet of a row: its name, and its file as tokens.
fn triplet_of(row: &str, reply: &mut Reply) -> Option<Triplet> {
    let (name, file) = cut(row);
    let bytes = reply.bytes(file);
    let triplet = triplet_with(reply.alloc(), name, bytes.as_slice());
    reply.needed(triplet)
}

/// The manifest of a row, a root's or a port's.
pub fn manifest_of(row: &str, root: bool, reply: &mut Reply) -> Option<Manifest> {
    let bytes = reply.bytes(row);
    if bytes.len() > MOST_BYTES {
        reply.refuse();
        return None;
    }
    let manifest = read_manifest(reply.alloc(), bytes.as_slice(), root);
    reply.needed(manifest)
}

fn push_feature(alloc: Global, features: &mut List<FeatureName>, word: &str) -> Result<(), Memory> {
    if let Ok(feature) = FeatureName::read(alloc, word) {
        features.push(feature)?;
    }
    Ok(())
}

fn set_features(setting: &mut Setting, row: &str, reply: &mut Reply) {
    setting.features = List::new(reply.alloc());
    for word in row.split(' ') {
        if let Err(memory) = push_feature(reply.alloc(), &mut setting.features, word) {
            reply.lack(memory);
        }
    }
}

// Puts what was made into its place.
fn put<T: Drop>(place: &mut T, made: Option<T>) {
    if let Some(made) = made {
        drop(replace(place, made));
    }
}

/// Sets a part of the setting:
/// - `root FILE`: the root manifest; `target NAME FILE`, `host NAME FILE`: a triplet;
/// - `features NAME ..`, `no-defaults`: what the words ask of the root;
/// - `most N`: how many facts there may be.
pub fn set(setting: &mut Setting, what: &str, row: &str, reply: &mut Reply) {
    reply.silence();
    match what {
        "root" => put(&mut setting.root, manifest_of(row, true, reply)),
        "target" => put(&mut setting.target, triplet_of(row, reply)),
        "host" => put(&mut setting.host, triplet_of(row, reply)),
        "features" => set_features(setting, row, reply),
        "no-defaults" => setting.defaults = false,
        "most" => setting.max_facts = reply.number(row),
        _ => reply.refuse(),
    }
}
