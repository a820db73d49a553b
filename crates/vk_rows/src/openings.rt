//! Opening a project, and the folders where versions stand in its world.

use crate::projects::{port_of, version_of};
use std::alloc::Global;
use vk_base::{Outage, PortName};
use vk_files::Archive;
use vk_model::lines::early_line;
use vk_model::{Project, Setting, Store};
use vk_opening::{Layout, Opened};
use vk_row_text::{Reply, cut};
use vk_tree::MemTree;
use vk_version::Version;
use vk_world::World;

/// What opening a project on a tree gave, besides the tree where there is no world.
#[derive(Drop)]
pub enum Opening {
    World(World<MemTree>),
    Refused(MemTree),
}

// Tells that a project is opened: both triplets, and how many overlays there are.
fn tell_ready(setting: &Setting, layout: &Layout, reply: &mut Reply) {
    reply.push("ready ");
    reply.push(setting.target.name().as_str());
    reply.push(" ");
    reply.push(setting.host.name().as_str());
    reply.push(" ");
    reply.push_number(layout.overlays.len() as u64);
}

fn stopped(stop: Outage, reply: &mut Reply) {
    match stop {
        Outage::Failed => reply.push("failed"),
        Outage::Memory(memory) => reply.lack(memory),
    }
}

// Tells what a project was opened to, and keeps its world or its tree.
fn opening_of(
    alloc: Global,
    opened: Opened,
    archive: Archive<MemTree>,
    reply: &mut Reply,
) -> Opening {
    match opened {
        Opened::Ready { setting, layout } => {
            tell_ready(&setting, &layout, reply);
            drop(setting);
            Opening::World(World::on(archive, layout))
        }
        Opened::Refused(early) => {
            reply.push_made(early_line(alloc, &early));
            drop(early);
            Opening::Refused(archive.into_tree())
        }
    }
}

/// Opens a project on a tree, and looks where packages are to be kept, if a store is given.
pub fn open_on(
    alloc: Global,
    tree: MemTree,
    project: &Project,
    store: Option<&Store>,
    reply: &mut Reply,
) -> Opening {
    let mut archive = Archive::new(alloc, tree);
    match World::open(&mut archive, project, store) {
        Ok(opened) => opening_of(alloc, opened, archive, reply),
        Err(stop) => {
            stopped(stop, reply);
            Opening::Refused(archive.into_tree())
        }
    }
}

fn tell_folder(world: &mut World<MemTree>, port: &PortName, version: &Version, reply: &mut Reply) {
    match world.folder(port, version) {
        Ok(Some(path)) => reply.push_path(&path),
        Ok(None) => reply.push("none"),
        Err(stop) => stopped(stop, reply),
    }
}

/// `folder PORT VERSION`: where a version of a port stands.
pub fn folder(world: &mut World<MemTree>, row: &str, reply: &mut Reply) {
    let (port, version) = cut(row);
    let Some(port) = port_of(port, reply) else {
        return;
    };
    if let Some(version) = version_of(version, reply) {
        tell_folder(world, &port, &version, reply);
    }
}
