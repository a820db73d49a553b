//! What the words of a row stand for.

use std::alloc::Global;
use vk_base::{List, PortName, Text, TreePath, TripletName, Unread};
use vk_model::{Builder, Project, Store};
use vk_row_text::{NoRow, Reply, cut, path_of};
use vk_version::{Ask, Class, Scheme, Version, read, read_ask};

// How many requirements may be made, and how many bytes a folder may have: neither counts here.
const MOST: u32 = 1000;

fn triplet_of(word: &str, reply: &mut Reply) -> Option<TripletName> {
    let read = TripletName::read(reply.alloc(), word);
    reply.needed(read)
}

/// The port that a word names.
pub fn port_of(word: &str, reply: &mut Reply) -> Option<PortName> {
    let read = PortName::read(reply.alloc(), word);
    reply.needed(read)
}

/// The ask of a word, a token with a port-version or without one.
pub fn ask_of(word: &str, reply: &mut Reply) -> Option<Ask> {
    let text = reply.text(word);
    let read = read_ask(reply.alloc(), text.as_str());
    reply.needed(read)
}

/// The version of an ask by a scheme.
pub fn version_by(scheme: Scheme, ask: &Ask, reply: &mut Reply) -> Option<Version> {
    let read = read(reply.alloc(), scheme, ask.text.as_str(), ask.port);
    reply.needed(read)
}

fn scheme_of(class: &str, reply: &mut Reply) -> Scheme {
    match Class::read(class) {
        Some(Class::Dot) => Scheme::Relaxed,
        Some(Class::Date) => Scheme::Date,
        Some(Class::Text) => Scheme::Text,
        None => {
            reply.refuse();
            Scheme::Text
        }
    }
}

// The version of two words: a class, and the ask that means it.
fn version_with(class: &str, ask: &str, reply: &mut Reply) -> Option<Version> {
    let scheme = scheme_of(class, reply);
    let ask = ask_of(ask, reply)?;
    version_by(scheme, &ask, reply)
}

/// The version of a word, as versions are told: the class, `:`, and the ask that means it.
pub fn version_of(word: &str, reply: &mut Reply) -> Option<Version> {
    match word.split_once(':') {
        Some((class, ask)) => version_with(class, ask, reply),
        None => {
            reply.refuse();
            None
        }
    }
}

// Puts the paths of a word at the end, with commas between; `-` has none.
fn push_paths(alloc: Global, paths: &mut List<TreePath>, word: &str) -> Result<(), Unread<NoRow>> {
    if word == "-" {
        return Ok(());
    }
    for path in word.split(',') {
        let path = path_of(alloc, path)?;
        paths.push(path)?;
    }
    Ok(())
}

// A project without folders of ports and of triplets.
fn project_in(
    alloc: Global,
    folder: TreePath,
    target: TripletName,
    host: TripletName,
    builder: Builder,
) -> Project {
    Project {
        folder,
        target,
        host,
        features: List::new(alloc),
        defaults: true,
        overlay_ports: List::new(alloc),
        overlay_triplets: List::new(alloc),
        max_facts: MOST,
        max_bytes: u64::from(MOST),
        builder,
    }
}

fn recorded(reply: &mut Reply) -> Option<Builder> {
    match Builder::recorded(reply.alloc()) {
        Ok(builder) => Some(builder),
        Err(memory) => {
            reply.lack(memory);
            None
        }
    }
}

fn plain_project(folder: &str, target: &str, host: &str, reply: &mut Reply) -> Option<Project> {
    let target = triplet_of(target, reply)?;
    let host = triplet_of(host, reply)?;
    let builder = recorded(reply)?;
    let folder = reply.path(folder);
    Some(project_in(reply.alloc(), folder, target, host, builder))
}

fn push_folders(
    alloc: Global,
    project: &mut Project,
    ports: &str,
    triplets: &str,
) -> Result<(), Unread<NoRow>> {
    push_paths(alloc, &mut project.overlay_ports, ports)?;
    push_paths(alloc, &mut project.overlay_triplets, triplets)
}

/// The project of a row: its folder, both triplets, folders of ports, and folders of triplets.
pub fn project_of(row: &str, reply: &mut Reply) -> Option<Project> {
    let (folder, row) = cut(row);
    let (target, row) = cut(row);
    let (host, row) = cut(row);
    let (ports, triplets) = cut(row);
    let mut project = plain_project(folder, target, host, reply)?;
    let pushed = push_folders(reply.alloc(), &mut project, ports, triplets);
    reply.needed(pushed);
    Some(project)
}

/// The store of a row: the folder that packages are installed into, and the one that they are kept
/// in.
pub fn store_of(row: &str, reply: &mut Reply) -> Store {
    let (installed, cache) = cut(row);
    Store {
        installed: reply.path(installed),
        cache: reply.path(cache),
        agent: Text::new(reply.alloc()),
        max_bytes: u64::from(MOST),
    }
}
