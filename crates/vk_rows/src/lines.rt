//! What is told, in tokens.

use vk_base::{List, PortName, TreePath};
use vk_model::lines::wrong_line;
use vk_model::{Given, Manifest, Wrong};
use vk_row_text::Reply;
use vk_version::Version;

/// Tells paths, each on a line, or `none`.
pub fn tell_paths(paths: &List<TreePath>, reply: &mut Reply) {
    for path in paths.iter() {
        if !reply.is_empty() {
            reply.push("\n");
        }
        reply.push_path(path);
    }
    if reply.is_empty() {
        reply.push("none");
    }
}

/// Tells where what is given comes from, and what it is.
pub fn tell_given(given: &Given, reply: &mut Reply) {
    match given {
        Given::Overlay(version) => {
            reply.push("overlay ");
            reply.push_version(version);
        }
        Given::Override(ask) => {
            reply.push("override ");
            reply.push_ask(ask);
        }
        Given::Baseline(ask) => {
            reply.push("baseline ");
            reply.push_ask(ask);
        }
    }
}

/// Tells what is wrong with a port.
pub fn tell_wrong(port: &PortName, wrong: &Wrong, reply: &mut Reply) {
    let line = wrong_line(reply.alloc(), port, wrong);
    reply.push_made(line);
}

/// Tells a version with its class, or `none`.
pub fn tell_version(version: Option<&Version>, reply: &mut Reply) {
    match version {
        Some(version) => reply.push_version(version),
        None => reply.push("none"),
    }
}

/// Tells a manifest's name and version, each `none` where there is none.
pub fn tell_manifest(manifest: &Manifest, reply: &mut Reply) {
    match &manifest.name {
        Some(name) => reply.push(name.as_str()),
        None => reply.push("none"),
    }
    reply.push(" ");
    tell_version(manifest.version.as_ref(), reply);
}
