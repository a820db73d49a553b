//! What rows build: version 1.0 of a port `a` for 64-bit Linux, which may depend on a port `t`.

use vk_base::{FeatureName, Instance, List, PortName, TripletName};
use vk_model::Item;
use vk_row_text::Reply;
use vk_triplet::{Triplet, read};
use vk_version::{Scheme, Version, read as read_version};

/// The target's triplet, and its file.
pub const TARGET: &str = "x64-linux";

/// The triplet of another machine, which may be the host.
pub const HOST: &str = "arm64-linux";

const TARGET_FILE: &str = "set(VCPKG_TARGET_ARCHITECTURE x64)\nset(VCPKG_CRT_LINKAGE dynamic)\n\
    set(VCPKG_LIBRARY_LINKAGE static)\nset(VCPKG_CMAKE_SYSTEM_NAME Linux)\n";

const HOST_FILE: &str = "set(VCPKG_TARGET_ARCHITECTURE arm64)\nset(VCPKG_CRT_LINKAGE dynamic)\n\
    set(VCPKG_LIBRARY_LINKAGE static)\nset(VCPKG_CMAKE_SYSTEM_NAME Linux)\n";

fn file_of(name: &str) -> &'static [u8] {
    if name == TARGET {
        TARGET_FILE.as_bytes()
    } else {
        HOST_FILE.as_bytes()
    }
}

/// The triplet of a name.
pub fn triplet_of(name: &str, reply: &mut Reply) -> Option<Triplet> {
    let bytes = file_of(name);
    let read_name = TripletName::read(reply.alloc(), name);
    let read_name = reply.needed(read_name)?;
    if bytes.len() > 1000 {
        reply.refuse();
        return None;
    }
    let triplet = read(reply.alloc(), &read_name, bytes);
    reply.needed(triplet)
}

/// The instance of a port and a triplet.
pub fn instance_of(port: &str, triplet: &str, reply: &mut Reply) -> Option<Instance> {
    let port = PortName::read(reply.alloc(), port);
    let triplet = TripletName::read(reply.alloc(), triplet);
    match (reply.needed(port), reply.needed(triplet)) {
        (Some(port), Some(triplet)) => Some(Instance { port, triplet }),
        (_, _) => None,
    }
}

fn push_feature(features: &mut List<FeatureName>, feature: FeatureName, reply: &mut Reply) {
    if let Err(lack) = features.push(feature) {
        reply.lack(lack.into());
    }
}

fn feature_of(word: &str, reply: &mut Reply) -> Option<FeatureName> {
    if word == "core" {
        return Some(FeatureName::Core);
    }
    let feature = FeatureName::read(reply.alloc(), word);
    reply.needed(feature)
}

// The features of a word, with commas between.
fn features_of(word: &str, reply: &mut Reply) -> List<FeatureName> {
    let mut features = List::new(reply.alloc());
    for name in word.split(',') {
        if let Some(feature) = feature_of(name, reply) {
            push_feature(&mut features, feature, reply);
        }
    }
    features
}

fn version_of(reply: &mut Reply) -> Option<Version> {
    let version = read_version(reply.alloc(), Scheme::Relaxed, "1.0", 0);
    reply.needed(version)
}

/// Version 1.0 of an instance, with these features and needs.
pub fn item_of(
    inst: Instance,
    features: &str,
    needs: List<u32>,
    reply: &mut Reply,
) -> Option<Item> {
    match version_of(reply) {
        Some(version) => Some(Item {
            inst,
            version,
            line: 1,
            features: features_of(features, reply),
            needs,
        }),
        None => None,
    }
}
