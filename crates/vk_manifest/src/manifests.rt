//! A manifest whole.
ghost use Rattle.std.specs.Prelude.{◌≡◌, ◌<◌, ◌^◌, Bool, length, map};
ghost use Rattle.vk_json.specs.Values.{view};
ghost use Rattle.vk_spec.specs.Reading.{Gives};
ghost use Rattle.vk_base.specs.Stops.{fault_in};
ghost use Rattle.vk_model.specs.Views.{manifest_view, override_view};
ghost use Rattle.vk_manifest.specs.Manifests.{name_in, version_in, overrides_if};
ghost use Rattle.vk_manifest.specs.Manifests.{blank, manifest_at, manifest_of};
ghost use Rattle.vk_manifest.specs.Steps.{manifest_with};

use crate::dependencies::{condition, dependencies, feature_uses};
use crate::features::features;
use crate::overrides::overrides;
use crate::places::put;
use std::alloc::Global;
use vk_base::{List, PortName, Unread};
use vk_expr::Expr;
use vk_fields::{PortNameText, version, version_needed};
use vk_json::{Doc, FileFault, Scratch, Value, object, optional, wanted};
use vk_model::{Manifest, Override, PortFeatures};
use vk_version::Version;

#[tactic(auto, unfolding(crate::specs::Manifests::name_in))]
fn name(alloc: Global, value: &Value, root: bool) -> Result<Option<PortName>, Unread<FileFault>>
    ensures { Gives (λ name. name) fault_in result (name_in root (view value.now)) }
{
    if root {
        return optional(alloc, value, "name", &PortNameText);
    }
    Ok(Some(wanted(alloc, value, "name", &PortNameText)?))
}

#[tactic(auto, unfolding(crate::specs::Manifests::version_in))]
fn version_of(
    alloc: Global,
    value: &Value,
    root: bool,
) -> Result<Option<Version>, Unread<FileFault>>
    ensures { Gives (λ v. v) fault_in result (version_in root (view value.now)) }
{
    if root {
        return version(alloc, value);
    }
    Ok(Some(version_needed(alloc, value)?))
}

fn overrides_if(
    alloc: Global,
    value: &Value,
    root: bool,
) -> Result<List<Override>, Unread<FileFault>>
    ensures { Gives (map override_view) fault_in result (overrides_if root (view value.now)) }
{
    if root {
        return overrides(alloc, value);
    }
    Ok(List::new(alloc))
}

// What is put in where a key is missing.
fn blank(alloc: Global) -> Manifest
    ensures { manifest_view result ≡ blank }
{
    Manifest {
        name: None,
        version: None,
        supports: Expr::Always,
        dependencies: List::new(alloc),
        default_features: List::new(alloc),
        features: PortFeatures::none(alloc),
        overrides: List::new(alloc),
    }
}

// Puts what a value says besides the name and the version into a manifest.
fn fill_besides(
    alloc: Global,
    value: &Value,
    root: bool,
    manifest: &mut Manifest,
) -> Result<(), Unread<FileFault>>
    ensures { Gives (λ done. manifest_view manifest.new) fault_in result
        (manifest_with (manifest_view manifest.old).name (manifest_view manifest.old).version
        root (view value.now)) }
{
    put(&mut manifest.supports, condition(alloc, value, "supports"))?;
    put(&mut manifest.dependencies, dependencies(alloc, value))?;
    put(
        &mut manifest.default_features,
        feature_uses(alloc, value, "default-features"),
    )?;
    put(&mut manifest.features, features(alloc, value))?;
    put(&mut manifest.overrides, overrides_if(alloc, value, root))
}

// Puts all that a value says into a manifest.
#[tactic(auto, unfolding(crate::specs::Manifests::manifest_at))]
fn fill(
    alloc: Global,
    value: &Value,
    root: bool,
    manifest: &mut Manifest,
) -> Result<(), Unread<FileFault>>
    ensures { Gives (λ done. manifest_view manifest.new) fault_in result
        (manifest_at root (view value.now)) }
{
    object(alloc, value)?;
    put(&mut manifest.name, name(alloc, value, root))?;
    put(&mut manifest.version, version_of(alloc, value, root))?;
    fill_besides(alloc, value, root, manifest)
}

/// The manifest that a value is: the root's, or a port's, which needs a name and a version. Only a
/// root's overrides are read. Keys that a manifest hasn't are passed over.
pub fn read_manifest_in(
    alloc: Global,
    value: &Value,
    root: bool,
) -> Result<Manifest, Unread<FileFault>>
    ensures { Gives manifest_view fault_in result (manifest_at root (view value.now)) }
{
    let mut manifest = blank(alloc);
    match fill(alloc, value, root, &mut manifest) {
        Ok(()) => Ok(manifest),
        Err(fault) => {
            drop(manifest);
            Err(fault)
        }
    }
}

/// The manifest that bytes are, of the root or of a port. The fault is the first one in the order
/// of reading, with its place (a JSON Pointer, RFC 6901) and its word: the object, its name, its
/// version, `supports`, `dependencies`, `default-features`, `features`, and a root's `overrides`.
pub fn read_manifest(alloc: Global, bytes: &[u8], root: bool) -> Result<Manifest, Unread<FileFault>>
    requires { length bytes.now < 2 ^ 32 }
    ensures { Gives manifest_view fault_in result (manifest_of bytes.now root) }
{
    let mut scratch = Scratch::new(alloc);
    let document = Doc::read(alloc, bytes, &mut scratch)?;
    read_manifest_in(alloc, document.value(), root)
}
