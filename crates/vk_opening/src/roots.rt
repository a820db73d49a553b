//! The root manifest, and the manifests of overlays.
ghost use Rattle.vk_spec.specs.Manifests as manifests;
ghost use Rattle.vk_spec.specs.Conditions as conditions;
ghost use Rattle.vk_model.specs.Views.{manifest_view};
ghost use Rattle.vk_opening.specs.Roots as plain;
ghost use Rattle.std.specs.Prelude.{◌≡◌, IfOk, Ok, true};
ghost use Rattle.vk_spec.specs.Reading.{◌>>=◌ as and_then, Gives};
ghost use Rattle.vk_base.specs.Stops.{fault_in};
ghost use Rattle.vk_manifest.specs.Manifests.{manifest_at};
ghost use Rattle.vk_config.specs.Embedding.{embedded_at};
ghost use Rattle.vk_json.specs.Values.{view};
ghost use Rattle.vk_opening.specs.Roots.{has_configuration, own_configuration, root_in, port_in};
ghost use Rattle.vk_opening.specs.Views.{configuration_view, embedded_seen, root_view};

use std::alloc::Global;
use vk_base::{Memory, Unread};
use vk_config::{Embedded, embedded_in};
use vk_files::FileReader;
use vk_json::{Doc, FileFault, Scratch, Value, member};
use vk_manifest::read_manifest_in;
use vk_model::Manifest;

/// What a root manifest has of a configuration.
#[derive(Drop)]
pub struct OwnConfiguration {
    /// Whether one of the two keys is there, whatever its value is.
    pub is_there: bool,
    /// The configuration, or its first fault.
    pub embedded: Result<Embedded, FileFault>,
}

/// A root manifest, and the configuration in it.
#[derive(Drop)]
pub struct Root {
    pub manifest: Manifest,
    pub configuration: OwnConfiguration,
}

fn has_configuration(document: &Value) -> bool
    ensures { result ≡ has_configuration (view document.now) }
{
    member(document, "vcpkg-configuration").is_some() || member(document, "configuration").is_some()
}

// What is read of the configuration.
fn read_embedded(alloc: Global, document: &Value) -> Result<Result<Embedded, FileFault>, Memory>
    ensures { IfOk result (λ read. embedded_seen read ≡ embedded_at (view document.now)) }
{
    match embedded_in(alloc, document) {
        Ok(embedded) => Ok(Ok(embedded)),
        Err(Unread::Fault(fault)) => Ok(Err(fault)),
        Err(Unread::Memory(memory)) => Err(memory),
    }
}

fn own_configuration(alloc: Global, document: &Value) -> Result<OwnConfiguration, Memory>
    ensures { IfOk result (λ own. configuration_view own
        ≡ own_configuration (view document.now)) }
{
    Ok(OwnConfiguration {
        is_there: has_configuration(document),
        embedded: read_embedded(alloc, document)?,
    })
}

// What a document has as a root manifest.
fn root_at(alloc: Global, document: &Value) -> Result<Root, Unread<FileFault>>
    ensures { Gives root_view fault_in result (and_then (manifest_at true (view document.now))
        (λ m. Ok (record {
          manifest = m;
          configuration = own_configuration (view document.now);
        }))) }
{
    let manifest = read_manifest_in(alloc, document, true)?;
    match own_configuration(alloc, document) {
        Ok(configuration) => Ok(Root {
            manifest,
            configuration,
        }),
        Err(memory) => {
            drop(manifest);
            Err(Unread::Memory(memory))
        }
    }
}

/// Reads a root manifest with its configuration.
#[derive(Drop)]
pub struct RootFile;

#[tactic(auto, unfolding(crate::specs::Roots::root_in))]
impl FileReader for RootFile {
    type Out = Root;

    ghost Plain = { plain.Root };

    ghost plain = { root_view };

    ghost reads = { λ r. root_in };

    fn read(
        &self,
        alloc: Global,
        bytes: &[u8],
        scratch: &mut Scratch,
    ) -> Result<Root, Unread<FileFault>> {
        let document = Doc::read(alloc, bytes, scratch)?;
        root_at(alloc, document.value())
    }
}

/// Reads the manifest of a port, which needs a name and a version.
#[derive(Drop)]
pub struct PortFile;

impl FileReader for PortFile {
    type Out = Manifest;

    ghost Plain = { manifests.Manifest conditions.Condition };

    ghost plain = { manifest_view };

    ghost reads = { λ r. port_in };

    fn read(
        &self,
        alloc: Global,
        bytes: &[u8],
        scratch: &mut Scratch,
    ) -> Result<Manifest, Unread<FileFault>> {
        let document = Doc::read(alloc, bytes, scratch)?;
        read_manifest_in(alloc, document.value(), false)
    }
}
