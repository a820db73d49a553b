//! A configuration: in a file of its own, or in a root manifest.
ghost use Rattle.std.specs.Prelude.{◌≡◌, List, IfOk, Option, map, option_map};
ghost use Rattle.vk_json.specs.Values.{view};
ghost use Rattle.vk_spec.specs.Reading.{Gives};
ghost use Rattle.vk_base.specs.Stops.{fault_in};
ghost use Rattle.vk_config.specs.Configs as plain;
ghost use Rattle.vk_config.specs.Registries.{source_at};
ghost use Rattle.vk_config.specs.Readings.{unless_null, paths_under, registries_in, config_at};
ghost use Rattle.vk_config.specs.Readings.{config_of};
ghost use Rattle.vk_config.specs.Steps.{with_overlays, with_registries};
ghost use Rattle.vk_config.specs.Views.{source_view, registry_view, config_view};

use crate::configs::Config;
use crate::pattern_indexes::PatternIndex;
use crate::registries::{Registry, RegistryObject, Source, SourceObject};
use std::alloc::Global;
use vk_base::{List, Memory, TreePath, Unread};
use vk_fields::PathText;
use vk_json::{Doc, FileFault, ListOf, Reader, Scratch, Value, is_null, object, optional_or};

// Reads a default registry, which may be null.
#[derive(Drop)]
struct DefaultSource;

impl Reader for DefaultSource {
    type Out = Option<Source>;

    ghost Plain = { Option plain.Source };

    ghost plain = { option_map source_view };

    ghost reads = { λ r. unless_null source_at };

    fn read(&self, alloc: Global, value: &Value) -> Result<Option<Source>, Unread<FileFault>> {
        if is_null(value) {
            return Ok(None);
        }
        Ok(Some(SourceObject.read(alloc, value)?))
    }
}

fn paths(alloc: Global, value: &Value, key: &str) -> Result<List<TreePath>, Unread<FileFault>>
    ensures { Gives (λ paths. paths) fault_in result (paths_under key.now (view value.now)) }
{
    optional_or(alloc, value, key, &ListOf(PathText), List::new(alloc))
}

fn registries(alloc: Global, value: &Value) -> Result<List<Registry>, Unread<FileFault>>
    ensures { Gives (map registry_view) fault_in result (registries_in (view value.now)) }
{
    optional_or(
        alloc,
        value,
        "registries",
        &ListOf(RegistryObject),
        List::new(alloc),
    )
}

impl Config {
    /// The configuration of a project that configures nothing. Takes no memory.
    pub fn new(alloc: Global) -> Config
        ensures { config_view result ≡ plain.no_config }
    {
        Config {
            registries: List::new(alloc),
            default: None,
            overlay_ports: List::new(alloc),
            overlay_triplets: List::new(alloc),
            index: PatternIndex::new(alloc),
        }
    }
}

// The configuration of these, with the index of its registries.
fn indexed(
    alloc: Global,
    default: Option<Source>,
    overlay_ports: List<TreePath>,
    overlay_triplets: List<TreePath>,
    registries: List<Registry>,
) -> Result<Config, Memory>
    ensures { IfOk result (λ c. config_view c ≡ record {
      registries = map registry_view registries;
      default = option_map source_view default;
      overlay_ports = overlay_ports;
      overlay_triplets = overlay_triplets;
    }) }
{
    match PatternIndex::of(alloc, registries.as_slice()) {
        Ok(index) => Ok(Config {
            registries,
            default,
            overlay_ports,
            overlay_triplets,
            index,
        }),
        Err(memory) => {
            drop(registries);
            drop(default);
            drop(overlay_ports);
            drop(overlay_triplets);
            Err(memory)
        }
    }
}

// The configuration of these and of the registries that a value has.
fn with_registries(
    alloc: Global,
    value: &Value,
    default: Option<Source>,
    overlay_ports: List<TreePath>,
    overlay_triplets: List<TreePath>,
) -> Result<Config, Unread<FileFault>>
    ensures { Gives config_view fault_in result (with_registries (option_map source_view default)
        overlay_ports overlay_triplets (view value.now)) }
{
    match registries(alloc, value) {
        Ok(registries) => Ok(indexed(alloc, default, overlay_ports, overlay_triplets, registries)?),
        Err(fault) => {
            drop(default);
            drop(overlay_ports);
            drop(overlay_triplets);
            Err(fault)
        }
    }
}

// The configuration with this default, and of the overlays and the registries that a value has.
fn with_overlays(
    alloc: Global,
    value: &Value,
    default: Option<Source>,
) -> Result<Config, Unread<FileFault>>
    ensures { Gives config_view fault_in result
        (with_overlays (option_map source_view default) (view value.now)) }
{
    let overlay_ports = paths(alloc, value, "overlay-ports")?;
    match paths(alloc, value, "overlay-triplets") {
        Ok(overlay_triplets) => {
            with_registries(alloc, value, default, overlay_ports, overlay_triplets)
        }
        Err(fault) => {
            drop(default);
            drop(overlay_ports);
            Err(fault)
        }
    }
}

/// Reads a configuration.
#[derive(Drop)]
pub struct ConfigObject;

#[tactic(auto, unfolding(crate::specs::Readings::config_at))]
impl Reader for ConfigObject {
    type Out = Config;

    ghost Plain = { plain.Config };

    ghost plain = { config_view };

    ghost reads = { λ r. config_at };

    fn read(&self, alloc: Global, value: &Value) -> Result<Config, Unread<FileFault>> {
        object(alloc, value)?;
        let default = optional_or(alloc, value, "default-registry", &DefaultSource, None)?;
        with_overlays(alloc, value, default)
    }
}

/// Reads a configuration file: the configuration, or its first fault in the order
/// `default-registry`, `overlay-ports`, `overlay-triplets`, `registries`. Other keys are passed
/// over.
pub fn read_config(alloc: Global, bytes: &[u8]) -> Result<Config, Unread<FileFault>>
    ensures { Gives config_view fault_in result (config_of bytes.now) }
{
    let mut scratch = Scratch::new(alloc);
    let doc = Doc::read(alloc, bytes, &mut scratch)?;
    ConfigObject.read(alloc, doc.value())
}
