//! Registries: where ports come from.
ghost use Rattle.std.specs.Prelude.{◌≡◌, ℕ, List, Ok, map, option_map};
ghost use Rattle.vk_json.specs.Values.{view};
ghost use Rattle.vk_json.specs.Readings.{text_at};
ghost use Rattle.vk_spec.specs.Reading.{Gives};
ghost use Rattle.vk_base.specs.Stops.{fault_in};
ghost use Rattle.vk_config.specs.Configs as plain;
ghost use Rattle.vk_config.specs.Registries as plain_kind;
ghost use Rattle.vk_config.specs.Registries.{kind_of, kind_at, folder_in, source_by, source_at};
ghost use Rattle.vk_config.specs.Registries.{packages_by, registry_at};
ghost use Rattle.vk_config.specs.Views.{kind_view, source_view, pattern_view, registry_view};

use crate::patterns::{Pattern, PatternText};
use std::alloc::Global;
use vk_base::{List, SharedText, TreePath, Unread};
use vk_fields::PathText;
use vk_json::{FileFault, ListOf, Reader, Value, Why, object, optional_or, text, wanted, wrong};

/// Where a registry has its ports from.
#[derive(Drop)]
pub enum Source {
    /// A folder.
    Filesystem {
        /// The folder, from the project's folder on.
        path: TreePath,
        /// Which of the baselines in its baseline file counts.
        baseline: SharedText,
    },
    /// A Git repository, which the program can't read.
    Git,
    /// The ports that come with the tool, which the program hasn't.
    Builtin,
    /// No ports.
    Artifact,
}

/// A registry, and the ports that it has.
#[derive(Drop)]
pub struct Registry {
    /// Where its ports come from.
    pub source: Source,
    /// Which ports it has. An artifact registry has none, whatever stands here.
    pub packages: List<Pattern>,
}

// The word under `kind`.
#[derive(Drop)]
enum Kind {
    Filesystem,
    Git,
    Builtin,
    Artifact,
}

fn kind_of(word: &str) -> Option<Kind>
    ensures { option_map kind_view result ≡ kind_of word.now }
{
    match word {
        "filesystem" => Some(Kind::Filesystem),
        "git" => Some(Kind::Git),
        "builtin" => Some(Kind::Builtin),
        "artifact" => Some(Kind::Artifact),
        _ => None,
    }
}

#[derive(Drop)]
struct KindText;

impl Reader for KindText {
    type Out = Kind;

    ghost Plain = { plain_kind.Kind };

    ghost plain = { kind_view };

    ghost reads = { λ r. kind_at };

    fn read(&self, alloc: Global, value: &Value) -> Result<Kind, Unread<FileFault>> {
        kind_of(text(alloc, value)?).ok_or(wrong(alloc, Why::Kind))
    }
}

// Reads a baseline's name, which is any text.
#[derive(Drop)]
struct BaselineName;

impl Reader for BaselineName {
    type Out = SharedText;

    ghost Plain = { List ℕ };

    ghost plain = { λ t. t };

    ghost reads = { λ r. text_at };

    fn read(&self, alloc: Global, value: &Value) -> Result<SharedText, Unread<FileFault>> {
        Ok(SharedText::from_str(alloc, text(alloc, value)?)?)
    }
}

#[tactic(auto, unfolding(crate::specs::Registries::folder_in))]
fn read_folder(alloc: Global, value: &Value) -> Result<Source, Unread<FileFault>>
    ensures { Gives source_view fault_in result (folder_in (view value.now)) }
{
    let path = wanted(alloc, value, "path", &PathText)?;
    let default = SharedText::from_str(alloc, "default")?;
    let baseline = optional_or(alloc, value, "baseline", &BaselineName, default)?;
    Ok(Source::Filesystem { path, baseline })
}

fn read_source(alloc: Global, kind: Kind, value: &Value) -> Result<Source, Unread<FileFault>>
    ensures { Gives source_view fault_in result (source_by (kind_view kind) (view value.now)) }
{
    match kind {
        Kind::Filesystem => read_folder(alloc, value),
        Kind::Git => Ok(Source::Git),
        Kind::Builtin => Ok(Source::Builtin),
        Kind::Artifact => Ok(Source::Artifact),
    }
}

/// Reads where a registry has its ports from. `Kind` comes for a word that is no kind.
#[derive(Drop)]
pub struct SourceObject;

#[tactic(auto, unfolding(crate::specs::Registries::source_at))]
impl Reader for SourceObject {
    type Out = Source;

    ghost Plain = { plain.Source };

    ghost plain = { source_view };

    ghost reads = { λ r. source_at };

    fn read(&self, alloc: Global, value: &Value) -> Result<Source, Unread<FileFault>> {
        object(alloc, value)?;
        let kind = wanted(alloc, value, "kind", &KindText)?;
        read_source(alloc, kind, value)
    }
}

fn read_packages(
    alloc: Global,
    source: &Source,
    value: &Value,
) -> Result<List<Pattern>, Unread<FileFault>>
    ensures { Gives (map pattern_view) fault_in result
        (packages_by (source_view source.now) (view value.now)) }
{
    match source {
        Source::Artifact => Ok(List::new(alloc)),
        Source::Filesystem { .. } | Source::Git | Source::Builtin => {
            wanted(alloc, value, "packages", &ListOf(PatternText))
        }
    }
}

/// Reads a registry with its patterns.
#[derive(Drop)]
pub struct RegistryObject;

#[tactic(auto, unfolding(crate::specs::Registries::registry_at))]
impl Reader for RegistryObject {
    type Out = Registry;

    ghost Plain = { plain.Registry };

    ghost plain = { registry_view };

    ghost reads = { λ r. registry_at };

    fn read(&self, alloc: Global, value: &Value) -> Result<Registry, Unread<FileFault>> {
        let source = SourceObject.read(alloc, value)?;
        let packages = read_packages(alloc, &source, value)?;
        Ok(Registry { source, packages })
    }
}
