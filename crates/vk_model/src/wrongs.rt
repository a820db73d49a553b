ghost use Rattle.std.specs.Prelude.{◌≡◌};
ghost use Rattle.vk_spec.specs.Pages.{given_ask};
ghost use Rattle.vk_version.specs.AskViews.{ask_view};
ghost use Rattle.vk_model.specs.WrongViews.{given_view};

use vk_base::{Text, TreePath};
use vk_json::Why;
use vk_version::{Ask, Version};

/// Where a port's given version comes from.
#[derive(Clone, Drop)]
pub enum Given {
    /// The version of the manifest in the first overlay that has the port.
    Overlay(Version),
    /// What an override in the root manifest asks for.
    Override(Ask),
    /// What the entry in the baseline of the port's registry asks for.
    Baseline(Ask),
}

impl Given {
    /// What it asks for: of an overlay, its own version. Takes no memory.
    pub fn ask(&self) -> &Ask
        ensures { ask_view result.now ≡ given_ask (given_view self.now) }
    {
        match self {
            Given::Overlay(version) => version.ask(),
            Given::Override(ask) => ask,
            Given::Baseline(ask) => ask,
        }
    }
}

/// The first field, in this order, in which a versions table and a manifest differ.
#[derive(Clone, Copy, Debug, PartialEq, Eq)]
pub enum Field {
    /// The port's name.
    Name,
    /// Which versions the version can be compared with.
    Class,
    /// The version's text.
    Text,
    /// The port-version.
    Port,
}

/// Why a port has no given version, or a version no manifest.
#[derive(Clone, Drop)]
pub enum Wrong {
    /// No registry serves the port.
    NoRegistry,
    /// The baseline of its registry has no entry for it.
    NoBaseline,
    /// A file that isn't as it has to be: where in it, a JSON Pointer (RFC 6901), and why.
    BadFile {
        path: TreePath,
        place: Text,
        why: Why,
    },
    /// A manifest that isn't what the table says of it: what the table has, and what it has.
    Disagrees {
        path: TreePath,
        field: Field,
        table: Text,
        manifest: Text,
    },
}
