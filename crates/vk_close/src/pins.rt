//! Which ports are pinned: those with an overlay or an override.
ghost use Rattle.std.specs.Prelude.{◌≡◌, ℕ, List, Ok, Err};
ghost use Rattle.vk_spec.specs.Manifests as plain;
ghost use Rattle.vk_spec.specs.Pages.{is_overlay_file, is_pinned_by};
ghost use Rattle.vk_model.specs.WrongViews.{given_view, wrong_view};

use vk_base::{PortName, TreePath};
use vk_model::{Given, Wrong};
use vk_root::Overrides;

// Whether a file is the manifest in an overlay's folder for the port.
fn is_overlay_file(port: &PortName, path: &TreePath) -> bool
    ensures { result ≡ is_overlay_file port.now path.now }
{
    path.ends_in(port.as_str(), "vcpkg.json")
}

/// Whether a port without a given version is pinned all the same.
pub(crate) fn is_pinned_wrong(overrides: &Overrides, port: &PortName, wrong: &Wrong) -> bool
    ensures { result
        ≡ is_pinned_by overrides.now port.now (Err (wrong_view wrong.now)) }
{
    match wrong {
        Wrong::NoRegistry => overrides.has(port),
        Wrong::NoBaseline => overrides.has(port),
        Wrong::BadFile { path, .. } => is_overlay_file(port, path) || overrides.has(port),
        Wrong::Disagrees { .. } => true,
    }
}

/// Whether a port is pinned by its given version.
pub(crate) fn is_pinned_given(given: &Given) -> bool
    ensures { (overrides : List plain.Override) (port : List ℕ)
        → result ≡ is_pinned_by overrides port (Ok (given_view given.now)) }
{
    match given {
        Given::Overlay(_) => true,
        Given::Override(_) => true,
        Given::Baseline(_) => false,
    }
}
