//! Whether a manifest says what is said of it.
ghost use Rattle.std.specs.Prelude.{◌≡◌, [], IfOk, false, decimal};
ghost use Rattle.vk_spec.specs.Reading.{Gives};
ghost use Rattle.vk_spec.specs.Pages as the;
ghost use Rattle.vk_spec.specs.Pages.{bad_file, disagrees};
ghost use Rattle.vk_json.specs.Words.{word_of};
ghost use Rattle.vk_json.specs.declared.faults.Why.TheVariants as why;
ghost use Rattle.vk_version.specs.Views.{class_view};
ghost use Rattle.vk_model.specs.Views.{manifest_view};
ghost use Rattle.vk_model.specs.WrongViews.{field_view, wrong_view};
ghost use Rattle.vk_base.specs.Stops.{fault_seen, has_failed};
ghost use Rattle.vk_registry.specs.Agreement.{class_word, name_text, named, same_in};
ghost use Rattle.vk_registry.specs.Agreement.{agreeing, stated_version, version_agrees};

use std::alloc::Global;
use vk_base::{Memory, PortName, Stop, Text, TreePath};
use vk_json::Why;
use vk_model::{Field, Manifest, Wrong};
use vk_version::{Class, Version};

fn class_word(class: Class) -> &'static str
    ensures { result.now ≡ class_word (class_view class) }
{
    match class {
        Class::Dot => "dot",
        Class::Date => "date",
        Class::Text => "text",
    }
}

// What is wrong where the manifest at a path has this in a field, and that is said of it.
fn disagreement(
    alloc: Global,
    path: &TreePath,
    field: Field,
    said: &str,
    found: &str,
) -> Result<Wrong, Memory>
    ensures { IfOk result
        (λ w. wrong_view w ≡ disagrees path.now (field_view field) said.now found.now) }
{
    Ok(Wrong::Disagrees {
        path: path.clone()?,
        field,
        table: Text::from_str(alloc, said)?,
        manifest: Text::from_str(alloc, found)?,
    })
}

// That both texts are one, or else that the manifest disagrees in this field.
fn same_in(
    alloc: Global,
    path: &TreePath,
    field: Field,
    said: &str,
    found: &str,
) -> Result<(), Stop<Wrong>>
    ensures told { Gives (λ done. tt) (fault_seen wrong_view) result
        (same_in path.now (field_view field) said.now found.now) }
    ensures calm { has_failed result ≡ false }
{
    if said == found {
        return Ok(());
    }
    Err(Stop::Fault(disagreement(alloc, path, field, said, found)?))
}

fn name_text(manifest: &Manifest) -> &str
    ensures { result.now ≡ name_text (manifest_view manifest.now).name }
{
    match &manifest.name {
        Some(name) => name.as_str(),
        None => "",
    }
}

/// That the manifest at a path is the port's. `Fault` says that it disagrees in its name.
pub fn named(
    alloc: Global,
    path: &TreePath,
    port: &PortName,
    manifest: &Manifest,
) -> Result<(), Stop<Wrong>>
    ensures told { Gives (λ done. tt) (fault_seen wrong_view) result
        (named path.now port.now (manifest_view manifest.now)) }
    ensures calm { has_failed result ≡ false }
{
    same_in(alloc, path, Field::Name, port.as_str(), name_text(manifest))
}

// A port's manifest without a version, which no file gives.
fn no_version(alloc: Global, path: &TreePath) -> Result<Wrong, Memory>
    ensures { IfOk result (λ w. wrong_view w ≡ bad_file path.now [] (word_of why.NoVersion)) }
{
    Ok(Wrong::BadFile {
        path: path.clone()?,
        place: Text::new(alloc),
        why: Why::NoVersion,
    })
}

/// The version of the manifest at a path. `Fault` says that it has none.
pub fn stated_version<'a>(
    alloc: Global,
    path: &TreePath,
    manifest: &'a Manifest,
) -> Result<&'a Version, Stop<Wrong>>
    ensures told { Gives (λ v. v.now) (fault_seen wrong_view) result
        (stated_version path.now (manifest_view manifest.now)) }
    ensures calm { has_failed result ≡ false }
{
    match &manifest.version {
        Some(version) => Ok(version),
        None => Err(Stop::Fault(no_version(alloc, path)?)),
    }
}

// That both port-versions are one, or else that the manifest disagrees in it. They are printed only
// to be told.
fn same_port(alloc: Global, path: &TreePath, said: u32, found: u32) -> Result<(), Stop<Wrong>>
    ensures told { Gives (λ done. tt) (fault_seen wrong_view) result
        (same_in path.now the.port (decimal said) (decimal found)) }
    ensures calm { has_failed result ≡ false }
{
    if said == found {
        return Ok(());
    }
    let said = format!(in alloc; "{said}")?;
    let found = format!(in alloc; "{found}")?;
    same_in(alloc, path, Field::Port, said.as_str(), found.as_str())
}

// That the version which is found is the one that is said.
#[tactic(auto, unfolding(crate::specs::Agreement::version_agrees))]
fn version_agrees(
    alloc: Global,
    path: &TreePath,
    said: &Version,
    found: &Version,
) -> Result<(), Stop<Wrong>>
    ensures told { Gives (λ done. tt) (fault_seen wrong_view) result
        (version_agrees path.now said.now found.now) }
    ensures calm { has_failed result ≡ false }
{
    let class = class_word(said.class());
    same_in(alloc, path, Field::Class, class, class_word(found.class()))?;
    let text = said.text().as_str();
    same_in(alloc, path, Field::Text, text, found.text().as_str())?;
    same_port(alloc, path, said.port(), found.port())
}

/// That the manifest at a path is the port's, at the version. `Fault` says that it has no
/// version, or in which field it disagrees: the first of name, class, text and port-version. The
/// tree isn't asked, so `Failed` never comes.
#[tactic(auto, unfolding(crate::specs::Agreement::agreeing))]
pub fn agree(
    alloc: Global,
    path: &TreePath,
    port: &PortName,
    version: &Version,
    manifest: &Manifest,
) -> Result<(), Stop<Wrong>>
    ensures told { Gives (λ done. tt) (fault_seen wrong_view) result
        (agreeing path.now port.now version.now (manifest_view manifest.now)) }
    ensures calm { has_failed result ≡ false }
{
    named(alloc, path, port, manifest)?;
    let found = stated_version(alloc, path, manifest)?;
    version_agrees(alloc, path, version, found)
}
