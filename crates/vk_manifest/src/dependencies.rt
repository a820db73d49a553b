//! What a port or a feature wants of others.
ghost use Rattle.std.specs.Prelude.{◌≡◌, List, map};
ghost use Rattle.vk_json.specs.Values.{view};
ghost use Rattle.vk_spec.specs.Reading.{Gives};
ghost use Rattle.vk_spec.specs.Manifests as plain;
ghost use Rattle.vk_spec.specs.Conditions.{Condition};
ghost use Rattle.vk_expr.specs.Views.{condition_of};
ghost use Rattle.vk_base.specs.Stops.{fault_in};
ghost use Rattle.vk_model.specs.Views.{use_view, dependency_view};
ghost use Rattle.vk_manifest.specs.Manifests.{condition_under, use_of_text, use_of_object, use_at};
ghost use Rattle.vk_manifest.specs.Manifests.{uses_under, plainly, dependency_of_text};
ghost use Rattle.vk_manifest.specs.Manifests.{dependency_with, dependency_of_object};
ghost use Rattle.vk_manifest.specs.Manifests.{dependency_at, dependencies_in};

use crate::places::put;
use std::alloc::Global;
use vk_base::{List, PortName, Unread};
use vk_expr::Expr;
use vk_fields::{AskText, ExpressionText, FeatureNameText, PortNameText};
use vk_json::{
    AnyBoolean, FileFault, ListOf, Reader, Value, Why, optional, optional_or, wanted, wrong,
};
use vk_model::{Dependency, FeatureUse};

/// A condition under a key; where it is missing, it always holds.
pub fn condition(alloc: Global, value: &Value, key: &str) -> Result<Expr, Unread<FileFault>>
    ensures { Gives condition_of fault_in result (condition_under key.now (view value.now)) }
{
    optional_or(alloc, value, key, &ExpressionText, Expr::Always)
}

#[tactic(auto, unfolding(crate::specs::Manifests::use_of_text))]
fn use_of_text(alloc: Global, value: &Value) -> Result<FeatureUse, Unread<FileFault>>
    ensures { Gives use_view fault_in result (use_of_text (view value.now)) }
{
    Ok(FeatureUse {
        name: FeatureNameText.read(alloc, value)?,
        platform: Expr::Always,
    })
}

#[tactic(auto, unfolding(crate::specs::Manifests::use_of_object))]
fn use_of_object(alloc: Global, value: &Value) -> Result<FeatureUse, Unread<FileFault>>
    ensures { Gives use_view fault_in result (use_of_object (view value.now)) }
{
    let name = wanted(alloc, value, "name", &FeatureNameText)?;
    let platform = condition(alloc, value, "platform")?;
    Ok(FeatureUse { name, platform })
}

// Reads a feature that a list names.
#[derive(Drop)]
struct FeatureUseItem;

impl Reader for FeatureUseItem {
    type Out = FeatureUse;

    ghost Plain = { plain.FeatureUse Condition };

    ghost plain = { use_view };

    ghost reads = { λ r. use_at };

    fn read(&self, alloc: Global, value: &Value) -> Result<FeatureUse, Unread<FileFault>> {
        match value {
            Value::String(_) => use_of_text(alloc, value),
            Value::Object(_) => use_of_object(alloc, value),
            _ => Err(wrong(alloc, Why::Item)),
        }
    }
}

/// The features that are listed under a key.
pub fn feature_uses(
    alloc: Global,
    value: &Value,
    key: &str,
) -> Result<List<FeatureUse>, Unread<FileFault>>
    ensures { Gives (map use_view) fault_in result (uses_under key.now (view value.now)) }
{
    optional_or(alloc, value, key, &ListOf(FeatureUseItem), List::new(alloc))
}

// The port with its default features, everywhere.
fn plainly(alloc: Global, name: PortName) -> Dependency
    ensures { dependency_view result ≡ plainly name }
{
    Dependency {
        name,
        defaults: true,
        features: List::new(alloc),
        host: false,
        platform: Expr::Always,
        minimum: None,
    }
}

#[tactic(auto, unfolding(crate::specs::Manifests::dependency_of_text))]
fn dependency_of_text(alloc: Global, value: &Value) -> Result<Dependency, Unread<FileFault>>
    ensures { Gives dependency_view fault_in result (dependency_of_text (view value.now)) }
{
    let name = PortNameText.read(alloc, value)?;
    Ok(plainly(alloc, name))
}

// Puts what an object says besides the name into a dependency.
#[tactic(auto, unfolding(crate::specs::Manifests::dependency_with))]
fn fill(alloc: Global, value: &Value, dependency: &mut Dependency) -> Result<(), Unread<FileFault>>
    ensures { Gives (λ done. dependency_view dependency.new) fault_in result
        (dependency_with dependency.old.name (view value.now)) }
{
    put(
        &mut dependency.defaults,
        optional_or(alloc, value, "default-features", &AnyBoolean, true),
    )?;
    put(
        &mut dependency.features,
        feature_uses(alloc, value, "features"),
    )?;
    put(
        &mut dependency.host,
        optional_or(alloc, value, "host", &AnyBoolean, false),
    )?;
    put(
        &mut dependency.platform,
        condition(alloc, value, "platform"),
    )?;
    put(
        &mut dependency.minimum,
        optional(alloc, value, "version>=", &AskText),
    )
}

// The dependency on a port of this name that an object is.
fn dependency_named(
    alloc: Global,
    name: PortName,
    value: &Value,
) -> Result<Dependency, Unread<FileFault>>
    ensures { Gives dependency_view fault_in result (dependency_with name (view value.now)) }
{
    let mut dependency = plainly(alloc, name);
    match fill(alloc, value, &mut dependency) {
        Ok(()) => Ok(dependency),
        Err(fault) => {
            drop(dependency);
            Err(fault)
        }
    }
}

#[tactic(auto, unfolding(crate::specs::Manifests::dependency_of_object))]
fn dependency_of_object(alloc: Global, value: &Value) -> Result<Dependency, Unread<FileFault>>
    ensures { Gives dependency_view fault_in result (dependency_of_object (view value.now)) }
{
    let name = wanted(alloc, value, "name", &PortNameText)?;
    dependency_named(alloc, name, value)
}

// Reads a dependency.
#[derive(Drop)]
struct DependencyItem;

impl Reader for DependencyItem {
    type Out = Dependency;

    ghost Plain = { plain.Dependency Condition };

    ghost plain = { dependency_view };

    ghost reads = { λ r. dependency_at };

    fn read(&self, alloc: Global, value: &Value) -> Result<Dependency, Unread<FileFault>> {
        match value {
            Value::String(_) => dependency_of_text(alloc, value),
            Value::Object(_) => dependency_of_object(alloc, value),
            _ => Err(wrong(alloc, Why::Item)),
        }
    }
}

/// The dependencies of a port or a feature.
pub fn dependencies(alloc: Global, value: &Value) -> Result<List<Dependency>, Unread<FileFault>>
    ensures { Gives (map dependency_view) fault_in result (dependencies_in (view value.now)) }
{
    optional_or(
        alloc,
        value,
        "dependencies",
        &ListOf(DependencyItem),
        List::new(alloc),
    )
}
