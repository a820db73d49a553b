//! The instances that a root manifest turns off.
ghost use Rattle.std.specs.Prelude.{◌≡◌, ◌↔◌, ◌++◌, ◌∷◌, [], ℕ, Bool, true, false, not, List};
ghost use Rattle.std.specs.Prelude.{OnOk, IfOk, map, filter};
ghost use Rattle.std.specs.List.{Contains};
ghost use Rattle.vk_spec.specs.Settings as plain;
ghost use Rattle.vk_resolution.specs.Keys.{Ascends, IsListing};
ghost use Rattle.vk_resolution.specs.Least.{IsLeast};
ghost use Rattle.vk_resolution.specs.Planning.{instance_key};
ghost use Rattle.vk_resolution.specs.Settings.{root_rules_of, IsOff, ListsOff};
ghost use Rattle.vk_base.specs.FeatureViews.{feature_view};
ghost use Rattle.vk_base.specs.declared.instances.Instance.{Instance};
ghost use Rattle.vk_triplet.specs.Meanings.{meaning_of};
ghost use Rattle.vk_model.specs.SettingViews.{instance_view};
ghost use Rattle.vk_model.specs.Views.{manifest_view, dependency_view};
ghost use Rattle.vk_root.specs.Offs.{AreOff, has_instance};
ghost use Rattle.vk_root.specs.RootSettings.{setting_of};
ghost use Rattle.vk_root.specs.Roots.{root_setting, setting_at, at_root};
ghost use Rattle.vk_root.specs.AskedNames.{names_view};
ghost use Rattle.vk_root.specs.NamedInstances.{instances_view, is_counted, IsOthers};
ghost use Rattle.vk_root.specs.NamedInstances.{named_where, named_each, named_in, named_of};

use crate::asked_features::asked_features;
use crate::instance_sets::set_of;
use crate::manifests::dependencies_of;
use crate::roots::Root;
use indexmap::IndexSet;
use std::alloc::Global;
use vk_base::{FeatureName, Instance, List, Memory};
use vk_expr::{Marks, truth};
use vk_model::{Dependency, Manifest};
use vk_triplet::Triplet;

// Whether a dependency of the root applies, is on another instance, and counts: each does, or only
// those that want default features.
fn is_counted(root: Root<'_>, marks: &Marks, only: bool, dependency: &Dependency) -> bool
    ensures { result ≡ is_counted (root_setting root.entry) marks.now.names only
        (dependency_view dependency.now) }
{
    (truth(&dependency.platform, marks) && !root.is_on_itself(dependency))
        && (!only || dependency.defaults)
}

// The instance that a dependency of the root is on.
fn instance_of(root: Root<'_>, dependency: &Dependency) -> Result<Instance, Memory>
    ensures { IfOk result (λ i. instance_view i
        ≡ at_root (root_setting root.entry) (dependency_view dependency.now)) }
{
    Ok(Instance {
        port: dependency.name.clone()?,
        triplet: root.triplet_of(dependency).clone()?,
    })
}

fn push_instance(
    root: Root<'_>,
    dependency: &Dependency,
    named: &mut List<Instance>,
) -> Result<(), Memory>
    ensures { OnOk result (instances_view named.new ≡ instances_view named.old
        ++ at_root (root_setting root.entry) (dependency_view dependency.now) ∷ []) }
{
    let instance = instance_of(root, dependency)?;
    named.push(instance)?;
    Ok(())
}

fn push_named(
    root: Root<'_>,
    marks: &Marks,
    only: bool,
    dependency: &Dependency,
    named: &mut List<Instance>,
) -> Result<(), Memory>
    ensures { OnOk result (instances_view named.new ≡ instances_view named.old
        ++ named_where (root_setting root.entry) marks.now.names only dependency.now) }
{
    if is_counted(root, marks, only, dependency) {
        return push_instance(root, dependency, named);
    }
    Ok(())
}

fn push_all(
    root: Root<'_>,
    marks: &Marks,
    only: bool,
    dependencies: &[Dependency],
    named: &mut List<Instance>,
) -> Result<(), Memory>
    ensures { OnOk result (instances_view named.new ≡ instances_view named.old
        ++ named_each (root_setting root.entry) marks.now.names only dependencies.now) }
{
    for dependency in dependencies {
        push_named(root, marks, only, dependency, named)?;
    }
    Ok(())
}

// The other instances that a feature of the root names.
fn push_feature(
    root: Root<'_>,
    only: bool,
    feature: &FeatureName,
    named: &mut List<Instance>,
) -> Result<(), Memory>
    ensures { OnOk result (instances_view named.new ≡ instances_view named.old
        ++ named_in (root_setting root.entry) only (feature_view feature.now)) }
{
    let dependencies = dependencies_of(root.manifest, feature);
    push_all(root, root.own_marks(), only, dependencies, named)
}

// The other instances that features of the root name, or only those that they name with default
// features.
fn named_by(
    alloc: Global,
    root: Root<'_>,
    only: bool,
    features: &IndexSet<FeatureName>,
) -> Result<List<Instance>, Memory>
    ensures { IfOk result (λ l. instances_view l
        ≡ named_of (root_setting root.entry) only (names_view features.now.keys)) }
{
    let mut named = List::new(alloc);
    for feature in features.iter() {
        push_feature(root, only, feature, &mut named)?;
    }
    Ok(named)
}

// The other instances that features of the root name with their default features.
fn wanted_by(
    alloc: Global,
    root: Root<'_>,
    features: &IndexSet<FeatureName>,
) -> Result<IndexSet<Instance>, Memory>
    ensures { IfOk result (λ set. (l : List Instance) × AreOff l set.keys × (instances_view l
        ≡ named_of (root_setting root.entry) true (names_view features.now.keys))) }
{
    let named = named_by(alloc, root, true, features)?;
    set_of(alloc, named.as_slice())
}

// Keeps those that aren't in the set.
fn keep_others(instances: &mut Vec<Instance>, wanted: &IndexSet<Instance>)
    ensures { instances.new.items
        ≡ filter (λ i. not (has_instance wanted.now.keys i)) instances.old.items }
{
    instances.retain(|instance| !wanted.contains(instance));
}

// Puts instances in order, each once.
fn put_in_order(instances: &mut Vec<Instance>)
    ensures order { Ascends instance_key (instances_view instances.new.items) }
    ensures keeps { (i : Instance) → Contains instances.old.items i
        → Contains instances.new.items i }
    ensures adds_none { (i : Instance) → Contains instances.new.items i
        → Contains instances.old.items i }
{
    instances.sort_unstable();
    instances.dedup();
}

// Those of these instances that aren't in the set, in order, each once.
fn others_in_order(named: List<Instance>, wanted: &IndexSet<Instance>) -> List<Instance>
    ensures order { Ascends instance_key (instances_view result) }
    ensures each { (i : Instance) → Contains result i
        ↔ Contains (filter (λ i. not (has_instance wanted.now.keys i)) named) i }
{
    let mut instances = named.into_vec();
    keep_others(&mut instances, wanted);
    put_in_order(&mut instances);
    List::from_vec(instances)
}

// The other instances that features of the root name, but for those in the set, in order.
fn others_by(
    alloc: Global,
    root: Root<'_>,
    features: &IndexSet<FeatureName>,
    wanted: &IndexSet<Instance>,
) -> Result<List<Instance>, Memory>
    ensures { IfOk result (λ l. IsOthers wanted.now.keys
        (named_of (root_setting root.entry) false (names_view features.now.keys)) l) }
{
    let named = named_by(alloc, root, false, features)?;
    Ok(others_in_order(named, wanted))
}

// The instances that are off, where these features are asked of the root.
fn off_by(
    alloc: Global,
    root: Root<'_>,
    features: &IndexSet<FeatureName>,
) -> Result<List<Instance>, Memory>
    ensures { IfOk result (λ l. (words : List (List ℕ)) (defaults : Bool)
        (off : List plain.Instance) (most : ℕ)
        → IsLeast (root_rules_of (setting_at root.entry words defaults off most))
        (names_view features.now.keys)
        → IsListing instance_key (IsOff (setting_at root.entry words defaults off most))
        (instances_view l)) }
{
    let wanted = wanted_by(alloc, root, features)?;
    others_by(alloc, root, features, &wanted)
}

/// The instances that are off, by port and then by triplet: those that the asked features of a root
/// name, and never with their default features. An off list and a number of requirements don't
/// change them.
pub fn off_list(
    alloc: Global,
    root: &Manifest,
    target: &Triplet,
    host: &Triplet,
    features: &List<FeatureName>,
    defaults: bool,
) -> Result<List<Instance>, Memory>
    ensures listing { IfOk result (λ l. (off : List plain.Instance) (most : ℕ)
        → IsListing instance_key (IsOff (setting_of (manifest_view root.now)
        (meaning_of target.now) (meaning_of host.now) (map feature_view features.now) defaults off
        most)) (map instance_view l)) }
    ensures lists { IfOk result (λ l. (most : ℕ) → ListsOff (setting_of (manifest_view root.now)
        (meaning_of target.now) (meaning_of host.now) (map feature_view features.now) defaults
        (map instance_view l) most)) }
{
    let root = Root {
        manifest: root,
        target,
        host,
    };
    let asked = asked_features(alloc, root, features.as_slice(), defaults)?;
    off_by(alloc, root, &asked)
}
