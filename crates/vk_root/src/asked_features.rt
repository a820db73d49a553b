//! The features that are asked of the root: those of the words, and what these ask of the root
//! itself.
ghost use Rattle.std.specs.Prelude.{◌≡◌, ◌&&◌, ◌++◌, ◌∷◌, [], ℕ, Bool, List};
ghost use Rattle.std.specs.Prelude.{OnOk, IfOk, map, if◌then◌else◌};
ghost use Rattle.indexmap.specs.IndexSet.{insert_key};
ghost use Rattle.vk_spec.specs.Manifests.{core, default};
ghost use Rattle.vk_resolution.specs.Least.{IsLeast};
ghost use Rattle.vk_resolution.specs.Settings.{marks_of, names_of, applicable_of, root};
ghost use Rattle.vk_resolution.specs.Settings.{asked_of_root_by, first_features_of, root_rules_of};
ghost use Rattle.vk_base.specs.FeatureViews.{feature_view};
ghost use Rattle.vk_model.specs.Views.{use_view, dependency_view};
ghost use Rattle.vk_root.specs.Roots.{root_setting, setting_at};
ghost use Rattle.vk_root.specs.AskedNames.{names_view, name_where, asks_itself};
ghost use Rattle.vk_root.specs.AskedNames.{names_where, names_each, is_same_name, Grows};

use crate::manifests::{defaults_of, dependencies_of};
use crate::roots::Root;
use indexmap::IndexSet;
use std::alloc::Global;
use vk_base::{FeatureName, List, Memory};
use vk_expr::{Marks, truth};
use vk_model::{Dependency, FeatureUse};

fn push_name(name: &FeatureName, names: &mut List<FeatureName>) -> Result<(), Memory>
    ensures { OnOk result (names_view names.new
        ≡ names_view names.old ++ feature_view name.now ∷ []) }
{
    names.push(name.clone()?)?;
    Ok(())
}

fn push_use(wanted: &FeatureUse, marks: &Marks, names: &mut List<FeatureName>) -> Result<(), Memory>
    ensures { OnOk result (names_view names.new
        ≡ names_view names.old ++ name_where marks.now.names wanted.now) }
{
    if truth(&wanted.platform, marks) {
        return push_name(&wanted.name, names);
    }
    Ok(())
}

// The names of the listed features that apply.
fn push_uses(
    uses: &[FeatureUse],
    marks: &Marks,
    names: &mut List<FeatureName>,
) -> Result<(), Memory>
    ensures { OnOk result (names_view names.new
        ≡ names_view names.old ++ names_of marks.now.names (map use_view uses.now)) }
{
    for wanted in uses {
        push_use(wanted, marks, names)?;
    }
    Ok(())
}

// Whether a dependency of the root applies, and is on the root itself.
fn asks_itself(root: Root<'_>, marks: &Marks, dependency: &Dependency) -> bool
    ensures { result ≡ asks_itself (root_setting root.entry) marks.now.names
        (dependency_view dependency.now) }
{
    truth(&dependency.platform, marks) && root.is_on_itself(dependency)
}

fn push_own(
    root: Root<'_>,
    marks: &Marks,
    dependency: &Dependency,
    names: &mut List<FeatureName>,
) -> Result<(), Memory>
    ensures { OnOk result (names_view names.new ≡ names_view names.old
        ++ names_where (root_setting root.entry) marks.now.names dependency.now) }
{
    if asks_itself(root, marks, dependency) {
        return push_uses(dependency.features.as_slice(), marks, names);
    }
    Ok(())
}

// What dependencies of the root ask of the root itself.
fn push_all(
    root: Root<'_>,
    marks: &Marks,
    dependencies: &[Dependency],
    names: &mut List<FeatureName>,
) -> Result<(), Memory>
    ensures { OnOk result (names_view names.new ≡ names_view names.old
        ++ names_each (root_setting root.entry) marks.now.names dependencies.now) }
{
    for dependency in dependencies {
        push_own(root, marks, dependency, names)?;
    }
    Ok(())
}

// What a feature of the root asks of the root itself.
fn asked_by(
    alloc: Global,
    root: Root<'_>,
    feature: &FeatureName,
) -> Result<List<FeatureName>, Memory>
    ensures { IfOk result (λ l. names_view l
        ≡ (root_rules_of (root_setting root.entry)).alone (feature_view feature.now)) }
{
    let marks = root.own_marks();
    let mut names = List::new(alloc);
    push_all(
        root,
        marks,
        dependencies_of(root.manifest, feature),
        &mut names,
    )?;
    push_uses(defaults_of(root.manifest, feature), marks, &mut names)?;
    Ok(names)
}

fn put_key(names: &mut IndexSet<FeatureName>, name: &FeatureName) -> Result<(), Memory>
    ensures { OnOk result (names.new.keys ≡ insert_key is_same_name names.old.keys name.now) }
{
    names.insert(name.clone()?)?;
    Ok(())
}

// Puts a name behind those of a set, unless it is there.
fn put(names: &mut IndexSet<FeatureName>, name: &FeatureName) -> Result<(), Memory>
    ensures { OnOk result (Grows names.old.keys names.new.keys (feature_view name.now ∷ [])) }
{
    put_key(names, name)?;
    Ok(())
}

fn put_all(names: &mut IndexSet<FeatureName>, more: &[FeatureName]) -> Result<(), Memory>
    ensures { OnOk result (Grows names.old.keys names.new.keys (names_view more.now)) }
{
    for name in more {
        put(names, name)?;
    }
    Ok(())
}

fn put_default(names: &mut IndexSet<FeatureName>, defaults: bool) -> Result<(), Memory>
    ensures { OnOk result (Grows names.old.keys names.new.keys
        (if defaults then default ∷ [] else [])) }
{
    if defaults {
        return put(names, &FeatureName::Default);
    }
    Ok(())
}

// Puts `core`, the features of the words, and `default` unless the words switch it off.
fn put_first(
    names: &mut IndexSet<FeatureName>,
    features: &[FeatureName],
    defaults: bool,
) -> Result<(), Memory>
    ensures { OnOk result (Grows names.old.keys names.new.keys
        (core ∷ names_view features.now ++ (if defaults then default ∷ [] else []))) }
{
    put(names, &FeatureName::Core)?;
    put_all(names, features)?;
    put_default(names, defaults)
}

// Puts what these features ask of the root, and what that asks of the root, and so on: each name is
// taken up once.
fn follow(alloc: Global, root: Root<'_>, names: &mut IndexSet<FeatureName>) -> Result<(), Memory>
    ensures { OnOk result ((words : List (List ℕ)) (defaults : Bool)
        → Grows [] names.old.keys (first_features_of (setting_at root.entry words defaults [] 0))
        → IsLeast (root_rules_of (setting_at root.entry words defaults [] 0))
        (names_view names.new.keys)) }
{
    let mut n = 0;
    while n < names.len() {
        let more = asked_by(alloc, root, &names[n])?;
        put_all(names, more.as_slice())?;
        n += 1;
    }
    Ok(())
}

/// The features that are asked of a root, where the words ask for these, and for its default
/// features or not.
pub fn asked_features(
    alloc: Global,
    root: Root<'_>,
    features: &[FeatureName],
    defaults: bool,
) -> Result<IndexSet<FeatureName>, Memory>
    ensures { IfOk result (λ set. IsLeast
        (root_rules_of (setting_at root.entry (names_view features.now) defaults [] 0))
        (names_view set.keys)) }
{
    let mut names = IndexSet::new(alloc);
    put_first(&mut names, features, defaults)?;
    follow(alloc, root, &mut names)?;
    Ok(names)
}
