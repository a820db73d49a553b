//! What a manifest has under a feature's name.
ghost use Rattle.std.specs.Prelude.{◌≡◌, bytes_eq, option_map, map, find, [], if◌then◌else◌};
ghost use Rattle.vk_spec.specs.Manifests.{default};
ghost use Rattle.vk_resolution.specs.Settings.{dependencies_of, dependencies_in, feature_of};
ghost use Rattle.vk_base.specs.FeatureViews.{feature_view};
ghost use Rattle.vk_model.specs.Views.{manifest_view, dependency_view, use_view};

use vk_base::FeatureName;
use vk_model::{Dependency, Feature, FeatureUse, Manifest};

// The feature of this name.
pub fn feature_of<'a>(manifest: &'a Manifest, name: &str) -> Option<&'a Feature>
    ensures { option_map (λ f. f.now) result
        ≡ find (λ f. bytes_eq (feature_view f.name) name.now) manifest.now.features }
{
    manifest.features.get(name)
}

// The dependencies of the feature of this name, if there is one.
fn dependencies_in<'a>(manifest: &'a Manifest, name: &str) -> &'a [Dependency]
    ensures { map dependency_view result.now
        ≡ dependencies_in (feature_of (manifest_view manifest.now) name.now) }
{
    match feature_of(manifest, name) {
        Some(feature) => feature.dependencies.as_slice(),
        None => &[],
    }
}

// The dependencies of a feature: those of `core` are the manifest's own, `default` has none.
pub fn dependencies_of<'a>(manifest: &'a Manifest, name: &FeatureName) -> &'a [Dependency]
    ensures { map dependency_view result.now
        ≡ dependencies_of (manifest_view manifest.now) (feature_view name.now) }
{
    match name {
        FeatureName::Core => manifest.dependencies.as_slice(),
        FeatureName::Default => &[],
        FeatureName::Named(named) => dependencies_in(manifest, named.as_str()),
    }
}

fn is_default(name: &FeatureName) -> bool
    ensures { result ≡ bytes_eq (feature_view name.now) default }
{
    name.as_str() == "default"
}

// The default features, where the feature is `default`.
pub fn defaults_of<'a>(manifest: &'a Manifest, name: &FeatureName) -> &'a [FeatureUse]
    ensures { map use_view result.now ≡ (if bytes_eq (feature_view name.now) default
        then (manifest_view manifest.now).default_features else []) }
{
    if is_default(name) {
        return manifest.default_features.as_slice();
    }
    &[]
}
