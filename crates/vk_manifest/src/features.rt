//! The features of a port.
ghost use Rattle.std.specs.Prelude.{◌≡◌, List, map};
ghost use Rattle.vk_json.specs.Readings.{each_member};
ghost use Rattle.vk_json.specs.Values.{view};
ghost use Rattle.vk_spec.specs.Reading.{Gives};
ghost use Rattle.vk_spec.specs.Manifests as plain;
ghost use Rattle.vk_spec.specs.Conditions.{Condition};
ghost use Rattle.vk_base.specs.Stops.{fault_in};
ghost use Rattle.vk_model.specs.Views.{port_feature_view};
ghost use Rattle.vk_manifest.specs.Manifests.{feature_at, features_in};

use crate::dependencies::{condition, dependencies};
use std::alloc::Global;
use vk_base::Unread;
use vk_fields::feature_name_of;
use vk_json::{FileFault, MemberReader, Reader, Value, each_member, object, optional_or};
use vk_model::{Feature, PortFeatures};

// Reads a feature, whose key is its name.
#[derive(Drop)]
struct FeatureMember;

#[tactic(auto, unfolding(crate::specs::Manifests::feature_at))]
impl MemberReader for FeatureMember {
    type Out = Feature;

    ghost Plain = { plain.Feature Condition };

    ghost plain = { port_feature_view };

    ghost reads = { λ r. feature_at };

    fn read(&self, alloc: Global, key: &str, value: &Value) -> Result<Feature, Unread<FileFault>> {
        let name = feature_name_of(alloc, key)?;
        object(alloc, value)?;
        let dependencies = dependencies(alloc, value)?;
        match condition(alloc, value, "supports") {
            Ok(supports) => Ok(Feature {
                name,
                dependencies,
                supports,
            }),
            Err(fault) => {
                drop(name);
                drop(dependencies);
                Err(fault)
            }
        }
    }
}

// Reads the features of an object, each under its name.
#[derive(Drop)]
struct AllFeatures;

impl Reader for AllFeatures {
    type Out = PortFeatures;

    ghost Plain = { List (plain.Feature Condition) };

    ghost plain = { map port_feature_view };

    ghost reads = { λ r. each_member feature_at };

    fn read(&self, alloc: Global, value: &Value) -> Result<PortFeatures, Unread<FileFault>> {
        let list = each_member(alloc, value, &FeatureMember)?;
        Ok(PortFeatures::new(list))
    }
}

/// The features.
pub fn features(alloc: Global, value: &Value) -> Result<PortFeatures, Unread<FileFault>>
    ensures { Gives (map port_feature_view) fault_in result (features_in (view value.now)) }
{
    optional_or(
        alloc,
        value,
        "features",
        &AllFeatures,
        PortFeatures::none(alloc),
    )
}
