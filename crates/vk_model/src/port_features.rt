//! The features of a port, which are found by their names.
ghost use Rattle.std.specs.Prelude.{◌≡◌, [], bytes_eq, option_map};
ghost use Rattle.std.specs.List.{find};
ghost use Rattle.std.specs.Cmp.Lexicographic.{slice_cmp};
ghost use Rattle.std.specs.Ordering.{nat_cmp};
ghost use Rattle.vk_base.specs.FeatureViews.{feature_view};
ghost use Rattle.vk_model.specs.PortFeatures.{AreInOrder};

use crate::manifests::Feature;
use std::alloc::Global;
use std::cmp::Ordering;
use std::marker::Model;
use vk_base::List;

/// The features of a port, in byte order of their names, no two with one name.
#[derive(Drop)]
pub struct PortFeatures {
    list: List<Feature>,
}

impl Model for PortFeatures {
    ghost use Rattle.std.specs.Prelude.{List};
    ghost use Rattle.std.specs.Coded.{codes};
    ghost use Rattle.vk_expr.specs.contracts.exprs.Expr as e;
    ghost use Rattle.vk_model.specs.declared.manifests.Feature.{Feature};
    ghost use Rattle.vk_model.specs.PortFeatures.{AreInOrder};

    ghost Value = { List Feature };

    ghost coded = { Prim.hlevel (codes, e.the_row.coded) };

    ghost view = { λ f. f.list };

    ghost invariant = { λ f. AreInOrder f.list };
}

fn order(feature: &Feature, name: &str) -> Ordering
    ensures { result ≡ slice_cmp nat_cmp (feature_view feature.now.name) name.now }
{
    feature.name.as_str().cmp(name)
}

impl PortFeatures {
    /// These features, whose names have to ascend.
    pub fn new(list: List<Feature>) -> PortFeatures
        requires { AreInOrder list }
        ensures { result ≡ list }
    {
        PortFeatures { list }
    }

    /// No features. Takes no memory.
    pub fn none(alloc: Global) -> PortFeatures
        ensures { result ≡ [] }
    {
        PortFeatures {
            list: List::new(alloc),
        }
    }

    /// The features, in byte order of their names.
    pub fn as_list(&self) -> &List<Feature>
        ensures { result.now ≡ self.now }
    {
        &self.list
    }

    /// The feature of this name; `None` exactly where there is none. Takes no memory, and looks at
    /// few of them.
    pub fn get(&self, name: &str) -> Option<&Feature>
        ensures { option_map (λ f. f.now) result
            ≡ find (λ f. bytes_eq (feature_view f.name) name.now) self.now }
    {
        let features = self.list.as_slice();
        match features.binary_search_by(|feature| order(feature, name)) {
            Ok(place) => Some(&features[place]),
            Err(_) => None,
        }
    }
}
