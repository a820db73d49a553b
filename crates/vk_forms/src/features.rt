//! The features of an item, with commas between.
ghost use Rattle.std.specs.Prelude.{◌≡◌, ◌∷◌, [], List, ℕ, IfOk, map, option_map};
ghost use Rattle.vk_spec.specs.Manifests.{core};
ghost use Rattle.vk_base.specs.FeatureViews.{feature_view};
ghost use Rattle.vk_model.specs.Lines.{features_text};
ghost use Rattle.vk_forms.specs.Features.{AreFeatures, PutsAbove, ReadsNamed};

use crate::forms::{Form, found};
use crate::pairs::cut;
use std::alloc::Global;
use std::cmp::Ordering;
use vk_base::{FeatureName, List, Memory};

// Puts a named feature at the end; false where the text is none that stands above the last.
fn put_above(
    alloc: Global,
    features: &mut List<FeatureName>,
    last: &str,
    text: &str,
) -> Result<bool, Memory>
    ensures { IfOk result (PutsAbove last.now text.now (map feature_view features.old)
        (map feature_view features.new)) }
{
    match last.cmp(text) {
        Ordering::Less => {}
        Ordering::Equal | Ordering::Greater => return Ok(false),
    }
    let Some(feature) = found(FeatureName::read(alloc, text))? else {
        return Ok(false);
    };
    features.push(feature)?;
    Ok(true)
}

// `core`, and then the named features of a text, each above the one before it.
fn read_named(alloc: Global, text: &str) -> Result<Option<List<FeatureName>>, Memory>
    ensures { IfOk result (λ found. ReadsNamed text.now (option_map (map feature_view) found)) }
{
    let mut features = List::new(alloc);
    features.push(FeatureName::Core)?;
    let mut last = "";
    let mut rest = text;
    while let Some((front, after)) = cut(rest, ',') {
        if !put_above(alloc, &mut features, last, front)? {
            return Ok(None);
        }
        last = front;
        rest = after;
    }
    if put_above(alloc, &mut features, last, rest)? {
        return Ok(Some(features));
    }
    Ok(None)
}

fn core_alone(alloc: Global) -> Result<List<FeatureName>, Memory>
    ensures { IfOk result (λ features. map feature_view features ≡ core ∷ []) }
{
    let mut features = List::new(alloc);
    features.push(FeatureName::Core)?;
    Ok(features)
}

/// Features with commas between: `core`, and then named ones, each above the one before it.
#[derive(Drop)]
pub struct Features;

impl Form for Features {
    type Out = List<FeatureName>;

    ghost use Rattle.std.specs.Prelude.{List};

    ghost Plain = { List (List ℕ) };

    ghost plain = { map feature_view };

    ghost prints = { λ f. features_text };

    ghost is_right = { λ f. AreFeatures };

    fn read(&self, alloc: Global, text: &str) -> Result<Option<List<FeatureName>>, Memory> {
        if text == "core" {
            return Ok(Some(core_alone(alloc)?));
        }
        let Some((first, rest)) = cut(text, ',') else {
            return Ok(None);
        };
        if first == "core" {
            return read_named(alloc, rest);
        }
        Ok(None)
    }
}
