//! Names and numbers.
ghost use Rattle.std.specs.Prelude.{◌≡◌, ◌≢◌, ◌⊎◌, ◌<◌, ◌^◌, List, ℕ, Option, MatchOption};
ghost use Rattle.std.specs.Fmt.{decimal};
ghost use Rattle.vk_spec.specs.Manifests.{core, default};
ghost use Rattle.vk_base.specs.FeatureViews.{feature_view};
ghost use Rattle.vk_base.specs.Names.{IsName, port_rule, word_rule};
ghost use Rattle.vk_base.specs.Tokens.{token_of};
ghost use Rattle.vk_forms.specs.Names.{IsPortIfAny, port_or_root};

use crate::forms::{Form, found};
use std::alloc::Global;
use vk_base::{FeatureName, Memory, PortName, TripletName, read_u32};

/// A number of 32 bits.
#[derive(Drop)]
pub struct Number;

impl Form for Number {
    type Out = u32;

    ghost Plain = { ℕ };

    ghost plain = { λ n. n };

    ghost prints = { λ f. decimal };

    ghost is_right = { λ f n. n < 2 ^ 32 };

    fn read(&self, _alloc: Global, text: &str) -> Result<Option<u32>, Memory> {
        Ok(read_u32(text))
    }
}

/// A port's name.
#[derive(Drop)]
pub struct Port;

impl Form for Port {
    type Out = PortName;

    ghost Plain = { List ℕ };

    ghost plain = { λ n. n };

    ghost prints = { λ f. token_of };

    ghost is_right = { λ f. IsName port_rule };

    fn read(&self, alloc: Global, text: &str) -> Result<Option<PortName>, Memory> {
        found(PortName::read(alloc, text))
    }
}

/// A triplet's name.
#[derive(Drop)]
pub struct Triplet;

impl Form for Triplet {
    type Out = TripletName;

    ghost Plain = { List ℕ };

    ghost plain = { λ n. n };

    ghost prints = { λ f. token_of };

    ghost is_right = { λ f. IsName word_rule };

    fn read(&self, alloc: Global, text: &str) -> Result<Option<TripletName>, Memory> {
        found(TripletName::read(alloc, text))
    }
}

/// A port's name, or `.` in its place for the root.
#[derive(Drop)]
pub struct PortOrRoot;

impl Form for PortOrRoot {
    type Out = Option<PortName>;

    ghost Plain = { Option (List ℕ) };

    ghost plain = { λ port. port };

    ghost prints = { λ f. port_or_root };

    ghost is_right = { λ f. IsPortIfAny };

    fn read(&self, alloc: Global, text: &str) -> Result<Option<Option<PortName>>, Memory> {
        if text == "." {
            return Ok(Some(None));
        }
        match Port.read(alloc, text)? {
            Some(port) => Ok(Some(Some(port))),
            None => Ok(None),
        }
    }
}

// `core` and `default`, which are no feature's name.
fn reserved(text: &str) -> Option<FeatureName>
    ensures { MatchOption result ((text.now ≢ core) × (text.now ≢ default))
        (λ f. (feature_view f ≡ text.now) × ((text.now ≡ core) ⊎ (text.now ≡ default))) }
{
    if text == "core" {
        return Some(FeatureName::Core);
    }
    if text == "default" {
        return Some(FeatureName::Default);
    }
    None
}

/// A feature's name, `core` or `default`.
#[derive(Drop)]
pub struct Feature;

impl Form for Feature {
    type Out = FeatureName;

    ghost Plain = { List ℕ };

    ghost plain = { feature_view };

    ghost prints = { λ f. token_of };

    ghost is_right = { λ f. IsName word_rule };

    fn read(&self, alloc: Global, text: &str) -> Result<Option<FeatureName>, Memory> {
        match reserved(text) {
            Some(feature) => Ok(Some(feature)),
            None => found(FeatureName::read(alloc, text)),
        }
    }
}
