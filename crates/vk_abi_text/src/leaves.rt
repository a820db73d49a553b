//! Parts of lines: digests, builders, features, versions.
ghost use Rattle.std.specs.Prelude.{◌≡◌, List, ℕ, Bool, IfOk, option_map};
ghost use Rattle.hex.specs.Hex.{encode_lower};
ghost use Rattle.vk_spec.specs.Versions as plain;
ghost use Rattle.vk_base.specs.FeatureViews.{feature_view};
ghost use Rattle.vk_base.specs.Names.{IsName, word_rule};
ghost use Rattle.vk_base.specs.Tokens.{token_of};
ghost use Rattle.vk_version.specs.ClassWords.{class_word};
ghost use Rattle.vk_version.specs.Views.{class_view, scheme_view};
ghost use Rattle.vk_forms.specs.Forms.{FindsOrNot};
ghost use Rattle.vk_abi_text.specs.Forms.{IsBuilderText, ReadsVersion, digest_bytes, scheme_of};
ghost use Rattle.vk_abi_text.specs.Lines.{native_line, version_line, yes_or_no};
ghost use Rattle.vk_abi_text.specs.Parts.{version_text};
ghost use Rattle.vk_abi_text.specs.Rights.{IsDigest, IsReadableLine, IsRightFeature};

use std::alloc::Global;
use vk_base::{AgentName, FeatureName, Memory, Text, Unread};
use vk_digest::Digest;
use vk_forms::{Feature, Form, Number, Then, TokenText};
use vk_model::BuilderText;
use vk_version::laws::semantic_is_relaxed;
use vk_version::{Class, Scheme, Version, read};

// A value, or `None` where there is a fault.
pub(crate) fn found<T, F: Drop>(reading: Result<T, Unread<F>>) -> Result<Option<T>, Memory>
    ensures { IfOk result (FindsOrNot reading) }
{
    match reading {
        Ok(value) => Ok(Some(value)),
        Err(Unread::Fault(_)) => Ok(None),
        Err(Unread::Memory(memory)) => Err(memory),
    }
}

// The same digest; contracts see that it has 32 bytes.
fn known(digest: Digest) -> Digest
    ensures same { result ≡ digest }
    ensures right { IsDigest digest.bytes }
{
    digest
}

/// A digest, by its hexadecimal digits.
#[derive(Drop)]
pub struct HexDigest;

impl Form for HexDigest {
    type Out = Digest;

    ghost Plain = { List ℕ };

    ghost plain = { digest_bytes };

    ghost prints = { λ f. encode_lower };

    ghost is_right = { λ f. IsDigest };

    fn read(&self, _alloc: Global, text: &str) -> Result<Option<Digest>, Memory> {
        match Digest::read(text) {
            Some(digest) => Ok(Some(known(digest))),
            None => Ok(None),
        }
    }
}

/// The name of an agent.
#[derive(Drop)]
pub struct Agent;

impl Form for Agent {
    type Out = AgentName;

    ghost Plain = { List ℕ };

    ghost plain = { λ n. n };

    ghost prints = { λ f. token_of };

    ghost is_right = { λ f. IsName word_rule };

    fn read(&self, alloc: Global, text: &str) -> Result<Option<AgentName>, Memory> {
        found(AgentName::read(alloc, text))
    }
}

/// What tells apart the builders of one name.
#[derive(Drop)]
pub struct AnyBuilderText;

impl Form for AnyBuilderText {
    type Out = BuilderText;

    ghost Plain = { List ℕ };

    ghost plain = { λ t. t };

    ghost prints = { λ f. token_of };

    ghost is_right = { λ f. IsBuilderText };

    fn read(&self, alloc: Global, text: &str) -> Result<Option<BuilderText>, Memory> {
        match TokenText.read(alloc, text)? {
            Some(text) => found(BuilderText::read(alloc, text.as_str())),
            None => Ok(None),
        }
    }
}

/// A feature that a package may have: any but `default`.
#[derive(Drop)]
pub struct PlannedFeature;

impl Form for PlannedFeature {
    type Out = FeatureName;

    ghost Plain = { List ℕ };

    ghost plain = { feature_view };

    ghost prints = { λ f. token_of };

    ghost is_right = { λ f. IsRightFeature };

    fn read(&self, alloc: Global, text: &str) -> Result<Option<FeatureName>, Memory> {
        if text == "default" {
            return Ok(None);
        }
        Feature.read(alloc, text)
    }
}

/// `yes` or `no`.
#[derive(Drop)]
pub struct YesOrNo;

impl Form for YesOrNo {
    type Out = bool;

    ghost Plain = { Bool };

    ghost plain = { λ n. n };

    ghost prints = { λ f. yes_or_no };

    ghost is_right = { λ f n. IsReadableLine (native_line n) };

    fn read(&self, _alloc: Global, text: &str) -> Result<Option<bool>, Memory> {
        let yes = match text {
            "yes" => true,
            "no" => false,
            _ => return Ok(None),
        };
        Ok(Some(yes))
    }
}

/// The word of a class of versions.
#[derive(Drop)]
pub struct ClassWord;

impl Form for ClassWord {
    type Out = Class;

    ghost Plain = { plain.Class };

    ghost plain = { class_view };

    ghost prints = { λ f. class_word };

    ghost is_right = { λ f c. Unit {0} };

    fn read(&self, _alloc: Global, text: &str) -> Result<Option<Class>, Memory> {
        Ok(Class::read(text))
    }
}

// The scheme that reads all versions of a class.
fn scheme_of(class: Class) -> Scheme
    ensures { scheme_view result ≡ scheme_of (class_view class) }
{
    match class {
        Class::Dot => Scheme::Relaxed,
        Class::Date => Scheme::Date,
        Class::Text => Scheme::Text,
    }
}

// The version of a class, a text and a port-version; `None` exactly where the class has none.
fn version_of(alloc: Global, class: Class, text: &str, port: u32) -> Result<Option<Version>, Memory>
    ensures { IfOk result (ReadsVersion (class_view class) text.now port) }
{
    semantic_is_relaxed();
    found(read(alloc, scheme_of(class), text, port))
}

/// A version, by its class, text and port-version.
#[derive(Drop)]
pub struct AnyVersion;

impl Form for AnyVersion {
    type Out = Version;

    ghost Plain = { plain.Version };

    ghost plain = { λ v. v };

    ghost prints = { λ f. version_text };

    ghost is_right = { λ f v. IsReadableLine (version_line v) };

    fn read(&self, alloc: Global, text: &str) -> Result<Option<Version>, Memory> {
        let form = Then(ClassWord, Then(TokenText, Number));
        match form.read(alloc, text)? {
            Some((class, (text, port))) => version_of(alloc, class, text.as_str(), port),
            None => Ok(None),
        }
    }
}
