//! Versions and asks, by their text and port-version.
ghost use Rattle.std.specs.Prelude.{Option};
ghost use Rattle.vk_base.specs.Printed.{version_text};
ghost use Rattle.vk_spec.specs.Versions as plain;
ghost use Rattle.vk_spec.specs.Versions.{ask_of};
ghost use Rattle.vk_version.specs.AskViews.{ask_view};
ghost use Rattle.vk_resolution.specs.Lines.{version_or_none};
ghost use Rattle.vk_forms.specs.Versions.{IsRightAsk, IsRightVersion, IsBareVersion};
ghost use Rattle.vk_forms.specs.Versions.{IsRightIfAny, bare_text};

use crate::forms::{Form, found};
use crate::names::Number;
use crate::pairs::read_pair;
use crate::texts::TokenText;
use std::alloc::Global;
use vk_base::Memory;
use vk_version::{Ask, Scheme, Version, read};

// The text of a version of class `Text`, with the port-version 0.
#[derive(Drop)]
struct BareVersion;

impl Form for BareVersion {
    type Out = Version;

    ghost Plain = { plain.Version };

    ghost plain = { λ v. v };

    ghost prints = { λ f. bare_text };

    ghost is_right = { λ f. IsBareVersion };

    fn read(&self, alloc: Global, text: &str) -> Result<Option<Version>, Memory> {
        match TokenText.read(alloc, text)? {
            Some(text) => found(read(alloc, Scheme::Text, text.as_str(), 0)),
            None => Ok(None),
        }
    }
}

/// A version of class `Text`.
#[derive(Drop)]
pub struct TextVersion;

impl Form for TextVersion {
    type Out = Version;

    ghost Plain = { plain.Version };

    ghost plain = { λ v. v };

    ghost prints = { λ f v. version_text (ask_of v) };

    ghost is_right = { λ f. IsRightVersion };

    fn read(&self, alloc: Global, text: &str) -> Result<Option<Version>, Memory> {
        match read_pair(alloc, text, '#', &BareVersion, &Number)? {
            Some((version, port)) => Ok(Some(version.with_port(port))),
            None => Ok(None),
        }
    }
}

/// An ask.
#[derive(Drop)]
pub struct TextAsk;

impl Form for TextAsk {
    type Out = Ask;

    ghost Plain = { plain.Ask };

    ghost plain = { ask_view };

    ghost prints = { λ f. version_text };

    ghost is_right = { λ f. IsRightAsk };

    fn read(&self, alloc: Global, text: &str) -> Result<Option<Ask>, Memory> {
        match TextVersion.read(alloc, text)? {
            Some(version) => Ok(Some(version.ask().clone()?)),
            None => Ok(None),
        }
    }
}

/// A version of class `Text`, or `-` where there is none.
#[derive(Drop)]
pub struct VersionIfAny;

impl Form for VersionIfAny {
    type Out = Option<Version>;

    ghost Plain = { Option plain.Version };

    ghost plain = { λ v. v };

    ghost prints = { λ f. version_or_none };

    ghost is_right = { λ f. IsRightIfAny };

    fn read(&self, alloc: Global, text: &str) -> Result<Option<Option<Version>>, Memory> {
        if text == "-" {
            return Ok(Some(None));
        }
        match TextVersion.read(alloc, text)? {
            Some(version) => Ok(Some(Some(version))),
            None => Ok(None),
        }
    }
}
