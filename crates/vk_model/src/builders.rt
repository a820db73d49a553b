//! Who builds a package: a name and a text that its packages are told apart by.
ghost use Rattle.std.specs.Prelude.{◌≡◌, IfOk, None, Ok};
ghost use Rattle.vk_spec.specs.Reading.{Gives};
ghost use Rattle.vk_base.specs.Stops.{fault_in};
ghost use Rattle.vk_model.specs.BuilderTexts.{reads_builder_text};
ghost use Rattle.vk_model.specs.Builders.{builder_from, reads_builder, recorded};

use crate::cuts::cut;
use crate::retold::told_as;
use std::alloc::{AllocError, Global};
use std::marker::Model;
use vk_base::{AgentName, Memory, Text, Unread};
use vk_version::{Scheme, read};

/// Why a text is no builder.
#[derive(Clone, Copy, Debug, PartialEq, Eq)]
pub enum BuilderFault {
    /// It isn't a name, `@` and a text that a builder may have.
    Form,
}

/// What tells apart the builders of one name, as a compiler's version does: a text that
/// `version-string` allows, of at most 200 bytes. Contracts see it as its bytes.
#[derive(Clone, Drop)]
pub struct BuilderText {
    text: Text,
}

impl Model for BuilderText {
    ghost use Rattle.std.specs.Prelude.{List, ℕ, Ok, ◌≡◌};
    ghost use Rattle.vk_model.specs.BuilderTexts.{reads_builder_text};

    ghost Value = { List ℕ };

    ghost view = { λ t. t.text };

    ghost invariant = { λ t. reads_builder_text t.text ≡ Ok t.text };

    ghost inverse = { λ t. record { text = t } };
}

impl BuilderText {
    /// Reads such a text. `Form` comes exactly where it is none.
    #[tactic(auto, unfolding(crate::specs::BuilderTexts::reads_builder_text))]
    pub fn read(alloc: Global, text: &str) -> Result<BuilderText, Unread<BuilderFault>>
        ensures { Gives (λ t. t) fault_in result (reads_builder_text text.now) }
    {
        if text.len() > 200 {
            return Err(Unread::Fault(BuilderFault::Form));
        }
        told_as(BuilderFault::Form, read(alloc, Scheme::Text, text, 0))?;
        Ok(BuilderText {
            text: Text::from_str(alloc, text)?,
        })
    }

    /// The text, which reads as itself.
    pub fn as_str(&self) -> &str
        ensures text { result.now ≡ self.now }
        ensures reads { reads_builder_text self.now ≡ Ok self.now }
    {
        self.text.as_str()
    }
}

/// Who builds a package.
#[derive(Drop)]
pub struct Builder {
    /// The builder's name, made as an agent's name is.
    pub name: AgentName,
    /// What tells it apart from others of this name.
    pub text: BuilderText,
}

impl Builder {
    /// The builder that is meant where none is named: `recorded`, with the text `1`.
    pub fn recorded(alloc: Global) -> Result<Builder, Memory>
        ensures { IfOk result (λ b. b ≡ recorded) }
    {
        match Builder::read(alloc, "recorded@1") {
            Ok(builder) => Ok(builder),
            Err(unread) => Err(memory_in(unread)),
        }
    }

    /// Reads a builder: a name, `@` and a text. `Form` comes exactly where the text before the
    /// first `@` is no name of an agent, or the text after it none that a builder may have.
    #[tactic(auto, unfolding(crate::specs::Builders::reads_builder))]
    pub fn read(alloc: Global, text: &str) -> Result<Builder, Unread<BuilderFault>>
        ensures { Gives (λ b. b) fault_in result (reads_builder text.now) }
    {
        match cut(text, '@') {
            Some((name, text)) => builder_from(alloc, name, text),
            None => Err(Unread::Fault(BuilderFault::Form)),
        }
    }
}

impl Clone for Builder {
    ghost is_clone = { λ x y. y ≡ x };

    fn clone(&self) -> Result<Builder, AllocError> {
        Ok(Builder {
            name: self.name.clone()?,
            text: self.text.clone()?,
        })
    }
}

// The builder of this name and text.
#[tactic(auto, unfolding(crate::specs::Builders::builder_from))]
fn builder_from(alloc: Global, name: &str, text: &str) -> Result<Builder, Unread<BuilderFault>>
    ensures { Gives (λ b. b) fault_in result (builder_from name.now text.now) }
{
    let name = told_as(BuilderFault::Form, AgentName::read(alloc, name))?;
    let text = BuilderText::read(alloc, text)?;
    Ok(Builder { name, text })
}

// Out of memory, where no fault is told.
fn memory_in(unread: Unread<BuilderFault>) -> Memory
    requires { fault_in unread ≡ None }
{
    match unread {
        Unread::Memory(memory) => memory,
        Unread::Fault(_) => unreachable!(),
    }
}
