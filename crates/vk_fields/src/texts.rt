//! Texts that have a rule of their own.
ghost use Rattle.std.specs.Prelude.{◌≡◌, List, ℕ, Option, Some};
ghost use Rattle.std.specs.List.{list_any};
ghost use Rattle.vk_json.specs.Values.{view};
ghost use Rattle.vk_spec.specs.Reading.{Gives};
ghost use Rattle.vk_spec.specs.Paths.{Path};
ghost use Rattle.vk_spec.specs.Versions as plain;
ghost use Rattle.vk_base.specs.FeatureViews.{feature_view};
ghost use Rattle.vk_base.specs.Names.{reads_name, reads_feature, port_rule};
ghost use Rattle.vk_base.specs.PathReading.{path_of};
ghost use Rattle.vk_base.specs.Stops.{fault_in};
ghost use Rattle.vk_version.specs.AskViews.{ask_view};
ghost use Rattle.vk_spec.specs.Conditions.{Condition};
ghost use Rattle.vk_expr.specs.Views.{condition_of};
ghost use Rattle.vk_expr.specs.Reading.{reading_of};
ghost use Rattle.vk_version.specs.Texts.{is_hash};
ghost use Rattle.vk_version.specs.Readings.{reads_ask};
ghost use Rattle.vk_fields.specs.Texts as texts;
ghost use Rattle.vk_fields.specs.Texts.{reads_plain, reads_written};
ghost use Rattle.vk_fields.specs.Texts.{port_name_at, feature_name_at, path_at, expression_at};
ghost use Rattle.vk_fields.specs.Texts.{ask_at, plain_at, written_at};
ghost use Rattle.vk_fields.specs.TextViews.{written_view};
ghost use Rattle.vk_fields.specs.Wording.{name_word, path_word, version_word, expression_word};
ghost use Rattle.vk_fields.specs.Saying.{said_here};

use crate::wording::said;
use std::alloc::Global;
use vk_base::{FeatureName, Memory, PortName, SharedText, TreePath, Unread};
use vk_expr::{Expr, ExprFault};
use vk_json::{FileFault, Reader, Value, text};
use vk_version::{Ask, VersionFault, is_version_string, read_ask};

/// The port's name that a text is. The fault is `Name` where it is none.
#[tactic(auto, using(crate::proofs::Saying::said_gives))]
pub fn port_name_of(alloc: Global, text: &str) -> Result<PortName, Unread<FileFault>>
    ensures { Gives (λ name. name) fault_in result
        (said_here name_word (reads_name port_rule text.now)) }
{
    said(alloc, PortName::read(alloc, text))
}

/// The feature's name that a text is, which is `Named`. The fault is `Name` where it is none, and
/// `Reserved` for `core` and `default`.
#[tactic(auto, using(crate::proofs::Saying::said_gives))]
pub fn feature_name_of(alloc: Global, text: &str) -> Result<FeatureName, Unread<FileFault>>
    ensures { Gives feature_view fault_in result (said_here name_word (reads_feature text.now)) }
{
    said(alloc, FeatureName::read(alloc, text))
}

/// The path that a text is. The fault is `Path` where it is none.
#[tactic(auto, using(crate::proofs::Saying::said_gives))]
pub fn path_of(alloc: Global, text: &str) -> Result<TreePath, Unread<FileFault>>
    ensures { Gives (λ path. path) fault_in result (said_here path_word (path_of text.now)) }
{
    said(alloc, TreePath::read(alloc, text))
}

/// The platform expression that a text is. The fault is `Unexpected`, `Mixed`, `Open` or `Depth`
/// where it is none.
#[tactic(auto, using(crate::proofs::Saying::said_gives))]
pub fn expression_of(alloc: Global, text: &str) -> Result<Expr, Unread<FileFault>>
    ensures { Gives condition_of fault_in result (said_here expression_word (reading_of text.now)) }
{
    said(alloc, read_expression(alloc, text))
}

/// What a text asks for. The fault is `Version` where it is no ask, and `Range` where its
/// port-version is too large.
#[tactic(auto, using(crate::proofs::Saying::said_gives))]
pub fn ask_of(alloc: Global, text: &str) -> Result<Ask, Unread<FileFault>>
    ensures { Gives ask_view fault_in result (said_here version_word (reads_ask text.now)) }
{
    said(alloc, read_ask(alloc, text))
}

/// Reads a port's name.
#[derive(Drop)]
pub struct PortNameText;

impl Reader for PortNameText {
    type Out = PortName;

    ghost Plain = { List ℕ };

    ghost plain = { λ name. name };

    ghost reads = { λ r. port_name_at };

    fn read(&self, alloc: Global, value: &Value) -> Result<PortName, Unread<FileFault>> {
        port_name_of(alloc, text(alloc, value)?)
    }
}

/// Reads a feature's name, which is `Named`.
#[derive(Drop)]
pub struct FeatureNameText;

impl Reader for FeatureNameText {
    type Out = FeatureName;

    ghost Plain = { List ℕ };

    ghost plain = { feature_view };

    ghost reads = { λ r. feature_name_at };

    fn read(&self, alloc: Global, value: &Value) -> Result<FeatureName, Unread<FileFault>> {
        feature_name_of(alloc, text(alloc, value)?)
    }
}

/// Reads a path.
#[derive(Drop)]
pub struct PathText;

impl Reader for PathText {
    type Out = TreePath;

    ghost Plain = { Path };

    ghost plain = { λ path. path };

    ghost reads = { λ r. path_at };

    fn read(&self, alloc: Global, value: &Value) -> Result<TreePath, Unread<FileFault>> {
        path_of(alloc, text(alloc, value)?)
    }
}

/// Reads a platform expression.
#[derive(Drop)]
pub struct ExpressionText;

impl Reader for ExpressionText {
    type Out = Expr;

    ghost Plain = { Condition };

    ghost plain = { condition_of };

    ghost reads = { λ r. expression_at };

    fn read(&self, alloc: Global, value: &Value) -> Result<Expr, Unread<FileFault>> {
        expression_of(alloc, text(alloc, value)?)
    }
}

/// Reads what a minimum asks for.
#[derive(Drop)]
pub struct AskText;

impl Reader for AskText {
    type Out = Ask;

    ghost Plain = { plain.Ask };

    ghost plain = { ask_view };

    ghost reads = { λ r. ask_at };

    fn read(&self, alloc: Global, value: &Value) -> Result<Ask, Unread<FileFault>> {
        ask_of(alloc, text(alloc, value)?)
    }
}

/// Reads the text of an ask without `#`. The fault is `Version` where it is any other text.
#[derive(Drop)]
pub struct PlainText;

#[tactic(auto, using(crate::proofs::Saying::said_gives))]
impl Reader for PlainText {
    type Out = SharedText;

    ghost Plain = { List ℕ };

    ghost plain = { λ text. text };

    ghost reads = { λ r. plain_at };

    fn read(&self, alloc: Global, value: &Value) -> Result<SharedText, Unread<FileFault>> {
        said(alloc, read_plain(alloc, text(alloc, value)?))
    }
}

/// An ask, and how it is written.
#[derive(Drop)]
pub(crate) struct WrittenAsk {
    /// What it asks for.
    pub ask: Ask,
    /// Whether its text says the port-version, after `#`.
    pub numbered: bool,
}

/// Reads an ask, with or without `#`.
#[derive(Drop)]
pub(crate) struct WrittenAskText;

#[tactic(auto, using(crate::proofs::Saying::said_gives))]
impl Reader for WrittenAskText {
    type Out = WrittenAsk;

    ghost Plain = { texts.WrittenAsk };

    ghost plain = { written_view };

    ghost reads = { λ r. written_at };

    fn read(&self, alloc: Global, value: &Value) -> Result<WrittenAsk, Unread<FileFault>> {
        said(alloc, read_written(alloc, text(alloc, value)?))
    }
}

// A text of 2^32 bytes or more stands in no file that a run reads, and places in it have no number:
// reading it would want more memory than there is.
fn read_expression(alloc: Global, text: &str) -> Result<Expr, Unread<ExprFault>>
    ensures { Gives condition_of fault_in result (reading_of text.now) }
{
    if text.len() > u32::MAX as usize {
        return Err(Unread::Memory(Memory::without_allocation()));
    }
    vk_expr::read(alloc, text)
}

// The text of an ask is what a version of any text may be.
fn read_plain(alloc: Global, text: &str) -> Result<SharedText, Unread<VersionFault>>
    ensures { Gives (λ t. t) fault_in result (reads_plain text.now) }
{
    if is_version_string(text.as_bytes()) {
        Ok(SharedText::from_str(alloc, text)?)
    } else {
        Err(Unread::Fault(VersionFault::Shape))
    }
}

fn has_hash(text: &str) -> bool
    ensures { result ≡ list_any is_hash text.now }
{
    text.as_bytes().iter().any(|b| *b == b'#')
}

#[tactic(auto, unfolding(crate::specs::Texts::reads_written))]
fn read_written(alloc: Global, text: &str) -> Result<WrittenAsk, Unread<VersionFault>>
    ensures { Gives written_view fault_in result (reads_written text.now) }
{
    let ask = read_ask(alloc, text)?;
    let numbered = has_hash(text);
    Ok(WrittenAsk { ask, numbered })
}
