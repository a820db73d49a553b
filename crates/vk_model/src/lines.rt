//! The lines that are printed of early files, of ports and of faults.
ghost use Rattle.std.specs.Prelude.{◌≡◌, ◌++◌, codes, map, flat_map, IfOk, Some};
ghost use Rattle.vk_base.specs.Tokens.{token_of};
ghost use Rattle.vk_base.specs.Printed.{path_text, field_word};
ghost use Rattle.vk_json.specs.Places.{file_line, place_text};
ghost use Rattle.vk_json.specs.Words.{word_of};
ghost use Rattle.vk_version.specs.AskViews.{ask_view};
ghost use Rattle.vk_spec.specs.Versions.{ask_of};
ghost use Rattle.vk_base.specs.Printed.{version_text};
ghost use Rattle.vk_base.specs.FeatureViews.{feature_view};
ghost use Rattle.vk_resolution.specs.Settings.{inst};
ghost use Rattle.vk_resolution.specs.Faults as fault;
ghost use Rattle.vk_resolution.specs.Lines.{citing_line, fault_line, judged_text, who_text};
ghost use Rattle.vk_resolution.specs.Lines.{version_or_none};
ghost use Rattle.vk_model.specs.EarlyViews.{early_view};
ghost use Rattle.vk_model.specs.WrongViews.{field_view, wrong_view};
ghost use Rattle.vk_model.specs.SettingViews.{instance_view};
ghost use Rattle.vk_model.specs.FactViews.{who_view};
ghost use Rattle.vk_model.specs.FaultViews.{fault_view};
ghost use Rattle.vk_model.specs.Lines.{early_line, wrong_line, no_version_line, disagrees_line};

use crate::earlies::Early;
use crate::facts::Who;
use crate::faults::Fault;
use crate::wrongs::{Field, Wrong};
use std::alloc::Global;
use std::fmt;
use vk_base::{FeatureName, Instance, Memory, PortName, Text, TokenOf, TreePath, token};
use vk_json::{Why, place_text};
use vk_version::{Ask, Version};

impl Field {
    /// Its printed word.
    pub fn word(self) -> &'static str
        ensures { result.now ≡ field_word (field_view self) }
    {
        match self {
            Field::Name => "name",
            Field::Class => "class",
            Field::Text => "text",
            Field::Port => "port-version",
        }
    }
}

/// A path as it is printed, a token.
pub fn path_token(alloc: Global, path: &TreePath) -> Result<Text, Memory>
    ensures { IfOk result (λ t. t ≡ path_text path.now) }
{
    let text = path.text(alloc)?;
    token(alloc, text.as_bytes())
}

// A file and the place in it, as they are printed.
fn file_and_place(alloc: Global, path: &TreePath, place: &Text) -> Result<Text, Memory>
    ensures { IfOk result (λ t. t ≡ path_text path.now ++ codes " " ++ place_text place.now) }
{
    let path = path_token(alloc, path)?;
    let place = place_text(alloc, place)?;
    Ok(Text::from_string(format!(in alloc; "{path} {place}")?))
}

/// `bad-file`, the file, the place in it and the word for what is wrong there.
pub fn file_line(alloc: Global, path: &TreePath, place: &Text, why: Why) -> Result<Text, Memory>
    ensures { IfOk result (λ t. t ≡ file_line path.now place.now (word_of why)) }
{
    let at = file_and_place(alloc, path, place)?;
    let word = why.word(alloc)?;
    Ok(Text::from_string(format!(in alloc; "bad-file {at} {word}")?))
}

// A word with a blank behind it, and a token.
fn word_and(alloc: Global, word: &str, rest: &[u8]) -> Result<Text, Memory>
    ensures { IfOk result (λ t. t ≡ word.now ++ token_of rest.now) }
{
    let mut line = Text::from_str(alloc, word)?;
    line.push_str(token(alloc, rest)?.as_str())?;
    Ok(line)
}

// `overlap`, and the two folders.
fn overlap_line(alloc: Global, first: &TreePath, second: &TreePath) -> Result<Text, Memory>
    ensures { IfOk result (λ t. t ≡ codes "overlap "
        ++ path_text first.now ++ codes " " ++ path_text second.now) }
{
    let first = path_token(alloc, first)?;
    let second = path_token(alloc, second)?;
    Ok(Text::from_string(format!(in alloc; "overlap {first} {second}")?))
}

// `blocked`, and the path.
fn blocked_line(alloc: Global, path: &TreePath) -> Result<Text, Memory>
    ensures { IfOk result (λ t. t ≡ codes "blocked " ++ path_text path.now) }
{
    let text = path.text(alloc)?;
    word_and(alloc, "blocked ", text.as_bytes())
}

/// The line that is told where a project gives no setting.
pub fn early_line(alloc: Global, early: &Early) -> Result<Text, Memory>
    ensures { IfOk result (λ t. t ≡ early_line (early_view early.now)) }
{
    match early {
        Early::BadFile { path, place, why } => file_line(alloc, path, place, *why),
        Early::TwoConfigurations => Ok(Text::from_str(alloc, "two-configurations")?),
        Early::NoTriplet { name } => word_and(alloc, "no-triplet ", name.as_str().as_bytes()),
        Early::Overlap { first, second } => overlap_line(alloc, first, second),
        Early::Blocked { path } => blocked_line(alloc, path),
    }
}

// What the table and the manifest say, as tokens with a blank between.
fn both_said(alloc: Global, table: &Text, manifest: &Text) -> Result<Text, Memory>
    ensures { IfOk result (λ t. t ≡ token_of table.now ++ codes " " ++ token_of manifest.now) }
{
    let table = token(alloc, table.as_bytes())?;
    let manifest = token(alloc, manifest.as_bytes())?;
    Ok(Text::from_string(format!(in alloc; "{table} {manifest}")?))
}

fn disagrees_line(
    alloc: Global,
    path: &TreePath,
    field: Field,
    table: &Text,
    manifest: &Text,
) -> Result<Text, Memory>
    ensures { IfOk result
        (λ t. t ≡ disagrees_line path.now (field_view field) table.now manifest.now) }
{
    let path = path_token(alloc, path)?;
    let said = both_said(alloc, table, manifest)?;
    let word = field.word();
    Ok(Text::from_string(format!(in alloc; "disagrees {path} {word} {said}")?))
}

/// The line of what is wrong with a port.
pub fn wrong_line(alloc: Global, port: &PortName, wrong: &Wrong) -> Result<Text, Memory>
    ensures { IfOk result (λ t. t ≡ wrong_line port.now (wrong_view wrong.now)) }
{
    match wrong {
        Wrong::NoRegistry => word_and(alloc, "no-registry ", port.as_str().as_bytes()),
        Wrong::NoBaseline => word_and(alloc, "no-baseline ", port.as_str().as_bytes()),
        Wrong::BadFile { path, place, why } => file_line(alloc, path, place, *why),
        Wrong::Disagrees {
            path,
            field,
            table,
            manifest,
        } => disagrees_line(alloc, path, *field, table, manifest),
    }
}

/// The line of a port whose table lacks the version that is asked for.
pub fn no_version_line(alloc: Global, port: &PortName, ask: &Ask) -> Result<Text, Memory>
    ensures { IfOk result (λ t. t ≡ no_version_line port.now (ask_view ask.now)) }
{
    let port = token(alloc, port.as_str().as_bytes())?;
    let version = ask.printed(alloc)?;
    Ok(Text::from_string(format!(in alloc; "no-version {port} {version}")?))
}

/// An instance that is printed as the tokens of its port and its triplet.
#[derive(Clone, Copy)]
pub struct InstanceTokens<'a>(pub &'a Instance);

impl fmt::Display for InstanceTokens<'_> {
    ghost output = { λ i. Some (who_text (inst (instance_view i.0.now))) };

    fn fmt<W: fmt::Write>(&self, f: &mut fmt::Formatter<W>) -> fmt::Result {
        let port = TokenOf(self.0.port.as_str().as_bytes());
        let triplet = TokenOf(self.0.triplet.as_str().as_bytes());
        write!(f, "{port} {triplet}")
    }
}

impl fmt::Display for Who {
    ghost output = { λ who. Some (who_text (who_view who)) };

    fn fmt<W: fmt::Write>(&self, f: &mut fmt::Formatter<W>) -> fmt::Result {
        match self {
            Who::Root(triplet) => write!(f, ". {}", TokenOf(triplet.as_str().as_bytes())),
            Who::Inst(instance) => InstanceTokens(instance).fmt(f),
        }
    }
}

/// A version as it is printed: its text and its port-version; the root has none, which is `-`.
pub fn version_or_none(alloc: Global, version: &Option<Version>) -> Result<Text, Memory>
    ensures { IfOk result (λ t. t ≡ version_or_none version.now) }
{
    match version {
        Some(version) => version.ask().printed(alloc),
        None => Ok(Text::from_str(alloc, "-")?),
    }
}

/// A line, and the number of the reason that it cites.
pub fn cited(alloc: Global, text: &Text, line: u32) -> Result<Text, Memory>
    ensures { IfOk result (λ t. t ≡ text.now ++ citing_line line) }
{
    Ok(Text::from_string(format!(in alloc; "{text} {line}")?))
}

// A word, a port and the line that is cited.
fn port_fault(alloc: Global, word: &str, port: &PortName, line: u32) -> Result<Text, Memory>
    ensures { IfOk result (λ t. t ≡ (word.now ++ token_of port.now) ++ citing_line line) }
{
    let text = word_and(alloc, word, port.as_str().as_bytes())?;
    cited(alloc, &text, line)
}

fn file_fault(
    alloc: Global,
    path: &TreePath,
    place: &Text,
    why: Why,
    line: u32,
) -> Result<Text, Memory>
    ensures { IfOk result
        (λ t. t ≡ file_line path.now place.now (word_of why) ++ citing_line line) }
{
    let text = file_line(alloc, path, place, why)?;
    cited(alloc, &text, line)
}

fn version_fault(alloc: Global, port: &PortName, ask: &Ask, line: u32) -> Result<Text, Memory>
    ensures { IfOk result
        (λ t. t ≡ no_version_line port.now (ask_view ask.now) ++ citing_line line) }
{
    let text = no_version_line(alloc, port, ask)?;
    cited(alloc, &text, line)
}

fn disagrees_fault(
    alloc: Global,
    path: &TreePath,
    field: Field,
    table: &Text,
    manifest: &Text,
    line: u32,
) -> Result<Text, Memory>
    ensures { IfOk result (λ t. t
        ≡ disagrees_line path.now (field_view field) table.now manifest.now ++ citing_line line) }
{
    let text = disagrees_line(alloc, path, field, table, manifest)?;
    cited(alloc, &text, line)
}

// A version, and the line of its floor.
fn cited_version(alloc: Global, version: &Version, line: u32) -> Result<Text, Memory>
    ensures { IfOk result
        (λ t. t ≡ version_text (ask_of version.now) ++ citing_line line) }
{
    let ask = version.ask();
    Ok(Text::from_string(format!(in alloc; "{ask} {line}")?))
}

fn conflict_fault(
    alloc: Global,
    port: &PortName,
    first: &Version,
    first_line: u32,
    second: &Version,
    second_line: u32,
) -> Result<Text, Memory>
    ensures { IfOk result (λ t. t ≡ fault_line
        (fault.conflicts port.now first.now first_line second.now second_line)) }
{
    let port = TokenOf(port.as_str().as_bytes());
    let first = cited_version(alloc, first, first_line)?;
    let second = cited_version(alloc, second, second_line)?;
    Ok(Text::from_string(format!(in alloc; "conflict {port} {first} {second}")?))
}

// A word, what is judged with the version that it is judged by, and the line that is cited.
fn judged_fault(
    alloc: Global,
    word: &str,
    who: &Who,
    feature: &FeatureName,
    version: &Option<Version>,
    line: u32,
) -> Result<Text, Memory>
    ensures { IfOk result (λ t. t ≡ word.now
        ++ judged_text (who_view who.now) (feature_view feature.now) version.now
        ++ citing_line line) }
{
    let feature = TokenOf(feature.as_str().as_bytes());
    let version = version_or_none(alloc, version)?;
    Ok(Text::from_string(format!(in alloc; "{word}{who} {feature} {version} {line}")?))
}

fn cycle_fault(alloc: Global, walk: &[Instance]) -> Result<Text, Memory>
    ensures { IfOk result (λ t. t ≡ fault_line (fault.has_cycle (map instance_view walk.now))) }
{
    let mut line = Text::from_str(alloc, "cycle")?;
    for instance in walk {
        let instance = InstanceTokens(instance);
        line.push_str(format!(in alloc; " {instance}")?.as_str())?;
    }
    Ok(line)
}

/// The line of a fault, without the line feed that ends it.
pub fn fault_line(alloc: Global, fault: &Fault) -> Result<Text, Memory>
    ensures { IfOk result (λ t. t ≡ fault_line (fault_view fault.now)) }
{
    match fault {
        Fault::NoRegistry { port, line } => port_fault(alloc, "no-registry ", port, *line),
        Fault::NoBaseline { port, line } => port_fault(alloc, "no-baseline ", port, *line),
        Fault::BadFile {
            path,
            place,
            why,
            line,
        } => file_fault(alloc, path, place, *why, *line),
        Fault::NoVersion { port, ask, line } => version_fault(alloc, port, ask, *line),
        Fault::Disagrees {
            path,
            field,
            table,
            manifest,
            line,
        } => disagrees_fault(alloc, path, *field, table, manifest, *line),
        Fault::Conflict {
            port,
            first,
            first_line,
            second,
            second_line,
        } => conflict_fault(alloc, port, first, *first_line, second, *second_line),
        Fault::NoFeature {
            who,
            feature,
            version,
            line,
        } => judged_fault(alloc, "no-feature ", who, feature, version, *line),
        Fault::Unsupported {
            who,
            feature,
            version,
            line,
        } => judged_fault(alloc, "unsupported ", who, feature, version, *line),
        Fault::Cycle(walk) => cycle_fault(alloc, walk.as_slice()),
    }
}
