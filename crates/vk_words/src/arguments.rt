//! What each word after the command says.
ghost use Rattle.std.specs.Prelude.{◌≡◌, ◌+◌, ◌<◌, ◌^◌, ◌++◌, length, option_map, option_copied};
ghost use Rattle.std.specs.Prelude.{option_to_list, IfOk, OnOk, find};
ghost use Rattle.vk_spec.specs.Reading.{Gives, or_fault};
ghost use Rattle.vk_base.specs.Stops.{fault_in};
ghost use Rattle.vk_words.specs.declared.faults.WordFault.TheVariants as fault;
ghost use Rattle.vk_words.specs.Words as plain;
ghost use Rattle.vk_words.specs.WordViews.{parts_view, word_view, words_view};
ghost use Rattle.vk_words.specs.Options.{option_named, rule_of};
ghost use Rattle.vk_words.specs.Arguments as the;

use crate::faults::WordFault;
use crate::options::{OptionName, Subcommand, Takes};
use crate::values::{Value, read_value};
use std::alloc::Global;
use vk_base::{
    AgentName, FeatureName, List, Memory, PortName, TreePath, TripletName, Unread, Word,
};
use vk_model::{Builder, cut};

/// An option and its value.
#[derive(Drop)]
pub(crate) struct Argument {
    pub(crate) option: OptionName,
    pub(crate) value: Value,
}

// The name of an option, and what stands after `=`.
#[derive(Clone, Copy)]
struct Parts<'a> {
    name: &'a str,
    value: Option<&'a str>,
}

// The parts of a word, which have its first `=` between them.
fn parts_of(word: &str) -> Parts<'_>
    ensures { parts_view result ≡ plain.parts_of word.now }
{
    match cut(word, '=') {
        Some((name, value)) => Parts {
            name,
            value: Some(value),
        },
        None => Parts {
            name: word,
            value: None,
        },
    }
}

impl Argument {
    fn is_of(&self, option: OptionName) -> bool
        ensures { result ≡ the.is_of option self.now }
    {
        self.option.name() == option.name()
    }
}

/// Whether an option is among these arguments.
pub(crate) fn is_given(arguments: &[Argument], option: OptionName) -> bool
    ensures { result ≡ the.is_given option arguments.now }
{
    arguments.iter().any(|argument| argument.is_of(option))
}

// The text that an option takes: a flag has none, and every other option must have one.
fn text_for<'a>(
    takes: Takes,
    number: u32,
    value: Option<&'a str>,
) -> Result<&'a str, Unread<WordFault>>
    ensures { Gives (λ t. t.now) fault_in result
        (the.text_for takes number (option_map (λ t. t.now) value.entry)) }
{
    match (takes, value) {
        (Takes::Nothing, None) => Ok(""),
        (Takes::Nothing, Some(_)) => Err(Unread::Fault(WordFault::Unknown(number))),
        (_, None) => Err(Unread::Fault(WordFault::NoValue(number))),
        (_, Some(text)) => Ok(text),
    }
}

// An option that was given already may stand again only where it repeats.
fn check_once(
    option: OptionName,
    number: u32,
    earlier: &[Argument],
) -> Result<(), Unread<WordFault>>
    ensures { Gives (λ u. u) fault_in result (the.check_once option number earlier.now) }
{
    if option.rule().repeats || !is_given(earlier, option) {
        return Ok(());
    }
    Err(Unread::Fault(WordFault::Twice(number)))
}

// The option of a command that has this name.
fn option_for(command: Subcommand, number: u32, name: &str) -> Result<OptionName, Unread<WordFault>>
    ensures { Gives (λ o. o) fault_in result
        (or_fault (fault.Unknown number) (option_named command name.now)) }
{
    OptionName::read(command, name).ok_or(Unread::Fault(WordFault::Unknown(number)))
}

// What these parts of a word say to a command, after these arguments.
#[tactic(auto, unfolding(crate::specs::Arguments::argument_from))]
fn argument_from(
    alloc: Global,
    command: Subcommand,
    earlier: &[Argument],
    number: u32,
    parts: Parts<'_>,
) -> Result<Argument, Unread<WordFault>>
    ensures { Gives (λ a. a) fault_in result
        (the.argument_from command earlier.now number (parts_view parts.entry)) }
{
    let option = option_for(command, number, parts.name)?;
    let takes = option.rule().takes;
    let text = text_for(takes, number, parts.value)?;
    check_once(option, number, earlier)?;
    let value = read_value(alloc, WordFault::BadValue(number), takes, text)?;
    Ok(Argument { option, value })
}

// What a word says.
#[tactic(auto, unfolding(crate::specs::Arguments::argument_in))]
fn argument_in(
    alloc: Global,
    command: Subcommand,
    earlier: &[Argument],
    number: u32,
    word: &Word,
) -> Result<Argument, Unread<WordFault>>
    ensures { Gives (λ a. a) fault_in result
        (the.argument_in command earlier.now number (word_view word.now)) }
{
    match word {
        Word::Text(text) => {
            argument_from(alloc, command, earlier, number, parts_of(text.as_str()))
        }
        Word::NotText => Err(Unread::Fault(WordFault::Unknown(number))),
    }
}

/// What the words after the command say, of which the first is the second of the command line.
pub(crate) fn arguments_in(
    alloc: Global,
    command: Subcommand,
    words: &[Word],
) -> Result<List<Argument>, Unread<WordFault>>
    requires { length words.now + 1 < 2 ^ 32 }
    ensures { Gives (λ l. l) fault_in result (the.arguments_in command (words_view words.now)) }
{
    let mut arguments = List::new(alloc);
    for (place, word) in words.iter().enumerate() {
        let number = place as u32 + 2;
        let argument = argument_in(alloc, command, arguments.as_slice(), number, word)?;
        arguments.push(argument)?;
    }
    Ok(arguments)
}

// The value of an option that stands once.
fn first_of(arguments: &[Argument], option: OptionName) -> Option<&Argument>
    ensures { option_copied result ≡ find (the.is_of option) arguments.now }
{
    arguments.iter().find(|argument| argument.is_of(option))
}

fn value_given(arguments: &[Argument], option: OptionName) -> Option<&Value>
    ensures { option_copied result ≡ the.value_given option arguments.now }
{
    match first_of(arguments, option) {
        Some(argument) => Some(&argument.value),
        None => None,
    }
}

/// The triplet that an option names.
pub(crate) fn triplet_given(arguments: &[Argument], option: OptionName) -> Option<&TripletName>
    ensures { option_copied result ≡ the.triplet_given option arguments.now }
{
    match value_given(arguments, option) {
        Some(value) => value.as_triplet(),
        None => None,
    }
}

/// The path that an option names.
pub(crate) fn path_given(arguments: &[Argument], option: OptionName) -> Option<&TreePath>
    ensures { option_copied result ≡ the.path_given option arguments.now }
{
    match value_given(arguments, option) {
        Some(value) => value.as_path(),
        None => None,
    }
}

/// The number that an option sets.
pub(crate) fn number_given(arguments: &[Argument], option: OptionName) -> Option<u32>
    ensures { result ≡ the.number_given option arguments.now }
{
    match value_given(arguments, option) {
        Some(value) => value.as_number(),
        None => None,
    }
}

/// The port that `--port` names.
pub(crate) fn port_given(arguments: &[Argument]) -> Option<&PortName>
    ensures { option_copied result ≡ the.port_given arguments.now }
{
    match value_given(arguments, OptionName::Port) {
        Some(value) => value.as_port(),
        None => None,
    }
}

/// The agent that `--agent` names.
pub(crate) fn agent_given(arguments: &[Argument]) -> Option<&AgentName>
    ensures { option_copied result ≡ the.agent_given arguments.now }
{
    match value_given(arguments, OptionName::Agent) {
        Some(value) => value.as_agent(),
        None => None,
    }
}

/// The builder that `--builder` names.
pub(crate) fn builder_given(arguments: &[Argument]) -> Option<&Builder>
    ensures { option_copied result ≡ the.builder_given arguments.now }
{
    match value_given(arguments, OptionName::Builder) {
        Some(value) => value.as_builder(),
        None => None,
    }
}

// The path that an argument names, where it is of this option.
fn path_by(argument: &Argument, option: OptionName) -> Option<&TreePath>
    ensures { option_copied result ≡ the.path_by option argument.now }
{
    if argument.is_of(option) {
        return argument.value.as_path();
    }
    None
}

// Puts that path at the end.
fn push_path(
    paths: &mut List<TreePath>,
    argument: &Argument,
    option: OptionName,
) -> Result<(), Memory>
    ensures { OnOk result
        (paths.new ≡ paths.old ++ option_to_list (the.path_by option argument.now)) }
{
    if let Some(path) = path_by(argument, option) {
        paths.push(path.clone()?)?;
    }
    Ok(())
}

/// The paths that an option names, in the order of the words.
pub(crate) fn paths_given(
    alloc: Global,
    arguments: &[Argument],
    option: OptionName,
) -> Result<List<TreePath>, Memory>
    ensures { IfOk result (λ l. l ≡ the.paths_given option arguments.now) }
{
    let mut paths = List::new(alloc);
    for argument in arguments {
        push_path(&mut paths, argument, option)?;
    }
    Ok(paths)
}

// The feature that an argument names.
fn feature_by(argument: &Argument) -> Result<Option<FeatureName>, Memory>
    ensures { IfOk result (λ f. f ≡ the.feature_by argument.now) }
{
    if !argument.is_of(OptionName::Feature) {
        return Ok(None);
    }
    match argument.value.as_feature() {
        Some(name) => Ok(Some(FeatureName::Named(name.clone()?))),
        None => Ok(None),
    }
}

// Puts that feature at the end.
fn push_feature(features: &mut List<FeatureName>, argument: &Argument) -> Result<(), Memory>
    ensures { OnOk result
        (features.new ≡ features.old ++ option_to_list (the.feature_by argument.now)) }
{
    if let Some(feature) = feature_by(argument)? {
        features.push(feature)?;
    }
    Ok(())
}

/// The features that are named, in the order of the words.
pub(crate) fn features_given(
    alloc: Global,
    arguments: &[Argument],
) -> Result<List<FeatureName>, Memory>
    ensures { IfOk result (λ l. l ≡ the.features_given arguments.now) }
{
    let mut features = List::new(alloc);
    for argument in arguments {
        push_feature(&mut features, argument)?;
    }
    Ok(features)
}
