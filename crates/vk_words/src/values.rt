//! The values of options.
ghost use Rattle.std.specs.Prelude.{◌≡◌, option_copied};
ghost use Rattle.vk_spec.specs.Reading.{Gives};
ghost use Rattle.vk_base.specs.Stops.{fault_in};
ghost use Rattle.vk_words.specs.Values as the;

use crate::faults::WordFault;
use crate::options::Takes;
use std::alloc::Global;
use vk_base::{AgentName, NamedFeature, PortName, TreePath, TripletName, Unread, read_u32};
use vk_model::{Builder, told_as};

/// The value of an option.
#[derive(Drop)]
pub(crate) enum Value {
    /// A flag has none.
    Nothing,
    Triplet(TripletName),
    Port(PortName),
    Feature(NamedFeature),
    Path(TreePath),
    Number(u32),
    Agent(AgentName),
    Builder(Builder),
}

// A number from 1 to the most.
fn within(most: u32, number: u32) -> Option<u32>
    ensures { result ≡ the.within most number }
{
    if 1 <= number && number <= most {
        return Some(number);
    }
    None
}

// Such a number, of which a text is the decimal digits without leading zeros.
fn read_number(most: u32, text: &str) -> Option<u32>
    ensures { result ≡ the.number_in most text.now }
{
    match read_u32(text) {
        Some(number) => within(most, number),
        None => None,
    }
}

/// The value of a text, or else this fault.
#[tactic(auto, unfolding(crate::specs::Values::value_of))]
pub(crate) fn read_value(
    alloc: Global,
    bad: WordFault,
    takes: Takes,
    text: &str,
) -> Result<Value, Unread<WordFault>>
    ensures { Gives (λ v. v) fault_in result (the.value_of bad takes text.now) }
{
    match takes {
        Takes::Nothing => Ok(Value::Nothing),
        Takes::Triplet => {
            let name = told_as(bad, TripletName::read(alloc, text))?;
            Ok(Value::Triplet(name))
        }
        Takes::Port => {
            let name = told_as(bad, PortName::read(alloc, text))?;
            Ok(Value::Port(name))
        }
        Takes::Feature => {
            let name = told_as(bad, NamedFeature::read(alloc, text))?;
            Ok(Value::Feature(name))
        }
        Takes::Path => {
            let path = told_as(bad, TreePath::read(alloc, text))?;
            Ok(Value::Path(path))
        }
        Takes::Number(most) => {
            let number = read_number(most, text).ok_or(Unread::Fault(bad))?;
            Ok(Value::Number(number))
        }
        Takes::Agent => {
            let name = told_as(bad, AgentName::read(alloc, text))?;
            Ok(Value::Agent(name))
        }
        Takes::Builder => {
            let builder = told_as(bad, Builder::read(alloc, text))?;
            Ok(Value::Builder(builder))
        }
    }
}

impl Value {
    pub(crate) fn as_triplet(&self) -> Option<&TripletName>
        ensures { option_copied result ≡ the.as_triplet self.now }
    {
        match self {
            Value::Triplet(name) => Some(name),
            _ => None,
        }
    }

    pub(crate) fn as_port(&self) -> Option<&PortName>
        ensures { option_copied result ≡ the.as_port self.now }
    {
        match self {
            Value::Port(name) => Some(name),
            _ => None,
        }
    }

    pub(crate) fn as_feature(&self) -> Option<&NamedFeature>
        ensures { option_copied result ≡ the.as_feature self.now }
    {
        match self {
            Value::Feature(name) => Some(name),
            _ => None,
        }
    }

    pub(crate) fn as_path(&self) -> Option<&TreePath>
        ensures { option_copied result ≡ the.as_path self.now }
    {
        match self {
            Value::Path(path) => Some(path),
            _ => None,
        }
    }

    pub(crate) fn as_number(&self) -> Option<u32>
        ensures { result ≡ the.as_number self.now }
    {
        match *self {
            Value::Number(number) => Some(number),
            _ => None,
        }
    }

    pub(crate) fn as_agent(&self) -> Option<&AgentName>
        ensures { option_copied result ≡ the.as_agent self.now }
    {
        match self {
            Value::Agent(name) => Some(name),
            _ => None,
        }
    }

    pub(crate) fn as_builder(&self) -> Option<&Builder>
        ensures { option_copied result ≡ the.as_builder self.now }
    {
        match self {
            Value::Builder(builder) => Some(builder),
            _ => None,
        }
    }
}
