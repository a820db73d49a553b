//! An ABI text read back, line by line.
ghost use Rattle.std.specs.Prelude.{◌≡◌, ◌<◌, ◌+◌, ◌^◌, ◌↔◌, List, ℕ, [], IfOk, IfSome, IsTrue, false, true};
ghost use Rattle.std.specs.Prelude.{MatchOption, length, map};
ghost use Rattle.std.specs.List.{Contains};
ghost use Rattle.vk_spec.specs.Manifests.{core};
ghost use Rattle.vk_base.specs.FeatureViews.{feature_view};
ghost use Rattle.vk_base.specs.Paths.{Lacks};
ghost use Rattle.vk_base.specs.Stops.{fault_in};
ghost use Rattle.vk_forms.specs.Lines.{IsLineText, NoLine};
ghost use Rattle.vk_abi_text.specs.Adding.{CountsLast, Led, gathering_view, IsInputOf};
ghost use Rattle.vk_abi_text.specs.Lines.{first_text};
ghost use Rattle.vk_abi_text.specs.Readings.{AreAll, Ends, IsRefusedAt};
ghost use Rattle.vk_abi_text.specs.Views.{input_view, line_in};

use crate::gathering::{Gathering, follow};
use crate::inputs::AbiInput;
use std::alloc::Global;
use vk_base::{FeatureName, Memory, Unread};
use vk_forms::{cut_line, next_line};

/// Why bytes are no ABI text.
#[derive(Clone, Copy, Debug, PartialEq, Eq, Drop)]
pub enum AbiFault {
    /// The first line, counted from 1, that breaks the rules: the number of lines and one more
    /// where a line or the last line feed is missing. Last bytes without a line feed are a line.
    Line { n: u32 },
}

fn refused(n: u32) -> Unread<AbiFault>
    ensures { IfSome (fault_in result) (λ fault. line_in fault ≡ n) }
{
    Unread::Fault(AbiFault::Line { n })
}

// Whether `core` is among these features.
fn has_core(features: &[FeatureName]) -> bool
    ensures { IsTrue result ↔ Contains (map feature_view features.now) core }
{
    for feature in features {
        if feature.as_str() == "core" {
            return true;
        }
    }
    false
}

// The input that was gathered; `None` where something lacks.
fn input_of(gathering: Gathering) -> Option<AbiInput>
    ensures { MatchOption result (AreAll (gathering_view gathering) → ⊥)
        (λ input. IsInputOf (gathering_view gathering) (input_view input)) }
{
    if !has_core(gathering.features.as_slice()) {
        drop(gathering);
        return None;
    }
    let Gathering {
        builder,
        deps,
        features,
        files,
        native,
        port,
        triplet,
        version,
    } = gathering;
    match (builder, native, port, triplet, version) {
        (Some(builder), Some(native), Some(port), Some((triplet, triplet_digest)), Some(version)) =>
            {
                Some(AbiInput {
                    builder,
                    port,
                    version,
                    features,
                    triplet,
                    triplet_digest,
                    native,
                    files,
                    deps,
                })
            }
        (builder, _, port, triplet, version) => {
            drop((builder, port, triplet, version));
            drop((deps, features, files));
            None
        }
    }
}

fn has_line_feed(bytes: &[u8]) -> bool
    ensures has { result ≡ true → Lacks 10 bytes.now → ⊥ }
    ensures lacks { result ≡ false → Lacks 10 bytes.now }
{
    match cut_line(bytes) {
        Some(_) => true,
        None => false,
    }
}

fn is_heading(bytes: &[u8]) -> bool
    ensures { IsTrue result ↔ (bytes.now ≡ first_text) }
{
    bytes == b"abi 2".as_slice()
}

// The text that these bytes are; `None` where they are none, or a line feed is among them.
fn last_line(bytes: &[u8]) -> Option<&str>
    ensures { MatchOption result (IsLineText bytes.now → ⊥)
        (λ t. (t.now ≡ bytes.now) × IsLineText bytes.now) }
{
    if has_line_feed(bytes) {
        return None;
    }
    match str::from_utf8(bytes) {
        Ok(text) => Some(text),
        Err(_) => None,
    }
}

// The line that is refused where these last bytes lack their line feed: the one behind them where
// they are a line that comes next, else they.
fn unended(
    alloc: Global,
    gathering: &mut Gathering,
    last: &str,
    left: &[u8],
    number: u32,
) -> Result<u32, Memory>
    requires { number + 1 < 2 ^ 32 }
    ensures { IfOk result (CountsLast last.now left.now (gathering_view gathering.old) number) }
{
    let Some(text) = last_line(left) else {
        return Ok(number);
    };
    if follow(alloc, gathering, last, text)? {
        return Ok(number + 1);
    }
    Ok(number)
}

// The input that was gathered of a whole text; so many is the line behind the last.
fn whole(gathering: Gathering, number: u32) -> Result<AbiInput, Unread<AbiFault>>
    ensures { (bytes last : List ℕ) → Led bytes (gathering_view gathering) last [] number
        → Ends bytes result }
{
    match input_of(gathering) {
        Some(input) => Ok(input),
        None => Err(refused(number)),
    }
}

// What bytes come to of which the lines are read, the last of which has this text; this is left of
// them, and so many is the next line.
fn finish(
    alloc: Global,
    gathering: Gathering,
    last: &str,
    left: &[u8],
    number: u32,
) -> Result<AbiInput, Unread<AbiFault>>
    requires none { NoLine left.now }
    requires room { number + length left.now < 2 ^ 32 }
    ensures { (bytes : List ℕ) → Led bytes (gathering_view gathering) last.now left.now number
        → Ends bytes result }
{
    if left.is_empty() {
        return whole(gathering, number);
    }
    let mut gathered = gathering;
    let refusal = unended(alloc, &mut gathered, last, left, number);
    drop(gathered);
    Err(refused(refusal?))
}

// The line that is refused where there is none: the second where the first lacks its end alone.
fn unbegun(bytes: &[u8]) -> u32
    requires { NoLine bytes.now }
    ensures { IsRefusedAt bytes.now result }
{
    if is_heading(bytes) {
        return 2;
    }
    1
}

/// The input of which these bytes are the text, its lists in the order of their lines. `Line` comes
/// exactly where they are no ABI text of an input whose paths have at most 4,096 bytes, with the
/// first line that breaks the rules.
pub fn read_abi(alloc: Global, bytes: &[u8]) -> Result<AbiInput, Unread<AbiFault>>
    requires { length bytes.now < 2 ^ 32 }
    ensures { Ends bytes.now result }
{
    let Some((heading, rest)) = next_line(bytes) else {
        return Err(refused(unbegun(bytes)));
    };
    if heading != "abi 2" {
        return Err(refused(1));
    }
    let mut gathering = Gathering::new(alloc);
    let mut last = "";
    let mut number = 2;
    let mut left = rest;
    while let Some((line, more)) = next_line(left) {
        match follow(alloc, &mut gathering, last, line) {
            Ok(true) => {}
            Ok(false) => {
                drop(gathering);
                return Err(refused(number));
            }
            Err(memory) => {
                drop(gathering);
                return Err(Unread::from(memory));
            }
        }
        last = line;
        number += 1;
        left = more;
    }
    finish(alloc, gathering, last, left, number)
}
