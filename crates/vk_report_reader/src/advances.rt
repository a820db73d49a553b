//! Places in a report, and what may stand there.
ghost use Rattle.std.specs.Prelude.{◌≡◌, ◌<◌, ◌^◌, ◌++◌, ◌∷◌, [], IfOk, MatchOption, length, map};
ghost use Rattle.std.specs.Prelude.{◌+◌, IsTrue, decimal, option_map};
ghost use Rattle.vk_base.specs.Paths.{lacks};
ghost use Rattle.vk_forms.specs.Lines.{IsLine};
ghost use Rattle.vk_forms.specs.Forms.{ReadsAs};
ghost use Rattle.vk_model.specs.EarlyViews.{early_view};
ghost use Rattle.vk_model.specs.FactViews.{reason_view, reasons_view};
ghost use Rattle.vk_model.specs.FaultViews.{fault_view, faults_view, item_view, outcome_view};
ghost use Rattle.vk_forms.specs.Choices.{either_plain};
ghost use Rattle.vk_report_reader.specs.Places as plain;
ghost use Rattle.vk_report_reader.specs.Places.{Advances, CountsReasons, outcome_of};
ghost use Rattle.vk_report_reader.specs.PlaceViews.{body_view, place_view};

use crate::earlies::AnyEarly;
use crate::faults::AnyFault;
use crate::items::AnyItem;
use crate::reasons::AnyReason;
use std::alloc::Global;
use vk_base::{List, Memory};
use vk_forms::{Either, Form, Known, Number, Or, Then, Word};
use vk_model::{Early, Fault, Item, Outcome, Plan, Reason};

/// What stands before the reasons.
#[derive(Drop)]
pub(crate) enum Body {
    Plan(List<Item>),
    Faults(List<Fault>),
    Early(Early),
}

/// A place in a report: what was read before it, and how many lines of a kind there are to be.
#[derive(Drop)]
pub(crate) enum Place {
    Status,
    ItemCount,
    FaultCount,
    Items {
        wanted: u32,
        items: List<Item>,
    },
    OnlyFault,
    Faults {
        wanted: u32,
        faults: List<Fault>,
    },
    AfterEarly(Early),
    Reasons {
        body: Body,
        wanted: u32,
        reasons: List<Reason>,
    },
    Finished(Outcome),
}

fn outcome_of(body: Body, reasons: List<Reason>) -> Outcome
    ensures { outcome_view result ≡ outcome_of (body_view body) (reasons_view reasons) }
{
    match body {
        Body::Plan(items) => Outcome::Planned(Plan { items }, reasons),
        Body::Faults(faults) => Outcome::Refused(faults, reasons),
        Body::Early(early) => Outcome::Early(early),
    }
}

// A word, and how many lines there are to be.
fn read_count(alloc: Global, word: &'static str, line: &str) -> Result<Option<u32>, Memory>
    requires { IsTrue (lacks 32 word.now) }
    ensures { IfOk result (ReadsAs (plain.headed word.now decimal) IsLine line.now) }
{
    match Then(Word(word), Number).read(alloc, line)? {
        Some(found) => Ok(Some(found.1)),
        None => Ok(None),
    }
}

// The number of a line, and a value.
fn read_numbered<F: Form + Drop>(
    alloc: Global,
    number: u32,
    form: F,
    line: &str,
) -> Result<Option<F::Out>, Memory>
    ensures { IfOk result (λ found. ReadsAs (plain.headed (decimal number) (F.prints form))
        (F.is_right form) line.now (option_map F.plain found)) }
{
    match Then(Known(number), form).read(alloc, line)? {
        Some(found) => Ok(Some(found.1)),
        None => Ok(None),
    }
}

// The number of the line that stands after these.
fn next_number<T>(done: &List<T>) -> u32
    requires { length done.now + 1 < 2 ^ 32 }
    ensures { result ≡ length done.now + 1 }
{
    done.len() as u32 + 1
}

fn after_status(found: Either<(), ()>) -> Place
    ensures { place_view result ≡ plain.after_status (either_plain (λ u. u) (λ u. u) found) }
{
    match found {
        Either::One(_) => Place::ItemCount,
        Either::Other(_) => Place::FaultCount,
    }
}

fn at_status(alloc: Global, line: &str) -> Result<Option<Place>, Memory>
    ensures { IfOk result
        (λ next. Advances plain.status line.now (option_map place_view next)) }
{
    let form = Or(Word("status planned"), Word("status refused"));
    match form.read(alloc, line)? {
        Some(found) => Ok(Some(after_status(found))),
        None => Ok(None),
    }
}

fn at_item_count(alloc: Global, line: &str) -> Result<Option<Place>, Memory>
    ensures { IfOk result
        (λ next. Advances plain.item_count line.now (option_map place_view next)) }
{
    match read_count(alloc, "plan", line)? {
        Some(wanted) => Ok(Some(Place::Items {
            wanted,
            items: List::new(alloc),
        })),
        None => Ok(None),
    }
}

// The place after so many faults are announced; `None` for none.
fn after_fault_count(alloc: Global, wanted: u32) -> Option<Place>
    ensures { MatchOption result (wanted ≡ 0)
        (λ p. (0 < wanted) × (place_view p ≡ plain.after_fault_count wanted)) }
{
    match wanted {
        0 => None,
        1 => Some(Place::OnlyFault),
        _ => Some(Place::Faults {
            wanted,
            faults: List::new(alloc),
        }),
    }
}

fn at_fault_count(alloc: Global, line: &str) -> Result<Option<Place>, Memory>
    ensures { IfOk result
        (λ next. Advances plain.fault_count line.now (option_map place_view next)) }
{
    match read_count(alloc, "faults", line)? {
        Some(wanted) => Ok(after_fault_count(alloc, wanted)),
        None => Ok(None),
    }
}

// So many reasons are to come, and none was read yet.
fn reasons_from(alloc: Global, body: Body, wanted: u32) -> Place
    ensures { place_view result ≡ plain.reasons (body_view body) wanted [] }
{
    Place::Reasons {
        body,
        wanted,
        reasons: List::new(alloc),
    }
}

fn at_reason_count(alloc: Global, body: Body, line: &str) -> Result<Option<Place>, Memory>
    ensures { IfOk result
        (λ next. CountsReasons (body_view body) line.now (option_map place_view next)) }
{
    match read_count(alloc, "reasons", line) {
        Ok(Some(wanted)) => Ok(Some(reasons_from(alloc, body, wanted))),
        Ok(None) => {
            drop(body);
            Ok(None)
        }
        Err(memory) => {
            drop(body);
            Err(memory)
        }
    }
}

fn next_item(
    alloc: Global,
    wanted: u32,
    mut items: List<Item>,
    line: &str,
) -> Result<Option<Place>, Memory>
    requires { length items < wanted }
    ensures { IfOk result (λ next. Advances (plain.items wanted (map item_view items)) line.now
        (option_map place_view next)) }
{
    let number = next_number(&items);
    match read_numbered(alloc, number, AnyItem, line)? {
        Some(item) => {
            items.push(item)?;
            Ok(Some(Place::Items { wanted, items }))
        }
        None => Ok(None),
    }
}

fn at_items(
    alloc: Global,
    wanted: u32,
    items: List<Item>,
    line: &str,
) -> Result<Option<Place>, Memory>
    ensures { IfOk result (λ next. Advances (plain.items wanted (map item_view items)) line.now
        (option_map place_view next)) }
{
    if items.len() < wanted as usize {
        return next_item(alloc, wanted, items, line);
    }
    at_reason_count(alloc, Body::Plan(items), line)
}

fn after_only(alloc: Global, found: Either<Fault, Early>) -> Result<Place, Memory>
    ensures { IfOk result
        (λ p. place_view p ≡ plain.after_only (either_plain fault_view early_view found)) }
{
    match found {
        Either::One(fault) => {
            let mut faults = List::new(alloc);
            faults.push(fault)?;
            Ok(Place::Faults { wanted: 1, faults })
        }
        Either::Other(early) => Ok(Place::AfterEarly(early)),
    }
}

fn at_only_fault(alloc: Global, line: &str) -> Result<Option<Place>, Memory>
    ensures { IfOk result
        (λ next. Advances plain.only_fault line.now (option_map place_view next)) }
{
    match Or(AnyFault, AnyEarly).read(alloc, line)? {
        Some(found) => Ok(Some(after_only(alloc, found)?)),
        None => Ok(None),
    }
}

fn next_fault(
    alloc: Global,
    wanted: u32,
    mut faults: List<Fault>,
    line: &str,
) -> Result<Option<Place>, Memory>
    requires { length faults < wanted }
    ensures { IfOk result
        (λ next. Advances (plain.fault_lines wanted (faults_view faults)) line.now
        (option_map place_view next)) }
{
    match AnyFault.read(alloc, line)? {
        Some(fault) => {
            faults.push(fault)?;
            Ok(Some(Place::Faults { wanted, faults }))
        }
        None => Ok(None),
    }
}

fn at_faults(
    alloc: Global,
    wanted: u32,
    faults: List<Fault>,
    line: &str,
) -> Result<Option<Place>, Memory>
    ensures { IfOk result
        (λ next. Advances (plain.fault_lines wanted (faults_view faults)) line.now
        (option_map place_view next)) }
{
    if faults.len() < wanted as usize {
        return next_fault(alloc, wanted, faults, line);
    }
    at_reason_count(alloc, Body::Faults(faults), line)
}

fn at_early(alloc: Global, early: Early, line: &str) -> Result<Option<Place>, Memory>
    ensures { IfOk result (λ next. Advances (plain.after_early (early_view early)) line.now
        (option_map place_view next)) }
{
    match Word("reasons 0").read(alloc, line) {
        Ok(Some(_)) => Ok(Some(reasons_from(alloc, Body::Early(early), 0))),
        Ok(None) => {
            drop(early);
            Ok(None)
        }
        Err(memory) => {
            drop(early);
            Err(memory)
        }
    }
}

// The place after one reason more.
fn with_reason(
    body: Body,
    wanted: u32,
    mut reasons: List<Reason>,
    reason: Reason,
) -> Result<Place, Memory>
    ensures { IfOk result (λ p. place_view p ≡ plain.reasons (body_view body) wanted
        (reasons_view reasons ++ reason_view reason ∷ [])) }
{
    match reasons.push(reason) {
        Ok(()) => Ok(Place::Reasons {
            body,
            wanted,
            reasons,
        }),
        Err(lack) => {
            drop(body);
            drop(reasons);
            Err(Memory::from(lack))
        }
    }
}

fn next_reason(
    alloc: Global,
    body: Body,
    wanted: u32,
    reasons: List<Reason>,
    line: &str,
) -> Result<Option<Place>, Memory>
    requires { length reasons < wanted }
    ensures { IfOk result
        (λ next. Advances (plain.reasons (body_view body) wanted (reasons_view reasons)) line.now
        (option_map place_view next)) }
{
    let number = next_number(&reasons);
    match read_numbered(alloc, number, AnyReason, line) {
        Ok(Some(reason)) => Ok(Some(with_reason(body, wanted, reasons, reason)?)),
        Ok(None) => {
            drop(body);
            drop(reasons);
            Ok(None)
        }
        Err(memory) => {
            drop(body);
            drop(reasons);
            Err(memory)
        }
    }
}

fn at_reasons(
    alloc: Global,
    body: Body,
    wanted: u32,
    reasons: List<Reason>,
    line: &str,
) -> Result<Option<Place>, Memory>
    ensures { IfOk result
        (λ next. Advances (plain.reasons (body_view body) wanted (reasons_view reasons)) line.now
        (option_map place_view next)) }
{
    if reasons.len() < wanted as usize {
        return next_reason(alloc, body, wanted, reasons, line);
    }
    match Word("end").read(alloc, line) {
        Ok(Some(_)) => Ok(Some(Place::Finished(outcome_of(body, reasons)))),
        Ok(None) => {
            drop(body);
            drop(reasons);
            Ok(None)
        }
        Err(memory) => {
            drop(body);
            drop(reasons);
            Err(memory)
        }
    }
}

/// The place that a line leads to; `None` exactly where the line isn't wanted there.
pub(crate) fn advance(alloc: Global, place: Place, line: &str) -> Result<Option<Place>, Memory>
    ensures { IfOk result
        (λ next. Advances (place_view place) line.now (option_map place_view next)) }
{
    match place {
        Place::Status => at_status(alloc, line),
        Place::ItemCount => at_item_count(alloc, line),
        Place::FaultCount => at_fault_count(alloc, line),
        Place::Items { wanted, items } => at_items(alloc, wanted, items, line),
        Place::OnlyFault => at_only_fault(alloc, line),
        Place::Faults { wanted, faults } => at_faults(alloc, wanted, faults, line),
        Place::AfterEarly(early) => at_early(alloc, early, line),
        Place::Reasons {
            body,
            wanted,
            reasons,
        } => at_reasons(alloc, body, wanted, reasons, line),
        Place::Finished(outcome) => {
            drop(outcome);
            Ok(None)
        }
    }
}
