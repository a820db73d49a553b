//! Causes, each for its kind of fact.
ghost use Rattle.std.specs.Prelude.{◌≡◌, ℕ};
ghost use Rattle.vk_resolution.specs.Consequences as plain;
ghost use Rattle.vk_resolution.specs.Lines.{cause_text};
ghost use Rattle.vk_model.specs.FactViews.{cause_view};
ghost use Rattle.vk_report_reader.specs.Causes.{IsFloorCause, IsNeedCause, IsVisitCause};
ghost use Rattle.vk_report_reader.specs.Causes.{floor_cause, need_cause, visit_cause};
ghost use Rattle.vk_report_reader.specs.Causes.{floor_plain, need_plain, visit_plain};

use std::alloc::Global;
use vk_base::Memory;
use vk_forms::{Either, Form, Number, Or, Then, Word};
use vk_model::Cause;

// A word, and the line that is cited.
type Cited = ((), u32);

// One of four words, and the line that is cited.
type CitedBy = Either<Cited, Either<Cited, Either<Cited, Cited>>>;

fn need_cause(found: Either<(), Cited>) -> Cause
    ensures { cause_view result ≡ need_cause (need_plain found) }
{
    match found {
        Either::One(_) => Cause::Root,
        Either::Other(from) => Cause::From(from.1),
    }
}

fn floor_cause(found: CitedBy) -> Cause
    ensures { cause_view result ≡ floor_cause (floor_plain found) }
{
    match found {
        Either::One(baseline) => Cause::Baseline(baseline.1),
        Either::Other(Either::One(given)) => Cause::Override(given.1),
        Either::Other(Either::Other(Either::One(overlay))) => Cause::Overlay(overlay.1),
        Either::Other(Either::Other(Either::Other(minimum))) => Cause::Minimum(minimum.1),
    }
}

fn visit_cause(found: ((), (u32, u32))) -> Cause
    ensures { cause_view result ≡ visit_cause (visit_plain found) }
{
    let (_, (need, floor)) = found;
    Cause::Both(need, floor)
}

/// The cause of a need.
#[derive(Drop)]
pub struct NeedCause;

impl Form for NeedCause {
    type Out = Cause;

    ghost Plain = { plain.Cause ℕ };

    ghost plain = { cause_view };

    ghost prints = { λ f. cause_text };

    ghost is_right = { λ f. IsNeedCause };

    fn read(&self, alloc: Global, text: &str) -> Result<Option<Cause>, Memory> {
        let form = Or(Word("root"), Then(Word("from"), Number));
        match form.read(alloc, text)? {
            Some(found) => Ok(Some(need_cause(found))),
            None => Ok(None),
        }
    }
}

/// The cause of a floor.
#[derive(Drop)]
pub struct FloorCause;

impl Form for FloorCause {
    type Out = Cause;

    ghost Plain = { plain.Cause ℕ };

    ghost plain = { cause_view };

    ghost prints = { λ f. cause_text };

    ghost is_right = { λ f. IsFloorCause };

    fn read(&self, alloc: Global, text: &str) -> Result<Option<Cause>, Memory> {
        let other = Or(Then(Word("overlay"), Number), Then(Word("minimum"), Number));
        let form = Or(
            Then(Word("baseline"), Number),
            Or(Then(Word("override"), Number), other),
        );
        match form.read(alloc, text)? {
            Some(found) => Ok(Some(floor_cause(found))),
            None => Ok(None),
        }
    }
}

/// The cause of a visit.
#[derive(Drop)]
pub struct VisitCause;

impl Form for VisitCause {
    type Out = Cause;

    ghost Plain = { plain.Cause ℕ };

    ghost plain = { cause_view };

    ghost prints = { λ f. cause_text };

    ghost is_right = { λ f. IsVisitCause };

    fn read(&self, alloc: Global, text: &str) -> Result<Option<Cause>, Memory> {
        let form = Then(Word("from"), Then(Number, Number));
        match form.read(alloc, text)? {
            Some(found) => Ok(Some(visit_cause(found))),
            None => Ok(None),
        }
    }
}
