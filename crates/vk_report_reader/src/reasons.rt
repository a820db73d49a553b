//! Reasons: facts with their causes.
ghost use Rattle.std.specs.Prelude.{◌≡◌};
ghost use Rattle.vk_resolution.specs.Lines.{reason_text};
ghost use Rattle.vk_resolution.specs.Reasons as plain;
ghost use Rattle.vk_model.specs.FactViews.{reason_view, who_view};
ghost use Rattle.vk_forms.specs.Names.{who_of};
ghost use Rattle.vk_report_reader.specs.Reasons.{IsFloorReason, IsNeedReason, IsRightReason};
ghost use Rattle.vk_report_reader.specs.Reasons.{IsVisitReason, floor_parts, floor_reason};
ghost use Rattle.vk_report_reader.specs.Reasons.{need_parts, need_reason};
ghost use Rattle.vk_report_reader.specs.Reasons.{visit_parts, visit_reason};

use crate::causes::{FloorCause, NeedCause, VisitCause};
use std::alloc::Global;
use vk_base::{FeatureName, Instance, Memory, PortName, TripletName};
use vk_forms::{Feature, Form, Port, PortOrRoot, TextAsk, Then, Triplet, Word};
use vk_model::{Cause, Fact, Reason, Who};
use vk_version::Ask;

/// Who a port and a triplet are; the root has no port.
pub(crate) fn who_of(port: Option<PortName>, triplet: TripletName) -> Who
    ensures { who_view result ≡ who_of port triplet }
{
    match port {
        Some(port) => Who::Inst(Instance { port, triplet }),
        None => Who::Root(triplet),
    }
}

// A port or the root, a triplet, a feature and a cause, after a word.
type NeedParts = ((), (Option<PortName>, (TripletName, (FeatureName, Cause))));

fn need_reason(parts: NeedParts) -> Reason
    ensures { reason_view result ≡ need_reason (need_parts parts) }
{
    let (_, (port, (triplet, (feature, cause)))) = parts;
    let who = who_of(port, triplet);
    Reason {
        fact: Fact::Need { who, feature },
        cause,
    }
}

// A port, an ask and a cause, after a word.
type FloorParts = ((), (PortName, (Ask, Cause)));

fn floor_reason(parts: FloorParts) -> Reason
    ensures { reason_view result ≡ floor_reason (floor_parts parts) }
{
    let (_, (port, (ask, cause))) = parts;
    Reason {
        fact: Fact::Floor { port, ask },
        cause,
    }
}

// A port, a triplet, a feature, an ask and a cause, after a word.
type VisitParts = ((), (PortName, (TripletName, (FeatureName, (Ask, Cause)))));

fn visit_reason(parts: VisitParts) -> Reason
    ensures { reason_view result ≡ visit_reason (visit_parts parts) }
{
    let (_, (port, (triplet, (feature, (ask, cause))))) = parts;
    let inst = Instance { port, triplet };
    Reason {
        fact: Fact::Visit { inst, feature, ask },
        cause,
    }
}

// A need with its cause.
#[derive(Drop)]
struct NeedReason;

impl Form for NeedReason {
    type Out = Reason;

    ghost Plain = { plain.Reason };

    ghost plain = { reason_view };

    ghost prints = { λ f. reason_text };

    ghost is_right = { λ f. IsNeedReason };

    fn read(&self, alloc: Global, text: &str) -> Result<Option<Reason>, Memory> {
        let who = Then(Triplet, Then(Feature, NeedCause));
        let form = Then(Word("need"), Then(PortOrRoot, who));
        match form.read(alloc, text)? {
            Some(parts) => Ok(Some(need_reason(parts))),
            None => Ok(None),
        }
    }
}

// A floor with its cause.
#[derive(Drop)]
struct FloorReason;

impl Form for FloorReason {
    type Out = Reason;

    ghost Plain = { plain.Reason };

    ghost plain = { reason_view };

    ghost prints = { λ f. reason_text };

    ghost is_right = { λ f. IsFloorReason };

    fn read(&self, alloc: Global, text: &str) -> Result<Option<Reason>, Memory> {
        let form = Then(Word("floor"), Then(Port, Then(TextAsk, FloorCause)));
        match form.read(alloc, text)? {
            Some(parts) => Ok(Some(floor_reason(parts))),
            None => Ok(None),
        }
    }
}

// A visit with its cause.
#[derive(Drop)]
struct VisitReason;

impl Form for VisitReason {
    type Out = Reason;

    ghost Plain = { plain.Reason };

    ghost plain = { reason_view };

    ghost prints = { λ f. reason_text };

    ghost is_right = { λ f. IsVisitReason };

    fn read(&self, alloc: Global, text: &str) -> Result<Option<Reason>, Memory> {
        let what = Then(Feature, Then(TextAsk, VisitCause));
        let form = Then(Word("visit"), Then(Port, Then(Triplet, what)));
        match form.read(alloc, text)? {
            Some(parts) => Ok(Some(visit_reason(parts))),
            None => Ok(None),
        }
    }
}

/// A fact, with a cause of its kind.
#[derive(Drop)]
pub struct AnyReason;

impl Form for AnyReason {
    type Out = Reason;

    ghost Plain = { plain.Reason };

    ghost plain = { reason_view };

    ghost prints = { λ f. reason_text };

    ghost is_right = { λ f. IsRightReason };

    fn read(&self, alloc: Global, text: &str) -> Result<Option<Reason>, Memory> {
        if let Some(need) = NeedReason.read(alloc, text)? {
            return Ok(Some(need));
        }
        if let Some(floor) = FloorReason.read(alloc, text)? {
            return Ok(Some(floor));
        }
        VisitReason.read(alloc, text)
    }
}
