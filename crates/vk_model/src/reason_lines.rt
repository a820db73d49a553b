//! How facts, causes and reasons are printed.
ghost use Rattle.std.specs.Prelude.{◌++◌, codes, Some};
ghost use Rattle.vk_resolution.specs.Lines.{fact_text, cause_text, reason_text};
ghost use Rattle.vk_model.specs.FactViews.{fact_view, cause_view, reason_view};

use crate::facts::Fact;
use crate::lines::InstanceTokens;
use crate::reasons::{Cause, Reason};
use std::fmt;
use vk_base::TokenOf;

impl fmt::Display for Fact {
    ghost output = { λ fact. Some (fact_text (fact_view fact)) };

    fn fmt<W: fmt::Write>(&self, f: &mut fmt::Formatter<W>) -> fmt::Result {
        match self {
            Fact::Need { who, feature } => {
                write!(f, "need {who} {}", TokenOf(feature.as_str().as_bytes()))
            }
            Fact::Floor { port, ask } => {
                write!(f, "floor {} {ask}", TokenOf(port.as_str().as_bytes()))
            }
            Fact::Visit { inst, feature, ask } => write!(
                f,
                "visit {} {} {ask}",
                InstanceTokens(inst),
                TokenOf(feature.as_str().as_bytes())
            ),
        }
    }
}

impl fmt::Display for Cause {
    ghost output = { λ cause. Some (cause_text (cause_view cause)) };

    fn fmt<W: fmt::Write>(&self, f: &mut fmt::Formatter<W>) -> fmt::Result {
        match self {
            Cause::Root => f.write_str("root"),
            Cause::Baseline(line) => write!(f, "baseline {line}"),
            Cause::Override(line) => write!(f, "override {line}"),
            Cause::Overlay(line) => write!(f, "overlay {line}"),
            Cause::Minimum(line) => write!(f, "minimum {line}"),
            Cause::From(line) => write!(f, "from {line}"),
            Cause::Both(need, floor) => write!(f, "from {need} {floor}"),
        }
    }
}

impl fmt::Display for Reason {
    ghost output = { λ reason. Some (reason_text (reason_view reason)) };

    fn fmt<W: fmt::Write>(&self, f: &mut fmt::Formatter<W>) -> fmt::Result {
        write!(f, "{} {}", self.fact, self.cause)
    }
}
