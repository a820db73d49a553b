//! The plan of a load, which is made for it.
ghost use Rattle.std.specs.Prelude.{◌≡◌, IfOk, length};
ghost use Rattle.hex.specs.Hex.{encode_lower};
ghost use Rattle.sha2.specs.Sha256.{sha256};
ghost use Rattle.vk_model.specs.FaultViews.{outcome_view};
ghost use Rattle.vk_model.specs.declared.plans.Outcome.TheVariants as the_outcome;
ghost use Rattle.vk_report.specs.Reports.{whole_report};
ghost use Rattle.vk_app.specs.Ends.{EndsWith, end_view, shown_load};
ghost use Rattle.vk_app.specs.Loads.{counts, figures, load_shown};
ghost use Rattle.vk_app.specs.Resolved.{resolution_of};
ghost use Rattle.vk_app.specs.Shown.{printed};

use crate::endings::{end_of_outcome, end_of_stop, or_memory};
use crate::ends::End;
use std::alloc::Global;
use vk_base::{List, Memory, Stop, Text};
use vk_digest::Digest;
use vk_model::{Outcome, Plan, Project, Reason};
use vk_report::report_bytes;
use vk_worklist::CloseFault;

// The SHA-256 of the report of an outcome (FIPS 180-4), in hexadecimal digits.
fn digest_of(alloc: Global, outcome: &Outcome) -> Result<Text, Memory>
    ensures { IfOk result (λ digits. digits
        ≡ encode_lower (sha256 (whole_report (outcome_view outcome.now)))) }
{
    let report = report_bytes(alloc, outcome)?;
    let digest = Digest::of(report.as_bytes());
    Ok(Text::from_string(hex::encode(alloc, digest.bytes.as_slice())?))
}

// The size of a load, and how many items and facts its plan has.
#[tactic(auto, unfolding(crate::specs::Loads::counts))]
fn counts(alloc: Global, size: u32, items: usize, facts: usize) -> Result<Text, Memory>
    ensures { IfOk result (λ text. text ≡ counts size items facts) }
{
    let text = format!(in alloc; "self-load {size}\nplanned {items}\nfacts {facts}\n")?;
    Ok(Text::from_string(text))
}

// The figures of a load whose plan has so many items and facts.
fn figures(
    alloc: Global,
    size: u32,
    items: usize,
    facts: usize,
    digest: &Text,
) -> Result<End, Memory>
    ensures { IfOk result (λ e. end_view e ≡ printed 0 (figures size items facts digest.now)) }
{
    let counts = counts(alloc, size, items, facts)?;
    let counts = counts.as_str();
    let digest = digest.as_str();
    let text = format!(in alloc; "{counts}sha256 {digest}\n")?;
    Ok(End::Printed(0, Text::from_string(text)))
}

// The figures of a load with this plan.
fn figures_of(
    alloc: Global,
    size: u32,
    outcome: &Outcome,
    plan: &Plan,
    reasons: &List<Reason>,
) -> Result<End, Memory>
    requires { outcome.now ≡ the_outcome.Planned plan.now reasons.now }
    ensures { IfOk result
        (λ e. end_view e ≡ load_shown size (resolution_of (outcome_view outcome.now))) }
{
    let digest = digest_of(alloc, outcome)?;
    figures(alloc, size, plan.items.len(), reasons.len(), &digest)
}

// How the outcome of a load is told.
fn end_of_loaded(alloc: Global, size: u32, outcome: &Outcome) -> End
    ensures { EndsWith (load_shown size (resolution_of (outcome_view outcome.now)))
        (end_view result) }
{
    match outcome {
        Outcome::Planned(plan, reasons) => {
            or_memory(figures_of(alloc, size, outcome, plan, reasons))
        }
        Outcome::Refused(_, _) => end_of_outcome(alloc, outcome),
        Outcome::Early(_) => end_of_outcome(alloc, outcome),
    }
}

/// How it is told what a load of a size comes to: by its figures where it has a plan, else as of
/// any project.
pub fn end_of_load(
    alloc: Global,
    size: u32,
    project: &Project,
    outcome: &Result<Outcome, Stop<CloseFault>>,
) -> End
    ensures { EndsWith (shown_load size project.now outcome.now) (end_view result) }
{
    match outcome {
        Ok(outcome) => end_of_loaded(alloc, size, outcome),
        Err(stop) => end_of_stop(alloc, project, stop),
    }
}
