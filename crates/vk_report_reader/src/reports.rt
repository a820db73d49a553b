//! A report read back, line by line.
ghost use Rattle.std.specs.Prelude.{◌≡◌, ◌<◌, ◌^◌, List, ℕ, IfSome};
ghost use Rattle.std.specs.Prelude.{MatchOption, length};
ghost use Rattle.vk_base.specs.Stops.{fault_in};
ghost use Rattle.vk_model.specs.FaultViews.{outcome_view};
ghost use Rattle.vk_report_reader.specs.Places.{finished};
ghost use Rattle.vk_report_reader.specs.PlaceViews.{line_in, place_view};
ghost use Rattle.vk_forms.specs.Lines.{NoLine};
ghost use Rattle.vk_report_reader.specs.Cuts.{Ends, IsUnfinished, Led};

use crate::advances::{Place, advance};
use std::alloc::Global;
use vk_base::Unread;
use vk_forms::next_line;
use vk_model::Outcome;

/// Why bytes are no report.
#[derive(Clone, Copy, Debug, PartialEq, Eq, Drop)]
pub enum ReportFault {
    /// The first line, counted from 1, that isn't what its place wants: the number of lines and one
    /// more where the report ends too early.
    Line { n: u32 },
}

fn refused(n: u32) -> Unread<ReportFault>
    ensures { IfSome (fault_in result) (λ fault. line_in fault ≡ n) }
{
    Unread::Fault(ReportFault::Line { n })
}

// The outcome of a whole report.
fn outcome_at(place: Place) -> Option<Outcome>
    ensures { MatchOption result (IsUnfinished (place_view place))
        (λ o. place_view place ≡ finished (outcome_view o)) }
{
    match place {
        Place::Finished(outcome) => Some(outcome),
        Place::Status | Place::ItemCount | Place::FaultCount | Place::OnlyFault => None,
        Place::Items { items, .. } => {
            drop(items);
            None
        }
        Place::Faults { faults, .. } => {
            drop(faults);
            None
        }
        Place::AfterEarly(early) => {
            drop(early);
            None
        }
        Place::Reasons { body, reasons, .. } => {
            drop(body);
            drop(reasons);
            None
        }
    }
}

// What bytes come to of which the lines are read; this is left of them, and so many is the next
// line.
fn finish(place: Place, left: &[u8], number: u32) -> Result<Outcome, Unread<ReportFault>>
    requires { NoLine left.now }
    ensures { (bytes : List ℕ) → Led bytes (place_view place) left.now number
        → Ends bytes result }
{
    if !left.is_empty() {
        drop(place);
        return Err(refused(number));
    }
    match outcome_at(place) {
        Some(outcome) => Ok(outcome),
        None => Err(refused(number)),
    }
}

/// The outcome of which these bytes are the report, with no needs, and with versions of class
/// `Text`, since a report prints neither. `Line` comes exactly where they are no report, with the
/// first line that isn't wanted where it stands.
pub fn read_report(alloc: Global, bytes: &[u8]) -> Result<Outcome, Unread<ReportFault>>
    requires { length bytes.now < 2 ^ 32 }
    ensures { Ends bytes.now result }
{
    let Some((heading, rest)) = next_line(bytes) else {
        return Err(refused(1));
    };
    if heading != "vcpkg-plan 1" {
        return Err(refused(1));
    }
    let mut place = Place::Status;
    let mut number = 2;
    let mut left = rest;
    while let Some((line, more)) = next_line(left) {
        match advance(alloc, place, line)? {
            Some(next) => place = next,
            None => return Err(refused(number)),
        }
        number += 1;
        left = more;
    }
    finish(place, left, number)
}
