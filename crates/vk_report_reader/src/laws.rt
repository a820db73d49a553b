//! Laws over the definitions alone.
ghost use Rattle.std.specs.Prelude.{◌≡◌, List, ℕ, Result};
ghost use Rattle.vk_spec.specs.Earlies.{Early};
ghost use Rattle.vk_resolution.specs.Outcomes.{Outcome};
ghost use Rattle.vk_report.specs.Reports.{whole_report};
ghost use Rattle.vk_report_reader.specs.Places.{IsRead, IsRefusedAt};
ghost use Rattle.vk_report_reader.specs.Cuts.{Ends, IsOutcome, Reading};
ghost use Rattle.vk_report_reader.specs.Showable.{IsShowable, shown};

/// Bytes that are read as an outcome are the report of that outcome, so what is read is written
/// again as the same bytes.
pub fn what_is_read_is_the_report()
    ensures { (bytes : List ℕ) (outcome : Result Outcome Early) → IsRead bytes outcome
        → bytes ≡ whole_report outcome }
{}

/// A report leaves out the classes of versions and what items depend on: an outcome without these
/// has the same report. Where its parts are right, so that a report can show it, the report is read
/// as it, and nothing else is answered, unless memory runs out.
pub fn a_report_is_read_as_what_it_shows()
    ensures same { (outcome : Result Outcome Early)
        → whole_report (shown outcome) ≡ whole_report outcome }
    ensures read { (outcome : Result Outcome Early) → IsShowable (shown outcome)
        → IsRead (whole_report outcome) (shown outcome) }
    ensures answer { (outcome : Result Outcome Early) → IsShowable (shown outcome)
        → (answer : Reading) → Ends (whole_report outcome) answer
        → IsOutcome (shown outcome) answer }
{}

/// Bytes are the report of one outcome only, and no line of a report is refused.
pub fn a_report_has_one_outcome()
    ensures one { (bytes : List ℕ) (outcome other : Result Outcome Early) → IsRead bytes outcome
        → IsRead bytes other → outcome ≡ other }
    ensures never_both { (bytes : List ℕ) (outcome : Result Outcome Early) (n : ℕ)
        → IsRead bytes outcome → IsRefusedAt bytes n → ⊥ }
{}
