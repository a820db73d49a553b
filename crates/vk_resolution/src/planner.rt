//! The laws, said of this planner's own inputs: here is the one place where every premise of a law
//! is met.
ghost use Rattle.vk_resolution.specs.Planner.{OneOutcomeOneReport, OutcomeIsNotTooMany};
ghost use Rattle.vk_resolution.specs.Planner.{OutcomeOrTooMany, PlansKeepPromises, PremisesAreMet};

/// The order on versions is one, and the pages of a catalogue have the row of each overlay. Of what
/// a fault prints nothing is assumed.
pub fn the_premises_are_met()
    ensures { PremisesAreMet }
{}

/// Where any list of facts is closed, a setting and the pages of a catalogue have an outcome within
/// the setting's number of facts, or too many facts, and never both. Two outcomes are one, and
/// print one report.
pub fn a_project_has_one_report()
    ensures either { OutcomeOrTooMany }
    ensures never_both { OutcomeIsNotTooMany }
    ensures one { OneOutcomeOneReport }
{}

/// Each planned port has its overlay's version, or its override's, or else the least version at or
/// above its baseline and every minimum; and all that the planned manifests ask is planned.
pub fn a_plan_keeps_its_promises()
    ensures { PlansKeepPromises }
{}
