//! How many steps the closing of a worked project takes.
ghost use Rattle.std.specs.Prelude.{◌≡◌, List};
ghost use Rattle.vk_resolution.specs.Projects.{raised_minimum};
ghost use Rattle.vk_resolution.specs.Reasons.{IsReasons, Reason, facts_of};
ghost use Rattle.vk_worklist.specs.Ticks.{ticks};

/// A minimum above the baseline is closed in at most eight steps: one for each of six visits and
/// two needs of the root.
pub fn a_raised_minimum_takes_eight_steps()
    ensures { (reasons : List Reason) → IsReasons raised_minimum reasons
        → ticks (facts_of reasons) ≡ 8 }
{}
