//! Laws of plans.
ghost use Rattle.vk_resolution.specs.Laws.{PlanExists, PlanStaysWithin};
ghost use Rattle.vk_resolution.specs.PlannedVersions.{PlannedVersions};
ghost use Rattle.vk_resolution.specs.Service.{PagesHaveRows, PlanServes};

/// Where no fault of the first phase stands, there are planned facts, all of them among the facts.
pub fn a_plan_stays_within_the_reasons()
    ensures exists { PlanExists }
    ensures within { PlanStaysWithin }
{}

/// Each planned port has its overlay's version, or the one that its override asks for, or else the
/// least at or above its baseline and every minimum.
pub fn a_planned_version_is_the_least_allowed()
    ensures { PlannedVersions }
{}

/// Where the first two phases have no line, all that the planned manifests ask is planned, and
/// every minimum of ports that aren't pinned is met.
/// The pages of a catalogue have the row of each overlay, as this asks.
pub fn a_plan_serves_its_manifests()
    ensures serves { PlanServes }
    ensures overlays { PagesHaveRows }
{}
