//! Superseded versions.
ghost use Rattle.vk_resolution.specs.Superseded.{MinimumCounts, ReachGoes};

/// In these two projects, `superseded_minimum` and `superseded_reach`, the minimum that only a
/// superseded version asks counts, and the port that only it asks for isn't planned.
pub fn superseded_versions_count_and_go()
    ensures counts { MinimumCounts }
    ensures goes { ReachGoes }
{}
