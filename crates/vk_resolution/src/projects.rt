//! Worked projects: what the definitions say of each.
ghost use Rattle.vk_spec.specs.Versions.{IsOrder};
ghost use Rattle.vk_resolution.specs.Reasons.{IsReasons};
ghost use Rattle.vk_resolution.specs.Examples.{HasNeeds, Reports, ReportsAlone, at_most};
ghost use Rattle.vk_resolution.specs.Projects.{conflict, conflict_by_text, conflict_by_text_report};
ghost use Rattle.vk_resolution.specs.Projects.{conflict_report, cross_build, cross_build_report};
ghost use Rattle.vk_resolution.specs.Projects.{cycle, cycle_report, damaged_manifest};
ghost use Rattle.vk_resolution.specs.Projects.{damaged_manifest_report};
ghost use Rattle.vk_resolution.specs.Projects.{dropped_feature};
ghost use Rattle.vk_resolution.specs.Projects.{dropped_feature_report, early_feature};
ghost use Rattle.vk_resolution.specs.Projects.{early_feature_report, every_cause};
ghost use Rattle.vk_resolution.specs.Projects.{every_cause_needs, every_cause_reasons};
ghost use Rattle.vk_resolution.specs.Projects.{every_cause_report};
ghost use Rattle.vk_resolution.specs.Projects.{host_platform};
ghost use Rattle.vk_resolution.specs.Projects.{host_platform_report, leads_in, leads_in_report};
ghost use Rattle.vk_resolution.specs.Projects.{named_root, named_root_report};
ghost use Rattle.vk_resolution.specs.Projects.{new_feature};
ghost use Rattle.vk_resolution.specs.Projects.{new_feature_report};
ghost use Rattle.vk_resolution.specs.Projects.{off_by_own_feature};
ghost use Rattle.vk_resolution.specs.Projects.{off_by_own_feature_report};
ghost use Rattle.vk_resolution.specs.Projects.{off_by_root, off_by_root_report};
ghost use Rattle.vk_resolution.specs.Projects.{overridden, overridden_report};
ghost use Rattle.vk_resolution.specs.Projects.{own_host_tool};
ghost use Rattle.vk_resolution.specs.Projects.{own_host_tool_needs, own_host_tool_report};
ghost use Rattle.vk_resolution.specs.Projects.{own_minimum, own_minimum_report};
ghost use Rattle.vk_resolution.specs.Projects.{raised_minimum};
ghost use Rattle.vk_resolution.specs.Projects.{raised_minimum_reasons, raised_minimum_report};
ghost use Rattle.vk_resolution.specs.Projects.{realistic, realistic_needs, realistic_report};
ghost use Rattle.vk_resolution.specs.Projects.{shorter_cycle, shorter_cycle_report};
ghost use Rattle.vk_resolution.specs.Projects.{superseded_conflict};
ghost use Rattle.vk_resolution.specs.Projects.{superseded_conflict_report, superseded_cycle};
ghost use Rattle.vk_resolution.specs.Projects.{superseded_cycle_report};
ghost use Rattle.vk_resolution.specs.Projects.{superseded_minimum};
ghost use Rattle.vk_resolution.specs.Projects.{superseded_minimum_report, superseded_reach};
ghost use Rattle.vk_resolution.specs.Projects.{superseded_reach_report};
ghost use Rattle.vk_resolution.specs.Projects.{tied_cycles};
ghost use Rattle.vk_resolution.specs.Projects.{tied_cycles_report};
ghost use Rattle.vk_resolution.specs.Projects.{unsupported_port};
ghost use Rattle.vk_resolution.specs.Projects.{unsupported_port_report};

/// The order on versions in these projects is an order, and what one reports is all that it can
/// report.
pub fn reports_are_the_only_ones()
    ensures order { IsOrder at_most }
    ensures alone { ReportsAlone }
{}

/// A project as people have them: a host tool, a default feature, a feature with a platform.
pub fn a_realistic_project()
    ensures planned { Reports realistic realistic_report }
    ensures needs { HasNeeds realistic realistic_needs }
{}

/// A minimum above the baseline is planned, with these fifteen reasons.
pub fn a_raised_minimum()
    ensures planned { Reports raised_minimum raised_minimum_report }
    ensures reasons { IsReasons raised_minimum raised_minimum_reasons }
{}

/// A project with an override, an overlay, default features, a feature that asks of its own port,
/// and a host tool, with its forty-nine reasons.
pub fn a_project_with_every_cause()
    ensures planned { Reports every_cause every_cause_report }
    ensures needs { HasNeeds every_cause every_cause_needs }
    ensures reasons { IsReasons every_cause every_cause_reasons }
{}

/// A minimum that only a superseded version asks counts, and a port that only it asks for isn't
/// planned. A cycle through such a version is none; a conflict is told.
pub fn superseded_versions()
    ensures minimum { Reports superseded_minimum superseded_minimum_report }
    ensures reach { Reports superseded_reach superseded_reach_report }
    ensures cycle { Reports superseded_cycle superseded_cycle_report }
    ensures conflict { Reports superseded_conflict superseded_conflict_report }
{}

/// Unrelated floors are a conflict, which an override settles. The two are told by text before
/// port-version.
pub fn conflicts()
    ensures texts { Reports conflict conflict_report }
    ensures overridden { Reports overridden overridden_report }
    ensures order { Reports conflict_by_text conflict_by_text_report }
{}

/// A feature is asked of the chosen version, which may be the only one that has it, or the only one
/// that lacks it.
pub fn a_feature_of_one_version()
    ensures planned { Reports new_feature new_feature_report }
    ensures refused { Reports dropped_feature dropped_feature_report }
    ensures early { Reports early_feature early_feature_report }
{}

/// The root switches default features off, also by what it asks of itself.
pub fn default_features()
    ensures root { Reports off_by_root off_by_root_report }
    ensures own { Reports off_by_own_feature off_by_own_feature_report }
{}

/// A host dependency is for the host triplet, and its platform is judged by the one that depends;
/// a port may depend on itself in this way.
pub fn host_instances()
    ensures cross { Reports cross_build cross_build_report }
    ensures platform { Reports host_platform host_platform_report }
    ensures own { Reports own_host_tool own_host_tool_report }
    ensures needs { HasNeeds own_host_tool own_host_tool_needs }
{}

/// A cycle is told from its least instance on, wherever one comes into it, by the shortest way back
/// and of these by the least port.
pub fn cycles()
    ensures three { Reports cycle cycle_report }
    ensures leads_in { Reports leads_in leads_in_report }
    ensures tied { Reports tied_cycles tied_cycles_report }
    ensures shorter { Reports shorter_cycle shorter_cycle_report }
{}

/// A manifest that can't be read is told.
pub fn bad_files()
    ensures manifest { Reports damaged_manifest damaged_manifest_report }
{}

/// A minimum on one's own port is a floor, but for the root, which is its own instance for the
/// target alone.
pub fn own_instances()
    ensures minimum { Reports own_minimum own_minimum_report }
    ensures root { Reports named_root named_root_report }
{}

/// What an overlay doesn't support is refused, whatever the minimum.
pub fn overlays()
    ensures refused { Reports unsupported_port unsupported_port_report }
{}
