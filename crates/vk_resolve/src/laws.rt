//! Laws over the definitions alone.
ghost use Rattle.vk_resolve.specs.PlanSentences.{PlanHasNoLess, PlanHasNoMore, PlannedMeans};

/// The rules of a plan mean their sentences; and a plan has the root's needs, each needed feature
/// at the chosen version of its port, and what the manifests of these versions ask for, and
/// nothing else.
pub fn a_plan_has_what_its_versions_ask()
    ensures means { PlannedMeans }
    ensures no_more { PlanHasNoMore }
    ensures no_less { PlanHasNoLess }
{}
