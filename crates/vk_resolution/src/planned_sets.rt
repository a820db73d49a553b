//! Laws of the planned set.
ghost use Rattle.vk_resolution.specs.PlannedSets.{OrderedExists, OrderedSetIsPlan, PlanSetCycles};
ghost use Rattle.vk_resolution.specs.PlannedSets.{PlanSetEdges, PlanSetExists, PlanSetIsOne};

/// Where the first two phases have no line there is a planned set, and one alone. The places that
/// its items need are the edges of the planned facts, so in the order of heights it is the plan, and
/// its cycles are theirs. Where it has none, it can be put in order.
pub fn a_planned_set_in_order_is_the_plan()
    ensures exists { PlanSetExists }
    ensures one { PlanSetIsOne }
    ensures edges { PlanSetEdges }
    ensures ordered { OrderedExists }
    ensures plan { OrderedSetIsPlan }
    ensures cycles { PlanSetCycles }
{}
