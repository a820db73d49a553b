//! Laws of heights and cycles.
ghost use Rattle.vk_resolution.specs.Walks.{CycleExists, CycleIsFound, CycleIsOne, CycleIsShortest};
ghost use Rattle.vk_resolution.specs.Walks.{HeightOrderIsOne, HeightsHaveNoCycle};
ghost use Rattle.vk_resolution.specs.Walks.{NoCycleGivesHeights, RoundIsAWay, TargetsAreLower};
ghost use Rattle.vk_resolution.specs.Walks.{TargetsStandBefore};

/// Every instance has a height exactly where none is on a cycle, and then what it depends on is
/// lower and stands before it.
pub fn heights_exist_where_no_cycle_is()
    ensures none { HeightsHaveNoCycle }
    ensures exist { NoCycleGivesHeights }
    ensures lower { TargetsAreLower }
    ensures before { TargetsStandBefore }
    ensures one { HeightOrderIsOne }
{}

/// Where there is a cycle, one walk is told: from the least instance that lies on any, through two
/// or more, none twice, and none through it is shorter. A search finds it. A round is a way of as
/// many edges as it has instances.
pub fn one_shortest_cycle_is_told()
    ensures exists { CycleExists }
    ensures found { CycleIsFound }
    ensures one { CycleIsOne }
    ensures shortest { CycleIsShortest }
    ensures round { RoundIsAWay }
{}
