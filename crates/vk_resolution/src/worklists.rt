//! Laws of worklists.
ghost use Rattle.vk_resolution.specs.WorklistLaws.{ClosingsLead, WorklistsLead};

/// A worklist begins with the roots in order, takes up one fact after the other, goes on with what
/// is fresh, level by level, and ends in the least list in its order.
pub fn a_worklist_ends_in_the_least_list<X>()
    ensures { WorklistsLead X }
{}

/// Where each fact is noted with the cause by which it came up first, it ends in the reasons. Where
/// there is no room for a fact, there are too many.
pub fn a_worklist_of_reasons_ends_in_the_reasons()
    ensures { ClosingsLead }
{}
