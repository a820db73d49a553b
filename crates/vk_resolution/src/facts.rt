//! The order of facts.
ghost use Rattle.vk_resolution.specs.FactOrder.{FactsComeInOrder};

/// Facts of one rank come in the order that is said case by case: needs, floors, visits, and each
/// kind by its parts.
pub fn facts_come_in_order()
    ensures { FactsComeInOrder }
{}
