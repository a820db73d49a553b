//! Laws of choices.
ghost use Rattle.vk_resolution.specs.Laws.{ChoiceIsAboveFloors, ChoiceIsLeast, ChoiceOrConflict};
ghost use Rattle.vk_resolution.specs.Laws.{TableHasFloors};

/// The choice of a port that isn't pinned is at or above every floor, and at or below every version
/// that any closed list allows. Without one, a conflict line of two floors stands.
pub fn a_choice_is_the_least_version_allowed()
    ensures least { ChoiceIsLeast }
    ensures above { ChoiceIsAboveFloors }
    ensures table { TableHasFloors }
    ensures conflict { ChoiceOrConflict }
{}
