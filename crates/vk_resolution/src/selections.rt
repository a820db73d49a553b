//! Laws of the choices of a project.
ghost use Rattle.vk_resolution.specs.Selections.{ChoicesAreOne, ChoicesHaveNoConflict};
ghost use Rattle.vk_resolution.specs.Selections.{ChoicesListPorts, ChoicesOrConflicts};
ghost use Rattle.vk_resolution.specs.Selections.{ItemsHaveChoices};

/// Where the first phase has no line, each port that has a floor has a choice, or the second phase
/// has a line, and never both. There is one list of choices, of exactly the ports that
/// have a floor, in their order, and each planned item tells its port's.
pub fn choices_are_made_or_conflicts_told()
    ensures either { ChoicesOrConflicts }
    ensures never_both { ChoicesHaveNoConflict }
    ensures one { ChoicesAreOne }
    ensures ports { ChoicesListPorts }
    ensures items { ItemsHaveChoices }
{}
