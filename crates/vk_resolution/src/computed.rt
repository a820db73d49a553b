//! What is computed is what is defined.
ghost use Rattle.vk_resolution.specs.ComputedLaws.{OffListIsDefined, OutcomeIsDefined};

/// Where some number of rounds finds an outcome, it is the outcome that is defined; and where some
/// number finds the setting's off list, that lists exactly the instances that are off.
pub fn what_is_computed_is_what_is_defined()
    ensures outcome { OutcomeIsDefined }
    ensures off { OffListIsDefined }
{}
