//! Laws of what matters.
ghost use Rattle.vk_resolution.specs.Agreement.{SameLeastList, SameOutcome, UnaskedAgrees};
ghost use Rattle.vk_resolution.specs.Agreement.{UnaskedChangesNothing};

/// Pages that agree on what was asked lead to the same least list and the same outcome, so a
/// version that nobody asks for changes nothing.
pub fn only_what_was_asked_matters()
    ensures facts { SameLeastList }
    ensures outcome { SameOutcome }
    ensures agrees { UnaskedAgrees }
    ensures unasked { UnaskedChangesNothing }
{}
