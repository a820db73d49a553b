//! Laws of closures.
ghost use Rattle.vk_resolution.specs.Closures.{ClosureIsOne, ClosureOrTooMany, ClosureRefuses};
ghost use Rattle.vk_resolution.specs.Closures.{TooManyIsNoClosure};

/// Where any list of facts is closed, there is a closure of no more facts than the setting allows,
/// or there are too many, and never both. There is no second closure, and one
/// with lines is a refusal.
pub fn a_closure_is_one_or_has_too_many_facts()
    ensures one { ClosureIsOne }
    ensures either { ClosureOrTooMany }
    ensures never_both { TooManyIsNoClosure }
    ensures refusal { ClosureRefuses }
{}
