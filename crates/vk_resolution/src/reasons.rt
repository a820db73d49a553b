//! Laws of the reasons.
ghost use Rattle.vk_resolution.specs.Laws.{CertificateIsLeast, CitedLinesAreThose};
ghost use Rattle.vk_resolution.specs.Laws.{DerivationsLeadToRoots, LinesAreNumbers};
ghost use Rattle.vk_resolution.specs.Laws.{ReasonsAreDerived};

/// The reasons are a derivation, and each chain of cited lines has falling numbers and ends in a
/// root fact.
/// A derivation shows of itself that it is the least list, where it is closed and has no fact
/// twice: then each fact has one line.
/// What a cause cites are the facts on its cited lines, in order.
pub fn reasons_show_what_they_claim()
    ensures derivation { ReasonsAreDerived }
    ensures roots { DerivationsLeadToRoots }
    ensures least { CertificateIsLeast }
    ensures lines { LinesAreNumbers }
    ensures cited { CitedLinesAreThose }
{}
