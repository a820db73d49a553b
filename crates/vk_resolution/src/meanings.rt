//! What the tests on marks and on pinned ports mean.
ghost use Rattle.vk_resolution.specs.MarkLaws.{MarksMean};
ghost use Rattle.vk_resolution.specs.PinLaws.{OverlayFilesMean, OverridesMean, PinnedMeans};

/// For the host's triplet its marks hold, and `native`; for any other those of the target.
pub fn marks_hold_for_their_triplet()
    ensures { MarksMean }
{}

/// A port is pinned by an overlay, also where its manifest is bad, or by an override.
pub fn a_pinned_port_has_an_overlay_or_an_override()
    ensures overrides { OverridesMean }
    ensures files { OverlayFilesMean }
    ensures pinned { PinnedMeans }
{}
