//! Laws of the features that are asked of the root.
ghost use Rattle.vk_resolution.specs.Mentions.{AskedIsMentioned, MentionedIsClosed};

/// Each asked feature of the root is one of the words, or one that the root mentions of itself: so
/// asking ends.
pub fn asked_features_are_mentioned()
    ensures asked { AskedIsMentioned }
    ensures closed { MentionedIsClosed }
{}
