//! What holds of caches into which packages are published.
ghost use Rattle.vk_publish.specs.Found.{WholeIsHit, WholeIsValid};
ghost use Rattle.vk_publish.specs.Shared.{SeveralPublish};

/// Whatever the turns of their calls, whichever of these fail, and whoever stops: at each name of an
/// entry stands nothing or the whole entry of one of the pairs, and an agent that has come to its
/// end without a limit finds a whole entry there. The agents' names have to differ.
pub fn a_shared_cache_stays_whole()
    ensures { SeveralPublish }
{}

/// Who looks for the text of a whole entry finds its package, if a contents list can tell it and a
/// walk passes no limit there: the entry is valid for its hash, and a hit for its text where the
/// package has no more bytes than it may have.
pub fn what_is_published_is_found()
    ensures valid { WholeIsValid }
    ensures hit { WholeIsHit }
{}
