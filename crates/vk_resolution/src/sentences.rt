//! What the rules mean.
ghost use Rattle.vk_resolution.specs.Causes.{CausesMean};
ghost use Rattle.vk_resolution.specs.Sentences.{AskedMeans, RulesMean};

/// The lists of what a manifest asks and of what follows mean the rules as sentences.
pub fn rules_mean_their_sentences()
    ensures asked { AskedMeans }
    ensures follows { RulesMean }
    ensures causes { CausesMean }
{}
