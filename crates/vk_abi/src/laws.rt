//! Laws over the definitions alone.
ghost use Rattle.vk_abi.specs.LawsOnPlans.{PlansGiveFeatures, PlansTellNodes, TextsAreOne};
ghost use Rattle.vk_abi.specs.LawsOnPlans.{TextsExist};
ghost use Rattle.vk_abi.specs.Nodes.{TextsTellNodes};

/// Builds with one ABI text are one build: the same builder, version, features and triplet, the
/// same bytes of each file, and dependencies that are one build in turn, all the way down, where no
/// two different messages among their files, triplet files and texts have one SHA-256.
pub fn builds_with_one_text_are_one()
    ensures { TextsTellNodes }
{}

/// Over files that stand at paths, none below another, a plan whose ports stand in folders has the
/// ABI texts of its builds, or a first folder that passes a limit, with that limit. Over any files
/// it has at most one of these answers.
pub fn a_plan_has_texts_or_passes_a_limit()
    ensures exists { TextsExist }
    ensures one { TextsAreOne }
{}

/// Every plan gives each of its items `core` and not `default`, and its features in order. So the
/// texts of `texts` are those of builds that keep the rules of all their parts, and builds of any
/// two plans that have one text are one build, where none of their messages collide.
pub fn a_plan_tells_its_builds()
    ensures features { PlansGiveFeatures }
    ensures apart { PlansTellNodes }
{}
