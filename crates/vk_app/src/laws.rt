//! Laws over the definitions alone.
ghost use Rattle.vk_app.specs.AnswerLaws.{AnswerExists, AnswerIsOne, TreeHasAnswer};
ghost use Rattle.vk_app.specs.PlanReads.{PlansAskOnce};

/// Words and files have an answer, and no other. For an ABI text that is said of files that stand
/// at paths, none below another, as every tree has them.
pub fn words_and_files_have_one_answer()
    ensures exists { AnswerExists }
    ensures tree { TreeHasAnswer }
    ensures one { AnswerIsOne }
{}

/// A run that plans asks for no path twice, whatever the tree and however the run ends.
pub fn a_plan_asks_for_no_path_twice()
    ensures { PlansAskOnce }
{}
