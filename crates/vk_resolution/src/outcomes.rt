//! Laws of the outcome.
ghost use Rattle.vk_resolution.specs.OutcomeLaws.{KeysAreOrdered, LinesAreListed, NeedsAreBefore};
ghost use Rattle.vk_resolution.specs.OutcomeLaws.{OutcomeExists, OutcomeIsOne, PlannedEdges};

/// Keys are compared totally and tie only where they are one, so each list in order is one list;
/// lines are compared by their bytes.
pub fn orders_are_total()
    ensures keys { KeysAreOrdered }
    ensures lines { LinesAreListed }
{}

/// Where any list of facts is closed, there is an outcome, and there is never a second. What is
/// planned depends on what is planned, and each item stands after all that it needs.
pub fn there_is_one_outcome()
    ensures exists { OutcomeExists }
    ensures one { OutcomeIsOne }
    ensures edges { PlannedEdges }
    ensures needs { NeedsAreBefore }
{}
