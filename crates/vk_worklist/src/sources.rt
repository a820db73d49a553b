ghost use Rattle.std.specs.Prelude.{◌≡◌, ◌+◌, ◌++◌, ◌∷◌, ◌<◌, ◌≤◌, ◌^◌, [], List, length};
ghost use Rattle.std.specs.Prelude.{OnOk, take};
ghost use Rattle.vk_spec.specs.Lists.{NoRepeats};
ghost use Rattle.vk_spec.specs.Catalogues.{OnlyAsked, OnPages};
ghost use Rattle.vk_spec.specs.Settings.{Setting};
ghost use Rattle.vk_base.specs.Stops.{was_out};
ghost use Rattle.vk_resolution.specs.Givens.{Pages};
ghost use Rattle.vk_resolution.specs.Asking as plain;
ghost use Rattle.vk_resolution.specs.Closing.{Produces};
ghost use Rattle.vk_resolution.specs.Planner.{inputs_of};
ghost use Rattle.vk_model.specs.FactViews.{fact_view};
ghost use Rattle.vk_worklist.specs.Alone.{Follows};
ghost use Rattle.vk_worklist.specs.Entries.{reasons_in, facts_in};
ghost use Rattle.vk_worklist.specs.Ticks.{tick_of};

use indexmap::IndexMap;
use std::sync::ledger::Ledger;
use vk_base::{Outage, Steps};
use vk_catalogue::Catalogue;
use vk_model::{Cause, Fact};

/// What facts bring up, one after the other: alone, and together with those that were taken up
/// before. It keeps what it needs to know of those. A fact is taken up only where it follows from
/// the root facts.
pub trait Source {
    /// What a plan is made under.
    ghost setting: { Self → Setting };
    /// What is kept is of these pages, and of these facts, which were taken up in this order.
    ghost tracks: { Self → Pages → List plain.Fact → Type 0 };

    /// Takes up the fact of a line, counted from 0, behind all those before it: what it brings up,
    /// each with its cause.
    fn take_up<C: Catalogue, L: Ledger>(
        &mut self,
        cat: &mut C,
        lines: &IndexMap<Fact, Cause>,
        n: usize,
        fact: &Fact,
        brought: &mut Vec<(Fact, Cause)>,
        steps: &mut Steps<L>,
    ) -> Result<(), Outage>
        requires small { n + 1 < 2 ^ 32 }
        requires within { n < length lines.now.entries }
        requires distinct { NoRepeats (facts_in lines.now.entries) }
        requires at { take (n + 1) (facts_in lines.now.entries)
            ≡ take n (facts_in lines.now.entries) ++ fact_view fact.now ∷ [] }
        requires none { brought.old.items ≡ [] }
        requires tracks { OnPages
            (λ pages. tracks self.old pages (take n (facts_in lines.now.entries)))
            (C.state cat.old) }
        requires follows { OnPages
            (λ pages. Follows (inputs_of (setting self.old) pages) (fact_view fact.now))
            (C.state cat.old) }
        ensures ticks { steps.new ≤ steps.old + tick_of (fact_view fact.now) }
        ensures setting { setting self.new ≡ setting self.old }
        ensures asked { OnlyAsked (was_out result) (C.state cat.old) (C.state cat.new) }
        ensures tracks { OnOk result (OnPages
            (λ pages. tracks self.new pages (take (n + 1) (facts_in lines.now.entries)))
            (C.state cat.old)) }
        ensures brought { OnOk result (OnPages
            (λ pages. Produces (inputs_of (setting self.old) pages)
            (take n (facts_in lines.now.entries)) (fact_view fact.now)
            (reasons_in brought.new.items))
            (C.state cat.old)) };
}
