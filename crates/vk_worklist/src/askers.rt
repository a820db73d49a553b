ghost use Rattle.std.specs.Prelude.{◌≡◌, ◌+◌, ◌++◌, ◌∷◌, ◌<◌, ◌≤◌, ◌^◌, [], ℕ, List, IfOk, OnOk};
ghost use Rattle.std.specs.Prelude.{IfSome, is_some, take};
ghost use Rattle.vk_spec.specs.Catalogues.{OnlyAsked, OnPages};
ghost use Rattle.vk_spec.specs.Settings.{Setting};
ghost use Rattle.vk_base.specs.Stops.{was_out};
ghost use Rattle.vk_resolution.specs.Givens.{Pages};
ghost use Rattle.vk_resolution.specs.Asking as plain;
ghost use Rattle.vk_resolution.specs.Planner.{inputs_of};
ghost use Rattle.vk_model.specs.FactViews.{fact_view};
ghost use Rattle.vk_worklist.specs.Entries.{reasons_in, facts_in};
ghost use Rattle.vk_worklist.specs.Ticks.{tick_of};
ghost use Rattle.vk_worklist.specs.Alone.{Follows, alone_at, joins};
ghost use Rattle.vk_worklist.specs.Places.{IsSeatOf, KeepsSeats};

use indexmap::IndexMap;
use std::sync::ledger::Ledger;
use vk_base::{Outage, Steps};
use vk_catalogue::Catalogue;
use vk_model::{Cause, Fact};

/// What one fact brings up alone, and the place of its port where it is joined with others of that
/// port. Facts are asked about in the order of their lines, each only where it follows from the
/// root facts.
pub trait Asker {
    /// What a plan is made under.
    ghost setting: { Self → Setting };
    /// What is kept is of these pages, and of these facts, which were asked about in this order.
    ghost tracks: { Self → Pages → List plain.Fact → Type 0 };
    /// The ports that have places, by their names, in the order of the places.
    ghost seats: { Self → List (List ℕ) };

    /// Adds what the fact of a line, counted from 0, brings up alone, in order, each with its
    /// cause, and tells the place of its port where it is joined: a need of an instance is, and a
    /// floor whose version is visited. A port keeps its place.
    fn ask<C: Catalogue, L: Ledger>(
        &mut self,
        cat: &mut C,
        lines: &IndexMap<Fact, Cause>,
        n: usize,
        fact: &Fact,
        brought: &mut Vec<(Fact, Cause)>,
        steps: &mut Steps<L>,
    ) -> Result<Option<usize>, Outage>
        requires small { n + 1 < 2 ^ 32 }
        requires at { take (n + 1) (facts_in lines.now.entries)
            ≡ take n (facts_in lines.now.entries) ++ fact_view fact.now ∷ [] }
        requires tracks { OnPages
            (λ pages. tracks self.old pages (take n (facts_in lines.now.entries)))
            (C.state cat.old) }
        requires follows { OnPages
            (λ pages. Follows (inputs_of (setting self.old) pages) (fact_view fact.now))
            (C.state cat.old) }
        ensures ticks { steps.new ≤ steps.old + tick_of (fact_view fact.now) }
        ensures setting { setting self.new ≡ setting self.old }
        ensures asked { OnlyAsked (was_out result) (C.state cat.old) (C.state cat.new) }
        ensures tracks { OnOk result (OnPages
            (λ pages. tracks self.new pages (take (n + 1) (facts_in lines.now.entries)))
            (C.state cat.old)) }
        ensures alone { OnOk result (OnPages
            (λ pages. reasons_in brought.new.items ≡ reasons_in brought.old.items
            ++ alone_at (inputs_of (setting self.old) pages) (fact_view fact.now) (n + 1))
            (C.state cat.old)) }
        ensures seats { OnOk result (KeepsSeats (seats self.old) (seats self.new)) }
        ensures seat { IfOk result
            (λ seat. IfSome seat (IsSeatOf (seats self.new) (fact_view fact.now))) }
        ensures joins { IfOk result (λ seat. OnPages (λ pages. is_some seat
            ≡ joins (inputs_of (setting self.old) pages) (fact_view fact.now))
            (C.state cat.old)) };
}
