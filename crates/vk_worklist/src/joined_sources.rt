ghost use Rattle.std.specs.Prelude.{◌≡◌, [], List};
ghost use Rattle.vk_resolution.specs.Givens.{Pages};
ghost use Rattle.vk_resolution.specs.Planner.{inputs_of};
ghost use Rattle.vk_worklist.specs.Rows.{AreRows};

use crate::askers::Asker;
use crate::rows::Row;
use crate::sources::Source;
use crate::visits::join;
use indexmap::IndexMap;
use std::alloc::Global;
use std::sync::ledger::Ledger;
use vk_base::{Outage, Steps};
use vk_catalogue::Catalogue;
use vk_model::{Cause, Fact};

/// What facts bring up: alone, by an asker, and needs and floors of one port together, when the
/// later of the two is taken up.
#[derive(Drop)]
pub struct Joins<A: Asker> {
    alloc: Global,
    /// The asker, to be read afterwards: it tracks the facts that were taken up.
    pub asker: A,
    // The rows of ports, by the places that the asker gives them.
    rows: Vec<Row>,
}

impl<A: Asker> Joins<A> {
    /// A source that has taken up nothing. It tracks no facts where the asker tracks none.
    pub fn new(alloc: Global, asker: A) -> Joins<A>
        ensures asker { result.asker ≡ asker }
        ensures rows { (pages : Pages) →
            AreRows (inputs_of (A.setting asker) pages) (A.seats asker) result.rows.items [] }
    {
        Joins {
            alloc,
            asker,
            rows: Vec::new(alloc),
        }
    }
}

impl<A: Asker> Source for Joins<A> {
    ghost use Rattle.vk_resolution.specs.Planner.{inputs_of};
    ghost use Rattle.vk_worklist.specs.Rows.{AreRows};

    ghost setting = { λ j. A.setting j.asker };

    ghost tracks = { λ j pages taken. A.tracks j.asker pages taken
        × AreRows (inputs_of (A.setting j.asker) pages) (A.seats j.asker) j.rows.items taken };

    fn take_up<C: Catalogue, L: Ledger>(
        &mut self,
        cat: &mut C,
        lines: &IndexMap<Fact, Cause>,
        n: usize,
        fact: &Fact,
        brought: &mut Vec<(Fact, Cause)>,
        steps: &mut Steps<L>,
    ) -> Result<(), Outage> {
        match self.asker.ask(cat, lines, n, fact, brought, steps)? {
            Some(place) => {
                let line = n as u32 + 1;
                join(
                    self.alloc,
                    &mut self.rows,
                    place,
                    lines,
                    fact,
                    line,
                    brought,
                )?;
                Ok(())
            }
            None => Ok(()),
        }
    }
}
