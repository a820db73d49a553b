//! What a need asks for, put behind the needs that are there, with the edges that lead to it.
ghost use Rattle.std.specs.Prelude.{◌≡◌, ◌∷◌, [], OnOk};
ghost use Rattle.vk_resolution.specs.Planning.{is_need};
ghost use Rattle.vk_model.specs.FactViews.{fact_view};
ghost use Rattle.vk_planned.specs.Needs.{facts_view, needs_in};
ghost use Rattle.vk_planned.specs.Links.{Links};

use indexmap::IndexSet;
use vk_base::{List, Memory};
use vk_model::Fact;

fn is_need(fact: &Fact) -> bool
    ensures { result ≡ is_need (fact_view fact.now) }
{
    match fact {
        Fact::Need { .. } => true,
        _ => false,
    }
}

// Puts a need behind the others, unless it is there, and an edge from the place of the one that
// asks for it.
fn link(
    needs: &mut IndexSet<Fact>,
    edges: &mut Vec<(usize, usize)>,
    place: usize,
    need: Fact,
) -> Result<(), Memory>
    ensures { OnOk result (Links place (fact_view need ∷ []) (facts_view needs.old.keys)
        (facts_view needs.new.keys) edges.old.items edges.new.items) }
{
    let (other, _) = needs.insert_full(need)?;
    edges.push((place, other))?;
    Ok(())
}

// The same for what may be a minimum, which is passed over.
fn link_need(
    needs: &mut IndexSet<Fact>,
    edges: &mut Vec<(usize, usize)>,
    place: usize,
    fact: Fact,
) -> Result<(), Memory>
    ensures { OnOk result (Links place (needs_in (fact ∷ [])) (facts_view needs.old.keys)
        (facts_view needs.new.keys) edges.old.items edges.new.items) }
{
    if is_need(&fact) {
        return link(needs, edges, place, fact);
    }
    drop(fact);
    Ok(())
}

/// Puts all needs that one asks for, each unless it is there, and an edge to each.
pub(crate) fn link_all(
    needs: &mut IndexSet<Fact>,
    edges: &mut Vec<(usize, usize)>,
    place: usize,
    asked: List<Fact>,
) -> Result<(), Memory>
    ensures { OnOk result (Links place (needs_in asked) (facts_view needs.old.keys)
        (facts_view needs.new.keys) edges.old.items edges.new.items) }
{
    for fact in asked.into_vec() {
        link_need(needs, edges, place, fact)?;
    }
    Ok(())
}
