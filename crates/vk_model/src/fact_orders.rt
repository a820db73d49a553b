//! Facts are compared by their keys: needs before floors before visits, the root's needs first.
ghost use Rattle.std.specs.Prelude.{◌≡◌, ◌++◌, ◌==◌, ◌∷◌, []};
ghost use Rattle.std.proofs.Common.{rules};
ghost use Rattle.std.specs.Cmp.{partial_order_from_own_ties};
ghost use Rattle.std.specs.Cmp.Rules.{comparing, hashing};
ghost use Rattle.std.specs.Cmp.Lexicographic.{slice_cmp, pointwise, lists_ties};
ghost use Rattle.std.specs.Ordering.{nat_cmp, on, as_partial_cmp};
ghost use Rattle.std.specs.Hash as fed;
ghost use Rattle.vk_base.specs.FeatureViews.{feature_view};
ghost use Rattle.vk_resolution.specs.Keys.{same_key, key_cmp};
ghost use Rattle.vk_model.specs.FactKeys.{key_of, instance_key_of, ask_key, floor_key, need_key};
ghost use Rattle.vk_model.specs.FactKeys.{root_key, looked_key, visit_key, fact_hash};
ghost use Rattle.vk_model.specs.FactHash.{hash_alike};

use crate::facts::{Fact, Who};
use std::cmp::Ordering;
use std::hash::{Hash, Hasher};
use vk_base::{FeatureName, Instance, PortName, TripletName};
use vk_version::Ask;

fn same_need(one: &Instance, f: &FeatureName, other: &Instance, g: &FeatureName) -> bool
    ensures { result ≡ same_key (need_key one.now f.now) (need_key other.now g.now) }
{
    one.port == other.port && one.triplet == other.triplet && f == g
}

fn same_ask(one: &Ask, other: &Ask) -> bool
    ensures { result ≡ same_key (ask_key one.now) (ask_key other.now) }
{
    one.text == other.text && one.port == other.port
}

fn same_floor(one: &PortName, a: &Ask, other: &PortName, b: &Ask) -> bool
    ensures { result ≡ same_key (floor_key one.now a.now) (floor_key other.now b.now) }
{
    one == other && same_ask(a, b)
}

fn same_visit(
    one: &Instance,
    f: &FeatureName,
    a: &Ask,
    other: &Instance,
    g: &FeatureName,
    b: &Ask,
) -> bool
    ensures { result ≡ same_key (visit_key one.now f.now a.now)
        (visit_key other.now g.now b.now) }
{
    one.port == other.port && one.triplet == other.triplet && f == g && same_ask(a, b)
}

impl PartialEq for Fact {
    ghost eq = { on key_of (pointwise (pointwise ◌==◌)) };

    ghost laws = { Prim.search (comparing, rules) };

    fn eq(&self, other: &Fact) -> bool {
        match self {
            Fact::Need {
                who: Who::Root(t),
                feature: f,
            } => match other {
                Fact::Need {
                    who: Who::Root(u),
                    feature: g,
                } => t == u && f == g,
                _ => false,
            },
            Fact::Need {
                who: Who::Inst(i),
                feature: f,
            } => match other {
                Fact::Need {
                    who: Who::Inst(j),
                    feature: g,
                } => same_need(i, f, j, g),
                _ => false,
            },
            Fact::Floor { port: p, ask: a } => match other {
                Fact::Floor { port: q, ask: b } => same_floor(p, a, q, b),
                _ => false,
            },
            Fact::Visit {
                inst: i,
                feature: f,
                ask: a,
            } => match other {
                Fact::Visit {
                    inst: j,
                    feature: g,
                    ask: b,
                } => same_visit(i, f, a, j, g, b),
                _ => false,
            },
        }
    }
}

impl Eq for Fact {
    ghost laws = { Prim.search (comparing, rules) };
}

fn cmp_ask(one: &Ask, other: &Ask) -> Ordering
    ensures { result ≡ key_cmp (ask_key one.now) (ask_key other.now) }
{
    match one.text.cmp(&other.text) {
        Ordering::Equal => one.port.cmp(&other.port),
        differ => differ,
    }
}

fn cmp_floor(one: &PortName, a: &Ask, other: &PortName, b: &Ask) -> Ordering
    ensures { result ≡ key_cmp (floor_key one.now a.now) (floor_key other.now b.now) }
{
    match one.cmp(other) {
        Ordering::Equal => cmp_ask(a, b),
        differ => differ,
    }
}

fn cmp_feature(f: &FeatureName, g: &FeatureName) -> Ordering
    ensures { result ≡ key_cmp (feature_view f.now ∷ []) (feature_view g.now ∷ []) }
{
    f.cmp(g)
}

fn cmp_need(one: &Instance, f: &FeatureName, other: &Instance, g: &FeatureName) -> Ordering
    ensures { result ≡ key_cmp (need_key one.now f.now) (need_key other.now g.now) }
{
    match one.port.cmp(&other.port) {
        Ordering::Equal => match one.triplet.cmp(&other.triplet) {
            Ordering::Equal => cmp_feature(f, g),
            differ => differ,
        },
        differ => differ,
    }
}

fn cmp_looked(f: &FeatureName, a: &Ask, g: &FeatureName, b: &Ask) -> Ordering
    ensures { result ≡ key_cmp (looked_key f.now a.now) (looked_key g.now b.now) }
{
    match f.cmp(g) {
        Ordering::Equal => cmp_ask(a, b),
        differ => differ,
    }
}

fn cmp_visit(
    one: &Instance,
    f: &FeatureName,
    a: &Ask,
    other: &Instance,
    g: &FeatureName,
    b: &Ask,
) -> Ordering
    ensures { result ≡ key_cmp (visit_key one.now f.now a.now)
        (visit_key other.now g.now b.now) }
{
    match one.port.cmp(&other.port) {
        Ordering::Equal => match one.triplet.cmp(&other.triplet) {
            Ordering::Equal => cmp_looked(f, a, g, b),
            differ => differ,
        },
        differ => differ,
    }
}

fn cmp_root(t: &TripletName, f: &FeatureName, u: &TripletName, g: &FeatureName) -> Ordering
    ensures { result ≡ key_cmp (root_key t.now f.now) (root_key u.now g.now) }
{
    match t.cmp(u) {
        Ordering::Equal => cmp_feature(f, g),
        differ => differ,
    }
}

impl Ord for Fact {
    ghost cmp = { on key_of (slice_cmp (slice_cmp nat_cmp)) };

    ghost total = { Prim.search (comparing, rules) };

    ghost matches_partial_cmp = { Prim.search (comparing, rules) };

    ghost matches_eq = { λ x y. lists_ties (slice_cmp nat_cmp) (Prim.search (comparing, rules))
        (key_of x) (key_of y) };

    fn cmp(&self, other: &Fact) -> Ordering {
        match self {
            Fact::Need {
                who: Who::Root(t),
                feature: f,
            } => match other {
                Fact::Need {
                    who: Who::Root(u),
                    feature: g,
                } => cmp_root(t, f, u, g),
                _ => Ordering::Less,
            },
            Fact::Need {
                who: Who::Inst(i),
                feature: f,
            } => match other {
                Fact::Need {
                    who: Who::Root(_),
                    feature: _,
                } => Ordering::Greater,
                Fact::Need {
                    who: Who::Inst(j),
                    feature: g,
                } => cmp_need(i, f, j, g),
                _ => Ordering::Less,
            },
            Fact::Floor { port: p, ask: a } => match other {
                Fact::Need { who: _, feature: _ } => Ordering::Greater,
                Fact::Floor { port: q, ask: b } => cmp_floor(p, a, q, b),
                Fact::Visit { .. } => Ordering::Less,
            },
            Fact::Visit {
                inst: i,
                feature: f,
                ask: a,
            } => match other {
                Fact::Visit {
                    inst: j,
                    feature: g,
                    ask: b,
                } => cmp_visit(i, f, a, j, g, b),
                _ => Ordering::Greater,
            },
        }
    }
}

impl PartialOrd for Fact {
    ghost partial_cmp = { as_partial_cmp (on key_of (slice_cmp (slice_cmp nat_cmp))) };

    ghost laws = { partial_order_from_own_ties (Prim.search (comparing, rules))
        (λ x y. lists_ties (slice_cmp nat_cmp) (Prim.search (comparing, rules)) (key_of x)
        (key_of y)) };

    fn partial_cmp(&self, other: &Fact) -> Option<Ordering> {
        Some(self.cmp(other))
    }
}

impl Hash for Fact {
    ghost hash_input = { fact_hash };

    ghost respects_eq = { hash_alike };

    fn hash<H: Hasher>(&self, state: &mut H) {
        match self {
            Fact::Need {
                who: Who::Root(t),
                feature: f,
            } => {
                t.hash(state);
                f.hash(state);
            }
            Fact::Need {
                who: Who::Inst(i),
                feature: f,
            } => {
                i.port.hash(state);
                f.hash(state);
            }
            Fact::Floor { port: p, ask: a } => {
                p.hash(state);
                a.text.hash(state);
                a.port.hash(state);
            }
            Fact::Visit {
                inst: i,
                feature: f,
                ask: a,
            } => {
                i.port.hash(state);
                f.hash(state);
                a.text.hash(state);
                a.port.hash(state);
            }
        }
    }
}
