//! A quad's places in one of the six orders, and where a pattern is looked for.
ghost use Rattle.std.specs.Prelude.{◌≡◌};
ghost use Rattle.quad_lists.specs.Keys.{order_at, key_order, key_of as the_key_of, bound_term as the_bound_term, bound_graph as the_bound_graph, bounds_by, bounds_of as the_bounds_of, depth_of, bound_or_none as the_bound_or_none, target_of, is_before as the_is_before, arrangement_for};

use datasets::{GraphPlace, Id, Quad, QuadPattern};
use std::cmp::Ordering;

/// The places of a quad, in the sequence of an order. In the place of the graph, none is the
/// default graph.
#[derive(Clone, Copy, PartialEq, Eq, PartialOrd, Ord, Debug)]
pub struct Key {
    pub first: Option<Id>,
    pub second: Option<Id>,
    pub third: Option<Id>,
    pub fourth: Option<Id>,
}

/// The six orders. Each set of bound places is the beginning of one of them.
#[derive(Clone, Copy, PartialEq, Eq, Debug)]
pub enum Arrangement {
    Spog,
    Pogs,
    Ogsp,
    Gspo,
    Gpso,
    Ospg,
}

/// The five orders beside SPOG.
pub const BESIDE_SPOG: [Arrangement; 5] = [
    Arrangement::Pogs,
    Arrangement::Ogsp,
    Arrangement::Gspo,
    Arrangement::Gpso,
    Arrangement::Ospg,
];

/// How many of the first places are bound.
#[derive(Clone, Copy, PartialEq, Eq, Debug)]
pub enum Depth {
    Zero,
    One,
    Two,
    Three,
    Four,
}

/// What a pattern binds each place to, in the sequence of an order.
#[derive(Clone, Copy, PartialEq, Eq, Debug)]
pub struct Bounds {
    pub first: Option<Option<Id>>,
    pub second: Option<Option<Id>>,
    pub third: Option<Option<Id>>,
    pub fourth: Option<Option<Id>>,
}

fn make_key(first: Option<Id>, second: Option<Id>, third: Option<Id>, fourth: Option<Id>) -> Key
    ensures { result ≡ record { first = first; second = second; third = third; fourth = fourth } }
{
    Key {
        first,
        second,
        third,
        fourth,
    }
}

fn make_bounds(
    first: Option<Option<Id>>,
    second: Option<Option<Id>>,
    third: Option<Option<Id>>,
    fourth: Option<Option<Id>>,
) -> Bounds
    ensures { result ≡ bounds_by first second third fourth }
{
    Bounds {
        first,
        second,
        third,
        fourth,
    }
}

fn bound_term(term: Option<Id>) -> Option<Option<Id>>
    ensures { result ≡ the_bound_term term }
{
    match term {
        None => None,
        Some(id) => Some(Some(id)),
    }
}

fn bound_graph(place: GraphPlace<Id>) -> Option<Option<Id>>
    ensures { result ≡ the_bound_graph place }
{
    match place {
        GraphPlace::Any => None,
        GraphPlace::Only(graph) => Some(graph),
    }
}

fn bound_or_none(bound: Option<Option<Id>>) -> Option<Id>
    ensures { result ≡ the_bound_or_none bound }
{
    match bound {
        None => None,
        Some(term) => term,
    }
}

impl Arrangement {
    /// A quad's key in this order.
    pub fn key_of(self, quad: &Quad<Id>) -> Key
        ensures { result ≡ the_key_of self quad.now }
    {
        let s = Some(quad.subject);
        let p = Some(quad.predicate);
        let o = Some(quad.object);
        let g = quad.graph;
        match self {
            Arrangement::Spog => make_key(s, p, o, g),
            Arrangement::Pogs => make_key(p, o, g, s),
            Arrangement::Ogsp => make_key(o, g, s, p),
            Arrangement::Gspo => make_key(g, s, p, o),
            Arrangement::Gpso => make_key(g, p, s, o),
            Arrangement::Ospg => make_key(o, s, p, g),
        }
    }

    /// How two quads stand in this order.
    pub fn compare(self, left: &Quad<Id>, right: &Quad<Id>) -> Ordering
        ensures { result ≡ key_order (the_key_of self left.now) (the_key_of self right.now) }
    {
        let s = left.subject.cmp(&right.subject);
        let p = left.predicate.cmp(&right.predicate);
        let o = left.object.cmp(&right.object);
        let g = left.graph.cmp(&right.graph);
        match self {
            Arrangement::Spog => s.then(p.then(o.then(g))),
            Arrangement::Pogs => p.then(o.then(g.then(s))),
            Arrangement::Ogsp => o.then(g.then(s.then(p))),
            Arrangement::Gspo => g.then(s.then(p.then(o))),
            Arrangement::Gpso => g.then(p.then(s.then(o))),
            Arrangement::Ospg => o.then(s.then(p.then(g))),
        }
    }

    /// What a pattern binds, in this order.
    pub fn bounds_of(self, pattern: &QuadPattern<Id>) -> Bounds
        ensures { result ≡ the_bounds_of self pattern.now }
    {
        let s = bound_term(pattern.subject);
        let p = bound_term(pattern.predicate);
        let o = bound_term(pattern.object);
        let g = bound_graph(pattern.graph);
        match self {
            Arrangement::Spog => make_bounds(s, p, o, g),
            Arrangement::Pogs => make_bounds(p, o, g, s),
            Arrangement::Ogsp => make_bounds(o, g, s, p),
            Arrangement::Gspo => make_bounds(g, s, p, o),
            Arrangement::Gpso => make_bounds(g, p, s, o),
            Arrangement::Ospg => make_bounds(o, s, p, g),
        }
    }
}

impl Bounds {
    /// How many of the first places are bound.
    pub fn depth(&self) -> Depth
        ensures { result ≡ depth_of self.now }
    {
        match (self.first, self.second, self.third, self.fourth) {
            (None, _, _, _) => Depth::Zero,
            (Some(_), None, _, _) => Depth::One,
            (Some(_), Some(_), None, _) => Depth::Two,
            (Some(_), Some(_), Some(_), None) => Depth::Three,
            (Some(_), Some(_), Some(_), Some(_)) => Depth::Four,
        }
    }

    /// A key with the bound places. The free ones are never looked at.
    pub fn target(&self) -> Key
        ensures { result ≡ target_of self.now }
    {
        make_key(
            bound_or_none(self.first),
            bound_or_none(self.second),
            bound_or_none(self.third),
            bound_or_none(self.fourth),
        )
    }
}

impl Depth {
    /// How a key stands to a target, by so many of their first places.
    pub fn compare(self, key: &Key, target: &Key) -> Ordering
        ensures { result ≡ order_at self key.now target.now }
    {
        match self {
            Depth::Zero => Ordering::Equal,
            Depth::One => key.first.cmp(&target.first),
            Depth::Two => key
                .first
                .cmp(&target.first)
                .then(key.second.cmp(&target.second)),
            Depth::Three => {
                key.first.cmp(&target.first).then(
                    key.second
                        .cmp(&target.second)
                        .then(key.third.cmp(&target.third)),
                )
            }
            Depth::Four => key.cmp(target),
        }
    }
}

/// Whether a key with this answer stands before the place that is sought: the first that isn't
/// less, or, with `past`, that is greater.
pub fn is_before(past: bool, answer: Ordering) -> bool
    ensures { result ≡ the_is_before past answer }
{
    match answer {
        Ordering::Less => true,
        Ordering::Equal => past,
        Ordering::Greater => false,
    }
}

/// The order that begins with the bound places.
pub fn order_for(pattern: &QuadPattern<Id>) -> Arrangement
    ensures { result ≡ arrangement_for pattern.now }
{
    use Arrangement::{Gpso, Gspo, Ogsp, Ospg, Pogs, Spog};
    use GraphPlace::{Any, Only};
    match (
        pattern.subject,
        pattern.predicate,
        pattern.object,
        pattern.graph,
    ) {
        (None, None, None, Any) => Spog,
        (None, None, None, Only(_)) => Gspo,
        (None, None, Some(_), _) => Ogsp,
        (None, Some(_), None, Any) => Pogs,
        (None, Some(_), None, Only(_)) => Gpso,
        (None, Some(_), Some(_), _) => Pogs,
        (Some(_), None, Some(_), Any) => Ospg,
        (Some(_), None, Some(_), Only(_)) => Ogsp,
        (Some(_), Some(_), Some(_), _) => Spog,
        (Some(_), _, None, Any) => Spog,
        (Some(_), _, None, Only(_)) => Gspo,
    }
}
