//! Where quads of known terms stand beside a key, with no key made of their terms.
ghost use Rattle.std.specs.Prelude.{◌≡◌};
ghost use Rattle.quad_lists.specs.Keys.{key_of, order_at, place_order};
ghost use Rattle.quad_lists.specs.Known.{known_graph, quad_of};
ghost use Rattle.quad_lists.specs.KnownKey.{key_of_numbers};

use crate::key::{Arrangement, Depth, Key};
use crate::known::KnownQuad;
use datasets::Id;
use std::cmp::Ordering;

/// The numbers of a quad's terms, in the sequence of an order.
#[derive(Clone, Copy)]
pub(crate) struct KnownKey {
    pub(crate) first: Option<u32>,
    pub(crate) second: Option<u32>,
    pub(crate) third: Option<u32>,
    pub(crate) fourth: Option<u32>,
}

fn make_known_key(
    first: Option<u32>,
    second: Option<u32>,
    third: Option<u32>,
    fourth: Option<u32>,
) -> KnownKey
    ensures { result ≡ record { first = first; second = second; third = third; fourth = fourth } }
{
    KnownKey {
        first,
        second,
        third,
        fourth,
    }
}

// How a number stands to a place of a key.
fn place_beside(number: Option<u32>, place: Option<Id>) -> Ordering
    ensures { result ≡ place_order (known_graph number) place }
{
    match (number, place) {
        (None, None) => Ordering::Equal,
        (None, Some(_)) => Ordering::Less,
        (Some(_), None) => Ordering::Greater,
        (Some(number), Some(Id::Known(other))) => number.cmp(&other),
        (Some(_), Some(Id::Made { .. })) => Ordering::Less,
    }
}

// The numbers of a quad, in the sequence of an order.
fn numbers_of(quad: &KnownQuad, arrangement: Arrangement) -> KnownKey
    ensures { key_of_numbers result ≡ key_of arrangement (quad_of quad.now) }
{
    let s = Some(quad.subject);
    let p = Some(quad.predicate);
    let o = Some(quad.object);
    let g = quad.graph;
    match arrangement {
        Arrangement::Spog => make_known_key(s, p, o, g),
        Arrangement::Pogs => make_known_key(p, o, g, s),
        Arrangement::Ogsp => make_known_key(o, g, s, p),
        Arrangement::Gspo => make_known_key(g, s, p, o),
        Arrangement::Gpso => make_known_key(g, p, s, o),
        Arrangement::Ospg => make_known_key(o, s, p, g),
    }
}

// How the numbers of a quad stand to a key, by so many of their first places.
fn numbers_beside(numbers: KnownKey, depth: Depth, key: &Key) -> Ordering
    ensures { result ≡ order_at depth (key_of_numbers numbers) key.now }
{
    let first = place_beside(numbers.first, key.first);
    let second = place_beside(numbers.second, key.second);
    let third = place_beside(numbers.third, key.third);
    let fourth = place_beside(numbers.fourth, key.fourth);
    match depth {
        Depth::Zero => Ordering::Equal,
        Depth::One => first,
        Depth::Two => first.then(second),
        Depth::Three => first.then(second.then(third)),
        Depth::Four => first.then(second.then(third.then(fourth))),
    }
}

/// How a quad's key in an order stands to another key, by so many of their first places.
pub fn known_beside(quad: &KnownQuad, arrangement: Arrangement, depth: Depth, key: &Key) -> Ordering
    ensures { result ≡ order_at depth (key_of arrangement (quad_of quad.now)) key.now }
{
    numbers_beside(numbers_of(quad, arrangement), depth, key)
}
