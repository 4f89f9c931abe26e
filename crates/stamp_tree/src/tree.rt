//! The tree.
ghost use Rattle.std.specs.Prelude.{◌≡◌, ◌<◌, ◌≤◌, ◌+◌, ◌*◌, length, replicate, slice_set, take, drop, vec_len, None, IfOk, IfSome};
ghost use Rattle.stamp_tree.specs.Standings.{first_due, StandsFor};
ghost use Rattle.stamp_tree.specs.Pairs.{ArePairs};
ghost use Rattle.stamp_tree.specs.Leading.{Leads};

use crate::standing::{Due, Standing, is_due, is_other, joined};
use std::alloc::{AllocError, Global};
use std::marker::Model;

/// How requests stand, in their order: a list, above it one half as long of how they stand two by
/// two, and so on. Contracts see the first list.
#[cycle(tree)]
#[derive(Drop)]
pub struct StampTree {
    list: Vec<Standing>,
    above: Above,
}

// How those of a list stand two by two, where there are several.
#[cycle(tree)]
#[derive(Drop)]
enum Above {
    Nothing,
    Pairs(Box<StampTree>),
}

impl Model for StampTree {
    ghost use Rattle.std.specs.Prelude.{List, length};
    ghost use Rattle.std.proofs.Common.{arith};
    ghost use Rattle.stamp_tree.specs.declared.standing.Standing.{Standing as Stands};

    ghost Value = { List Stands };

    ghost use Rattle.stamp_tree.specs.Pairs.{IsSummed};

    ghost view = { λ t. t.list.items };

    ghost invariant = { λ t. IsSummed t.list.items t.above };

    ghost size = { length };

    ghost size_decreases = { λ t h. Prim.grind (arith) };
}

// How two of a list stand together, of which the last may stand alone.
fn pair_at(list: &[Standing], pair: usize) -> Standing
    requires { pair + pair < length list.now }
    ensures { StandsFor result (take 2 (drop (pair + pair) list.now)) }
{
    let place = pair + pair;
    if place + 1 < list.len() {
        joined(list[place], list[place + 1])
    } else {
        list[place]
    }
}

// How all of them stand two by two.
fn pairs_of(alloc: Global, list: &[Standing]) -> Result<Vec<Standing>, AllocError>
    ensures pairs { IfOk result (λ pairs. ArePairs list.now pairs.items) }
    ensures count { IfOk result (λ pairs. (2 * vec_len pairs ≤ length list.now + 1)) }
{
    let mut pairs = Vec::new(alloc);
    for pair in 0..list.len() / 2 + list.len() % 2 {
        pairs.push(pair_at(list, pair))?;
    }
    Ok(pairs)
}

// The request for which something is to be done, of one at most, before which nothing changed.
fn leading_alone(list: &[Standing]) -> Option<(usize, u64)>
    requires { length list.now ≤ 1 }
    ensures some { IfSome result (λ found. Leads 0 list.now found.0 found.1) }
    ensures none { result ≡ None → first_due 0 list.now ≡ None }
{
    if list.is_empty() || !is_due(0, list[0].due) {
        return None;
    }
    Some((0, 0))
}

impl StampTree {
    /// So many requests that stand alike.
    pub fn new(alloc: Global, count: usize, standing: Standing) -> Result<StampTree, AllocError>
        ensures { IfOk result (λ tree. tree ≡ replicate count standing) }
    {
        StampTree::over(alloc, Vec::from_elem(alloc, standing, count)?)
    }

    // The tree over a list.
    fn over(alloc: Global, list: Vec<Standing>) -> Result<StampTree, AllocError>
        ensures { IfOk result (λ tree. tree ≡ list.items) }
    {
        if list.len() < 2 {
            let above = Above::Nothing;
            return Ok(StampTree { list, above });
        }
        let pairs = pairs_of(alloc, list.as_slice())?;
        let above = Box::new(alloc, StampTree::over(alloc, pairs)?)?;
        Ok(StampTree {
            list,
            above: Above::Pairs(above),
        })
    }

    /// The request at this place stands so. Where it stands as before, nothing changes above.
    pub fn set(&mut self, place: usize, standing: Standing)
        requires { place < length self.old }
        ensures { self.new ≡ slice_set self.old place standing }
    {
        if !is_other(&self.list[place], &standing) {
            return;
        }
        self.list[place] = standing;
        match &mut self.above {
            Above::Nothing => {}
            Above::Pairs(tree) => tree.set(place / 2, pair_at(self.list.as_slice(), place / 2)),
        }
    }

    /// The first request for which something is to be done.
    pub fn first(&self) -> Option<usize>
        ensures { result ≡ first_due 0 self.now }
    {
        let (place, _latest) = self.leading()?;
        Some(place)
    }

    // The same, with the moment when those before it last changed.
    fn leading(&self) -> Option<(usize, u64)>
        ensures some { IfSome result (λ found. Leads 0 self.now found.0 found.1) }
        ensures none { result ≡ None → first_due 0 self.now ≡ None }
    {
        let Above::Pairs(tree) = &self.above else {
            return leading_alone(self.list.as_slice());
        };
        let (pair, latest) = tree.leading()?;
        let place = pair + pair;
        let first = self.list[place];
        if is_due(latest, first.due) {
            return Some((place, latest));
        }
        Some((place + 1, latest.max(first.changed)))
    }
}
