//! Changes of a set of quads of known terms, made in pieces by several threads.
ghost use Rattle.std.specs.Prelude.{◌≡◌, IfOk, map};
ghost use Rattle.std.specs.List.Sorted.{IsStrictlySortedBy};
ghost use Rattle.std.specs.Thread.{IsSync};
ghost use Rattle.sets.specs.Sets.{union, without};
ghost use Rattle.quad_lists.specs.Known.{quad_of};
ghost use Rattle.quad_lists.specs.KnownOrder.{known_order};
ghost use Rattle.quad_sets.specs.Pieces.{quads_in_pieces};
ghost use Rattle.quad_sets.specs.Runs.{AreLessTo, IsCut};

use crate::runs::changed_in_runs;
use quad_lists::{KnownQuad, QuadList};
use radix::place_for_last;
use sets::Exact;
use std::alloc::{AllocError, Global};
use std::thread::{Threads, join};

/// How many members are below a value.
fn count_below<T: Exact>(set: &[T], value: &T) -> usize
    requires { IsStrictlySortedBy T.cmp set.now }
    ensures { AreLessTo T.cmp value.now set.now result }
{
    match set.binary_search(value) {
        Ok(place) => place,
        Err(place) => place,
    }
}

/// The members below a value, and the others.
fn cut<'a, T: Exact>(set: &'a [T], value: &T) -> (&'a [T], &'a [T])
    requires { IsStrictlySortedBy T.cmp set.now }
    ensures cut { IsCut T.cmp set.now value.now result.0.now result.1.now }
    ensures below { IsStrictlySortedBy T.cmp result.0.now }
    ensures others { IsStrictlySortedBy T.cmp result.1.now }
{
    set.split_at(count_below(set, value))
}

/// The quads of a set that are none of another's, and more, as a list.
fn changed_list(
    alloc: Global,
    set: &[KnownQuad],
    gone: &[KnownQuad],
    more: &[KnownQuad],
) -> Result<QuadList, AllocError>
    requires set { IsStrictlySortedBy known_order set.now }
    requires gone { IsStrictlySortedBy known_order gone.now }
    requires more { IsStrictlySortedBy known_order more.now }
    ensures { IfOk result (λ list. list
        ≡ map quad_of (union known_order (without known_order set.now gone.now) more.now)) }
{
    Ok(QuadList::of_known(changed_in_runs(alloc, set, gone, more)?))
}

/// A list as the first of pieces.
pub(crate) fn as_piece(alloc: Global, list: QuadList) -> Result<Vec<QuadList>, AllocError>
    ensures { IfOk result (λ pieces. quads_in_pieces pieces.items ≡ list) }
{
    let mut pieces = Vec::new(alloc);
    pieces.push(list)?;
    Ok(pieces)
}

/// The same in pieces, one behind another, which so many threads make. The thread that calls makes
/// all others: of those that new ones make, two often share a processor at first.
pub(crate) fn changed_in_pieces<T: Threads + Sync>(
    rt: &T,
    alloc: Global,
    set: &[KnownQuad],
    gone: &[KnownQuad],
    more: &[KnownQuad],
    threads: usize,
) -> Result<Vec<QuadList>, AllocError>
    requires set { IsStrictlySortedBy known_order set.now }
    requires gone { IsStrictlySortedBy known_order gone.now }
    requires more { IsStrictlySortedBy known_order more.now }
    ensures { IfOk result (λ pieces. quads_in_pieces pieces.items
        ≡ map quad_of (union known_order (without known_order set.now gone.now) more.now)) }
{
    let place = place_for_last(set.len(), threads);
    if threads <= 1 || set.len() <= place {
        return as_piece(alloc, changed_list(alloc, set, gone, more)?);
    }
    let (low, high) = cut(set, &set[place]);
    let (low_gone, high_gone) = cut(gone, &set[place]);
    let (low_more, high_more) = cut(more, &set[place]);
    let others = threads - 1;
    let (last, pieces) = join(
        rt,
        || -> Result<QuadList, AllocError>
            requires { IsStrictlySortedBy known_order high.now
                × IsStrictlySortedBy known_order high_gone.now
                × IsStrictlySortedBy known_order high_more.now }
            ensures { IfOk result (λ list. list ≡ map quad_of (union known_order
                (without known_order high.entry.now high_gone.entry.now) high_more.entry.now)) }
        { changed_list(alloc, high, high_gone, high_more) },
        || -> Result<Vec<QuadList>, AllocError>
            requires { IsSync T.row × IsStrictlySortedBy known_order low.now
                × IsStrictlySortedBy known_order low_gone.now
                × IsStrictlySortedBy known_order low_more.now }
            ensures { IfOk result (λ pieces. quads_in_pieces pieces.items
                ≡ map quad_of (union known_order
                (without known_order low.entry.now low_gone.entry.now) low_more.entry.now)) }
        { changed_in_pieces(rt, alloc, low, low_gone, low_more, others) },
    );
    let mut pieces = pieces?;
    pieces.push(last?)?;
    Ok(pieces)
}
