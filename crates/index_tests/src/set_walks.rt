//! Sets of quads, of known terms and of made nodes, beside plain filters.
ghost use Rattle.quad_index.specs.Index.{AllAlike};

use crate::quads::{pattern_of, quad_of};
use crate::scans::{filtered, indexed};
use datasets::{Id, Quad, QuadPattern};
use quad_index::Order;
use quad_lists::{BESIDE_SPOG, KnownQuad, QuadList, known_quads, known_set};
use quad_sets::lists::merged;
use quad_sets::{QuadSet, QuadSlice};
use radix::{by_numbers, sample, set_by_numbers};
use sets::set_of;
use std::alloc::{AllocError, Global};
use std::thread::Threads;

/// Quads from one number on and before another, and whether every fifth of them is of a made node.
type Row = (usize, usize, bool);

fn quad_at(i: usize, are_made: bool) -> Quad<Id> {
    let mut quad = quad_of(i);
    if are_made && i % 5 == 1 {
        quad.object = Id::Made {
            request: 1,
            op: 0,
            label: 0,
            rank: (i % 1000) as u32,
        };
    }
    quad
}

fn push_row(quads: &mut Vec<Quad<Id>>, row: Row) -> Result<(), AllocError> {
    let (first, past, are_made) = row;
    for i in first..past {
        quads.push(quad_at(i, are_made))?;
    }
    Ok(())
}

// The quads of rows, one row behind another.
fn quads_of(alloc: Global, rows: &[Row]) -> Result<Vec<Quad<Id>>, AllocError> {
    let mut quads = Vec::new(alloc);
    for row in rows {
        push_row(&mut quads, *row)?;
    }
    Ok(quads)
}

// Whether a list is of these quads.
fn is_told(alloc: Global, list: &QuadList, quads: &[Quad<Id>]) -> Result<bool, AllocError> {
    let mut so = list.len() == quads.len() && list.is_empty() == quads.is_empty();
    for place in 0..list.len() {
        so = so && quads.get(place) == Some(&list.get(place));
    }
    Ok(so && list.quads(alloc)?.as_slice() == quads)
}

// Whether a set is of these quads.
fn is_set_of(alloc: Global, set: &QuadSlice<'_>, quads: &[Quad<Id>]) -> Result<bool, AllocError> {
    Ok(set.quads(alloc)?.as_slice() == quads)
}

// The set of a row, whose quads come twice.
fn set_twice(alloc: Global, row: Row) -> Result<QuadSet, AllocError> {
    QuadSet::of_quads(alloc, quads_of(alloc, &[row, row])?)
}

// Whether a pattern finds these quads of a set.
fn is_matched_in_set(
    alloc: Global,
    set: &QuadSlice<'_>,
    pattern: &QuadPattern<Id>,
    wanted: &[Quad<Id>],
) -> Result<bool, AllocError> {
    let found = set.matching(alloc, pattern)?.into_list();
    is_told(alloc, &found, wanted)
}

// Whether it does in the set's other orders.
fn is_scanned(
    alloc: Global,
    set: &QuadSlice<'_>,
    orders: &[Order],
    pattern: &QuadPattern<Id>,
    wanted: &[Quad<Id>],
) -> Result<bool, AllocError>
    requires { AllAlike set.now orders.now }
{
    let found = set.scan(alloc, orders, pattern)?.into_list();
    is_told(alloc, &found, wanted)
}

// Whether a pattern finds what a filter does, in SPOG and in the other orders.
fn is_found_by(
    alloc: Global,
    set: &QuadSlice<'_>,
    orders: &[Order],
    pattern: &QuadPattern<Id>,
    quads: &[Quad<Id>],
) -> Result<bool, AllocError>
    requires { AllAlike set.now orders.now }
{
    let wanted = filtered(alloc, pattern, quads)?;
    Ok(
        is_matched_in_set(alloc, set, pattern, &wanted)?
            && is_scanned(alloc, set, orders, pattern, &wanted)?,
    )
}

// Whether each pattern of a quad finds what a filter does, and the quad is told.
fn is_found(
    alloc: Global,
    set: &QuadSlice<'_>,
    quads: &[Quad<Id>],
    quad: &Quad<Id>,
) -> Result<bool, AllocError> {
    let orders = set.in_orders(alloc, &BESIDE_SPOG)?;
    let mut so = set.contains(quad);
    for places in 0..16 {
        let pattern = pattern_of(places, quad);
        so = so && set.has_match(&pattern);
        so = so && is_found_by(alloc, set, &orders, &pattern, quads)?;
    }
    Ok(so)
}

// Whether the patterns of three quads find what a filter does.
fn are_found(alloc: Global, are_made: bool) -> Result<bool, AllocError> {
    let set = set_twice(alloc, (0, 300, are_made))?;
    let quads = set_of(quads_of(alloc, &[(0, 300, are_made)])?);
    let mut so = set.as_slice().len() == quads.len();
    for i in [7, 8, 101] {
        so = so && is_found(alloc, &set.as_slice(), &quads, &quad_at(i, are_made))?;
    }
    Ok(so)
}

#[test]
fn sets_find_what_a_filter_does(rt: HostRuntime) -> Result<(), AllocError> {
    assert!(rt; are_found(rt.alloc(), false)?);
    assert!(rt; are_found(rt.alloc(), true)?);
    Ok(())
}

// A set without fifty of its quads and with a hundred and fifty others.
fn changed(alloc: Global, members: &QuadSlice<'_>, are_made: bool) -> Result<QuadSet, AllocError> {
    let gone = set_twice(alloc, (100, 150, are_made))?;
    let more = set_twice(alloc, (250, 400, false))?;
    QuadSet::changed(alloc, members, &gone.as_slice(), &more.as_slice())
}

// A set after that change, where it is not as before.
fn after_change(alloc: Global, are_made: bool) -> Result<Option<QuadSet>, AllocError> {
    let members = set_twice(alloc, (0, 300, are_made))?;
    let after = changed(alloc, &members.as_slice(), are_made)?;
    if after.as_slice().is_same(&members.as_slice()) {
        return Ok(None);
    }
    Ok(Some(after))
}

// Whether a set is the same when it is made again of its quads.
fn is_made_again(alloc: Global, set: &QuadSlice<'_>) -> Result<bool, AllocError> {
    set.rises();
    let same = QuadSet::from_set(alloc, set.quads(alloc)?)?;
    Ok(set.is_same(&same.as_slice()))
}

// Whether a set after a change is the set of what is left and of what comes.
fn is_changed(alloc: Global, are_made: bool) -> Result<bool, AllocError> {
    let rows = [(0, 100, are_made), (150, 300, are_made), (250, 400, false)];
    let Some(after) = after_change(alloc, are_made)? else {
        return Ok(false);
    };
    let after = after.as_slice();
    let wanted = set_of(quads_of(alloc, &rows)?);
    Ok(is_set_of(alloc, &after, &wanted)? && is_made_again(alloc, &after)?)
}

#[test]
fn sets_change(rt: HostRuntime) -> Result<(), AllocError> {
    assert!(rt; is_changed(rt.alloc(), false)?);
    assert!(rt; is_changed(rt.alloc(), true)?);
    Ok(())
}

// What a set of 300 quads lacks of these.
fn lacked(alloc: Global, quads: Vec<Quad<Id>>) -> Result<Vec<Quad<Id>>, AllocError> {
    let set = set_twice(alloc, (0, 300, true))?;
    Ok(set.as_slice().lacked(quads))
}

#[test]
fn a_set_lacks_what_it_has_not(rt: HostRuntime) -> Result<(), AllocError> {
    let alloc = rt.alloc();
    let left = lacked(alloc, quads_of(alloc, &[(290, 310, false)])?)?;
    let wanted = quads_of(alloc, &[(300, 310, false)])?;
    assert!(rt; left.as_slice().ends_with(&wanted));
    assert!(rt; left.len() == wanted.len() + 2);
    Ok(())
}

// These quads as a list.
fn listed(alloc: Global, quads: &[Quad<Id>]) -> Result<QuadList, AllocError> {
    let mut list = QuadList::with_room(alloc, 7)?;
    for quad in quads {
        list.push(alloc, quad)?;
    }
    Ok(list)
}

// Whether a pattern finds in a list what a filter does.
fn is_matched_by(
    alloc: Global,
    list: &QuadList,
    quads: &[Quad<Id>],
    pattern: &QuadPattern<Id>,
) -> Result<bool, AllocError> {
    let wanted = filtered(alloc, pattern, quads)?;
    let found = list.matching(alloc, pattern)?;
    is_told(alloc, &found, &wanted)
}

// Whether each pattern of a quad does.
fn is_matched(
    alloc: Global,
    list: &QuadList,
    quads: &[Quad<Id>],
    quad: &Quad<Id>,
) -> Result<bool, AllocError> {
    let mut so = true;
    for places in 0..16 {
        so = so && is_matched_by(alloc, list, quads, &pattern_of(places, quad))?;
    }
    Ok(so)
}

// Whether a copy of a list has its quads.
fn is_copied(alloc: Global, list: &QuadList, quads: &[Quad<Id>]) -> Result<bool, AllocError> {
    let copy = list.copied(alloc)?;
    Ok(is_told(alloc, &copy, quads)? && list.is_same(&copy))
}

// Whether a list is the same as the list of other quads.
fn is_same_as(alloc: Global, list: &QuadList, others: &[Quad<Id>]) -> Result<bool, AllocError> {
    let other = listed(alloc, others)?;
    Ok(list.is_same(&other))
}

// Whether a list, which is not in order, tells the quads of a vector.
fn tells(alloc: Global, list: &QuadList, quads: &[Quad<Id>]) -> Result<bool, AllocError> {
    let less = quads.get(1..).unwrap_or(quads);
    Ok(
        is_told(alloc, list, quads)?
            && is_copied(alloc, list, quads)?
            && !is_same_as(alloc, list, less)?
            && !list.is_set()
            && is_matched(alloc, list, quads, &quad_of(11))?,
    )
}

// Whether a list, and its set, tell what a vector does.
fn is_listed(alloc: Global, are_made: bool) -> Result<bool, AllocError> {
    let quads = quads_of(alloc, &[(0, 300, are_made)])?;
    let list = listed(alloc, &quads)?;
    if !tells(alloc, &list, &quads)? {
        return Ok(false);
    }
    let set = list.into_set();
    Ok(set.is_set() && is_told(alloc, &set, &set_of(quads))?)
}

// The quads that are known, in little room.
fn known_of(alloc: Global, quads: &[Quad<Id>]) -> Result<Vec<KnownQuad>, AllocError> {
    let known = known_quads(alloc, quads)?;
    Ok(known.unwrap_or(Vec::new(alloc)))
}

// Whether a list that is made of known quads has them.
fn is_known_told(alloc: Global, quads: &[Quad<Id>]) -> Result<bool, AllocError> {
    let list = QuadList::of_known(known_of(alloc, quads)?);
    is_told(alloc, &list, quads)
}

// Whether one that is made of a vector has its quads.
fn is_wide_told(alloc: Global, quads: &[Quad<Id>]) -> Result<bool, AllocError> {
    let list = QuadList::of_wide(Vec::from_slice(alloc, quads)?);
    is_told(alloc, &list, quads)
}

// Whether one that is made of another list's entries has its quads.
fn is_told_again(alloc: Global, quads: &[Quad<Id>]) -> Result<bool, AllocError> {
    let list = QuadList::of_entries(listed(alloc, quads)?.into_entries());
    is_told(alloc, &list, quads)
}

#[test]
fn lists_tell_their_quads(rt: HostRuntime) -> Result<(), AllocError> {
    let alloc = rt.alloc();
    assert!(rt; is_listed(alloc, false)?);
    assert!(rt; is_listed(alloc, true)?);
    assert!(rt; is_told(alloc, &QuadList::new(alloc), &[])?);
    let quads = quads_of(alloc, &[(0, 30, false)])?;
    assert!(rt; is_known_told(alloc, &quads)? && is_wide_told(alloc, &quads)?);
    assert!(rt; is_told_again(alloc, &quads)?);
    Ok(())
}

// Whether a copy of a set is of these quads.
fn is_set_copied(alloc: Global, set: &QuadSet, quads: &[Quad<Id>]) -> Result<bool, AllocError> {
    let again = QuadSet::of_list(set.copied(alloc)?.into_list());
    is_set_of(alloc, &again.as_slice(), quads)
}

// Whether what a set of 200 quads and another of 150 have together, and a copy of it, are what
// plain vectors say.
fn is_joined(
    alloc: Global,
    first: &QuadSlice<'_>,
    second: &QuadSlice<'_>,
    are_made: bool,
) -> Result<bool, AllocError> {
    let both = set_of(quads_of(alloc, &[(0, 200, are_made), (150, 300, false)])?);
    let union = QuadSet::union(alloc, first, second)?;
    Ok(is_set_of(alloc, &union.as_slice(), &both)? && is_set_copied(alloc, &union, &both)?)
}

// The 200 quads without those of the other set.
fn left_of(
    alloc: Global,
    second: &QuadSlice<'_>,
    are_made: bool,
) -> Result<Vec<Quad<Id>>, AllocError> {
    let mut left = Vec::new(alloc);
    for i in 0..200 {
        let quad = quad_at(i, are_made);
        if !second.contains(&quad) {
            left.push(quad)?;
        }
    }
    Ok(left)
}

// Whether what the first set has without the second is what plain vectors say.
fn is_without(
    alloc: Global,
    first: &QuadSlice<'_>,
    second: &QuadSlice<'_>,
    are_made: bool,
) -> Result<bool, AllocError> {
    let without = QuadSet::without(alloc, first, second)?;
    let left = set_of(left_of(alloc, second, are_made)?);
    is_set_of(alloc, &without.as_slice(), &left)
}

// The set of a list of the 200 quads, without those of the other set and with ten more.
fn list_changed(
    alloc: Global,
    gone: &QuadSlice<'_>,
    are_made: bool,
) -> Result<QuadSet, AllocError> {
    let list = listed(alloc, &quads_of(alloc, &[(0, 200, are_made)])?)?;
    let more = set_twice(alloc, (10, 20, are_made))?;
    QuadSet::of_changed(alloc, list, gone, &more.as_slice())
}

// Whether that is what plain vectors say.
fn is_list_changed(
    alloc: Global,
    gone: &QuadSlice<'_>,
    are_made: bool,
) -> Result<bool, AllocError> {
    let mut left = left_of(alloc, gone, are_made)?;
    push_row(&mut left, (10, 20, are_made))?;
    let changed = list_changed(alloc, gone, are_made)?;
    is_set_of(alloc, &changed.as_slice(), &set_of(left))
}

// Whether what sets have together, one without another, and a list of quads that changes are what
// plain vectors say.
fn are_joined_and_parted(alloc: Global, are_made: bool) -> Result<bool, AllocError> {
    let first = set_twice(alloc, (0, 200, are_made))?;
    let second = set_twice(alloc, (150, 300, false))?;
    let (first, second) = (first.as_slice(), second.as_slice());
    Ok(
        is_joined(alloc, &first, &second, are_made)?
            && is_without(alloc, &first, &second, are_made)?
            && is_list_changed(alloc, &second, are_made)?,
    )
}

#[test]
fn sets_are_joined_and_parted(rt: HostRuntime) -> Result<(), AllocError> {
    assert!(rt; are_joined_and_parted(rt.alloc(), false)?);
    assert!(rt; are_joined_and_parted(rt.alloc(), true)?);
    Ok(())
}

// The set of a thousand quads of which few go, and to which few come.
fn long_set_changed(alloc: Global) -> Result<QuadSet, AllocError> {
    let long = QuadSet::of_quads(alloc, quads_of(alloc, &[(0, 1000, false)])?)?;
    let gone = quads_of(alloc, &[(100, 120, false), (990, 1020, false)])?;
    let gone = QuadSet::of_quads(alloc, gone)?;
    let more = quads_of(
        alloc,
        &[(5, 10, false), (110, 115, false), (2000, 2010, false)],
    )?;
    let more = QuadSet::of_quads(alloc, more)?;
    QuadSet::changed(alloc, &long.as_slice(), &gone.as_slice(), &more.as_slice())
}

// Whether that is what plain vectors say.
fn is_long_set_changed(alloc: Global) -> Result<bool, AllocError> {
    let rows = [
        (0, 100, false),
        (110, 115, false),
        (120, 990, false),
        (2000, 2010, false),
    ];
    let left = set_of(quads_of(alloc, &rows)?);
    let changed = long_set_changed(alloc)?;
    is_set_of(alloc, &changed.as_slice(), &left)
}

#[test]
fn long_sets_are_changed(rt: HostRuntime) -> Result<(), AllocError> {
    assert!(rt; is_long_set_changed(rt.alloc())?);
    Ok(())
}

// What a change of a set of twenty thousand quads makes of it, in pieces.
fn changed_pieces<T: Threads + Sync>(
    rt: &T,
    alloc: Global,
    threads: usize,
) -> Result<Vec<QuadList>, AllocError> {
    let long = QuadSet::of_quads(alloc, quads_of(alloc, &[(0, 20_000, false)])?)?;
    let gone = quads_of(alloc, &[(100, 120, false), (19_990, 20_010, false)])?;
    let gone = QuadSet::of_quads(alloc, gone)?;
    let more = quads_of(alloc, &[(110, 115, false), (20_000, 30_000, false)])?;
    let more = QuadSet::of_quads(alloc, more)?;
    let (long, gone, more) = (long.as_slice(), gone.as_slice(), more.as_slice());
    QuadSet::changed_in_pieces(rt, alloc, &long, &gone, &more, threads)
}

// Whether the pieces that so many threads make are what plain vectors say, one behind another, and
// one for each thread.
fn is_changed_in_pieces<T: Threads + Sync>(
    rt: &T,
    alloc: Global,
    threads: usize,
) -> Result<bool, AllocError> {
    let rows = [
        (0, 100, false),
        (110, 115, false),
        (120, 19_990, false),
        (20_000, 30_000, false),
    ];
    let left = set_of(quads_of(alloc, &rows)?);
    let pieces = changed_pieces(rt, alloc, threads)?;
    let mut quads = Vec::new(alloc);
    for piece in &pieces {
        quads.extend_from_slice(piece.quads(alloc)?.as_slice())?;
    }
    Ok(pieces.len() == threads && quads == left)
}

#[test]
fn long_sets_are_changed_in_pieces(rt: HostRuntime) -> Result<(), AllocError> {
    assert!(rt; is_changed_in_pieces(&rt, rt.alloc(), 1)?);
    assert!(rt; is_changed_in_pieces(&rt, rt.alloc(), 3)?);
    Ok(())
}

// Whether a part of a set is that of its vector.
fn is_part(alloc: Global, set: &QuadSlice<'_>, quads: &[Quad<Id>]) -> Result<bool, AllocError> {
    if set.len() < 200 {
        return Ok(false);
    }
    let part = set.part(alloc, 50, 200)?;
    Ok(matches!(quads.get(50..200), Some(wanted) if part.as_slice() == wanted))
}

// Whether the quads of a set stand behind others.
fn is_behind(alloc: Global, set: &QuadSlice<'_>, quads: &[Quad<Id>]) -> Result<bool, AllocError> {
    let mut behind = quads_of(alloc, &[(7, 8, false)])?;
    set.push_all(&mut behind)?;
    Ok(matches!(behind.as_slice(), [first, others @ ..]
            if *first == quad_of(7) && others == quads))
}

// Whether a part of a set, and its quads behind others, are those of its vector.
fn is_parted(alloc: Global, are_made: bool) -> Result<bool, AllocError> {
    let quads = set_of(quads_of(alloc, &[(0, 300, are_made)])?);
    let set = set_twice(alloc, (0, 300, are_made))?;
    let lent = set.as_slice();
    Ok(is_part(alloc, &lent, &quads)? && is_behind(alloc, &lent, &quads)?)
}

// The set of an index of quads.
fn set_of_index(alloc: Global, quads: &[Quad<Id>]) -> Result<QuadSet, AllocError> {
    let index = indexed(alloc, quads, &BESIDE_SPOG)?;
    QuadSet::of_index(alloc, &index)
}

// Whether the set of an index has its quads.
fn is_of_index(alloc: Global, are_made: bool) -> Result<bool, AllocError> {
    let quads = quads_of(alloc, &[(0, 300, are_made)])?;
    let set = set_of_index(alloc, &quads)?;
    is_set_of(alloc, &set.as_slice(), &set_of(quads))
}

#[test]
fn sets_are_lent_in_parts(rt: HostRuntime) -> Result<(), AllocError> {
    for are_made in [false, true] {
        assert!(rt; is_parted(rt.alloc(), are_made)?);
        assert!(rt; is_of_index(rt.alloc(), are_made)?);
    }
    Ok(())
}

// Whether the set of known quads is this one, by their numbers as objects and as subjects.
fn is_set_by_numbers(
    alloc: Global,
    known: &[KnownQuad],
    set: &[KnownQuad],
) -> Result<bool, AllocError> {
    let by_object = set_by_numbers(alloc, known, 1, |quad: &KnownQuad, _| quad.object)?;
    let by_subject = set_by_numbers(alloc, known, 1, |quad: &KnownQuad, _| quad.subject)?;
    Ok(by_object.as_slice() == set && by_subject.as_slice() == set)
}

// Whether the set of known quads has so many, and is found by their numbers too.
fn has_known_set(alloc: Global, quads: &[Quad<Id>], count: usize) -> Result<bool, AllocError> {
    let known = known_of(alloc, quads)?;
    let set = known_set(Vec::from_slice(alloc, &known)?);
    Ok(set.len() == count && is_set_by_numbers(alloc, &known, &set)?)
}

#[test]
fn vectors_come_to_sets(rt: HostRuntime) -> Result<(), AllocError> {
    let alloc = rt.alloc();
    let quads = quads_of(alloc, &[(0, 3000, false), (2000, 3000, false)])?;
    let set = set_of(Vec::from_slice(alloc, &quads)?);
    assert!(rt; has_known_set(alloc, &quads, set.len())?);
    assert!(rt; merged(quads)?.as_slice() == set.as_slice());
    Ok(())
}

#[test]
fn a_list_is_put_by_numbers(rt: HostRuntime) -> Result<(), AllocError> {
    let alloc = rt.alloc();
    let list = Vec::from_slice(alloc, &[70_000u32, 5, u32::MAX, 5_000, 0, 70_000])?;
    let put = by_numbers(alloc, list, 2, |number: &u32, key| match key {
        0 => *number % 1_000,
        _ => *number / 1_000,
    })?;
    let wanted = [0u32, 5, 5_000, 70_000, 70_000, u32::MAX];
    assert!(rt; put.as_slice() == wanted.as_slice());
    Ok(())
}

// The numbers of 3,000 members, of which the first is the greatest.
fn falling(alloc: Global) -> Result<Vec<u32>, AllocError> {
    let mut list = Vec::new(alloc);
    for i in 0..3000u32 {
        list.push(2999 - i)?;
    }
    Ok(list)
}

#[test]
fn each_twelfth_number_is_sampled(rt: HostRuntime) -> Result<(), AllocError> {
    let alloc = rt.alloc();
    let list = falling(alloc)?;
    let numbers = sample(alloc, &list, |number: &u32| *number)?;
    assert!(rt; numbers.len() == 250);
    for place in 0..numbers.len() {
        assert!(rt; numbers[place] as usize == 11 + 12 * place);
    }
    Ok(())
}
