//! Scans of an index by each of the sixteen sets of bound places, beside a plain filter.
ghost use Rattle.std.specs.Prelude.{◌<◌, ◌^◌};

use crate::quads::{fits, pattern_of, quad_of};
use datasets::{Id, Quad, QuadPattern};
use quad_index::{Index, Looks};
use quad_lists::{Arrangement, BESIDE_SPOG, QuadList};
use sets::set_of;
use std::alloc::{AllocError, Global};

// 500 quads, and those that come with them.
fn quads_with(mut quads: Vec<Quad<Id>>) -> Result<Vec<Quad<Id>>, AllocError> {
    for i in 0..500 {
        quads.push(quad_of(i))?;
    }
    Ok(quads)
}

// The index of a set.
pub fn indexed(
    alloc: Global,
    set: &[Quad<Id>],
    orders: &[Arrangement],
) -> Result<Index, AllocError> {
    let quads = Vec::from_slice(alloc, set)?;
    Index::new(alloc, &set_of(quads), orders)
}

/// The quads that fit.
pub fn filtered(
    alloc: Global,
    pattern: &QuadPattern<Id>,
    quads: &[Quad<Id>],
) -> Result<Vec<Quad<Id>>, AllocError> {
    let mut found = Vec::new(alloc);
    for quad in quads {
        if fits(pattern, quad) {
            found.push(*quad)?;
        }
    }
    Ok(found)
}

// How a scan of each pattern of a quad went.
#[derive(Clone, Copy)]
struct Scans {
    // whether each found what a filter does, the quad among it
    are_right: bool,
    // whether each looked at no more entries than its answer has, and twice nine: 500 has nine
    // binary digits
    are_short: bool,
}

// How a scan of one pattern went.
fn scan_of(
    alloc: Global,
    index: &Index,
    set: &[Quad<Id>],
    pattern: &QuadPattern<Id>,
    quad: &Quad<Id>,
) -> Result<Scans, AllocError> {
    let mut looks = Looks::new();
    let found = index
        .scan_counted(alloc, pattern, &mut looks)?
        .quads(alloc)?;
    let are_short = 0 < looks.count() && looks.count() <= 18 + found.len() as u64;
    let wanted = filtered(alloc, pattern, set)?;
    Ok(Scans {
        are_right: found.as_slice() == wanted.as_slice() && found.as_slice().contains(quad),
        are_short,
    })
}

fn scans_of(
    alloc: Global,
    index: &Index,
    set: &[Quad<Id>],
    quad: &Quad<Id>,
) -> Result<Scans, AllocError> {
    let mut scans = Scans {
        are_right: true,
        are_short: true,
    };
    for places in 0..16 {
        let scan = scan_of(alloc, index, set, &pattern_of(places, quad), quad)?;
        scans.are_right = scans.are_right && scan.are_right;
        scans.are_short = scans.are_short && scan.are_short;
    }
    Ok(scans)
}

// How they went in an index of the set.
fn scans_in(
    alloc: Global,
    orders: &[Arrangement],
    set: &[Quad<Id>],
    quad: &Quad<Id>,
) -> Result<Scans, AllocError> {
    let index = indexed(alloc, set, orders)?;
    scans_of(alloc, &index, set, quad)
}

#[test]
fn each_pattern_finds_what_a_filter_does(rt: HostRuntime) -> Result<(), AllocError> {
    let set = set_of(quads_with(Vec::new(rt.alloc()))?);
    assert!(rt; set.len() == 500);
    for i in [123, 499] {
        let scans = scans_in(rt.alloc(), &BESIDE_SPOG, &set, &quad_of(i))?;
        assert!(rt; scans.are_right && scans.are_short);
    }
    Ok(())
}

#[test]
fn an_index_without_the_order_finds_the_same(rt: HostRuntime) -> Result<(), AllocError> {
    let set = set_of(quads_with(Vec::new(rt.alloc()))?);
    let scans = scans_in(rt.alloc(), &[Arrangement::Ogsp], &set, &quad_of(123))?;
    assert!(rt; scans.are_right && !scans.are_short);
    Ok(())
}

// The set of 500 quads and this one.
fn set_with(alloc: Global, quad: Quad<Id>) -> Result<Vec<Quad<Id>>, AllocError> {
    let mut quads = Vec::new(alloc);
    quads.push(quad)?;
    Ok(set_of(quads_with(quads)?))
}

#[test]
fn a_made_node_is_found(rt: HostRuntime) -> Result<(), AllocError> {
    let made = Quad {
        subject: Id::Made {
            request: 0,
            op: 0,
            label: 0,
            rank: 0,
        },
        ..quad_of(7)
    };
    let set = set_with(rt.alloc(), made)?;
    assert!(rt; set.len() == 501);
    let scans = scans_in(rt.alloc(), &BESIDE_SPOG, &set, &made)?;
    assert!(rt; scans.are_right && scans.are_short);
    Ok(())
}

// The quads as they lie in little room.
fn listed(alloc: Global, quads: &[Quad<Id>]) -> Result<QuadList, AllocError> {
    let mut list = QuadList::with_room(alloc, quads.len())?;
    for quad in quads {
        list.push(alloc, quad)?;
    }
    Ok(list)
}

// A quad with a made node.
fn quad_with_made() -> Quad<Id> {
    Quad {
        subject: Id::Made {
            request: 1,
            op: 2,
            label: 3,
            rank: 4,
        },
        ..quad_of(9)
    }
}

// 500 quads, and this one twice.
fn with_repeated(alloc: Global, last: Quad<Id>) -> Result<Vec<Quad<Id>>, AllocError> {
    let mut quads = quads_with(Vec::new(alloc))?;
    quads.push(last)?;
    quads.push(last)?;
    Ok(quads)
}

// The same as a list.
fn list_with_repeated(alloc: Global, last: Quad<Id>) -> Result<QuadList, AllocError> {
    let quads = with_repeated(alloc, last)?;
    listed(alloc, quads.as_slice())
}

// Whether an index is of the set of these, and a scan of each pattern of the last goes well.
fn is_of_repeated(alloc: Global, index: &Index, last: Quad<Id>) -> Result<bool, AllocError> {
    let set = set_of(with_repeated(alloc, last)?);
    let scans = scans_of(alloc, index, &set, &last)?;
    let is_right = scans.are_right && scans.are_short;
    Ok(is_right && index.quads(alloc)?.as_slice() == set.as_slice())
}

#[test]
fn quads_come_in_any_order_and_twice(rt: HostRuntime) -> Result<(), AllocError> {
    let alloc = rt.alloc();
    for last in [quad_of(3), quad_with_made()] {
        let list = list_with_repeated(alloc, last)?;
        let index = Index::of_quads(alloc, list, &BESIDE_SPOG)?;
        assert!(rt; is_of_repeated(alloc, &index, last)?);
    }
    Ok(())
}

#[test]
fn quads_are_put_in_order_by_threads(rt: HostRuntime) -> Result<(), AllocError> {
    let alloc = rt.alloc();
    for last in [quad_of(3), quad_with_made()] {
        let list = list_with_repeated(alloc, last)?;
        let index = Index::of_quads_by(&rt, alloc, list, &BESIDE_SPOG)?;
        assert!(rt; is_of_repeated(alloc, &index, last)?);
    }
    Ok(())
}

// 3,000 quads, of which so many are distinct, the last of these first.
fn many_quads(alloc: Global, distinct: usize) -> Result<QuadList, AllocError>
    requires { 0 < distinct }
{
    let mut list = QuadList::new(alloc);
    for i in 0..3000usize {
        list.push(alloc, &quad_of(2999 - i % distinct))?;
    }
    Ok(list)
}

#[test]
fn many_quads_stand_in_each_order(rt: HostRuntime) -> Result<(), AllocError> {
    let alloc = rt.alloc();
    for distinct in [3000, 1500] {
        let list = many_quads(alloc, distinct)?;
        let set = set_of(list.quads(alloc)?);
        assert!(rt; set.len() == distinct);
        let index = Index::of_quads(alloc, list, &BESIDE_SPOG)?;
        assert!(rt; scans_of(alloc, &index, &set, &quad_of(2222))?.are_right);
    }
    Ok(())
}

// Whether an index is of the set of these, and a scan of each pattern goes well.
fn is_of_many(alloc: Global, index: &Index, distinct: usize) -> Result<bool, AllocError>
    requires { 0 < distinct }
{
    let set = set_of(many_quads(alloc, distinct)?.quads(alloc)?);
    let is_right = scans_of(alloc, index, &set, &quad_of(2222))?.are_right;
    Ok(is_right && index.quads(alloc)?.as_slice() == set.as_slice())
}

#[test]
fn many_quads_are_put_in_order_by_threads(rt: HostRuntime) -> Result<(), AllocError> {
    let alloc = rt.alloc();
    for distinct in [3000, 1500] {
        let list = many_quads(alloc, distinct)?;
        let index = Index::of_quads_by(&rt, alloc, list, &BESIDE_SPOG)?;
        assert!(rt; is_of_many(alloc, &index, distinct)?);
    }
    Ok(())
}

// 3,000 quads of one predicate, which stand otherwise by their objects than by their subjects.
fn quads_of_a_predicate(alloc: Global, least: u32) -> Result<Vec<Quad<Id>>, AllocError>
    requires { least < 2 ^ 23 }
{
    let mut quads = Vec::new(alloc);
    for i in 0..3000u32 {
        quads.push(Quad {
            subject: Id::Known(least + i * 7919 % 3001),
            object: Id::Known(i % 1000),
            ..quad_of(1)
        })?;
    }
    Ok(quads)
}

// What an index of a set finds of that predicate.
fn found_by_predicate(alloc: Global, set: &[Quad<Id>]) -> Result<Vec<Quad<Id>>, AllocError> {
    let index = indexed(alloc, set, &BESIDE_SPOG)?;
    let found = index.scan(alloc, &pattern_of(2, &quad_of(1)))?;
    found.quads(alloc)
}

#[test]
fn many_quads_of_a_predicate_come_by_subject(rt: HostRuntime) -> Result<(), AllocError> {
    for least in [0, 0x50_0000] {
        let set = set_of(quads_of_a_predicate(rt.alloc(), least)?);
        assert!(rt; set.len() == 3000);
        let found = found_by_predicate(rt.alloc(), &set)?;
        assert!(rt; found.as_slice() == set.as_slice());
    }
    Ok(())
}
