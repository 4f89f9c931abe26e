//! Changes that are joined, beside the same changes applied one after another.
use crate::quads::{pattern_of, quad_of};
use datasets::{Id, Quad, Read};
use delta::Delta;
use quad_lists::{Arrangement, BESIDE_SPOG};
use quad_sets::QuadSet;
use reads::{Answered, CompactView, IndexedView, Scanned, View};
use std::alloc::{AllocError, Global};
use std::thread::Threads;
use version_overlay::Settled;

/// Quads from one number on and before another.
type Span = (usize, usize);

/// A change: which quads come, which go, and a graph name each that comes and goes. And in how many
/// of the ways the changes are put in order behind it.
struct Row {
    present: Span,
    absent: Span,
    there: u32,
    gone: u32,
    ways: u32,
}

/// Short changes, some that are alike in length one after another, and long ones. Some put back
/// what went before, and some take what came.
const ROWS: [Row; 14] = [
    Row {
        present: (400, 401),
        absent: (0, 0),
        there: 3,
        gone: 1,
        ways: 1,
    },
    Row {
        present: (401, 403),
        absent: (3, 4),
        there: 1,
        gone: 3,
        ways: 1,
    },
    Row {
        present: (3, 4),
        absent: (400, 402),
        there: 4,
        gone: 2,
        ways: 2,
    },
    Row {
        present: (100, 102),
        absent: (101, 103),
        there: 2,
        gone: 2,
        ways: 1,
    },
    Row {
        present: (450, 700),
        absent: (50, 110),
        there: 5,
        gone: 4,
        ways: 1,
    },
    Row {
        present: (0, 0),
        absent: (0, 0),
        there: 5,
        gone: 5,
        ways: 2,
    },
    Row {
        present: (460, 461),
        absent: (455, 465),
        there: 1,
        gone: 1,
        ways: 1,
    },
    Row {
        present: (80, 90),
        absent: (0, 0),
        there: 3,
        gone: 5,
        ways: 3,
    },
    Row {
        present: (0, 0),
        absent: (300, 600),
        there: 3,
        gone: 0,
        ways: 1,
    },
    Row {
        present: (350, 520),
        absent: (20, 40),
        there: 5,
        gone: 3,
        ways: 1,
    },
    Row {
        present: (7, 8),
        absent: (101, 102),
        there: 0,
        gone: 1,
        ways: 2,
    },
    Row {
        present: (101, 102),
        absent: (7, 8),
        there: 1,
        gone: 0,
        ways: 1,
    },
    Row {
        present: (8, 9),
        absent: (460, 461),
        there: 2,
        gone: 1,
        ways: 1,
    },
    Row {
        present: (460, 462),
        absent: (8, 9),
        there: 1,
        gone: 2,
        ways: 1,
    },
];

fn quads_of(alloc: Global, span: Span) -> Result<Vec<Quad<Id>>, AllocError> {
    let mut quads = Vec::new(alloc);
    for i in span.0..span.1 {
        quads.push(quad_of(i))?;
    }
    Ok(quads)
}

fn named(alloc: Global, number: u32) -> Result<Vec<Id>, AllocError> {
    let mut names = Vec::new(alloc);
    names.push(Id::Known(number))?;
    Ok(names)
}

fn change_of(alloc: Global, row: &Row) -> Result<Delta, AllocError> {
    let present = quads_of(alloc, row.present)?;
    let absent = quads_of(alloc, row.absent)?;
    let there = named(alloc, row.there)?;
    let gone = named(alloc, row.gone)?;
    Delta::from_parts(alloc, present, absent, there, gone)
}

// 400 quads and one name.
fn base(alloc: Global) -> Result<IndexedView, AllocError> {
    let quads = QuadSet::of_quads(alloc, quads_of(alloc, (0, 400))?)?;
    IndexedView::of_parts(alloc, quads.into_list(), named(alloc, 1)?, &BESIDE_SPOG)
}

// Each pattern of two quads, each of six names, and all names.
fn reads_of(alloc: Global) -> Result<Vec<Read<Id>>, AllocError> {
    let mut reads = Vec::new(alloc);
    for i in [101, 460] {
        for places in 0..16 {
            reads.push(Read::Scan(pattern_of(places, &quad_of(i))))?;
        }
    }
    for number in 0..6 {
        reads.push(Read::GraphIs(Id::Known(number)))?;
    }
    reads.push(Read::Graphs)?;
    Ok(reads)
}

/// The changes of a base as they are joined, and the base after them one by one.
#[derive(Drop)]
struct Both {
    settled: Settled,
    view: View,
}

impl Both {
    fn new(alloc: Global, base: &IndexedView, orders: &[Arrangement]) -> Result<Both, AllocError> {
        let settled = Settled::new(alloc, orders)?;
        let view = base.copied(alloc)?;
        Ok(Both { settled, view })
    }

    // With one change more, and the changes put in order or not.
    fn changed(
        self,
        alloc: Global,
        change: &Delta,
        is_put_in_order: bool,
    ) -> Result<Both, AllocError> {
        let Both { mut settled, view } = self;
        settled.push(alloc, change)?;
        if is_put_in_order {
            settled.put_in_order(alloc);
        }
        let view = change.apply(alloc, view)?;
        Ok(Both { settled, view })
    }
}

// What a read says by the part that the changes leave of it.
fn answer_by_part(
    alloc: Global,
    base: &IndexedView,
    settled: &Settled,
    read: &Read<Id>,
) -> Result<Answered, AllocError> {
    let scanned = Scanned::new(alloc, base, read)?;
    match settled.part(alloc, &scanned)? {
        Some(part) => part.answer(alloc, read),
        None => scanned.answer(alloc),
    }
}

// What it says after those changes that it asks for.
fn answer_by_changes(
    alloc: Global,
    base: &IndexedView,
    settled: &Settled,
    read: &Read<Id>,
) -> Result<Answered, AllocError> {
    let changes = settled.changes(alloc, read)?;
    let mut view = base.copied(alloc)?;
    for change in &changes {
        view = change.apply(alloc, view)?;
    }
    view.answer(alloc, read)
}

// Whether the part that the changes leave of what each read asks for is what it says after each.
fn are_answered(
    alloc: Global,
    base: &IndexedView,
    both: &Both,
    reads: &[Read<Id>],
) -> Result<bool, AllocError> {
    for read in reads {
        let wanted = both.view.answer(alloc, read)?;
        if !answer_by_part(alloc, base, &both.settled, read)?.is_same(&wanted) {
            return Ok(false);
        }
    }
    Ok(true)
}

// Whether the changes that each read asks for make it say what it says after each.
fn are_chosen(
    alloc: Global,
    base: &IndexedView,
    both: &Both,
    reads: &[Read<Id>],
) -> Result<bool, AllocError> {
    for read in reads {
        let wanted = both.view.answer(alloc, read)?;
        if !answer_by_changes(alloc, base, &both.settled, read)?.is_same(&wanted) {
            return Ok(false);
        }
    }
    Ok(true)
}

// Whether the changes make of the base what they do one by one.
fn is_applied(alloc: Global, base: &IndexedView, both: &Both) -> Result<bool, AllocError> {
    let after = both.settled.apply(alloc, base.copied(alloc)?)?;
    Ok(after.quads().is_same(&both.view.quads()) && after.names() == both.view.names())
}

// Whether a dataset in pieces is another.
fn is_same(alloc: Global, dataset: CompactView, view: &View) -> Result<bool, AllocError> {
    let (pieces, names) = dataset.into_parts();
    let mut quads = Vec::new(alloc);
    for piece in &pieces {
        quads.extend_from_slice(piece.quads(alloc)?.as_slice())?;
    }
    Ok(
        quads.as_slice() == view.quads().quads(alloc)?.as_slice()
            && names.as_slice() == view.names(),
    )
}

// The same where the changes are let go.
fn is_applied_at_end(alloc: Global, base: &IndexedView, both: Both) -> Result<bool, AllocError> {
    let Both { settled, view } = both;
    let dataset = settled.into_applied(alloc, base)?;
    is_same(alloc, dataset, &view)
}

// Whether each read is answered behind each change, where the changes are kept in these orders and
// put in order this way.
fn are_joined(alloc: Global, orders: &[Arrangement], way: u32) -> Result<bool, AllocError> {
    let base = base(alloc)?;
    let reads = reads_of(alloc)?;
    let mut both = Both::new(alloc, &base, orders)?;
    let mut so = true;
    for row in &ROWS {
        both = both.changed(alloc, &change_of(alloc, row)?, way < row.ways)?;
        so = so && are_answered(alloc, &base, &both, &reads)?;
    }
    so = so && are_chosen(alloc, &base, &both, &reads)? && is_applied(alloc, &base, &both)?;
    Ok(so && is_applied_at_end(alloc, &base, both)?)
}

#[test]
fn joined_changes_say_what_each_in_turn_does(rt: HostRuntime) -> Result<(), AllocError> {
    for way in [0, 1, 2, 3] {
        assert!(rt; are_joined(rt.alloc(), &BESIDE_SPOG, way)?, "{way}");
        assert!(rt; are_joined(rt.alloc(), &[], way)?, "{way}");
    }
    Ok(())
}

// The base after 150 changes, each of which puts in a quad and takes one out.
fn after_many(alloc: Global, base: &IndexedView) -> Result<Both, AllocError> {
    let mut both = Both::new(alloc, base, &BESIDE_SPOG)?;
    for i in 0..150usize {
        let present = quads_of(alloc, (i + 400, i + 401))?;
        let absent = quads_of(alloc, (i, i + 1))?;
        let none = Vec::new(alloc);
        let change = Delta::from_parts(alloc, present, absent, none, Vec::new(alloc))?;
        both = both.changed(alloc, &change, false)?;
    }
    Ok(both)
}

// Whether so many threads make of many changes what they do one by one.
fn are_joined_by<T: Threads + Sync>(
    rt: &T,
    alloc: Global,
    threads: u32,
) -> Result<bool, AllocError> {
    let base = base(alloc)?;
    let Both { settled, view } = after_many(alloc, &base)?;
    let dataset = settled.into_applied_by(rt, alloc, &base, threads)?;
    Ok(view.quads().len() == 400 && is_same(alloc, dataset, &view)?)
}

#[test]
fn many_changes_are_joined_by_threads(rt: HostRuntime) -> Result<(), AllocError> {
    for threads in [0, 1, 2, 3, 8] {
        assert!(rt; are_joined_by(&rt, rt.alloc(), threads)?, "{threads}");
    }
    Ok(())
}
