//! Two workers at the two requests of a block, in 256 fixed orders of events: after each event the
//! front is what the committed requests come to one after another, and so is at the end that of the
//! journal, written, read and replayed.
ghost use Rattle.book.specs.Run.{HasAllTerms};
ghost use Rattle.machine_tests.specs.Terms.{KnowsAll};

use crate::blocks::are_short;
use crate::lines::Told;
use crate::numbered_blocks::numbered;
use crate::turns::{Progress, take_turn};
use book::Book;
use datasets::{Id, Quad};
use delta::Outcome;
use journal::{JournalFault, read_journal, write_lines};
use meaning::Reply;
use numbering::Numbered;
use reads::IndexedView;
use replay::{lines_of, replay};
use serial::run;
use std::alloc::{AllocError, Global};
use std::test::Fail;

/// A base and a block of two requests, the first of which changes something.
struct Case {
    base: &'static str,
    block: &'static str,
    /// In how many of the orders only the first request is committed at the end.
    first: usize,
    /// In how many of the orders both are.
    both: usize,
}

const INSERT_AND_PATTERN: Case = Case {
    base: "",
    block: "INSERT DATA { <x:a> <x:p> <x:b> }\n----\nINSERT { ?x <x:q> 1 } WHERE { ?x <x:p> ?y }",
    first: 175,
    both: 80,
};

const DELETE_AND_UNION: Case = Case {
    base: "<x:a> <x:p> \"1\"^^<http://www.w3.org/2001/XMLSchema#integer> .\n",
    block: "DELETE DATA { <x:a> <x:p> 1 }\n----\n\
        INSERT { ?s <x:q> 1 } WHERE { { ?s <x:p> ?o } UNION { ?s <x:p> 1 } }",
    first: 175,
    both: 80,
};

const TWO_INSERTS: Case = Case {
    base: "",
    block: "INSERT DATA { <x:a> <x:p> 1 }\n----\nINSERT DATA { <x:b> <x:p> 1 }",
    first: 11,
    both: 244,
};

const DELETE_AND_INSERT: Case = Case {
    base: "<x:a> <x:p> <x:b> .\n",
    block: "DELETE DATA { <x:a> <x:p> <x:b> }\n----\nINSERT DATA { <x:a> <x:p> <x:b> }",
    first: 57,
    both: 198,
};

/// How many events a walk has at most.
const MOST_EVENTS: usize = 18;

/// How many orders there are.
const ORDERS: u32 = 256;

/// The quads and the graph names of a dataset, and replies.
#[derive(Drop)]
struct Front {
    quads: Vec<Quad<Id>>,
    names: Vec<Id>,
    replies: Vec<Reply>,
}

impl Front {
    fn new(alloc: Global, outcome: Outcome) -> Result<Front, AllocError> {
        let Outcome { dataset, replies } = outcome;
        let (pieces, names) = dataset.into_parts();
        let mut quads = Vec::new(alloc);
        for piece in &pieces {
            quads.extend_from_slice(piece.quads(alloc)?.as_slice())?;
        }
        Ok(Front {
            quads,
            names,
            replies: replies.into_vec(),
        })
    }

    fn is_same(&self, other: &Front) -> bool {
        self.quads.as_slice() == other.quads.as_slice()
            && self.names.as_slice() == other.names.as_slice()
            && self.replies.as_slice() == other.replies.as_slice()
    }
}

// What so many first requests come to, if the block has them.
fn front_of(alloc: Global, numbered: &Numbered, count: usize) -> Result<Option<Front>, AllocError>
    requires { KnowsAll numbered.now }
{
    let block = numbered.block.as_slice();
    if count > 2 || count > block.len() || !are_short(&block[..count]) {
        return Ok(None);
    }
    let outcome = run(alloc, &numbered.base, &block[..count])?;
    Ok(Some(Front::new(alloc, outcome)?))
}

// What no request, the first and both come to.
fn fronts(alloc: Global, numbered: &Numbered) -> Result<Vec<Front>, AllocError>
    requires { KnowsAll numbered.now }
{
    let mut fronts = Vec::new(alloc);
    for count in 0..3usize {
        if let Some(front) = front_of(alloc, numbered, count)? {
            fronts.push(front)?;
        }
    }
    Ok(fronts)
}

// Whether the front of a book is what so many first requests come to.
fn has_front(alloc: Global, book: &Book<'_>, fronts: &[Front]) -> Result<bool, AllocError> {
    let Some(wanted) = fronts.get(book.front()) else {
        return Ok(false);
    };
    let found = Front::new(alloc, book.outcome(alloc)?)?;
    let is_same = found.is_same(wanted);
    drop(found);
    Ok(is_same)
}

// The worker whose turn it is, or the other one where the request of that is committed.
fn worker_of(book: &Book<'_>, named: u32) -> u32 {
    match (named, book.front()) {
        (0, 1) => 1,
        _ => named,
    }
}

/// How far each of the two workers is.
#[derive(Drop)]
struct Workers {
    first: Progress,
    second: Progress,
}

// The book after the turn of a worker.
fn turned<'a>(
    alloc: Global,
    book: Book<'a>,
    named: u32,
    workers: &mut Workers,
) -> Result<Book<'a>, AllocError> {
    if worker_of(&book, named) != 0 {
        let (book, _told) = take_turn(alloc, book, 1, &mut workers.second)?;
        return Ok(book);
    }
    let (book, told) = take_turn(alloc, book, 0, &mut workers.first)?;
    if told == Told::Published {
        workers.second.outdate();
    }
    Ok(book)
}

// The book after a walk in this order, if each of its fronts was as it should be.
fn walked<'a>(
    alloc: Global,
    mut book: Book<'a>,
    order: u32,
    fronts: &[Front],
) -> Result<Option<Book<'a>>, AllocError> {
    let mut workers = Workers {
        first: Progress::new(alloc),
        second: Progress::new(alloc),
    };
    let mut bits = order.saturating_mul(1021);
    for _event in 0..MOST_EVENTS {
        if book.front() == 2 {
            return Ok(Some(book));
        }
        book = turned(alloc, book, bits % 2, &mut workers)?;
        if !has_front(alloc, &book, fronts)? {
            return Ok(None);
        }
        bits /= 2;
    }
    Ok(Some(book))
}

// Whether the journal of a book, as a text that is read again, is replayed to a book of the same
// front.
fn is_replayed(
    alloc: Global,
    numbered: &Numbered,
    base: &IndexedView,
    book: &Book<'_>,
    fronts: &[Front],
) -> Result<bool, JournalFault>
    requires { HasAllTerms numbered.now.base.terms base.now numbered.now.block.items }
{
    let block = numbered.block.as_slice();
    if block.len() > 1000 || !are_short(block) {
        return Ok(false);
    }
    let tag = numbered.base.tag();
    let text = write_lines(alloc, lines_of(alloc, book)?.as_slice(), tag)?;
    let lines = read_journal(alloc, text.as_slice(), tag)?;
    let again = replay(alloc, numbered.base.terms(), base, block, lines.as_slice())?;
    let is_same = again.front() == book.front() && has_front(alloc, &again, fronts)?;
    drop(again);
    Ok(is_same)
}

// The front at the end of a walk in this order, if the walk comes out.
fn end(
    alloc: Global,
    numbered: &Numbered,
    order: u32,
    fronts: &[Front],
) -> Result<Option<usize>, JournalFault>
    requires { KnowsAll numbered.now }
{
    let base = numbered.base.dataset();
    let block = numbered.block.as_slice();
    let book = Book::new(alloc, numbered.base.terms(), base, block)?;
    let Some(book) = walked(alloc, book, order, fronts)? else {
        return Ok(None);
    };
    let is_replayed = is_replayed(alloc, numbered, base, &book, fronts);
    let front = book.front();
    drop(book);
    Ok(is_replayed?.then_some(front))
}

// The fronts at the ends of the walks that come out.
fn ends(alloc: Global, numbered: &Numbered) -> Result<Vec<usize>, JournalFault>
    requires { KnowsAll numbered.now }
{
    let fronts = fronts(alloc, numbered)?;
    let mut ends = Vec::new(alloc);
    for order in 0..ORDERS {
        if let Some(front) = end(alloc, numbered, order, &fronts)? {
            ends.push(front)?;
        }
    }
    Ok(ends)
}

// In how many of some walks so many requests are committed at the end.
fn count_ends(ends: &[usize], front: usize) -> usize {
    ends.iter().filter(|end| **end == front).count()
}

// Whether all walks of a case come out, and end as it says.
fn comes_out(alloc: Global, case: &Case) -> Result<bool, Fail> {
    let numbered = numbered(alloc, case.base, case.block)?;
    let ends = ends(alloc, &numbered);
    drop(numbered);
    let ends = ends?;
    Ok(
        ends.len() == ORDERS as usize
            && count_ends(&ends, 1) == case.first
            && count_ends(&ends, 2) == case.both,
    )
}

#[test]
fn insert_and_pattern(rt: HostRuntime) -> Result<(), Fail> {
    assert!(rt; comes_out(rt.alloc(), &INSERT_AND_PATTERN)?);
    Ok(())
}

#[test]
fn delete_and_union(rt: HostRuntime) -> Result<(), Fail> {
    assert!(rt; comes_out(rt.alloc(), &DELETE_AND_UNION)?);
    Ok(())
}

#[test]
fn two_inserts(rt: HostRuntime) -> Result<(), Fail> {
    assert!(rt; comes_out(rt.alloc(), &TWO_INSERTS)?);
    Ok(())
}

#[test]
fn delete_and_insert(rt: HostRuntime) -> Result<(), Fail> {
    assert!(rt; comes_out(rt.alloc(), &DELETE_AND_INSERT)?);
    Ok(())
}
