//! Blocks run through a book, in orders that workers side by side may take.
ghost use Rattle.book.specs.Run.{HasAllTerms};
ghost use Rattle.machine_tests.specs.Terms.{KnowsAll};

use crate::book_steps::play;
use crate::lines::Step::{Begin, Check, Commit, GiveUp, Publish, PublishNothing, Read, Take};
use crate::lines::Told::{
    Aborted, Begun, Committed, Given, NotYet, NotYours, Passed, Published, Stale, Taken,
};
use crate::lines::{Step, Told};
use crate::numbered_blocks::{has_quads, numbered};
use book::Book;
use meaning::Reply;
use numbering::Numbered;
use reads::IndexedView;
use std::alloc::{AllocError, Global};
use std::process::Abort;
use std::test::Fail;

/// A walk through the book of a block over a base.
pub struct Walk {
    pub base: &'static str,
    pub block: &'static str,
    /// Who does what, and what it is told.
    pub lines: &'static [(u32, Step, Told)],
    /// The text of the whole journal.
    pub journal: &'static str,
    /// How many events are reads of runs.
    reads: usize,
    /// The replies to the requests that are committed.
    replies: &'static [Reply],
    quads: &'static str,
}

const ADDED: Reply = Reply::Done {
    added: 1,
    removed: 0,
};

const REMOVED: Reply = Reply::Done {
    added: 0,
    removed: 1,
};

const NOTHING: Reply = Reply::Done {
    added: 0,
    removed: 0,
};

/// The journal of two workers at a request that asks nothing, with each refusal of an event.
pub const REFUSALS: &str = "sparql-block journal 1
00 take 0000 > taken 0
01 publish 0000 0 > not-yours
01 giveup 0000 0 > not-yours
01 read 0000 0 graphs > not-yours
00 publish 0000 1 > stale
00 take 0000 > stale
00 begin 0000 0 > stale
00 check 0000 0 > stale
00 commit 0000 > not-yet
00 take 0001 > stale
00 commit 0001 > stale
00 publish 0000 0 > published
00 check 0000 0 > not-yet
00 begin 0000 0 > begun
00 commit 0000 > committed
00 commit 0000 > stale
00 begin 0000 0 > stale
";

pub const WALKS: [Walk; 7] = [
    // The second request runs before the first has published, and is checked after it. At last it
    // waits for the first one's commit.
    Walk {
        base: "",
        block: "INSERT DATA { <x:a> <x:p> <x:b> }\n----\nINSERT DATA { <x:a> <x:p> <x:b> , <x:c> }",
        lines: &[
            (1, Take(1), Taken(0)),
            (1, Publish(1, 0), Published),
            (0, Take(0), Taken(0)),
            (0, Publish(0, 0), Published),
            (1, Begin(1, 0), Begun),
            (1, Check(1, 0), Aborted),
            (2, Take(1), Taken(1)),
            (2, Publish(1, 1), Published),
            (2, Begin(1, 1), Begun),
            (2, Check(1, 1), Passed),
            (2, Check(1, 1), Passed),
            (2, Commit(1), NotYet),
            (0, Begin(0, 0), Begun),
            (0, Check(0, 0), Passed),
            (0, Commit(0), Committed),
            (2, Commit(1), Committed),
        ],
        journal: "sparql-block journal 1
01 take 0001 > taken 0
01 read 0001 0 scan <x:a> <x:p> <x:b> default > answer 0
01 read 0001 0 scan <x:a> <x:p> <x:c> default > answer 0
01 publish 0001 0 > published
00 take 0000 > taken 0
00 read 0000 0 scan <x:a> <x:p> <x:b> default > answer 0
00 publish 0000 0 > published
01 begin 0001 0 > begun
01 check 0001 0 > aborted
02 take 0001 > taken 1
02 read 0001 1 scan <x:a> <x:p> <x:b> default > answer 1
02 read 0001 1 scan <x:a> <x:p> <x:c> default > answer 0
02 publish 0001 1 > published
02 begin 0001 1 > begun
02 check 0001 1 > passed
02 check 0001 1 > passed
02 commit 0001 > not-yet
00 begin 0000 0 > begun
00 check 0000 0 > passed
00 commit 0000 > committed
02 commit 0001 > committed
",
        reads: 5,
        replies: &[ADDED, ADDED],
        quads: "+ <x:a> <x:p> <x:b>\n+ <x:a> <x:p> <x:c>\n",
    },
    // The second request, by a pattern, is published before the first, and checked after it.
    Walk {
        base: "",
        block: "INSERT DATA { <x:a> <x:p> <x:b> }\n----\nINSERT { ?x <x:q> <x:c> } WHERE { ?x <x:p> ?y }",
        lines: &[
            (1, Take(1), Taken(0)),
            (1, Publish(1, 0), Published),
            (0, Take(0), Taken(0)),
            (0, Publish(0, 0), Published),
            (1, Begin(1, 0), Begun),
            (1, Check(1, 0), Aborted),
            (0, Begin(0, 0), Begun),
            (0, Check(0, 0), Passed),
            (0, Commit(0), Committed),
            (1, Take(1), Taken(1)),
            (1, Publish(1, 1), Published),
            (1, Begin(1, 1), Begun),
            (1, Check(1, 1), Passed),
            (1, Check(1, 1), Passed),
            (1, Commit(1), Committed),
        ],
        journal: "sparql-block journal 1
01 take 0001 > taken 0
01 read 0001 0 scan - <x:p> - default > answer 0
01 publish 0001 0 > published
00 take 0000 > taken 0
00 read 0000 0 scan <x:a> <x:p> <x:b> default > answer 0
00 publish 0000 0 > published
01 begin 0001 0 > begun
01 check 0001 0 > aborted
00 begin 0000 0 > begun
00 check 0000 0 > passed
00 commit 0000 > committed
01 take 0001 > taken 1
01 read 0001 1 scan - <x:p> - default > answer 1
01 read 0001 1 scan <x:a> <x:q> <x:c> default > answer 0
01 publish 0001 1 > published
01 begin 0001 1 > begun
01 check 0001 1 > passed
01 check 0001 1 > passed
01 commit 0001 > committed
",
        reads: 4,
        replies: &[ADDED, ADDED],
        quads: "+ <x:a> <x:p> <x:b>\n+ <x:a> <x:q> <x:c>\n",
    },
    // It is checked to its end before the first is published, so its stamp is too old to commit.
    Walk {
        base: "",
        block: "INSERT DATA { <x:a> <x:p> <x:b> }\n----\nINSERT { ?x <x:q> <x:c> } WHERE { ?x <x:p> ?y }",
        lines: &[
            (1, Take(1), Taken(0)),
            (1, Publish(1, 0), Published),
            (1, Begin(1, 0), Begun),
            (1, Check(1, 0), Passed),
            (0, Take(0), Taken(0)),
            (0, Publish(0, 0), Published),
            (0, Begin(0, 0), Begun),
            (0, Check(0, 0), Passed),
            (0, Commit(0), Committed),
            (1, Commit(1), NotYet),
            (1, Begin(1, 0), Begun),
            (1, Check(1, 0), Aborted),
            (1, Take(1), Taken(1)),
            (1, Publish(1, 1), Published),
            (1, Begin(1, 1), Begun),
            (1, Check(1, 1), Passed),
            (1, Check(1, 1), Passed),
            (1, Commit(1), Committed),
        ],
        journal: "sparql-block journal 1
01 take 0001 > taken 0
01 read 0001 0 scan - <x:p> - default > answer 0
01 publish 0001 0 > published
01 begin 0001 0 > begun
01 check 0001 0 > passed
00 take 0000 > taken 0
00 read 0000 0 scan <x:a> <x:p> <x:b> default > answer 0
00 publish 0000 0 > published
00 begin 0000 0 > begun
00 check 0000 0 > passed
00 commit 0000 > committed
01 commit 0001 > not-yet
01 begin 0001 0 > begun
01 check 0001 0 > aborted
01 take 0001 > taken 1
01 read 0001 1 scan - <x:p> - default > answer 1
01 read 0001 1 scan <x:a> <x:q> <x:c> default > answer 0
01 publish 0001 1 > published
01 begin 0001 1 > begun
01 check 0001 1 > passed
01 check 0001 1 > passed
01 commit 0001 > committed
",
        reads: 4,
        replies: &[ADDED, ADDED],
        quads: "+ <x:a> <x:p> <x:b>\n+ <x:a> <x:q> <x:c>\n",
    },
    // The third request reads what the first has put in and the second has taken out since: its
    // answer is the same, but it came from others.
    Walk {
        base: "",
        block: "\
            INSERT DATA { <x:a> <x:p> <x:b> }\n----\n\
            DELETE DATA { <x:a> <x:p> <x:b> }\n----\n\
            INSERT { ?x <x:q> <x:c> } WHERE { ?x <x:p> ?y }",
        lines: &[
            (2, Take(2), Taken(0)),
            (2, Publish(2, 0), Published),
            (0, Take(0), Taken(0)),
            (0, Publish(0, 0), Published),
            (1, Take(1), Taken(0)),
            (1, Publish(1, 0), Published),
            (2, Begin(2, 0), Begun),
            (2, Check(2, 0), Aborted),
        ],
        journal: "sparql-block journal 1
02 take 0002 > taken 0
02 read 0002 0 scan - <x:p> - default > answer 0
02 publish 0002 0 > published
00 take 0000 > taken 0
00 read 0000 0 scan <x:a> <x:p> <x:b> default > answer 0
00 publish 0000 0 > published
01 take 0001 > taken 0
01 read 0001 0 scan <x:a> <x:p> <x:b> default > answer 1
01 publish 0001 0 > published
02 begin 0002 0 > begun
02 check 0002 0 > aborted
",
        reads: 3,
        replies: &[],
        quads: "",
    },
    // The third request has read the quad of the base that the first takes out and the second puts
    // in again: its answer is the same, but it came from others. So it runs once more.
    Walk {
        base: "<x:a> <x:p> <x:b> .\n",
        block: "\
            DELETE DATA { <x:a> <x:p> <x:b> }\n----\n\
            INSERT DATA { <x:a> <x:p> <x:b> }\n----\n\
            INSERT { ?s <x:q> ?o } WHERE { ?s <x:p> ?o }",
        lines: &[
            (2, Take(2), Taken(0)),
            (2, Publish(2, 0), Published),
            (0, Take(0), Taken(0)),
            (0, Publish(0, 0), Published),
            (1, Take(1), Taken(0)),
            (1, Publish(1, 0), Published),
            (2, Begin(2, 0), Begun),
            (2, Check(2, 0), Aborted),
            (0, Begin(0, 0), Begun),
            (0, Check(0, 0), Passed),
            (0, Commit(0), Committed),
            (1, Begin(1, 0), Begun),
            (1, Check(1, 0), Passed),
            (1, Commit(1), Committed),
            (2, Take(2), Taken(1)),
            (2, Publish(2, 1), Published),
            (2, Begin(2, 1), Begun),
            (2, Check(2, 1), Passed),
            (2, Check(2, 1), Passed),
            (2, Commit(2), Committed),
        ],
        journal: "sparql-block journal 1
02 take 0002 > taken 0
02 read 0002 0 scan - <x:p> - default > answer 1
02 read 0002 0 scan <x:a> <x:q> <x:b> default > answer 0
02 publish 0002 0 > published
00 take 0000 > taken 0
00 read 0000 0 scan <x:a> <x:p> <x:b> default > answer 1
00 publish 0000 0 > published
01 take 0001 > taken 0
01 read 0001 0 scan <x:a> <x:p> <x:b> default > answer 0
01 publish 0001 0 > published
02 begin 0002 0 > begun
02 check 0002 0 > aborted
00 begin 0000 0 > begun
00 check 0000 0 > passed
00 commit 0000 > committed
01 begin 0001 0 > begun
01 check 0001 0 > passed
01 commit 0001 > committed
02 take 0002 > taken 1
02 read 0002 1 scan - <x:p> - default > answer 1
02 read 0002 1 scan <x:a> <x:q> <x:b> default > answer 0
02 publish 0002 1 > published
02 begin 0002 1 > begun
02 check 0002 1 > passed
02 check 0002 1 > passed
02 commit 0002 > committed
",
        reads: 6,
        replies: &[REMOVED, ADDED, ADDED],
        quads: "+ <x:a> <x:p> <x:b>\n+ <x:a> <x:q> <x:b>\n",
    },
    // A refused request reads nothing. Only who took it may publish it, and what is given up is not
    // committed.
    Walk {
        base: "",
        block: "INSERT",
        lines: &[
            (0, Take(0), Taken(0)),
            (0, Take(1), Stale),
            (1, Publish(0, 0), NotYours),
            (0, PublishNothing(0, 0), NotYet),
            (0, Commit(0), NotYet),
            (0, GiveUp(0, 0), Given),
        ],
        journal: "sparql-block journal 1
00 take 0000 > taken 0
00 take 0001 > stale
01 publish 0000 0 > not-yours
00 publish 0000 0 > not-yet
00 commit 0000 > not-yet
00 giveup 0000 0 > given
",
        reads: 0,
        replies: &[],
        quads: "",
    },
    // Each refusal of an event at a request that asks nothing, and what is outside the block.
    Walk {
        base: "",
        block: "\n",
        lines: &[
            (0, Take(0), Taken(0)),
            (1, Publish(0, 0), NotYours),
            (1, GiveUp(0, 0), NotYours),
            (1, Read(0, 0), NotYours),
            (0, Publish(0, 1), Stale),
            (0, Take(0), Stale),
            (0, Begin(0, 0), Stale),
            (0, Check(0, 0), Stale),
            (0, Commit(0), NotYet),
            (0, Take(1), Stale),
            (0, Commit(1), Stale),
            (0, Publish(0, 0), Published),
            (0, Check(0, 0), NotYet),
            (0, Begin(0, 0), Begun),
            (0, Commit(0), Committed),
            (0, Commit(0), Stale),
            (0, Begin(0, 0), Stale),
        ],
        journal: REFUSALS,
        reads: 0,
        replies: &[NOTHING],
        quads: "",
    },
];

// The book after a line of a walk, whose step is told what it says.
fn walked_on<'a>(
    rt: &impl Abort,
    alloc: Global,
    book: Book<'a>,
    line: &(u32, Step, Told),
) -> Result<Book<'a>, AllocError> {
    let (worker, step, told) = *line;
    let (book, found) = play(alloc, book, worker, step)?;
    let entries = book.journal().len();
    assert!(rt; found == told, "entry {entries}");
    Ok(book)
}

/// The book after a walk, each of whose steps is told what it says.
pub fn walked<'a>(
    rt: &impl Abort,
    alloc: Global,
    numbered: &'a Numbered,
    base: &'a IndexedView,
    lines: &[(u32, Step, Told)],
) -> Result<Book<'a>, AllocError>
    requires { HasAllTerms numbered.now.base.terms base.now numbered.now.block.items }
{
    let mut book = Book::new(
        alloc,
        numbered.base.terms(),
        base,
        numbered.block.as_slice(),
    )?;
    for line in lines {
        book = walked_on(rt, alloc, book, line)?;
    }
    Ok(book)
}

// Whether the requests that were to be committed have their replies and come to the quads.
fn is_come_to(alloc: Global, book: &Book<'_>, walk: &Walk) -> Result<bool, AllocError> {
    let outcome = book.outcome(alloc)?;
    let are_replies = outcome.replies.as_slice() == walk.replies;
    let has_quads = has_quads(alloc, book.terms(), &outcome.dataset, walk.quads);
    drop(outcome);
    let reads = book.journal().len().checked_sub(walk.lines.len());
    Ok(are_replies && has_quads? && reads == Some(walk.reads))
}

// Whether a walk comes out, with its base and block at their numbers.
fn is_walked(
    rt: &impl Abort,
    alloc: Global,
    numbered: &Numbered,
    walk: &Walk,
) -> Result<bool, AllocError>
    requires { KnowsAll numbered.now }
{
    let book = walked(rt, alloc, numbered, numbered.base.dataset(), walk.lines)?;
    let is_come_to = is_come_to(alloc, &book, walk);
    drop(book);
    is_come_to
}

// Whether a walk comes out.
fn comes_out(rt: &impl Abort, alloc: Global, walk: &Walk) -> Result<bool, Fail> {
    let numbered = numbered(alloc, walk.base, walk.block)?;
    let is_walked = is_walked(rt, alloc, &numbered, walk);
    drop(numbered);
    Ok(is_walked?)
}

#[test]
fn walks(rt: HostRuntime) -> Result<(), Fail> {
    for walk in &WALKS {
        assert!(rt; comes_out(&rt, rt.alloc(), walk)?, "{}", walk.block);
    }
    Ok(())
}
