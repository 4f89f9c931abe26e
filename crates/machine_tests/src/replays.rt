//! Journals of walked books: their lines, the books that these are replayed to, and checks whose
//! reply is chosen.
ghost use Rattle.book.specs.Run.{HasAllTerms};
ghost use Rattle.machine_tests.specs.Terms.{IsKnownToAll, KnowsAll};

use crate::blocks::are_short;
use crate::book_inputs::nothing;
use crate::books::{WALKS, Walk, walked};
use crate::lines::Step::{Begin, Publish, Take};
use crate::lines::Told::{Aborted, Begun, NotYet, Passed, Published, Stale, Taken};
use crate::lines::{Step, Told, told_by};
use crate::numbered_blocks::numbered;
use book::Book;
use journal::{JournalFault, Line, write_lines};
use numbering::Numbered;
use reads::IndexedView;
use replay::{lines_of, replay};
use std::alloc::{AllocError, Global};
use std::process::Abort;
use std::test::Fail;

/// Whether the journal of a book has this text.
pub fn has_text(alloc: Global, book: &Book<'_>, journal: &str) -> Result<bool, AllocError> {
    let lines = lines_of(alloc, book)?;
    Ok(write_lines(alloc, lines.as_slice(), 1)?.as_slice() == journal.as_bytes())
}

// Whether lines are replayed to a book whose journal has this text, where the block has at most a
// thousand requests.
fn are_replayed<'a>(
    alloc: Global,
    numbered: &'a Numbered,
    base: &'a IndexedView,
    lines: &[Line],
    journal: &str,
) -> Result<bool, JournalFault>
    requires { HasAllTerms numbered.now.base.terms base.now numbered.now.block.items }
{
    let block = numbered.block.as_slice();
    if block.len() > 1000 || !are_short(block) {
        return Ok(false);
    }
    let book = replay(alloc, numbered.base.terms(), base, block, lines)?;
    let has_text = has_text(alloc, &book, journal);
    drop(book);
    Ok(has_text?)
}

// Whether the journal of a book has this text, and is replayed to a book whose journal has it too.
fn is_replayed(
    alloc: Global,
    numbered: &Numbered,
    base: &IndexedView,
    book: &Book<'_>,
    journal: &str,
) -> Result<bool, JournalFault>
    requires { HasAllTerms numbered.now.base.terms base.now numbered.now.block.items }
{
    if !has_text(alloc, book, journal)? {
        return Ok(false);
    }
    let lines = lines_of(alloc, book)?;
    are_replayed(alloc, numbered, base, lines.as_slice(), journal)
}

// The same of a walk, with its base and block at their numbers.
fn is_walk_replayed(
    rt: &impl Abort,
    alloc: Global,
    numbered: &Numbered,
    walk: &Walk,
) -> Result<bool, JournalFault>
    requires { KnowsAll numbered.now }
{
    let base = numbered.base.dataset();
    let book = walked(rt, alloc, numbered, base, walk.lines)?;
    let is_replayed = is_replayed(alloc, numbered, base, &book, walk.journal);
    drop(book);
    is_replayed
}

// Whether a walk is.
fn replays(rt: &impl Abort, alloc: Global, walk: &Walk) -> Result<bool, Fail> {
    let numbered = numbered(alloc, walk.base, walk.block)?;
    let is_replayed = is_walk_replayed(rt, alloc, &numbered, walk);
    drop(numbered);
    Ok(is_replayed?)
}

#[test]
fn walks_replay(rt: HostRuntime) -> Result<(), Fail> {
    for walk in &WALKS {
        assert!(rt; replays(&rt, rt.alloc(), walk)?, "{}", walk.block);
    }
    Ok(())
}

/// A check of a request's first run behind some steps over an empty base, whether it is wanted to
/// pass, and what it is told.
struct Choice {
    block: &'static str,
    lines: &'static [(u32, Step, Told)],
    place: usize,
    passed: bool,
    told: Told,
}

/// The third request reads by a pattern what the first has put in and the second has taken out
/// since.
const TWICE: &str = "\
    INSERT DATA { <x:a> <x:p> <x:b> }\n----\n\
    DELETE DATA { <x:a> <x:p> <x:b> }\n----\n\
    INSERT { ?x <x:q> <x:c> } WHERE { ?x <x:p> ?y }";

/// The second request reads by a pattern what the first has put in since.
const ONCE: &str =
    "INSERT DATA { <x:a> <x:p> <x:b> }\n----\nINSERT { ?x <x:q> <x:c> } WHERE { ?x <x:p> ?y }";

/// The fourth request reads by a pattern the 70 quads that the first has put in. Meanwhile the
/// second has put in one more, which the third has taken out since.
const LONG: &str = "\
    INSERT DATA { <x:a> <x:p> \
    10,11,12,13,14,15,16,17,18,19,20,21,22,23,24,25,26,27,28,29,\
    30,31,32,33,34,35,36,37,38,39,40,41,42,43,44,45,46,47,48,49,\
    50,51,52,53,54,55,56,57,58,59,60,61,62,63,64,65,66,67,68,69,\
    70,71,72,73,74,75,76,77,78,79 }\n----\n\
    INSERT DATA { <x:a> <x:p> 9 }\n----\nDELETE DATA { <x:a> <x:p> 9 }\n----\n\
    INSERT { ?x <x:q> <x:c> } WHERE { ?x <x:p> ?y }";

const CHANGED_TWICE: [(u32, Step, Told); 7] = [
    (2, Take(2), Taken(0)),
    (2, Publish(2, 0), Published),
    (0, Take(0), Taken(0)),
    (0, Publish(0, 0), Published),
    (1, Take(1), Taken(0)),
    (1, Publish(1, 0), Published),
    (2, Begin(2, 0), Begun),
];

const CHANGED_ONCE: [(u32, Step, Told); 5] = [
    (1, Take(1), Taken(0)),
    (1, Publish(1, 0), Published),
    (0, Take(0), Taken(0)),
    (0, Publish(0, 0), Published),
    (1, Begin(1, 0), Begun),
];

const UNCHANGED: [(u32, Step, Told); 3] = [
    (1, Take(1), Taken(0)),
    (1, Publish(1, 0), Published),
    (1, Begin(1, 0), Begun),
];

/// The first and the fourth request, and then the second and maybe the third.
const LONG_CHANGED: [(u32, Step, Told); 9] = [
    (0, Take(0), Taken(0)),
    (0, Publish(0, 0), Published),
    (3, Take(3), Taken(0)),
    (3, Publish(3, 0), Published),
    (1, Take(1), Taken(0)),
    (1, Publish(1, 0), Published),
    (2, Take(2), Taken(0)),
    (2, Publish(2, 0), Published),
    (3, Begin(3, 0), Begun),
];

const LONG_LONGER: [(u32, Step, Told); 7] = [
    (0, Take(0), Taken(0)),
    (0, Publish(0, 0), Published),
    (3, Take(3), Taken(0)),
    (3, Publish(3, 0), Published),
    (1, Take(1), Taken(0)),
    (1, Publish(1, 0), Published),
    (3, Begin(3, 0), Begun),
];

const CHOICES: [Choice; 11] = [
    // The answer is the same and the requests that it came from are others: both replies are
    // lawful.
    Choice {
        block: TWICE,
        lines: &CHANGED_TWICE,
        place: 2,
        passed: true,
        told: Passed,
    },
    Choice {
        block: TWICE,
        lines: &CHANGED_TWICE,
        place: 2,
        passed: false,
        told: Aborted,
    },
    // The answer is another one.
    Choice {
        block: ONCE,
        lines: &CHANGED_ONCE,
        place: 1,
        passed: true,
        told: Aborted,
    },
    Choice {
        block: ONCE,
        lines: &CHANGED_ONCE,
        place: 1,
        passed: false,
        told: Aborted,
    },
    // Nothing has changed.
    Choice {
        block: ONCE,
        lines: &UNCHANGED,
        place: 1,
        passed: true,
        told: Passed,
    },
    Choice {
        block: ONCE,
        lines: &UNCHANGED,
        place: 1,
        passed: false,
        told: Passed,
    },
    // A long answer, which was forgotten and is found again: it is the same, the list is another,
    // or it is another one.
    Choice {
        block: LONG,
        lines: &LONG_CHANGED,
        place: 3,
        passed: true,
        told: Passed,
    },
    Choice {
        block: LONG,
        lines: &LONG_CHANGED,
        place: 3,
        passed: false,
        told: Aborted,
    },
    Choice {
        block: LONG,
        lines: &LONG_LONGER,
        place: 3,
        passed: true,
        told: Aborted,
    },
    // No pass stands, or there is no run.
    Choice {
        block: ONCE,
        lines: &[(1, Take(1), Taken(0)), (1, Publish(1, 0), Published)],
        place: 1,
        passed: true,
        told: NotYet,
    },
    Choice {
        block: ONCE,
        lines: &[],
        place: 1,
        passed: false,
        told: Stale,
    },
];

// What the check of a choice is told.
fn told_of<'a>(
    rt: &impl Abort,
    alloc: Global,
    numbered: &'a Numbered,
    base: &'a IndexedView,
    choice: &Choice,
) -> Result<Told, AllocError>
    requires { HasAllTerms numbered.now.base.terms base.now numbered.now.block.items }
{
    let mut book = walked(rt, alloc, numbered, base, choice.lines)?;
    let reply = book.check_as(alloc, 2, choice.place, 0, choice.passed);
    drop(book);
    Ok(told_by(&reply?))
}

// The same with the block at its numbers.
fn told(rt: &impl Abort, alloc: Global, base: &IndexedView, choice: &Choice) -> Result<Told, Fail>
    requires { IsKnownToAll base.now }
{
    let numbered = numbered(alloc, "", choice.block)?;
    let told = told_of(rt, alloc, &numbered, base, choice);
    drop(numbered);
    Ok(told?)
}

fn check_choices(rt: &impl Abort, alloc: Global, base: &IndexedView) -> Result<(), Fail>
    requires { IsKnownToAll base.now }
{
    for choice in &CHOICES {
        let told = told(rt, alloc, base, choice)?;
        assert!(rt; told == choice.told, "{}: {}", choice.block, choice.passed);
    }
    Ok(())
}

#[test]
fn chosen_checks(rt: HostRuntime) -> Result<(), Fail> {
    let base = nothing(rt.alloc())?;
    let checked = check_choices(&rt, rt.alloc(), &base);
    drop(base);
    checked
}
