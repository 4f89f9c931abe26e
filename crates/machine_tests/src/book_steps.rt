//! The steps of workers at a book.
ghost use Rattle.std.specs.Prelude.{◌≡◌, ◌<◌, Some, slice_get, IfSome};
ghost use Rattle.update.specs.Asked.{IsShort};
ghost use Rattle.book.specs.Run.{IsSoundEvent, Run};

use crate::lines::{Step, Told, told_by};
use crate::numbered_blocks::request_at;
use block_machine::{Event, Reply};
use book::Book;
use datasets::Read;
use delta::Finished;
use dict::Id;
use meaning::Request;
use reads::{Answered, Source, Stop};
use std::alloc::{AllocError, Global};
use std::marker::Model;
use update::execute;

/// Which incarnation of which request is run by whom.
#[derive(Clone, Copy)]
pub struct Turn {
    pub worker: u32,
    pub place: usize,
    pub incarnation: u64,
}

// What answers the reads of a turn: a book, by its steps.
#[derive(Drop)]
struct Asking<'a> {
    alloc: Global,
    book: Book<'a>,
    turn: Turn,
}

impl<'a> Model for Asking<'a> {
    ghost use Rattle.std.specs.Coded.{codes};
    ghost use Rattle.algebra.specs.Codes.{plan_code};
    ghost use Rattle.datasets.specs.declared.id.Id.{Id as Number};
    ghost use Rattle.book.specs.Run.{Run};

    ghost Value = { Run };

    ghost coded = { Prim.hlevel (codes, plan_code {K = Number} (Prim.hlevel codes)) };

    ghost view = { λ a. a.book };
}

impl<'a> Source for Asking<'a> {
    ghost use Rattle.machine_tests.specs.Seeing.{Follows};

    ghost asks = { λ before read told after. Follows before after };

    fn ask(&mut self, read: &Read<Id>) -> Result<Answered, Stop> {
        let turn = self.turn;
        let event = Event::Read(turn.place, turn.incarnation, *read);
        match self.book.step(self.alloc, turn.worker, &event)? {
            Reply::Answered(answer) => Ok(answer),
            Reply::Blocked(place) => Err(Stop::Blocked(place)),
            _ => Err(Stop::Stale),
        }
    }
}

impl<'a> Asking<'a> {
    // The book again.
    fn into_book(self) -> Book<'a>
        ensures { result ≡ self.entry }
    {
        self.book
    }
}

// The book that answered the reads of a run of the request of a turn, and the run, if it came to
// its end.
fn executed<'a>(
    alloc: Global,
    book: Book<'a>,
    turn: Turn,
    request: &Request<Id>,
) -> (Book<'a>, Option<Finished>)
    requires place { turn.place < 1000 }
    requires is { slice_get book.block turn.place ≡ Some request.now }
    requires short { IsShort request.now }
    ensures { IfSome result.1 (λ run. IsSoundEvent result.0
        (Event.Publish turn.place turn.incarnation (Some run))) }
{
    let terms = book.terms();
    let mut asking = Asking { alloc, book, turn };
    let execution = execute(alloc, terms, turn.place as u32, request, &mut asking);
    let book = asking.into_book();
    match execution {
        Ok(execution) => (book, Some(execution.into_finished())),
        Err(_) => (book, None),
    }
}

// What is told of an event of a book.
fn told_of(
    alloc: Global,
    book: &mut Book<'_>,
    worker: u32,
    event: Event,
) -> Result<Told, AllocError>
    requires { IsSoundEvent book.old event }
{
    let reply = book.step(alloc, worker, &event)?;
    Ok(told_by(&reply))
}

/// A book after an event, and what is told of it.
pub fn play_event<'a>(
    alloc: Global,
    mut book: Book<'a>,
    worker: u32,
    event: Event,
) -> Result<(Book<'a>, Told), AllocError>
    requires { IsSoundEvent book event }
{
    match told_of(alloc, &mut book, worker, event) {
        Ok(told) => Ok((book, told)),
        Err(error) => {
            drop(book);
            Err(error)
        }
    }
}

// Runs the request of a turn and publishes the run.
fn publish<'a>(alloc: Global, book: Book<'a>, turn: Turn) -> Result<(Book<'a>, Told), AllocError> {
    let Some(request) = request_at(book.block(), turn.place) else {
        return Ok((book, Told::Stale));
    };
    let (book, run) = executed(alloc, book, turn, request);
    match run {
        Some(run) => {
            let event = Event::Publish(turn.place, turn.incarnation, Some(run));
            play_event(alloc, book, turn.worker, event)
        }
        None => Ok((book, Told::Stale)),
    }
}

// The event of a step that publishes no run. A read asks for all graph names.
fn event_of(step: Step) -> Option<Event>
    ensures { (book : Run) → IfSome result (IsSoundEvent book) }
{
    match step {
        Step::Publish(_, _) => None,
        Step::Take(i) => Some(Event::Take(i)),
        Step::Read(i, n) => Some(Event::Read(i, n, Read::Graphs)),
        Step::PublishNothing(i, n) => Some(Event::Publish(i, n, None)),
        Step::Begin(i, n) => Some(Event::Begin(i, n)),
        Step::Check(i, n) => Some(Event::Check(i, n)),
        Step::Commit(i) => Some(Event::Commit(i)),
        Step::GiveUp(i, n) => Some(Event::GiveUp(i, n)),
    }
}

/// A worker's step, and what it is told.
pub fn play<'a>(
    alloc: Global,
    book: Book<'a>,
    worker: u32,
    step: Step,
) -> Result<(Book<'a>, Told), AllocError> {
    if let Step::Publish(place, incarnation) = step {
        let turn = Turn {
            worker,
            place,
            incarnation,
        };
        return publish(alloc, book, turn);
    }
    match event_of(step) {
        Some(event) => play_event(alloc, book, worker, event),
        None => Ok((book, Told::Stale)),
    }
}
