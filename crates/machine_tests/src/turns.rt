//! Workers that make one event a turn, their reads among them.
ghost use Rattle.std.specs.Prelude.{◌≡◌, ◌<◌, Some, slice_get, IfSome};
ghost use Rattle.update.specs.Asked.{IsShort};
ghost use Rattle.machine_tests.specs.Seeing.{Follows};
ghost use Rattle.book.specs.Run.{IsSoundEvent, Run};

use crate::book_steps::{Turn, play, play_event};
use crate::lines::{Step, Told, told_by};
use crate::numbered_blocks::request_at;
use block_machine::{Event, Reply, Status};
use book::Book;
use datasets::Read;
use delta::Finished;
use dict::Id;
use meaning::Request;
use reads::{Answered, Source, Stop};
use std::alloc::{AllocError, Global};
use std::marker::Model;
use update::execute;

/// How far a worker is with its request.
#[derive(Drop)]
pub struct Progress {
    // The answers that its run has had.
    answers: Vec<Answered>,
    // Whether a read of the run was blocked, so that it is given up.
    gives_up: bool,
    // Whether a lower change came after its checks began.
    is_outdated: bool,
    // Whether its checks begin again.
    begins: bool,
}

impl Progress {
    /// Before any event.
    pub fn new(alloc: Global) -> Progress {
        Progress {
            answers: Vec::new(alloc),
            gives_up: false,
            is_outdated: false,
            begins: false,
        }
    }

    /// A lower request has another change.
    pub fn outdate(&mut self) {
        self.is_outdated = true;
    }

    // What follows from what the worker is told.
    fn note(&mut self, told: Told) {
        match told {
            Told::Taken(_) => {
                self.answers.clear();
                self.is_outdated = false;
            }
            Told::Given => self.gives_up = false,
            Told::Begun => {
                self.is_outdated = false;
                self.begins = false;
            }
            Told::NotYet => self.begins = self.is_outdated,
            _ => {}
        }
    }
}

// What answers the reads of a run: the answers that it has had, then one event of a book, and then
// nothing.
#[derive(Drop)]
struct Replaying<'a> {
    alloc: Global,
    book: Book<'a>,
    turn: Turn,
    answers: Vec<Answered>,
    used: usize,
    // What the event was told, once it was made.
    told: Option<Told>,
}

impl<'a> Model for Replaying<'a> {
    ghost use Rattle.std.specs.Coded.{codes};
    ghost use Rattle.algebra.specs.Codes.{plan_code};
    ghost use Rattle.datasets.specs.declared.id.Id.{Id as Number};
    ghost use Rattle.book.specs.Run.{Run};

    ghost Value = { Run };

    ghost coded = { Prim.hlevel (codes, plan_code {K = Number} (Prim.hlevel codes)) };

    ghost view = { λ a. a.book };
}

impl<'a> Source for Replaying<'a> {
    ghost use Rattle.machine_tests.specs.Seeing.{Follows};

    ghost asks = { λ before read told after. Follows before after };

    fn ask(&mut self, read: &Read<Id>) -> Result<Answered, Stop> {
        if let Some(answer) = self.answers.get(self.used) {
            let again = answer.copied(self.alloc)?;
            self.used = self.used.saturating_add(1);
            return Ok(again);
        }
        if self.told.is_some() {
            return Err(Stop::Stale);
        }
        self.read(read)
    }
}

impl<'a> Replaying<'a> {
    // The answer of the book.
    fn read(&mut self, read: &Read<Id>) -> Result<Answered, Stop>
        ensures { Follows self.old self.new }
    {
        let turn = self.turn;
        let event = Event::Read(turn.place, turn.incarnation, *read);
        let reply = self.book.step(self.alloc, turn.worker, &event)?;
        self.told = Some(told_by(&reply));
        match reply {
            Reply::Answered(answer) => {
                self.answers.push(answer.copied(self.alloc)?)?;
                self.used = self.answers.len();
                Ok(answer)
            }
            Reply::Blocked(place) => Err(Stop::Blocked(place)),
            _ => Err(Stop::Stale),
        }
    }

    // The book, the answers and what the event was told.
    fn into_parts(self) -> (Book<'a>, Vec<Answered>, Option<Told>)
        ensures { result.0 ≡ self.entry }
    {
        (self.book, self.answers, self.told)
    }
}

// What a turn of a run came to: the book, the answers by then, what a read was told if it made one,
// and the run, if it came to its end.
type Ran<'a> = (Book<'a>, Vec<Answered>, Option<Told>, Option<Finished>);

// Runs the request of a turn as far as the answers go, and one read further.
fn ran<'a>(
    alloc: Global,
    book: Book<'a>,
    turn: Turn,
    answers: Vec<Answered>,
    request: &Request<Id>,
) -> Ran<'a>
    requires place { turn.place < 1000 }
    requires is { slice_get book.block turn.place ≡ Some request.now }
    requires short { IsShort request.now }
    ensures { IfSome result.3 (λ run. IsSoundEvent result.0
        (Event.Publish turn.place turn.incarnation (Some run))) }
{
    let terms = book.terms();
    let mut source = Replaying {
        alloc,
        book,
        turn,
        answers,
        used: 0,
        told: None,
    };
    let execution = execute(alloc, terms, turn.place as u32, request, &mut source);
    let (book, answers, told) = source.into_parts();
    match execution {
        Ok(execution) => (book, answers, told, Some(execution.into_finished())),
        Err(_) => (book, answers, told, None),
    }
}

// The next event of a run: a read, or its publication.
fn run_on<'a>(
    alloc: Global,
    book: Book<'a>,
    turn: Turn,
    progress: &mut Progress,
) -> Result<(Book<'a>, Told), AllocError> {
    let Some(request) = request_at(book.block(), turn.place) else {
        return Ok((book, Told::Stale));
    };
    let answers = std::mem::replace(&mut progress.answers, Vec::new(alloc));
    let (book, answers, told, run) = ran(alloc, book, turn, answers, request);
    progress.answers = answers;
    if let Some(told) = told {
        progress.gives_up = matches!(told, Told::Blocked(_));
        return Ok((book, told));
    }
    match run {
        Some(run) => {
            let event = Event::Publish(turn.place, turn.incarnation, Some(run));
            play_event(alloc, book, turn.worker, event)
        }
        None => Ok((book, Told::Stale)),
    }
}

// The next step at a request that isn't run.
fn step_at(book: &Book<'_>, place: usize, progress: &Progress) -> Option<Step> {
    match book.status(place)? {
        Status::Ready(_) => Some(Step::Take(place)),
        Status::Executing(n, _) => Some(Step::GiveUp(place, n)),
        Status::Executed(n) => {
            if book.pass(place).is_some() {
                Some(Step::Check(place, n))
            } else if progress.begins || book.stamp(place).is_none() {
                Some(Step::Begin(place, n))
            } else {
                Some(Step::Commit(place))
            }
        }
        Status::Committed(_) => None,
    }
}

// The step that follows, and what it is told.
fn step_on<'a>(
    alloc: Global,
    book: Book<'a>,
    worker: u32,
    progress: &mut Progress,
) -> Result<(Book<'a>, Told), AllocError> {
    let Some(step) = step_at(&book, worker as usize, progress) else {
        return Ok((book, Told::Stale));
    };
    let (book, told) = play(alloc, book, worker, step)?;
    progress.note(told);
    Ok((book, told))
}

/// The next event of a worker, at the request of its number, and what it is told.
pub fn take_turn<'a>(
    alloc: Global,
    book: Book<'a>,
    worker: u32,
    progress: &mut Progress,
) -> Result<(Book<'a>, Told), AllocError> {
    let place = worker as usize;
    match book.status(place) {
        Some(Status::Executing(incarnation, _)) if !progress.gives_up => {
            let turn = Turn {
                worker,
                place,
                incarnation,
            };
            run_on(alloc, book, turn, progress)
        }
        _ => step_on(alloc, book, worker, progress),
    }
}
