//! What a worker can do next, and the take of a request where it is that, in one hold of the lock.
ghost use Rattle.std.specs.Prelude.{◌≡◌, Some, None, IfOk, IfSome, OnErr};
ghost use Rattle.std.specs.Option.{option_map};
ghost use Rattle.book.specs.Run.{state_of, IsSoundEvent};
ghost use Rattle.blocklock.specs.History.{GoesOn};
ghost use Rattle.scheduler.specs.Task.{IsNext};
ghost use Rattle.shared.specs.Calls.{owner, history_of};
ghost use Rattle.shared.specs.InTurn.{publishing};
ghost use Rattle.shared.specs.Taking.{taking, TookFrom, WentAndTook};

use crate::in_turn::make_publishing;
use crate::pass::Pass;
use block_machine::{Event, Reply};
use book::Book;
use delta::Finished;
use scheduler::{Task, next};
use std::alloc::{AllocError, Global};

/// What a worker can do next, if there is anything, and the reply to the take of a request where it
/// is that and was made at once.
#[derive(Drop)]
pub struct Next {
    pub task: Option<Task>,
    pub taken: Option<Reply>,
}

impl Next {
    /// Nothing.
    pub fn nothing() -> Next
        ensures { result ≡ record { task = None; taken = None } }
    {
        Next {
            task: None,
            taken: None,
        }
    }
}

// The request that is taken at once, where this is what can be done next.
fn taken(next: &Option<Task>, most: usize) -> Option<usize>
    ensures { option_map (λ i. Event.Take i) result ≡ taking most next.now }
{
    match next {
        Some(Task::Take(place)) if *place < most => Some(*place),
        _ => None,
    }
}

/// On a book that the pass of a worker holds: what can be done next. A request below a place is
/// taken.
pub(crate) fn make_taking<'a>(
    alloc: Global,
    book: &mut Book<'a>,
    worker: u32,
    most: usize,
) -> Result<Next, AllocError>
    ensures subject { (history_of book.new).subject ≡ (history_of book.old).subject }
    ensures goes_on { GoesOn owner worker book.old.history book.new.history }
    ensures next { IfOk result (λ r. IsNext (state_of book.old) r.task) }
    ensures none { IfOk result (λ r. r.taken ≡ None → (taking most r.task ≡ None)
        × (book.new ≡ book.old)) }
    ensures some { IfOk result (λ r. IfSome r.taken
        (λ reply. TookFrom book.old book.new worker most r.task reply)) }
    ensures err { OnErr result (book.new ≡ book.old) }
{
    let task = next(book);
    let Some(place) = taken(&task, most) else {
        return Ok(Next { task, taken: None });
    };
    let reply = book.step_scanned(alloc, worker, &Event::Take(place), &[])?;
    let _journal = book.journal();
    Ok(Next {
        task,
        taken: Some(reply),
    })
}

/// On a book that the pass holds: the publication of a run, what settles it, and then what can be
/// done next. It answers whether all of the settling was made and lets the worker go on, too.
pub(crate) fn make_publishing_and_taking<'a>(
    alloc: Global,
    book: &mut Book<'a>,
    pass: &Pass<'a>,
    i: usize,
    n: u64,
    finished: Finished,
    notes: usize,
    until: usize,
    most: usize,
    replies: &mut Vec<Reply>,
) -> Result<(bool, Next), AllocError>
    requires subject { (history_of book.old).subject ≡ pass.now.subject }
    requires sound { IsSoundEvent book.old (Event.Publish i n (Some finished)) }
    ensures subject { (history_of book.new).subject ≡ pass.now.subject }
    ensures goes_on { GoesOn owner pass.now.worker book.old.history book.new.history }
    ensures took { WentAndTook pass.now book.old book.new (publishing i n finished notes until)
        replies.old.items replies.new.items most result }
{
    let whole = make_publishing(alloc, book, pass, i, n, finished, notes, until, replies)?;
    let _between = book.journal();
    let next = make_taking(alloc, book, pass.worker(), most)?;
    Ok((whole, next))
}
