//! The next task of a book.
ghost use Rattle.std.specs.Prelude.{◌≡◌, ◌&&◌, ◌||◌, ℕ, Bool, true, not, nat_le, Some};
ghost use Rattle.book.specs.Run.{state_of};
ghost use Rattle.incarnations.specs.Statuses.{is_executed};
ghost use Rattle.validate.specs.Below.{slot_at};
ghost use Rattle.block_machine.specs.Machine.{is_current, is_stamped};
ghost use Rattle.block_machine.specs.Waiting.{has_work};
ghost use Rattle.scheduler.specs.Task.{settling, task_at, IsNext};

use crate::task::Task;
use block_machine::Status;
use book::Book;

// Whether a stamp stands, where the lower requests last changed at this moment of the clock.
fn is_stamped(stamp: Option<u64>, latest: u64) -> bool
    ensures { (slots : _) (i : ℕ) → ((moment : ℕ)
        → is_current slots i moment ≡ nat_le latest moment) → result ≡ is_stamped slots i stamp }
{
    match stamp {
        None => false,
        Some(moment) => latest <= moment,
    }
}

// Whether the request at the front is executed, with a stamp that stands.
fn can_commit(book: &Book<'_>, front: usize) -> bool
    requires { front ≡ (state_of book.now).front }
    ensures { result ≡ (is_executed (slot_at (state_of book.now).slots front).status
        && is_stamped (state_of book.now).slots front
        (slot_at (state_of book.now).slots front).stamp) }
{
    match book.status(front) {
        Some(Status::Executed(_)) => is_stamped(book.stamp(front), book.latest()),
        Some(Status::Ready(_)) => false,
        Some(Status::Executing(_, _)) => false,
        Some(Status::Committed(_)) => false,
        None => false,
    }
}

// What can be done for an executed request for which something can be, but to commit it.
fn settling(place: usize, incarnation: u64, has_pass: bool) -> Task
    ensures { (stamped : Bool) → (has_pass || not stamped) ≡ true
        → settling place incarnation has_pass stamped ≡ Some result }
{
    if has_pass {
        Task::Check(place, incarnation)
    } else {
        Task::Begin(place, incarnation)
    }
}

// What can be done for a request for which something can be, but to commit it.
fn work_at(book: &Book<'_>, place: usize) -> Task
    requires { has_work (state_of book.now).slots place ≡ true }
    ensures { task_at (state_of book.now).slots place ≡ Some result }
{
    match book.status(place) {
        Some(Status::Ready(_)) => Task::Take(place),
        Some(Status::Executed(n)) => settling(place, n, book.pass(place).is_some()),
        _ => unreachable!(),
    }
}

/// What a worker can do next: a commit where one is lawful, else what can be done for the least
/// request for which anything can be. None only where nothing can be done. It costs the logarithm
/// of the number of requests.
pub fn next(book: &Book<'_>) -> Option<Task>
    ensures { IsNext (state_of book.now) result }
{
    let front = book.front();
    if can_commit(book, front) {
        return Some(Task::Commit(front));
    }
    let place = book.least_work()?;
    Some(work_at(book, place))
}
