//! What is true of each hint.
ghost use Rattle.std.specs.Prelude.{All};
ghost use Rattle.scheduler.specs.Task.{IsHint};

use crate::task::Task;
use crossbeam_deque::protocol::{Outcome, Protocol};
use crossbeam_deque::{Stealer, Worker};
use std::alloc::Global;

/// What is true of each hint in a deque, and of each that leaves one. No value of it is made.
pub struct Hint;

impl Protocol<Task, ()> for Hint {
    ghost holds = { λ items _. All IsHint items };

    ghost first = { tt };

    ghost guest = { tt };
}

impl Outcome<Task, ()> for Hint {
    ghost then = { λ _ xs _. All IsHint xs };
}

/// The deque of a seat, as the seat itself has it.
pub type OwnDeque = Worker<Task, Global, (), Hint>;

/// The same, as the other seats have it.
pub type Source = Stealer<Task, Global, (), Hint>;
