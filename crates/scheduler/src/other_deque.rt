//! The deque of another seat.
ghost use Rattle.std.specs.Prelude.{◌≡◌, IfOk, IfSome};
ghost use Rattle.crossbeam_deque.specs.Handles.{IsPassOf, stealer_deque};
ghost use Rattle.scheduler.specs.Task.{IsHint};

use crate::hint::{Hint, Source};
use crate::task::Task;
use crossbeam_deque::{Pass, Steal};
use std::alloc::AllocError;

/// The deque of another seat, with a pass to it.
#[derive(Drop)]
pub struct OtherDeque {
    source: Source,
    pass: Pass<Task, ()>,
    ghost fits: { IsPassOf (stealer_deque source) pass },
}

impl OtherDeque {
    /// The deque from which this takes hints. An error comes only where it is shared too often.
    pub fn new(source: &Source) -> Result<OtherDeque, AllocError>
        ensures { IfOk result (λ o. stealer_deque o.source ≡ stealer_deque source.now) }
    {
        let source = source.clone()?;
        let pass = source.pass();
        Ok(OtherDeque { source, pass })
    }

    /// Takes the first hint, unless there is none or another seat takes one at the same time.
    pub fn find(&mut self) -> Option<Task>
        ensures same { stealer_deque self.new.source ≡ stealer_deque self.old.source }
        ensures hint { IfSome result IsHint }
    {
        match self.source.steal_as::<Hint>(&mut self.pass) {
            Steal::Success(task) => Some(task),
            Steal::Empty => None,
            Steal::Retry => None,
        }
    }
}
