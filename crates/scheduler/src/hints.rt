//! Where a worker may look for what to do, without the book's word.
ghost use Rattle.std.specs.Prelude.{◌≡◌, ◌<◌, ◌≤◌, ◌+◌, ◌++◌, All, IfOk, IfErr, IfSome, length, map, take, drop};
ghost use Rattle.crossbeam_deque.specs.Handles.{stealer_deque};
ghost use Rattle.scheduler.specs.Task.{IsHint};
ghost use Rattle.scheduler.specs.Hints.{index, room, IsNew, deques_of, sources_of, IsSameSeat, LookEverywhere};

use crate::hint::{Hint, OwnDeque, Source};
use crate::other_deque::OtherDeque;
use crate::task::Task;
use std::alloc::{AllocError, Global};

/// How many hints the deque of a seat holds before it grows.
const FIRST_ROOM: usize = 64;

/// Where the worker of a seat may look for what to do: in a deque of its own, and then in those of
/// the other seats. A hint decides nothing, and may be out of date.
#[derive(Drop)]
pub struct Hints {
    own: OwnDeque,
    others: Vec<OtherDeque>,
}

// Seats that look in no deque but their own, and what takes hints from those.
fn own_deques(alloc: Global, seats: u32) -> Result<(Vec<Hints>, Vec<Source>), AllocError>
    ensures count { IfOk result (λ r. length r.0.items ≡ seats) }
    ensures empty { IfOk result (λ r. All IsNew r.0.items) }
    ensures sources { IfOk result (λ r. map stealer_deque r.1.items ≡ deques_of r.0.items) }
{
    let mut all = Vec::new(alloc);
    let mut sources = Vec::new(alloc);
    for _ in 0..seats {
        let own = OwnDeque::lifo_as(alloc, FIRST_ROOM)?;
        sources.push(own.stealer()?)?;
        let others = Vec::new(alloc);
        all.push(Hints { own, others })?;
    }
    Ok((all, sources))
}

// Looks in these deques too.
fn add_others(others: &mut Vec<OtherDeque>, sources: &[Source]) -> Result<(), AllocError>
    ensures { IfOk result (λ _. sources_of others.new.items
        ≡ sources_of others.old.items ++ map stealer_deque sources.now) }
{
    for source in sources {
        others.push(OtherDeque::new(source)?)?;
    }
    Ok(())
}

// The deques of the seats behind a place, and then those of the seats before it.
fn others(alloc: Global, sources: &[Source], place: usize) -> Result<Vec<OtherDeque>, AllocError>
    requires { place < length sources.now }
    ensures { IfOk result (λ others. sources_of others.items
        ≡ drop (place + 1) (map stealer_deque sources.now)
        ++ take place (map stealer_deque sources.now)) }
{
    let mut others = Vec::new(alloc);
    add_others(&mut others, &sources[place + 1..])?;
    add_others(&mut others, &sources[..place])?;
    Ok(others)
}

// A hint from one of these deques, the first first.
fn find_in(others: &mut [OtherDeque]) -> Option<Task>
    ensures same { sources_of others.new ≡ sources_of others.old }
    ensures hint { IfSome result IsHint }
{
    for other in others.iter_mut() {
        if let Some(task) = other.find() {
            return Some(task);
        }
    }
    None
}

impl Hints {
    /// Those of so many seats, all empty. Each seat looks in the deques of all. An error comes only
    /// where a growth was refused.
    pub fn new(alloc: Global, seats: u32) -> Result<Vec<Hints>, AllocError>
        ensures count { IfOk result (λ all. length all.items ≡ seats) }
        ensures empty { IfOk result (λ all. All IsNew all.items) }
        ensures everywhere { IfOk result (λ all. LookEverywhere all.items) }
    {
        let (mut all, sources) = own_deques(alloc, seats)?;
        for place in 0..all.len() {
            all[place].others = others(alloc, &sources, place)?;
        }
        Ok(all)
    }

    /// Puts a hint into the seat's own deque: something that may be done for a request below 2^32.
    /// An error comes only where the deque is full and was refused a growth. Then it is as before.
    pub fn push(&mut self, task: Task) -> Result<(), AllocError>
        requires { IsHint task }
        ensures same { IsSameSeat self.old self.new }
        ensures put { IfOk result (λ _. index self.new ≡ index self.old + 1) }
        ensures refused { IfErr result (λ _. (index self.new ≡ index self.old)
            × (room self.old ≤ index self.old)) }
    {
        match self.own.push_as::<Hint>(task) {
            Ok(()) => Ok(()),
            Err(_) => Err(AllocError),
        }
    }

    /// Takes a hint: the last one that was put into the seat's own deque, else the first of another
    /// seat's.
    pub fn find(&mut self) -> Option<Task>
        ensures same { IsSameSeat self.old self.new }
        ensures own { index self.new ≤ index self.old }
        ensures hint { IfSome result IsHint }
    {
        match self.own.pop_as::<Hint>() {
            Some(task) => Some(task),
            None => find_in(&mut self.others),
        }
    }
}
