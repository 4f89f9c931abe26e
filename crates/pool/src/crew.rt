//! Workers on threads of their own.
ghost use Rattle.std.specs.Prelude.{◌≡◌, ◌≤◌, ◌<◌, ◌+◌, ◌-◌, length, take, drop, vec_len, IfOk};
ghost use Rattle.std.specs.Thread.{IsSync};
ghost use Rattle.pool.specs.Duty.{MayBegin, AreDone};

use crate::gate::Gate;
use crate::seat::Seat;
use crate::worker::Workers;
use shared::Pass;
use std::alloc::AllocError;
use std::sync::Wait;
use std::thread::{Threads, join};

/// Some of the workers, each with its seat.
#[derive(Drop)]
pub struct Crew<'s, 'a, R: Wait, G: Gate> {
    pub workers: Workers<'s, 'a, R, G>,
    pub seats: Vec<Seat<'a>>,
}

impl<'s, 'a, R: Threads + Wait + Sync, G: Gate + Sync> Crew<'s, 'a, R, G> {
    // The work of one worker at most.
    fn work_alone(self) -> Result<Vec<Pass<'a>>, AllocError>
        requires begin { MayBegin self.workers self.seats.items }
        requires one { vec_len self.seats ≤ 1 }
        ensures { IfOk result (λ done. AreDone self.entry.workers self.entry.seats.items
            done.items) }
    {
        let Crew { workers, mut seats } = self;
        let mut done = Vec::new(workers.alloc);
        if let Some(seat) = seats.pop() {
            done.push(workers.work_or_stop(seat)?)?;
        }
        Ok(done)
    }

    // Two crews, with the last seat and the others.
    fn split(self) -> Result<(Self, Self), AllocError>
        ensures workers { IfOk result (λ r. (r.0.workers ≡ self.entry.workers)
            × (r.1.workers ≡ self.entry.workers)) }
        ensures last { IfOk result (λ r. r.0.seats.items
            ≡ drop (length self.entry.seats.items - 1) self.entry.seats.items) }
        ensures others { IfOk result (λ r. r.1.seats.items
            ≡ take (length self.entry.seats.items - 1) self.entry.seats.items) }
    {
        let Crew { workers, mut seats } = self;
        let last = seats.split_off(seats.len().saturating_sub(1))?;
        let first = Crew {
            workers: workers.again(),
            seats: last,
        };
        Ok((first, Crew { workers, seats }))
    }

    // Two crews, of the last worker and of the others.
    fn parted(self) -> Result<(Self, Self), AllocError>
        requires { MayBegin self.workers self.seats.items }
        ensures count { IfOk result (λ r. length r.0.seats.items + length r.1.seats.items
            ≡ length self.entry.seats.items) }
        ensures some { 2 ≤ length self.entry.seats.items
            → IfOk result (λ r. (0 < length r.0.seats.items) × (0 < length r.1.seats.items)) }
        ensures last { IfOk result (λ r. (r.0.workers ≡ self.entry.workers)
            × MayBegin r.0.workers r.0.seats.items) }
        ensures others { IfOk result (λ r. (r.1.workers ≡ self.entry.workers)
            × MayBegin r.1.workers r.1.seats.items) }
    {
        let (last, others) = self.split()?;
        Ok((last, others))
    }

    /// All do tasks until all requests are committed, each on a thread of its own where one can be
    /// had. The thread that calls makes all others, and is the first worker: of those that new ones
    /// make, two often share a processor at first. An error comes only where a growth was refused.
    pub fn work(self) -> Result<Vec<Pass<'a>>, AllocError>
        requires shared { IsSync R.row × IsSync G.row }
        requires begin { MayBegin self.workers self.seats.items }
        ensures { IfOk result (λ done. AreDone self.entry.workers self.entry.seats.items
            done.items) }
    {
        if self.seats.len() <= 1 {
            return self.work_alone();
        }
        let rt = self.workers.rt;
        let (last, others) = self.parted()?;
        let (alone, together) = join(
            rt,
            move || -> Result<Vec<Pass<'_>>, AllocError>
                requires { IsSync R.row × IsSync G.row × MayBegin last.workers last.seats.items }
                ensures { IfOk result (λ done. AreDone last.entry.workers last.entry.seats.items
                    done.items) }
            { last.work() },
            move || -> Result<Vec<Pass<'_>>, AllocError>
                requires { IsSync R.row × IsSync G.row
                    × MayBegin others.workers others.seats.items }
                ensures { IfOk result (λ done. AreDone others.entry.workers
                    others.entry.seats.items done.items) }
            { others.work() },
        );
        let mut done = together?;
        let mut last_done = alone?;
        done.append(&mut last_done)?;
        Ok(done)
    }
}
