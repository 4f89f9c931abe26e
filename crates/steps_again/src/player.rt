//! What makes events, each once more where memory is short.
ghost use Rattle.std.specs.Prelude.{◌≡◌};
ghost use Rattle.book.specs.Run.{IsSoundEvent, Run};
ghost use Rattle.steps_again.specs.Runs.{Follows, IsOf};

use crate::input::{STEPS, request_at};
use crate::text::{push_event, word_of};
use block_machine::{Event, Reply};
use book::Book;
use datasets::{Id, Read};
use numbering::Numbered;
use reads::{Answered, Source, Stop};
use std::alloc::{AllocError, Global};
use std::marker::Model;
use update::execute;

/// By which way an event was made again, and its word, if one was.
pub type Again = Option<(&'static str, &'static str)>;

/// What makes the events of workers.
pub trait Makes {
    ghost use Rattle.book.specs.Run.{IsSoundEvent, Run};
    ghost use Rattle.steps_again.specs.Runs.{Follows};

    // The run so far.
    ghost run: { Self → Run };

    /// The reply to an event of a worker. After an `Err` it was not made.
    fn make(&mut self, alloc: Global, worker: u32, event: &Event) -> Result<Reply, AllocError>
        requires { IsSoundEvent (run self.old) event.now }
        ensures { Follows (run self.old) (run self.new) };
}

impl<'a> Makes for Book<'a> {
    ghost run = { λ b. b };

    fn make(&mut self, alloc: Global, worker: u32, event: &Event) -> Result<Reply, AllocError> {
        self.step(alloc, worker, event)
    }
}

/// What makes events, of which request, who makes the next, and what was made again and told.
#[derive(Drop)]
pub struct Player<'a, M: Makes + Drop> {
    pub alloc: Global,
    pub numbered: &'a Numbered,
    pub makes: M,
    pub worker: u32,
    pub place: usize,
    pub incarnation: u64,
    pub way: &'static str,
    pub again: Again,
    pub text: String,
}

impl<'a, M: Makes + Drop> Model for Player<'a, M> {
    ghost use Rattle.std.specs.Coded.{codes};
    ghost use Rattle.algebra.specs.Codes.{plan_code};
    ghost use Rattle.datasets.specs.declared.id.Id.{Id as Number};
    ghost use Rattle.book.specs.Run.{Run};
    ghost use Rattle.steps_again.specs.Runs.{IsOf};

    ghost Value = { Run };

    ghost coded = { Prim.hlevel (codes, plan_code {K = Number} (Prim.hlevel codes)) };

    ghost view = { λ p. M.run p.makes };

    ghost invariant = { λ p. IsOf p.numbered.now (M.run p.makes) };
}

impl<'a, M: Makes + Drop> Source for Player<'a, M> {
    ghost use Rattle.steps_again.specs.Runs.{Follows};

    ghost asks = { λ before read told after. Follows before after };

    fn ask(&mut self, read: &Read<Id>) -> Result<Answered, Stop> {
        let event = Event::Read(self.place, self.incarnation, *read);
        match self.reply(&event)? {
            Reply::Answered(answer) => Ok(answer),
            Reply::Blocked(place) => Err(Stop::Blocked(place)),
            _ => Err(Stop::Stale),
        }
    }
}

impl<'a, M: Makes + Drop> Player<'a, M> {
    // The reply to an event, which is made once more where memory is short.
    fn reply_to(&mut self, event: &Event) -> Result<Reply, AllocError>
        requires { IsSoundEvent self.old event.now }
        ensures { Follows self.old self.new }
    {
        if let Ok(reply) = self.makes.make(self.alloc, self.worker, event) {
            return Ok(reply);
        }
        self.again = Some((self.way, word_of(event)));
        self.makes.make(self.alloc, self.worker, event)
    }

    // The same, and its line is told.
    fn reply(&mut self, event: &Event) -> Result<Reply, AllocError>
        requires { IsSoundEvent self.old event.now }
        ensures { Follows self.old self.new }
    {
        let reply = self.reply_to(event)?;
        push_event(self.alloc, &mut self.text, self.worker, event, &reply)?;
        Ok(reply)
    }

    // Runs a request, and publishes the run if it comes to its end.
    fn execute(&mut self, place: usize, incarnation: u64) -> Result<(), AllocError> {
        let numbered = self.numbered;
        let Some(request) = request_at(numbered.block.as_slice(), place) else {
            return Ok(());
        };
        self.place = place;
        self.incarnation = incarnation;
        match execute(
            self.alloc,
            numbered.base.terms(),
            place as u32,
            request,
            self,
        ) {
            Ok(execution) => {
                let run = execution.into_finished();
                self.reply(&Event::Publish(place, incarnation, Some(run)))?;
                Ok(())
            }
            Err(Stop::Memory) => Err(AllocError),
            Err(_) => Ok(()),
        }
    }

    // An event of a worker, or a whole run.
    fn play(&mut self, worker: u32, event: &Event) -> Result<(), AllocError> {
        self.worker = worker;
        match event {
            Event::Publish(place, incarnation, _) => return self.execute(*place, *incarnation),
            Event::Take(_) | Event::Read(_, _, _) | Event::Begin(_, _) => self.reply(event)?,
            Event::Check(_, _) | Event::Commit(_) | Event::GiveUp(_, _) => self.reply(event)?,
        };
        Ok(())
    }

    /// Makes all events.
    pub fn play_all(&mut self) -> Result<(), AllocError> {
        for (worker, event) in &STEPS {
            self.play(*worker, event)?;
        }
        Ok(())
    }

    /// What makes the events, and what was told.
    pub fn into_parts(self) -> (M, String) {
        (self.makes, self.text)
    }
}
