//! A worker's pass as the source of one incarnation of a request.
ghost use Rattle.std.specs.Prelude.{◌≡◌, ◌+◌, ◌≤◌, length, vec_len, vec_capacity, IfOk};
ghost use Rattle.reads.specs.Asking.{AsksAll};
ghost use Rattle.shared.specs.Asks.{Asks};
ghost use Rattle.shared.specs.Calls.{Viewed};
ghost use Rattle.shared.specs.InTurn.{InTurn, questions, reading};
ghost use Rattle.pool.specs.Shown.{AreSeen};

use crate::gate::Gate;
use crate::worker::{Turn, Workers};
use block_machine::{Event, Reply};
use datasets::{Id, Read};
use reads::{Answered, IndexedView, Note, Scanned, Source, Stop};
use shared::{Pass, told};
use std::alloc::{AllocError, Global};
use std::collections::VecDeque;
use std::marker::Model;
use std::sync::Wait;

/// What answers the reads of one incarnation of a request: a shared book, by a pass, which it keeps
/// until the run ends. To a contract it is its pass, with the place of the request and the
/// incarnation.
#[derive(Drop)]
pub struct Asking<'w, 's, 'a, R: Wait, G: Gate> {
    workers: &'w Workers<'s, 'a, R, G>,
    pass: Pass<'a>,
    turn: Turn,
}

impl<'w, 's, 'a, R: Wait, G: Gate> Model for Asking<'w, 's, 'a, R, G> {
    ghost use Rattle.std.specs.Coded.{codes};
    ghost use Rattle.std.specs.Prelude.{◌≡◌};
    ghost use Rattle.algebra.specs.Codes.{plan_code};
    ghost use Rattle.datasets.specs.declared.id.Id.{Id as Number};
    ghost use Rattle.shared.specs.Asks.{Asker};

    ghost Value = { Asker };

    ghost coded = { Prim.hlevel (codes, plan_code {K = Number} (Prim.hlevel codes)) };

    ghost view = { λ a. record { pass = a.pass; place = a.turn.place; incarnation = a.turn.incarnation } };

    ghost invariant = { λ a. (a.pass.table ≡ a.workers.now.table) × (a.pass.subject ≡ a.workers.now.subject) };
}

impl<'w, 's, 'a, R: Wait, G: Gate> Asking<'w, 's, 'a, R, G> {
    /// The source of an incarnation, by a pass.
    pub fn new(workers: &'w Workers<'s, 'a, R, G>, pass: Pass<'a>, turn: Turn) -> Self
        requires table { pass.table ≡ workers.now.table }
        requires subject { pass.subject ≡ workers.now.subject }
        ensures { result ≡ record {
          pass = pass.entry;
          place = turn.place;
          incarnation =
              turn.incarnation;
        } }
    {
        Asking {
            workers,
            pass,
            turn,
        }
    }

    /// The pass again.
    pub fn into_pass(self) -> Pass<'a>
        ensures { result ≡ self.entry.pass }
    {
        self.pass
    }

    // Shows the gate what reads were replied that were made in turn, and notes them with their
    // answers, as far as they were answered.
    fn note_replies(
        &self,
        reads: &[Read<Id>],
        replies: Vec<Reply>,
        made: Result<bool, AllocError>,
        notes: &mut Vec<Note>,
    ) -> Result<(), Stop>
        requires room { vec_len notes.old + length reads.now ≤ vec_capacity notes.old }
        requires seen { AreSeen self.now.pass replies.items
            (reading self.now.place self.now.incarnation reads.now) }
        ensures { (old : Viewed) → InTurn old (reading self.now.place self.now.incarnation
            reads.now) replies.items made self.now.pass
            → AsksAll Asks (record self.now { pass = old }) reads.now notes.old.items
            notes.new.items result self.now }
    {
        let Turn { place, incarnation } = self.turn;
        let mut replies = VecDeque::from(replies);
        let mut left = reads;
        while !left.is_empty() && !replies.is_empty() {
            let (_, others) = left.split_at(1);
            let read = left[0];
            let event = Event::Read(place, incarnation, read);
            let reply = replies.pop_front().unwrap();
            let answer = told(self.workers.shown(&self.pass, event, reply))?;
            notes.push_reserved(Note { read, answer });
            left = others;
        }
        made?;
        Ok(())
    }
}

// What each of the reads says of the base.
fn scans_of_all<'a>(
    alloc: Global,
    base: &'a IndexedView,
    reads: &[Read<Id>],
) -> Result<Vec<Scanned<'a>>, AllocError>
    ensures { IfOk result (λ scans. scans.items ≡ questions base.now reads.now) }
{
    let mut scans = Vec::new(alloc);
    scans.reserve(reads.len())?;
    for read in reads {
        let scanned = Scanned::new(alloc, base, read)?;
        scans.push(scanned)?;
    }
    Ok(scans)
}

impl<'w, 's, 'a, R: Wait, G: Gate> Source for Asking<'w, 's, 'a, R, G> {
    ghost use Rattle.shared.specs.Asks.{Asks};

    ghost asks = { Asks };

    fn ask(&mut self, read: &Read<Id>) -> Result<Answered, Stop> {
        let Turn { place, incarnation } = self.turn;
        let workers = self.workers;
        let event = Event::Read(place, incarnation, *read);
        let reply = workers.shared.read(
            workers.rt,
            workers.alloc,
            &mut self.pass,
            place,
            incarnation,
            read,
        )?;
        told(workers.shown(&self.pass, event, reply))
    }

    // The book is held once for all of them.
    fn ask_all(&mut self, reads: &[Read<Id>], notes: &mut Vec<Note>) -> Result<(), Stop> {
        let Turn { place, incarnation } = self.turn;
        let workers = self.workers;
        notes.reserve(reads.len())?;
        let scans = scans_of_all(workers.alloc, workers.base, reads)?;
        let mut replies = Vec::new(workers.alloc);
        // Here, and not while the book is held.
        replies.reserve(reads.len())?;
        let made = workers.shared.read_all(
            workers.rt,
            workers.alloc,
            &mut self.pass,
            place,
            incarnation,
            reads,
            &scans,
            &mut replies,
        );
        self.note_replies(reads, replies, made, notes)
    }
}
