ghost use Rattle.std.specs.Prelude.{◌≡◌, ℕ, ◌<◌, ◌≤◌, true, false, [], Some, length, drop, map, slice_get, vec_len, All, IfOk, OnErr};
ghost use Rattle.blocklock.specs.History.{AreBelow};
ghost use Rattle.blocklock.specs.Rule.{rest_of};
ghost use Rattle.blocklock.specs.Passes.{Includes, Takes, MayGive, Watches, IsIdleAt, given, fresh_pass, told_of, table_of, dealer};

use crate::into_pass::IntoPass;
use crate::journaled::Journaled;
use crate::pass::Pass;
use crate::plays::{Give, Key, One, Rule, Slot, Take, TakeIn, ViewOf};
use atomic_table::{Seat, Table};
use std::alloc::{AllocError, Global};
use std::hint::spin_loop;
use std::marker::Model;
use std::snapshot::Snapshot;
use std::sync::Wait;
use std::thread::yield_now;

/// After how many looks one that waits for the book leaves the processor to others.
const LOOKS_A_YIELD: u32 = 128;

/// The word was found taken.
#[derive(Clone, Copy)]
pub struct Busy;

/// A book that the passes of its workers take in turn. To a contract it is its table: which it is,
/// how many workers have passes, and how long the journal was at first.
#[derive(Drop)]
pub struct BlockLock<B: Journaled> {
    table: Table<Slot<B>, ViewOf<B>, Key<B>, Rule, Global>,
}

impl<B: Journaled> Model for BlockLock<B> {
    ghost use Rattle.std.specs.Prelude.{◌≡◌, length};
    ghost use Rattle.blocklock.specs.Passes.{LockTable};

    ghost Value = { LockTable };

    ghost view = { λ l. record { id = l.table.shared.table_id; seats = l.table.shared.key.seats; start = length (B.history l.table.shared.key.book.value).journal } };

    ghost invariant = { λ l. (l.table.shared.table_id.words ≡ 1) × (l.table.shared.table_id.slots ≡ 1) };
}

/// The book, taken with a pass. It cannot be dropped: give it back with the same pass.
pub struct Held<'a, B: Journaled> {
    pub book: Box<B>,
    pub lock: &'a BlockLock<B>,
}

impl<B: Journaled> BlockLock<B> {
    // The lock, and the seat of the passes that are still to be dealt.
    fn of(
        alloc: Global,
        book: B,
        seats: u32,
    ) -> Result<(BlockLock<B>, Seat<Slot<B>, ViewOf<B>>), AllocError>
        ensures seat { IfOk result (λ r. (r.1.table_id ≡ r.0.id)
            × (r.1.me ≡ dealer seats (B.history book) 0)) }
        ensures lock { IfOk result (λ r. (r.0.seats ≡ seats)
            × (r.0.start ≡ length (B.history book).journal)) }
    {
        let key = Key {
            book: Snapshot::of(&book),
            seats,
        };
        let mut slots = Vec::with_capacity(alloc, 1)?;
        slots.push_reserved(Some(Box::new(alloc, book)?));
        match Table::new(alloc, &[0], slots, &key) {
            Ok((table, seat)) => Ok((BlockLock { table }, seat)),
            Err(_) => Err(AllocError),
        }
    }

    // The pass of the next worker.
    fn deal(&self, seat: &mut Seat<Slot<B>, ViewOf<B>>, worker: u32) -> Pass<B>
        requires own { table_of seat.old.table_id seat.old.me.0 ≡ self.now }
        requires next { (seat.old.me.0.from ≡ worker) × (worker < seat.old.me.0.until)
            × (seat.old.me.1 ≡ []) }
        requires idle { (seat.old.me.0.holds ≡ false) × (seat.old.me.0.told ≡ []) }
        ensures seat { (seat.new.table_id ≡ seat.old.table_id)
            × (seat.new.me ≡ (rest_of seat.old.me.0, [])) }
        ensures pass { result ≡ record {
          table = self.now;
          worker = worker;
          subject =
              seat.old.me.0.subject;
          seen = seat.old.me.0.seen;
          holds = false;
        } }
    {
        Pass {
            seat: self.table.shared.split_seat::<One>(seat),
            worker,
        }
    }

    /// The lock, with a pass for each worker, which has seen the book's journal. No other worker
    /// has a pass.
    pub fn new(
        alloc: Global,
        book: B,
        seats: u32,
    ) -> Result<(BlockLock<B>, Vec<Pass<B>>), AllocError>
        requires { (0 < seats) × (seats ≤ 64) }
        ensures count { IfOk result (λ r. vec_len r.1 ≡ seats) }
        ensures passes { IfOk result (λ r. (k : ℕ) → k < seats
            → slice_get r.1.items k ≡ Some (fresh_pass r.0 (B.history book) k)) }
        ensures lock { IfOk result (λ r. (r.0.seats ≡ seats)
            × (r.0.start ≡ length (B.history book).journal)) }
    {
        let (lock, mut seat) = BlockLock::of(alloc, book, seats)?;
        let mut passes = Vec::with_capacity(alloc, seats as usize)?;
        for worker in 0..seats {
            passes.push_reserved(lock.deal(&mut seat, worker));
        }
        Ok((lock, passes))
    }

    /// Takes the book, where it is there. It is one exchange, takes no memory and never waits.
    pub fn try_hold<'a>(&'a self, pass: &mut Pass<B>) -> Result<Held<'a, B>, Busy>
        requires { pass.old.table ≡ self.now }
        ensures held { IfOk result (λ h. (h.lock.now ≡ self.now)
            × Takes B.worker_of pass.old (B.history h.book.value) pass.new) }
        ensures busy { OnErr result (pass.new ≡ pass.old) }
    {
        let found = self.table.shared.swap::<Take>(&mut pass.seat, 0, 1);
        if found != 0 {
            return Err(Busy);
        }
        let book = self.table.shared.exchange(&mut pass.seat, 0, None).unwrap();
        Ok(Held { book, lock: self })
    }
}

// Waits for some cycles after so many looks, and now and then leaves the processor to others: most
// often a book is back after a few looks.
fn wait_after(looks: u32) {
    if looks % LOOKS_A_YIELD == 0 {
        yield_now();
    } else {
        spin_loop();
    }
}

impl<B: Journaled> BlockLock<B> {
    /// Takes the book, once it is there.
    pub fn hold<'a, R: Wait>(&'a self, rt: &R, pass: &mut Pass<B>) -> Held<'a, B>
        requires { pass.old.table ≡ self.now }
        ensures { (result.lock.now ≡ self.now)
            × Takes B.worker_of pass.old (B.history result.book.value) pass.new }
    {
        let mut looks = 0u32;
        for _ in rt.forever() {
            // An exchange takes the word from whoever gives the book back, and a look does not.
            if self.table.shared.peek(0) == 0 {
                if let Ok(held) = self.try_hold(pass) {
                    return held;
                }
            }
            looks = looks.wrapping_add(1);
            wait_after(looks);
        }
        unreachable!()
    }

    /// How many requests are committed.
    pub fn front<R: Wait>(&self, rt: &R, pass: &mut Pass<B>) -> usize
        requires { pass.old.table ≡ self.now }
        ensures front { result ≡ B.front_of (record
            { subject = pass.new.subject; journal = pass.new.seen }) }
        ensures pass { Watches B.worker_of pass.old pass.new }
    {
        let held = self.hold(rt, pass);
        let front = held.book.front();
        held.give(pass);
        front
    }

    // The seat that holds the book takes in all other passes.
    fn take_in<P: IntoPass<B>>(&self, seat: &mut Seat<Slot<B>, ViewOf<B>>, mut passes: Vec<P>)
        requires own { (seat.old.table_id ≡ self.now.id)
            × All (λ p. IsIdleAt self.now (P.pass_of p)) passes.items }
        requires holds { (seat.old.me.0.holds ≡ true) × (seat.old.me.0.from < seat.old.me.0.until)
            × (seat.old.me.0.told ≡ []) }
        ensures seat { (seat.new.table_id ≡ seat.old.table_id) × (seat.new.id ≡ seat.old.id) }
        ensures told { seat.new.me.0
            ≡ record seat.old.me.0 { told = map (λ p. told_of (P.pass_of p)) passes.items } }
    {
        while let Some(next) = passes.pop() {
            let pass = next.into_pass();
            let Pass {
                seat: other,
                worker: _,
            } = pass;
            self.table.shared.join_seat::<TakeIn<B>>(seat, other);
        }
    }

    /// Ends the sharing. The book's journal begins with what each pass has seen, and has no other
    /// entries of its worker. All that was added to it is of workers who have passes.
    pub fn close<R: Wait, P: IntoPass<B>>(self, rt: &R, mut passes: Vec<P>) -> B
        requires some { 0 < vec_len passes }
        requires passes { All (λ p. IsIdleAt self (P.pass_of p)) passes.items }
        ensures includes { All (λ p. Includes B.worker_of (P.pass_of p) (B.history result))
            passes.items }
        ensures workers { AreBelow B.worker_of self.seats (drop self.start (B.history result).journal) }
    {
        let last = passes.pop().unwrap();
        let mut pass = last.into_pass();
        let Held { book, lock: _ } = self.hold(rt, &mut pass);
        let Pass {
            mut seat,
            worker: _,
        } = pass;
        self.take_in(&mut seat, passes);
        let BlockLock { table } = self;
        let mut closed = table.close_with(seat);
        drop(closed.take(0));
        closed.free();
        Box::into_inner(book)
    }
}

impl<B: Journaled> Held<'_, B> {
    /// Gives the book back.
    pub fn give(self, pass: &mut Pass<B>)
        requires { (pass.old.table ≡ self.lock.now)
            × MayGive B.worker_of pass.old (B.history self.book.value) }
        ensures { pass.new ≡ given pass.old (B.history self.entry.book.value) }
    {
        let Held { book, lock } = self;
        let shared = &lock.table.shared;
        drop(shared.exchange(&mut pass.seat, 0, Some(book)));
        shared.store::<Give>(&mut pass.seat, 0, 0);
    }
}
