//! The slots of a block's requests.
ghost use Rattle.std.specs.Prelude.{◌≡◌, ◌<◌, ◌≤◌, ◌+◌, ◌^◌, ◌↔◌, ℕ, true, false, length, map, replicate, slice_get, slice_set, Some, IsTrue, IfOk, OnOk, OnErr};
ghost use Rattle.std.specs.Thread.{IsSync};
ghost use Rattle.incarnations.specs.Slots.{Noted as Described, fresh_slot, transcript_of, taken, begun, passed, aborted, given, committed, published, keeps_delta};
ghost use Rattle.incarnations.specs.Statuses.{is_closed};
ghost use Rattle.incarnations.specs.Kept.{kept_note_of};
ghost use Rattle.incarnations.specs.Standings.{standing_of};
ghost use Rattle.validate.specs.Below.{slot_at, view_at};
ghost use Rattle.validate.specs.Verdicts.{NoteVerdict, ListVerdict};
ghost use Rattle.validate.specs.Kept.{shown};
ghost use Rattle.version_overlay.specs.Settled.{changed_by};
ghost use Rattle.slots.specs.Slots.{status_of, IsAsked, replies_to};

use crate::asked::Asked;
use crate::settling::{put_in_order, settle};
use crate::transcripts::is_transcript;
use datasets::{Id, Read};
use delta::Finished;
use incarnations::{Noted, Pass, Slot, Status, slot};
use quad_lists::Arrangement;
use reads::{CompactView, IndexedView, Scanned, View};
use stamp_tree::Standing;
use std::alloc::{AllocError, Global};
use std::marker::Model;
use std::thread::{Threads, join};
use validate::{Found, Kept, Verdict, changed_from, look};
use version_overlay::{ChangeFilter, Settled};

/// The slots of a block's requests, in their order. Contracts see each with its whole notes.
#[derive(Drop)]
pub struct Slots<'a> {
    kept: Kept<'a>,
}

impl<'a> Model for Slots<'a> {
    ghost use Rattle.std.specs.Prelude.{List};
    ghost use Rattle.incarnations.specs.Slots.{Slot};
    ghost use Rattle.validate.specs.Kept.{Holds};
    ghost use Rattle.slots.specs.Slots.{slots_of};

    ghost Value = { List Slot };

    ghost view = { λ s. slots_of s.kept.slots.items };

    ghost invariant = { λ s. Holds s.kept };
}

impl<'a> Slots<'a> {
    /// Those of this many requests before their first event. The orders are those in which what
    /// they change is kept beside SPOG.
    pub fn new(alloc: Global, size: usize, orders: &[Arrangement]) -> Result<Slots<'a>, AllocError>
        ensures { IfOk result (λ slots. slots ≡ replicate size fresh_slot) }
    {
        let mut slots = Vec::new(alloc);
        for _count in 0..size {
            slots.push(slot::fresh(alloc))?;
        }
        let kept = Kept {
            slots,
            low: 0,
            settled: Settled::new(alloc, orders)?,
            published: ChangeFilter::new(alloc),
        };
        Ok(Slots { kept })
    }

    /// There are fewer than 2^63.
    pub fn are_few(&self)
        ensures { length self.now < 2 ^ 63 }
    {
        let _ = &self.kept.slots;
    }

    /// The status of a request, if the block has it.
    pub fn status(&self, i: usize) -> Option<Status>
        ensures { result ≡ status_of self.now i }
    {
        self.kept.slots.get(i).map(|slot| slot.status)
    }

    /// The pass that stands.
    pub fn pass(&self, i: usize) -> Option<Pass>
        ensures { result ≡ (slot_at self.now i).pass }
    {
        match self.kept.slots.get(i) {
            Some(slot) => slot.pass,
            None => None,
        }
    }

    /// The clock when the last finished pass began.
    pub fn stamp(&self, i: usize) -> Option<u64>
        ensures { result ≡ (slot_at self.now i).stamp }
    {
        match self.kept.slots.get(i) {
            Some(slot) => slot.stamp,
            None => None,
        }
    }

    /// The clock when a publication last changed the delta, 0 before any did.
    pub fn changed(&self, i: usize) -> u64
        ensures { result ≡ (slot_at self.now i).changed }
    {
        match self.kept.slots.get(i) {
            Some(slot) => slot.changed,
            None => 0,
        }
    }

    /// When something is to be done for a request but to commit it, and its last change.
    pub fn standing(&self, i: usize) -> Standing
        requires { i < length self.now }
        ensures { result ≡ standing_of (slot_at self.now i) }
    {
        slot::standing(&self.kept.slots[i])
    }

    /// The reads of the request's incarnation, in order.
    pub fn notes(&self, i: usize) -> &[Noted<'a>]
        ensures { map kept_note_of result.now ≡ transcript_of (slot_at self.now i).notes }
    {
        if i < self.kept.slots.len() {
            self.kept.slots[i].notes.as_slice()
        } else {
            &[]
        }
    }

    /// Whether the run's transcript is the notes. An error comes only where memory runs out.
    pub fn has_transcript(
        &self,
        alloc: Global,
        i: usize,
        finished: &Finished,
    ) -> Result<bool, AllocError>
        ensures { IfOk result (λ same. IsTrue same
            ↔ (finished.now.transcript ≡ transcript_of (slot_at self.now i).notes)) }
    {
        is_transcript(alloc, self.notes(i), finished.transcript.as_slice())
    }

    /// The base with the deltas of the first `n` requests.
    pub fn view(&self, alloc: Global, base: &IndexedView, n: usize) -> Result<View, AllocError>
        requires { n ≤ length self.now }
        ensures { IfOk result (λ view. view ≡ view_at base.now self.now n) }
    {
        let view = base.copied(alloc)?;
        let slots = self.kept.slots.as_slice();
        if n < self.kept.low {
            return changed_from(alloc, slots, 0, n, view);
        }
        let view = self.kept.settled.apply(alloc, view)?;
        changed_from(alloc, slots, self.kept.low, n, view)
    }

    /// The same by so many threads, where nothing else is needed any more: notes are let go first,
    /// or by another thread.
    pub fn into_view<T: Threads + Sync>(
        self,
        rt: &T,
        alloc: Global,
        base: &IndexedView,
        n: usize,
        threads: u32,
    ) -> Result<CompactView, AllocError>
        requires { n ≤ length self }
        ensures { IfOk result (λ view. view ≡ view_at base.now self.entry n) }
    {
        if n != self.kept.low {
            let made = self.compact_view(alloc, base, n);
            drop(self);
            return made;
        }
        let (settled, rest) = apart(self.kept);
        if threads <= 1 {
            drop(rest);
            return settled.into_applied(alloc, base);
        }
        let (_, view) = join(
            rt,
            move || drop(rest),
            move || -> Result<CompactView, AllocError>
                requires { IsSync T.row }
                ensures { IfOk result (λ view. view ≡ changed_by settled base.entry.now) }
            { settled.into_applied_by(rt, alloc, base, threads) },
        );
        view
    }

    // The same, and nothing is let go.
    fn compact_view(
        &self,
        alloc: Global,
        base: &IndexedView,
        n: usize,
    ) -> Result<CompactView, AllocError>
        requires { n ≤ length self.now }
        ensures { IfOk result (λ view. view ≡ view_at base.now self.now n) }
    {
        let view = self.view(alloc, base, n)?;
        CompactView::from_view(alloc, view)
    }

    /// The replies of the first `n` requests' last publications.
    pub fn replies(&self, alloc: Global, n: usize) -> Result<Vec<meaning::Reply>, AllocError>
        requires { n ≤ length self.now }
        ensures { IfOk result (λ list. list.items ≡ replies_to self.now n) }
    {
        replies_before(alloc, self.kept.slots.as_slice(), n)
    }

    /// What a check of a note by its answer finds.
    pub fn verdict_by_answers(
        &self,
        alloc: Global,
        base: &IndexedView,
        i: usize,
        at: usize,
    ) -> Result<Verdict, AllocError>
        requires still { is_closed (status_of self.now i) ≡ false }
        requires note { at < length (slot_at self.now i).notes }
        ensures { IfOk result (λ verdict. (note : Described)
            → slice_get (slot_at self.now i).notes at ≡ Some note
            → NoteVerdict base.now self.now i note verdict) }
    {
        let note = &self.kept.slots[i].notes.as_slice()[at];
        validate::check(alloc, base, &self.kept, i, note)
    }

    /// What a check of a note by its touching list finds.
    pub fn verdict_by_lists(
        &self,
        alloc: Global,
        i: usize,
        at: usize,
    ) -> Result<Verdict, AllocError>
        requires still { is_closed (status_of self.now i) ≡ false }
        requires note { at < length (slot_at self.now i).notes }
        ensures { IfOk result (λ verdict. (note : Described)
            → slice_get (slot_at self.now i).notes at ≡ Some note
            → ListVerdict self.now i note.read note.touching verdict) }
    {
        let note = &self.kept.slots[i].notes.as_slice()[at];
        validate::check_list(alloc, &self.kept, i, note)
    }

    /// Answers a read, from what it says of the base, and notes it. After want of memory nothing is
    /// noted.
    pub fn read(
        &mut self,
        alloc: Global,
        base: &'a IndexedView,
        scanned: &Scanned<'_>,
        i: usize,
    ) -> Result<Asked, AllocError>
        requires base { scanned.now.dataset ≡ base.now }
        requires still { is_closed (status_of self.old i) ≡ false }
        ensures ok { IfOk result (λ asked. IsAsked scanned.now.dataset self.old self.new i
            scanned.now.read asked) }
        ensures err { OnErr result (self.new ≡ self.old) }
    {
        let (noted, answer) = match look(alloc, base, scanned, &self.kept, i)? {
            Found::Blocked(j) => return Ok(Asked::Blocked(j)),
            Found::Noted(noted, answer) => (noted, answer),
        };
        slot::note(&mut self.kept.slots[i], noted)?;
        Ok(Asked::Answered(answer))
    }

    /// The requests below `to` will not change again: they are settled, as far as there is memory.
    pub fn settle(&mut self, alloc: Global, to: usize) -> Result<(), AllocError>
        requires within { to ≤ length self.old }
        requires closed { (j : ℕ) → j < to → is_closed (Some (slot_at self.old j).status) ≡ true }
        ensures { self.new ≡ self.old }
    {
        settle(alloc, &mut self.kept, to)
    }

    /// The settled requests' changes are joined and put in order, if they may have changed what the
    /// read says, as far as there is memory.
    pub fn put_in_order(&mut self, alloc: Global, read: &Read<Id>)
        ensures { self.new ≡ self.old }
    {
        put_in_order(alloc, &mut self.kept, read);
    }

    /// The worker executes incarnation `n`, with no notes yet.
    pub fn take(&mut self, i: usize, n: u64, worker: u32)
        requires { is_closed (status_of self.old i) ≡ false }
        ensures { self.new ≡ slice_set self.old i (taken (slot_at self.old i) n worker) }
    {
        slot::take(&mut self.kept.slots[i], n, worker);
    }

    /// A pass begins.
    pub fn begin(&mut self, i: usize, clock: u64)
        requires { is_closed (status_of self.old i) ≡ false }
        ensures { self.new ≡ slice_set self.old i
            (begun (slot_at self.old i) (slot_at self.old i).notes clock) }
    {
        slot::begin(&mut self.kept.slots[i], clock);
    }

    /// The next note comes.
    pub fn pass_on(&mut self, i: usize, stands: Pass)
        requires still { is_closed (status_of self.old i) ≡ false }
        requires next { stands.next < length (slot_at self.old i).notes }
        ensures { self.new ≡ slice_set self.old i (passed (slot_at self.old i) (Some stands)) }
    {
        slot::pass(&mut self.kept.slots[i], stands);
    }

    /// The next incarnation is ready. The delta stays, as an estimate.
    pub fn abort(&mut self, i: usize, n: u64)
        requires still { is_closed (status_of self.old i) ≡ false }
        requires room { n + 1 < 2 ^ 64 }
        ensures { self.new ≡ slice_set self.old i (aborted (slot_at self.old i) n) }
    {
        slot::abort(&mut self.kept.slots[i], n);
    }

    /// The next incarnation is ready. The delta and its mark stay.
    pub fn give_up(&mut self, i: usize, n: u64)
        requires still { is_closed (status_of self.old i) ≡ false }
        requires room { n + 1 < 2 ^ 64 }
        ensures { self.new ≡ slice_set self.old i (given (slot_at self.old i) n) }
    {
        slot::give_up(&mut self.kept.slots[i], n);
    }

    /// The request is committed.
    pub fn commit(&mut self, i: usize)
        requires { is_closed (status_of self.old i) ≡ false }
        ensures { self.new ≡ slice_set self.old i
            (committed (slot_at self.old i) (slot_at self.old i).status) }
    {
        slot::commit(&mut self.kept.slots[i]);
    }

    /// A publication. It answers whether the delta is as before. After want of memory all is as
    /// before.
    pub fn publish(
        &mut self,
        alloc: Global,
        i: usize,
        n: u64,
        finished: &Finished,
        clock: u64,
    ) -> Result<bool, AllocError>
        requires still { is_closed (status_of self.old i) ≡ false }
        requires room { clock + 1 < 2 ^ 64 }
        ensures ok { OnOk result (self.new ≡ slice_set self.old i
            (published (slot_at self.old i) n finished.now clock)) }
        ensures same { IfOk result (λ same. same ≡ keeps_delta (slot_at self.old i) finished.now) }
        ensures err { OnErr result (self.new ≡ self.old) }
    {
        self.kept.published.put(&finished.delta)?;
        let same = slot::publish(alloc, &mut self.kept.slots[i], n, finished, clock)?;
        Ok(same)
    }
}

#[tactic(auto, unfolding(crate::specs::Slots::replies_to))]
fn replies_before(
    alloc: Global,
    slots: &[Slot<'_>],
    n: usize,
) -> Result<Vec<meaning::Reply>, AllocError>
    requires { n ≤ length slots.now }
    ensures { IfOk result (λ list. list.items ≡ replies_to (shown slots.now) n) }
{
    let mut list = Vec::new(alloc);
    for j in 0..n {
        if let Some(reply) = slots[j].reply {
            list.push(reply)?;
        }
    }
    Ok(list)
}

// The settled changes, and beside them the slots and the filter.
fn apart(kept: Kept<'_>) -> (Settled, (Vec<Slot<'_>>, ChangeFilter))
    ensures { result.0 ≡ kept.entry.settled }
{
    let Kept {
        slots,
        settled,
        published,
        ..
    } = kept;
    (settled, (slots, published))
}
