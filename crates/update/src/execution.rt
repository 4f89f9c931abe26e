//! Executions of requests.
ghost use Rattle.std.specs.Prelude.{◌≡◌, ◌<◌, ◌^◌, length, Ok, IsErr, IfOk, IfErr};
ghost use Rattle.datasets.specs.Id.{id_order};
ghost use Rattle.dict.specs.Dictionary.{is_known, numbers};
ghost use Rattle.asking.specs.Near.{is_near_request};
ghost use Rattle.meaning.specs.Run.{answer_of};
ghost use Rattle.delta.specs.Sound.{IsSoundFor};
ghost use Rattle.reads.specs.Asking.{Asked};
ghost use Rattle.asking.specs.Goes.{Goes, Stops, AllAllowed, stop_of};
ghost use Rattle.update.specs.Asked.{IsShort, operations_of};
ghost use Rattle.recount.specs.Counted.{counted_notes};
ghost use Rattle.update.specs.Executed.{IsLeastFor, IsReplyFor};

use crate::least::least_of;
use crate::operations::perform;
use algebra::Operation;
use delta::{Delta, Finished};
use dict::{Dict, Id};
use meaning::{Reply, Request};
use reads::{Note, SharedItems, Source, Stop};
use recount::{Recount, are_honest};
use std::alloc::Global;
use std::marker::Model;

/// A finished run of a request at a place of a block. It is sound for the request, its change is
/// the least that is, both by what its answers count as, and each of its reads is near the request.
#[derive(Drop)]
pub struct Execution<'a> {
    dict: &'a Dict,
    place: u32,
    request: &'a Request<Id>,
    finished: Finished,
}

impl<'a> Model for Execution<'a> {
    ghost use Rattle.std.specs.Coded.{codes};
    ghost use Rattle.algebra.specs.Codes.{plan_code};
    ghost use Rattle.datasets.specs.declared.id.Id.{Id as Number};
    ghost use Rattle.update.specs.Executed.{Executed, IsExecuted};

    ghost Value = { Executed };

    ghost coded = { Prim.hlevel (codes, plan_code {K = Number} (Prim.hlevel codes)) };

    ghost view = { λ e. record { terms = e.dict.now; place = e.place; request = e.request.now; finished = e.finished } };

    ghost invariant = { λ e. IsExecuted (record { terms = e.dict.now; place = e.place; request = e.request.now; finished = e.finished }) };
}

// A change and a reply.
#[derive(Drop)]
struct Outcome {
    delta: Delta,
    reply: Reply,
}

// What the operations come to: their change and its counts, or the failing one and no change.
fn performed<S: Source>(
    alloc: Global,
    dict: &Dict,
    place: u32,
    operations: &[Operation<Id>],
    source: &mut S,
    notes: &mut Vec<Note>,
) -> Result<Outcome, Stop>
    requires { length operations.now < 2 ^ 32 }
    ensures goes { Goes S.asks (is_near_request id_order operations.now) source.old source.new
        notes.old.items notes.new.items (stop_of result) }
    ensures least { IfOk result (λ outcome. IsLeastFor
        (answer_of (numbers dict.now) place (Ok operations.now)) notes.new.items outcome.delta) }
    ensures reply { IfOk result (λ outcome. IsReplyFor
        (answer_of (numbers dict.now) place (Ok operations.now)) notes.new.items outcome.reply) }
{
    match perform(alloc, dict, place, operations, source, notes)? {
        Ok(changes) => {
            let delta = least_of(alloc, &changes, source, notes)?;
            let reply = Reply::Done {
                added: delta.present().len() as u64,
                removed: delta.absent().len() as u64,
            };
            Ok(Outcome { delta, reply })
        }
        Err(failed) => Ok(Outcome {
            delta: Delta::new(alloc),
            reply: Reply::Failed {
                operation: failed.operation,
                cause: failed.cause,
            },
        }),
    }
}

// What a request comes to. A refused one comes to no change, and asks for nothing.
fn outcome_of<S: Source>(
    alloc: Global,
    dict: &Dict,
    place: u32,
    request: &Request<Id>,
    source: &mut S,
    notes: &mut Vec<Note>,
) -> Result<Outcome, Stop>
    requires { IsShort request.now }
    ensures goes { Goes S.asks (is_near_request id_order (operations_of request.now)) source.old
        source.new notes.old.items notes.new.items (stop_of result) }
    ensures refused { IsErr request.now → source.new ≡ source.old }
    ensures least { IfOk result (λ outcome. IsLeastFor
        (answer_of (numbers dict.now) place request.now) notes.new.items outcome.delta) }
    ensures reply { IfOk result (λ outcome. IsReplyFor
        (answer_of (numbers dict.now) place request.now) notes.new.items outcome.reply) }
{
    match request {
        Ok(operations) => performed(alloc, dict, place, operations.as_slice(), source, notes),
        Err(refusal) => Ok(Outcome {
            delta: Delta::new(alloc),
            reply: Reply::Refused(*refusal),
        }),
    }
}

// What a request comes to where its source was asked already, by what the answers count as.
fn outcome_again<S: Source>(
    alloc: Global,
    dict: &Dict,
    place: u32,
    request: &Request<Id>,
    recount: &mut Recount<'_, S>,
) -> Result<Outcome, Stop>
    requires short { IsShort request.now }
    requires dict { recount.old.dict.now ≡ dict.now }
    ensures lent { (recount.new.source.ghost_name ≡ recount.old.source.ghost_name)
        × (recount.new.notes.ghost_name ≡ recount.old.notes.ghost_name) }
    ensures goes { Goes S.asks (is_near_request id_order (operations_of request.now))
        recount.old.source.now recount.new.source.now recount.old.notes.now.items
        recount.new.notes.now.items (stop_of result) }
    ensures refused { IsErr request.now → recount.new.source.now ≡ recount.old.source.now }
    ensures least { IfOk result (λ outcome. IsLeastFor
        (answer_of (numbers dict.now) place request.now)
        (counted_notes (is_known dict.now) recount.new.notes.now.items) outcome.delta) }
    ensures reply { IfOk result (λ outcome. IsReplyFor
        (answer_of (numbers dict.now) place request.now)
        (counted_notes (is_known dict.now) recount.new.notes.now.items) outcome.reply) }
{
    let mut counted = Vec::new(alloc);
    outcome_of(alloc, dict, place, request, recount, &mut counted)
}

// What a request comes to by what the answers count as. Where one doesn't count as it came, the
// request is run once more.
fn counted_outcome<S: Source>(
    alloc: Global,
    dict: &Dict,
    place: u32,
    request: &Request<Id>,
    source: &mut S,
    notes: &mut Vec<Note>,
) -> Result<Outcome, Stop>
    requires { IsShort request.now }
    ensures goes { Goes S.asks (is_near_request id_order (operations_of request.now)) source.old
        source.new notes.old.items notes.new.items (stop_of result) }
    ensures refused { IsErr request.now → source.new ≡ source.old }
    ensures least { IfOk result (λ outcome. IsLeastFor
        (answer_of (numbers dict.now) place request.now)
        (counted_notes (is_known dict.now) notes.new.items) outcome.delta) }
    ensures reply { IfOk result (λ outcome. IsReplyFor
        (answer_of (numbers dict.now) place request.now)
        (counted_notes (is_known dict.now) notes.new.items) outcome.reply) }
{
    let outcome = outcome_of(alloc, dict, place, request, source, notes)?;
    if are_honest(dict, notes) {
        return Ok(outcome);
    }
    let mut recount = Recount::new(alloc, dict, source, notes);
    outcome_again(alloc, dict, place, request, &mut recount)
}

/// The execution of the request at this place of the block, counted from 0, from what a source
/// answers. Whatever it answers, the execution is sound, and its transcript is what was asked and
/// answered, in order. An answer that lies is taken for what it counts as. It stops as the source
/// does, and for want of memory. A refused request asks nothing.
pub fn execute<'a, S: Source>(
    alloc: Global,
    dict: &'a Dict,
    place: u32,
    request: &'a Request<Id>,
    source: &mut S,
) -> Result<Execution<'a>, Stop>
    requires { IsShort request.now }
    ensures request { IfOk result (λ e. (e.terms ≡ dict.now) × (e.place ≡ place)
        × (e.request ≡ request.now)) }
    ensures asked { IfOk result (λ e. Asked S.asks source.old e.finished.transcript source.new) }
    ensures stops { IfErr result (λ stop. Stops S.asks
        (is_near_request id_order (operations_of request.now)) source.old source.new stop) }
    ensures refused { IsErr request.now → source.new ≡ source.old }
{
    let mut notes = Vec::new(alloc);
    let outcome = counted_outcome(alloc, dict, place, request, source, &mut notes)?;
    let transcript = SharedItems::from_vec(alloc, notes)?;
    Ok(Execution {
        dict,
        place,
        request,
        finished: Finished {
            transcript,
            delta: outcome.delta,
            reply: outcome.reply,
        },
    })
}

impl<'a> Execution<'a> {
    /// The finished run of the request.
    pub fn finished(&self) -> &Finished
        ensures finished { result.now ≡ self.now.finished }
        ensures sound { IsSoundFor (is_known self.now.terms)
            (answer_of (numbers self.now.terms) self.now.place self.now.request) result.now }
        ensures least { IsLeastFor
            (answer_of (numbers self.now.terms) self.now.place self.now.request)
            (counted_notes (is_known self.now.terms) result.now.transcript) result.now.delta }
        ensures reply { IsReplyFor
            (answer_of (numbers self.now.terms) self.now.place self.now.request)
            (counted_notes (is_known self.now.terms) result.now.transcript) result.now.reply }
        ensures near { AllAllowed (is_near_request id_order (operations_of self.now.request))
            result.now.transcript }
    {
        &self.finished
    }

    /// The finished run, by itself.
    pub fn into_finished(self) -> Finished
        ensures finished { result ≡ self.entry.finished }
        ensures sound { IsSoundFor (is_known self.entry.terms)
            (answer_of (numbers self.entry.terms) self.entry.place self.entry.request) result }
        ensures least { IsLeastFor
            (answer_of (numbers self.entry.terms) self.entry.place self.entry.request)
            (counted_notes (is_known self.entry.terms) result.transcript) result.delta }
        ensures reply { IsReplyFor
            (answer_of (numbers self.entry.terms) self.entry.place self.entry.request)
            (counted_notes (is_known self.entry.terms) result.transcript) result.reply }
        ensures near { AllAllowed (is_near_request id_order (operations_of self.entry.request))
            result.transcript }
    {
        self.finished
    }
}
