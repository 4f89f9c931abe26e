//! The run of a block, request by request.
ghost use Rattle.std.specs.Prelude.{◌≡◌, ◌<◌, ◌^◌, true, length, IfOk};
ghost use Rattle.std.specs.List.{list_all};
ghost use Rattle.dict.specs.Dictionary.{is_known, numbers};
ghost use Rattle.meaning.specs.Run.{answer_of, run as run_of};
ghost use Rattle.meaning_laws.specs.Renaming.{dataset_known, request_known};
ghost use Rattle.reads.specs.Reads.{applied};
ghost use Rattle.delta.specs.Sound.{IsDatasetOf};
ghost use Rattle.update.specs.Asked.{AreShort, IsShort};

use crate::current::{Current, Reader};
use datasets::Id;
use delta::{Finished, Outcome};
use dict::Dict;
use meaning::{Reply, Request};
use sets::Items;
use std::alloc::{AllocError, Global};
use store::Base;
use update::execute;

// The finished run of the request at this place, on the current dataset.
fn finished(
    alloc: Global,
    terms: &Dict,
    place: u32,
    request: &Request<Id>,
    current: &Current<'_>,
) -> Result<Finished, AllocError>
    requires dataset { IsDatasetOf (is_known terms.now) current.now }
    requires short { IsShort request.now }
    ensures { IfOk result (λ run. (applied run.delta current.now, run.reply)
        ≡ answer_of (numbers terms.now) place request.now current.now) }
{
    let mut reader = Reader { alloc, current };
    match execute(alloc, terms, place, request, &mut reader) {
        Ok(execution) => Ok(execution.into_finished()),
        // The reader waits for nobody and is never out of date: it stops for want of memory alone.
        Err(_) => Err(AllocError),
    }
}

// The reply to the request at this place. The dataset goes on by its change.
#[tactic(auto, using(crate::proofs::Runs::next_is))]
fn answer(
    alloc: Global,
    terms: &Dict,
    place: u32,
    request: &Request<Id>,
    current: &mut Current<'_>,
) -> Result<Reply, AllocError>
    requires dataset { IsDatasetOf (is_known terms.now) current.old }
    requires short { IsShort request.now }
    ensures { IfOk result (λ reply. (current.new, reply)
        ≡ answer_of (numbers terms.now) place request.now current.old) }
{
    let run = finished(alloc, terms, place, request, current)?;
    let reply = run.reply;
    current.push(alloc, &run.delta)?;
    Ok(reply)
}

/// Runs a block on a base whose dictionary has all their terms, one request after another: the
/// dataset that they leave, which may be a base again, and their replies. An error comes only where
/// a growth was refused.
pub fn run(alloc: Global, base: &Base, block: &[Request<Id>]) -> Result<Outcome, AllocError>
    requires size { length block.now < 2 ^ 32 }
    requires short { AreShort block.now }
    requires base { dataset_known (is_known base.now.terms) base.now.dataset ≡ true }
    requires block { list_all (request_known (is_known base.now.terms)) block.now ≡ true }
    ensures dataset { IfOk result (λ outcome. IsDatasetOf (is_known base.now.terms)
        outcome.dataset) }
    ensures run { IfOk result (λ outcome. (outcome.dataset, outcome.replies)
        ≡ run_of (numbers base.now.terms) block.now base.now.dataset) }
{
    let terms = base.terms();
    // For the proof: it is a dictionary.
    let _count = terms.len();
    let mut current = Current::new(alloc, base.dataset())?;
    let mut replies = Items::new(alloc);
    for place in 0..block.len() {
        let reply = answer(alloc, terms, place as u32, &block[place], &mut current)?;
        replies.push(reply)?;
    }
    let dataset = current.into_dataset(alloc)?;
    Ok(Outcome { dataset, replies })
}
