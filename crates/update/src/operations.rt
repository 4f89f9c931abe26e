//! The operations of a request, in order.
ghost use Rattle.std.specs.Prelude.{◌≡◌, ◌<◌, ◌^◌, length, Bool, true, IfOk};
ghost use Rattle.datasets.specs.Id.{id_order};
ghost use Rattle.dict.specs.Dictionary.{numbers};
ghost use Rattle.meaning.specs.Effect.{effect_of};
ghost use Rattle.meaning.specs.GraphOperations.{silently};
ghost use Rattle.asking.specs.Near.{is_near, is_near_request};
ghost use Rattle.meaning.specs.Run.{performed};
ghost use Rattle.reads.specs.Reads.{View, Read as Reading, applied, IsDataset};
ghost use Rattle.reads.specs.Runs.{Agrees};
ghost use Rattle.asking.specs.Goes.{Goes, stop_of};
ghost use Rattle.update.specs.Asked.{IsWithin};
ghost use Rattle.update.specs.Changed.{changed};
ghost use Rattle.update.specs.Failures.{performed_so};
ghost use Rattle.update.specs.Known.{or_told};

use crate::graphs::graphs;
use crate::modify::modify;
use algebra::Operation;
use delta::Delta;
use dict::{Dict, Id};
use meaning::Cause;
use reads::{Note, Source, Stop};
use std::alloc::{AllocError, Global};

/// The failing operation, counted from 1, and why it failed.
#[derive(Clone, Copy, Drop)]
pub struct Failed {
    pub operation: u64,
    pub cause: Cause,
}

// Why an operation failed, or no change where SILENT was said.
fn excused(
    alloc: Global,
    silent: bool,
    changes: &Delta,
    cause: Cause,
) -> Result<Result<Delta, Cause>, AllocError>
    ensures effect { IfOk result (λ kept. (d : View)
        → changed d kept ≡ silently id_order silent (applied changes.now d) (Err cause)) }
    ensures within { (allowed : Reading → Bool) → IsWithin allowed changes.now
        → IfOk result (λ kept. IfOk kept (λ change. IsWithin allowed change)) }
{
    if !silent {
        return Ok(Err(cause));
    }
    let unchanged = changes.copied(alloc)?;
    Ok(Ok(unchanged))
}

// The outcome, or no change where it failed and SILENT was said.
fn heard(
    alloc: Global,
    silent: bool,
    changes: &Delta,
    outcome: Result<Delta, Cause>,
) -> Result<Result<Delta, Cause>, AllocError>
    ensures effect { IfOk result (λ kept. (d : View)
        → changed d kept ≡ silently id_order silent (applied changes.now d) (changed d outcome)) }
    ensures within { (allowed : Reading → Bool) → IsWithin allowed changes.now
        → IfOk outcome (λ change. IsWithin allowed change)
        → IfOk result (λ kept. IfOk kept (λ change. IsWithin allowed change)) }
{
    match outcome {
        Ok(change) => Ok(Ok(change)),
        Err(cause) => excused(alloc, silent, changes, cause),
    }
}

// The change that goes on with an operation, or why it fails.
fn perform_one<S: Source>(
    alloc: Global,
    dict: &Dict,
    place: u32,
    op: u32,
    operation: &Operation<Id>,
    changes: &Delta,
    source: &mut S,
    notes: &mut Vec<Note>,
) -> Result<Result<Delta, Cause>, Stop>
    ensures goes { Goes S.asks (is_near id_order operation.now) source.old source.new
        notes.old.items notes.new.items (stop_of result) }
    ensures effect { IfOk result (λ outcome. (d : View) → Agrees notes.new.items d
        → changed d outcome ≡ effect_of (numbers dict.now) place op operation.now
        (applied changes.now d)) }
    ensures within { (allowed : Reading → Bool) →
        ((r : Reading) → or_told (is_near id_order operation.now) notes.new.items r ≡ true
        → allowed r ≡ true)
        → IsWithin allowed changes.now → IfOk result
        (λ outcome. IfOk outcome (λ change. IsWithin allowed change)) }
{
    match operation {
        Operation::Modify(modification) => {
            modify(alloc, dict, place, op, modification, changes, source, notes)
        }
        Operation::Graphs { silent, operation } => {
            let outcome = graphs(alloc, operation, changes, source, notes)?;
            let kept = heard(alloc, *silent, changes, outcome)?;
            Ok(kept)
        }
    }
}

/// The change that the operations make, each from where those before it led, or the first that
/// fails.
pub fn perform<S: Source>(
    alloc: Global,
    dict: &Dict,
    place: u32,
    operations: &[Operation<Id>],
    source: &mut S,
    notes: &mut Vec<Note>,
) -> Result<Result<Delta, Failed>, Stop>
    requires { length operations.now < 2 ^ 32 }
    ensures goes { Goes S.asks (is_near_request id_order operations.now) source.old source.new
        notes.old.items notes.new.items (stop_of result) }
    ensures effect { IfOk result (λ outcome. (d : View) → IsDataset d → Agrees notes.new.items d
        → performed_so d outcome ≡ performed (numbers dict.now) place 0 operations.now d) }
    ensures within { IfOk result (λ outcome. IfOk outcome
        (λ change. IsWithin (or_told (is_near_request id_order operations.now) notes.new.items)
        change)) }
{
    let mut changes = Delta::new(alloc);
    let mut op: u32 = 0;
    for operation in operations {
        match perform_one(alloc, dict, place, op, operation, &changes, source, notes)? {
            Ok(next) => changes = next,
            Err(cause) => {
                return Ok(Err(Failed {
                    operation: op as u64 + 1,
                    cause,
                }));
            }
        }
        op += 1;
    }
    Ok(Ok(changes))
}
