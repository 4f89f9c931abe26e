//! DELETE and INSERT over the solutions of WHERE (SPARQL 1.1 Update, 3.1.3).
ghost use Rattle.std.specs.Prelude.{◌≡◌, ◌≤◌, Bool, true, length, IfOk, IfSome, OnOk};
ghost use Rattle.std.specs.Option.{option_map};
ghost use Rattle.datasets.specs.Id.{id_order};
ghost use Rattle.dict.specs.Dictionary.{numbers};
ghost use Rattle.meaning.specs.Effect.{effect_of};
ghost use Rattle.asking.specs.Near.{is_near, is_for_plan};
ghost use Rattle.meaning.specs.Solutions.{solutions};
ghost use Rattle.algebra.specs.declared.template.Slot.TheVariants as slot;
ghost use Rattle.algebra.specs.declared.update.Operation.TheVariants as operation;
ghost use Rattle.reads.specs.Reads.{View, Read as Reading, applied};
ghost use Rattle.reads.specs.Runs.{Agrees};
ghost use Rattle.asking.specs.Goes.{Goes, stop_of};
ghost use Rattle.solution.specs.Limits.{up_to};
ghost use Rattle.update.specs.Asked.{IsWithin};
ghost use Rattle.update.specs.Changed.{changed};
ghost use Rattle.update.specs.Once.{is_many, AsksOnce};

use crate::template::instances;
use crate::template_scans::ask_templates;
use algebra::Modify;
use delta::Delta;
use dict::{Dict, Id};
use eval::{Query, replaced, solve_up_to};
use expr::Filtering;
use meaning::Cause;
use reads::{Note, Source, Stop};
use solution::Solutions;
use std::alloc::Global;

/// More solutions than this are too many.
const MOST_SOLUTIONS: usize = 1_000_000;

// The solutions of WHERE, where the operations before it led, unless they are too many.
fn solved<S: Source>(
    alloc: Global,
    dict: &Dict,
    modify: &Modify<Id>,
    changes: &Delta,
    source: &mut S,
    notes: &mut Vec<Note>,
) -> Result<Option<Solutions>, Stop>
    ensures near { Goes S.asks (is_for_plan id_order (option_map slot.Term modify.now.active)
        modify.now.pattern) source.old source.new notes.old.items notes.new.items
        (stop_of result) }
    ensures solved { IfOk result (λ found. (d : View) → Agrees notes.new.items d
        → found ≡ up_to 1000000 (solutions id_order (numbers dict.now).passes modify.now.width
        modify.now.pattern (applied changes.now d) modify.now.active)) }
    ensures few { IfOk result (λ found. IfSome found (λ few. length few ≤ 1000000)) }
{
    let query = Query {
        alloc,
        width: modify.width,
        filters: &Filtering::new(dict),
        changes,
    };
    let plan = modify.pattern.plan();
    solve_up_to(
        &query,
        plan,
        &[],
        modify.active,
        MOST_SOLUTIONS,
        source,
        notes,
    )
}

/// From more solutions on, what they insert is asked for by one scan of its template. A question
/// costs as much as some hundred quads of an answer, so that a scan which tells of 10,000,000 quads
/// is still cheaper, and the request is one that others wait for anyway.
const MANY_SOLUTIONS: usize = 100_000;

// Whether there are very many solutions.
fn are_many(found: &Option<Solutions>) -> bool
    ensures { result ≡ is_many found.now }
{
    match found {
        Some(few) => few.as_slice().len() > MANY_SOLUTIONS,
        None => false,
    }
}

// The solutions of WHERE, where the operations before it led, unless they are too many. Of very
// many it asks for the scans of what they insert too, so that no quad of these is asked for by
// itself.
fn solutions_of<S: Source>(
    alloc: Global,
    dict: &Dict,
    modify: &Modify<Id>,
    changes: &Delta,
    source: &mut S,
    notes: &mut Vec<Note>,
) -> Result<Option<Solutions>, Stop>
    ensures goes { Goes S.asks (is_near id_order (operation.Modify modify.now)) source.old
        source.new notes.old.items notes.new.items (stop_of result) }
    ensures solved { IfOk result (λ found. (d : View) → Agrees notes.new.items d
        → found ≡ up_to 1000000 (solutions id_order (numbers dict.now).passes modify.now.width
        modify.now.pattern (applied changes.now d) modify.now.active)) }
    ensures once { OnOk result (AsksOnce (numbers dict.now) modify.now changes.now notes.old.items
        notes.new.items) }
    ensures few { IfOk result (λ found. IfSome found (λ few. length few ≤ 1000000)) }
{
    let found = solved(alloc, dict, modify, changes, source, notes)?;
    ask_templates(
        alloc,
        are_many(&found),
        modify.insert.as_slice(),
        source,
        notes,
    )?;
    Ok(found)
}

/// The change that goes on with an operation, or why the operation fails, from a change to which
/// the operations before it led. WHERE is evaluated once; all deletions come before all insertions.
/// Only what WHERE has to read is read, and, where it has very many solutions, what was not read
/// before.
pub fn modify<S: Source>(
    alloc: Global,
    dict: &Dict,
    request: u32,
    op: u32,
    modify: &Modify<Id>,
    changes: &Delta,
    source: &mut S,
    notes: &mut Vec<Note>,
) -> Result<Result<Delta, Cause>, Stop>
    ensures goes { Goes S.asks (is_near id_order (operation.Modify modify.now)) source.old
        source.new notes.old.items notes.new.items (stop_of result) }
    ensures effect { IfOk result (λ outcome. (d : View) → Agrees notes.new.items d
        → changed d outcome ≡ effect_of (numbers dict.now) request op (operation.Modify modify.now)
        (applied changes.now d)) }
    ensures once { OnOk result (AsksOnce (numbers dict.now) modify.now changes.now notes.old.items
        notes.new.items) }
    ensures within { (allowed : Reading → Bool) →
        ((r : Reading) → is_near id_order (operation.Modify modify.now) r ≡ true → allowed r ≡ true)
        → IsWithin allowed changes.now → IfOk result
        (λ outcome. IfOk outcome (λ change. IsWithin allowed change)) }
{
    let Some(found) = solutions_of(alloc, dict, modify, changes, source, notes)? else {
        return Ok(Err(Cause::TooManySolutions));
    };
    let deleted = instances(
        alloc,
        dict,
        request,
        op,
        modify.delete.as_slice(),
        found.as_slice(),
    )?;
    let inserted = instances(
        alloc,
        dict,
        request,
        op,
        modify.insert.as_slice(),
        found.as_slice(),
    )?;
    let change = replaced(alloc, changes, deleted, inserted)?;
    Ok(Ok(change))
}
