//! Reads are asked for and noted in one step.
ghost use Rattle.std.specs.Prelude.{◌≡◌, ◌++◌, ◌∷◌, [], Bool, true, IfOk, OnOk};
ghost use Rattle.reads.specs.Reads.{Read as Reading};
ghost use Rattle.asking.specs.Goes.{AreAllowed, AreNoted, Goes, stop_of};

use datasets::{Id, Read};
use reads::{Answered, Note, Source, Stop};
use std::alloc::Global;

/// What a source answers to a read, which is noted at the end. The room for the note is there
/// before the source is asked, so that no answer is lost.
pub fn ask<S: Source>(
    alloc: Global,
    read: Read<Id>,
    source: &mut S,
    notes: &mut Vec<Note>,
) -> Result<Answered, Stop>
    ensures goes { (allowed : Reading → Bool) → allowed read ≡ true
        → Goes S.asks allowed source.old source.new notes.old.items notes.new.items
        (stop_of result) }
    ensures noted { IfOk result (λ answer. notes.new.items
        ≡ notes.old.items ++ record { read = read; answer = answer } ∷ []) }
{
    notes.reserve(1)?;
    let answer = source.ask(&read)?;
    let shared = answer.copied(alloc);
    notes.push_reserved(Note { read, answer });
    Ok(shared?)
}

/// What a source answers to each of the reads, which are asked for in order and noted at the end,
/// one by one. So the last notes have the answers.
#[tactic(auto, using(crate::proofs::Notes::all_noted))]
pub fn ask_all<S: Source>(
    reads: &[Read<Id>],
    source: &mut S,
    notes: &mut Vec<Note>,
) -> Result<(), Stop>
    ensures goes { (allowed : Reading → Bool) → AreAllowed allowed reads.now
        → Goes S.asks allowed source.old source.new notes.old.items notes.new.items
        (stop_of result) }
    ensures noted { OnOk result (AreNoted reads.now notes.old.items notes.new.items) }
{
    source.ask_all(reads, notes)
}
