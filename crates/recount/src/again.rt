//! Asking again what was asked before, with what the answers count as.
ghost use Rattle.std.specs.Prelude.{◌≡◌};
ghost use Rattle.recount.specs.Recounting.{IsNoteOf, Recounts};

use crate::answers::counted;
use datasets::{Id, Read};
use dict::Dict;
use reads::same::same_reads;
use reads::{Answered, Note, Source, Stop};
use std::alloc::Global;

/// A source that was asked already, and the notes of that, as they came. As long as the same reads
/// come in the same order these answer them; each other read is put to the source and noted. All
/// answers are handed on as what they count as.
#[derive(Drop)]
pub struct Recount<'s, S> {
    alloc: Global,
    dict: &'s Dict,
    source: &'s mut S,
    notes: &'s mut Vec<Note>,
    // How many notes have been read, counted from the first.
    at: usize,
}

impl<'s, S: Source> Recount<'s, S> {
    /// The source with its notes, before it is asked again.
    pub fn new(
        alloc: Global,
        dict: &'s Dict,
        source: &'s mut S,
        notes: &'s mut Vec<Note>,
    ) -> Recount<'s, S>
        ensures dict { result.dict.now ≡ dict.now }
        ensures source { (result.source.now ≡ source.old)
            × (result.source.ghost_name ≡ source.entry.ghost_name) }
        ensures notes { (result.notes.now ≡ notes.old)
            × (result.notes.ghost_name ≡ notes.entry.ghost_name) }
    {
        Recount {
            alloc,
            dict,
            source,
            notes,
            at: 0,
        }
    }
}

impl<S: Source> Source for Recount<'_, S> {
    ghost use Rattle.recount.specs.Recounting.{AsksAgain};

    ghost asks = { AsksAgain S.asks };

    fn ask(&mut self, read: &Read<Id>) -> Result<Answered, Stop> {
        let place = place_of(self.source, self.notes, self.at, read)?;
        self.at = place + 1;
        Ok(counted(self.alloc, self.dict, read, &self.notes[place].answer)?)
    }
}

// The place of a note of the read: the one that is next, if it is that, or a new one.
fn place_of<S: Source>(
    source: &mut S,
    notes: &mut Vec<Note>,
    next: usize,
    read: &Read<Id>,
) -> Result<usize, Stop>
    ensures { Recounts S.asks (IsNoteOf read.now) source.old notes.old.items read.now result
        source.new notes.new.items }
{
    if next < notes.len() && same_reads(&notes[next].read, read) {
        return Ok(next);
    }
    notes.reserve(1)?;
    let answer = source.ask(read)?;
    let place = notes.len();
    notes.push_reserved(Note {
        read: *read,
        answer,
    });
    Ok(place)
}
