//! Whether a run's transcript is what its request has noted.
ghost use Rattle.std.specs.Prelude.{◌≡◌, ◌↔◌, IsTrue, IfOk, map};
ghost use Rattle.incarnations.specs.Kept.{kept_note_of};

use incarnations::Noted;
use reads::Note;
use std::alloc::{AllocError, Global};

/// Whether these are the noted reads with their answers. An error comes only where memory runs out.
pub fn is_transcript(
    alloc: Global,
    notes: &[Noted<'_>],
    transcript: &[Note],
) -> Result<bool, AllocError>
    ensures { IfOk result (λ same. IsTrue same ↔ (transcript.now ≡ map kept_note_of notes.now)) }
{
    if notes.len() != transcript.len() {
        return Ok(false);
    }
    for at in 0..notes.len() {
        if !notes[at].note.is_note(alloc, &transcript[at])? {
            return Ok(false);
        }
    }
    Ok(true)
}
