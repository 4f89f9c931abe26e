//! What events ask of the base alone, answered before the step that needs it.
ghost use Rattle.std.specs.Prelude.{◌≡◌, IfOk};
ghost use Rattle.block_machine.specs.Scans.{questions_of, HasScans};

use incarnations::Event;
use reads::{IndexedView, Scanned};
use std::alloc::{AllocError, Global};

/// What an event's reads say of the base. An error comes only where memory runs out.
#[tactic(auto, using(crate::proofs::Asked::has_scans))]
pub fn scans_of<'a>(
    alloc: Global,
    base: &'a IndexedView,
    event: &Event,
) -> Result<Vec<Scanned<'a>>, AllocError>
    ensures scans { IfOk result (λ scans. scans.items ≡ questions_of base.now event.now) }
    ensures enough { IfOk result (λ scans. HasScans base.now event.now scans.items) }
{
    let mut scans = Vec::new(alloc);
    if let Event::Read(_, _, read) = event {
        scans.push(Scanned::new(alloc, base, read)?)?;
    }
    Ok(scans)
}
