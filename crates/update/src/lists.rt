//! Lists of quads.
ghost use Rattle.std.specs.Prelude.{◌≡◌, ◌++◌, IfOk};

use datasets::{Id, Quad};
use std::alloc::AllocError;

/// The quads of one list, and then those of another.
pub fn joined(
    mut quads: Vec<Quad<Id>>,
    mut others: Vec<Quad<Id>>,
) -> Result<Vec<Quad<Id>>, AllocError>
    ensures { IfOk result (λ all. all.items ≡ quads.items ++ others.items) }
{
    quads.append(&mut others)?;
    Ok(quads)
}
