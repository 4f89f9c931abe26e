//! What a worker has for itself.
ghost use Rattle.std.specs.Prelude.{◌≡◌, length, IfOk};

use scheduler::Hints;
use shared::Pass;
use std::alloc::{AllocError, Global};
use std::marker::Model;

/// What a worker has for itself: its pass, and where it looks for tasks before it asks the book. To
/// a contract it is the pass.
#[derive(Drop)]
pub struct Seat<'a> {
    pub(crate) pass: Pass<'a>,
    pub(crate) hints: Hints,
}

impl<'a> Model for Seat<'a> {
    ghost use Rattle.std.specs.Coded.{codes};
    ghost use Rattle.algebra.specs.Codes.{plan_code};
    ghost use Rattle.datasets.specs.declared.id.Id.{Id as Number};
    ghost use Rattle.shared.specs.Calls.{Viewed};

    ghost Value = { Viewed };

    ghost coded = { Prim.hlevel (codes, plan_code {K = Number} (Prim.hlevel codes)) };

    ghost view = { λ s. s.pass };
}

/// A seat for each of these passes, with the hints at its place.
pub(crate) fn seats_of<'a>(
    alloc: Global,
    passes: Vec<Pass<'a>>,
    hints: Vec<Hints>,
) -> Result<Vec<Seat<'a>>, AllocError>
    requires { length passes.items ≡ length hints.items }
    ensures { IfOk result (λ seats. seats.items ≡ passes.entry.items) }
{
    let mut passes = passes;
    let mut hints = hints;
    let mut seats = Vec::with_capacity(alloc, passes.len())?;
    // The last one comes first.
    while let Some(pass) = passes.pop() {
        let hints = hints.pop().unwrap();
        seats.push(Seat { pass, hints })?;
    }
    seats.reverse();
    Ok(seats)
}
