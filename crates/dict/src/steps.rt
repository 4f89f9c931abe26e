//! How terms with their places stand, each to the one in front of it, also looked at by several
//! threads.
ghost use Rattle.std.specs.Prelude.{◌≡◌, IfOk};
ghost use Rattle.std.specs.List.{list_any};
ghost use Rattle.std.specs.Ordering.{is_lt};
ghost use Rattle.dict.specs.Ranks.{IsStep, AreSteps};

use crate::ranks::Placed;
use rayon::prelude::*;
use std::alloc::{AllocError, Global};
use std::cmp::Ordering;
use std::thread::Threads;

/// How the term at a place stands to the one in front of it. The first is above what is not there.
fn step_at(placed: &[Placed], place: usize) -> Ordering
    ensures { IsStep placed.now place result }
{
    if place == 0 || placed.len() <= place {
        return Ordering::Greater;
    }
    placed[place].term.cmp(&placed[place - 1].term)
}

/// How these terms stand, each to the one in front of it.
pub(crate) fn steps(alloc: Global, placed: &[Placed]) -> Result<Vec<Ordering>, AllocError>
    ensures { IfOk result (λ steps. AreSteps placed.now steps.items) }
{
    let mut steps = Vec::new(alloc);
    steps.reserve(placed.len())?;
    for place in 0..placed.len() {
        steps.push(step_at(placed, place))?;
    }
    Ok(steps)
}

/// The same, looked at by as many threads as there are processors.
pub(crate) fn steps_by<T: Threads + Sync>(
    rt: &T,
    alloc: Global,
    placed: &[Placed],
) -> Result<Vec<Ordering>, AllocError>
    ensures { IfOk result (λ steps. AreSteps placed.now steps.items) }
{
    (0..placed.len())
        .into_par_iter()
        .map(
            |place: usize| -> Ordering
                ensures { IsStep placed.entry.now place result }
            { step_at(placed, place) },
        )
        .collect(rt, alloc)
}

/// Whether a term is before the one in front of it.
pub(crate) fn falls(steps: &[Ordering]) -> bool
    ensures { result ≡ list_any is_lt steps.now }
{
    steps.iter().any(|step| step.is_lt())
}
