//! Lists of graph names: unions and copies.
ghost use Rattle.std.specs.Prelude.{◌≡◌, ◌∷◌, [], IfOk, if◌then◌else◌};
ghost use Rattle.sets.specs.Sets.{union};
ghost use Rattle.datasets.specs.Id.{id_order};

use datasets::Id;
use quad_sets::lists::merged;
use std::alloc::{AllocError, Global};

/// The same names again.
pub fn copied_names(alloc: Global, names: &[Id]) -> Result<Vec<Id>, AllocError>
    ensures { IfOk result (λ copy. copy.items ≡ names.now) }
{
    Vec::from_slice(alloc, names)
}

/// The name alone, or nothing.
pub fn name_if(alloc: Global, so: bool, name: &Id) -> Result<Vec<Id>, AllocError>
    ensures { IfOk result (λ names. names.items ≡ (if so then name.now ∷ [] else [])) }
{
    let mut names = Vec::new(alloc);
    if so {
        names.push(*name)?;
    }
    Ok(names)
}

/// The set of both lists' names.
pub fn names_union(mut names: Vec<Id>, mut others: Vec<Id>) -> Result<Vec<Id>, AllocError>
    ensures { IfOk result (λ all. all.items ≡ union id_order names.items others.items) }
{
    names.reserve_exact(others.len())?;
    names.append(&mut others)?;
    merged(names)
}
