//! Whether two lists of mappings have a variable in common at all.
ghost use Rattle.std.specs.Prelude.{◌≡◌, ◌≤◌, ◌&&◌, false, length};
ghost use Rattle.std.specs.List.{AllByRecursion};
ghost use Rattle.solution.specs.Sharing.{is_bound_among as the_is_bound_among, ShareNothing};

use crate::mapping::Mapping;

// Whether a variable is bound in one of these.
fn is_bound_among(mappings: &[Mapping], variable: usize) -> bool
    ensures { result ≡ the_is_bound_among mappings.now variable }
{
    mappings.iter().any(|m| m.place(variable).is_some())
}

fn is_bound_on_both(left: &[Mapping], right: &[Mapping], variable: usize) -> bool
    ensures { result ≡ (the_is_bound_among left.now variable
        && the_is_bound_among right.now variable) }
{
    is_bound_among(left, variable) && is_bound_among(right, variable)
}

// How many variables those have at most.
#[tactic(auto, using(crate::proofs::NoneShared::narrow_more))]
fn widest(mappings: &[Mapping]) -> usize
    ensures { AllByRecursion (λ m. length m ≤ result) mappings.now }
{
    let mut widest = 0;
    for mapping in mappings {
        widest = widest.max(mapping.width());
    }
    widest
}

/// Whether some variable is bound in one on the left and in one on the right. Where none is, no two
/// mappings of both share one.
pub fn share_some(left: &[Mapping], right: &[Mapping]) -> bool
    ensures { result ≡ false → ShareNothing left.now right.now }
{
    for variable in 0..widest(left) {
        if is_bound_on_both(left, right, variable) {
            return true;
        }
    }
    false
}
