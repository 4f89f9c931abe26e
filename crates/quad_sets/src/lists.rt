//! Differences and unions of lists whose members mostly rise.
ghost use Rattle.std.specs.Prelude.{◌≡◌, IfOk};
ghost use Rattle.std.specs.List.Sorted.{IsStrictlySortedBy};
ghost use Rattle.sets.specs.Sets.{set_of, union, without};

use crate::near::is_member_near;
use sets::Exact;
use std::alloc::AllocError;

/// The set of the members of a vector. Of members that come in a few sorted runs it takes time in
/// their number.
pub fn merged<T: Exact + Drop>(mut members: Vec<T>) -> Result<Vec<T>, AllocError>
    ensures { IfOk result (λ set. set.items ≡ set_of T.cmp members.items) }
{
    members.sort()?;
    members.dedup();
    Ok(members)
}

// The members of a vector that are none of a set's, in their order. Where they rise, it goes along
// both lists.
fn lacking<T: Exact + Copy + Drop>(mut members: Vec<T>, set: &[T]) -> Vec<T>
    requires { IsStrictlySortedBy T.cmp set.now }
    ensures { result.items ≡ without T.cmp members.items set.now }
{
    let mut kept = 0;
    let mut place = 0;
    for i in 0..members.len() {
        let member = members[i];
        let (is_there, next) = is_member_near(set, place, &member);
        place = next;
        if is_there {
            continue;
        }
        members[kept] = member;
        kept += 1;
    }
    members.truncate(kept);
    members
}

// The same, where nothing is looked for in the empty set.
fn outside<T: Exact + Copy + Drop>(members: Vec<T>, set: &[T]) -> Vec<T>
    requires { IsStrictlySortedBy T.cmp set.now }
    ensures { result.items ≡ without T.cmp members.items set.now }
{
    if set.is_empty() {
        return members;
    }
    lacking(members, set)
}

/// The set of the members of a vector that are none of a set's, and of more. It is fastest where
/// both lists are sets.
pub(crate) fn changed<T: Exact + Copy + Drop>(
    members: Vec<T>,
    gone: &[T],
    more: &[T],
) -> Result<Vec<T>, AllocError>
    requires { IsStrictlySortedBy T.cmp gone.now }
    ensures { IfOk result (λ after. after.items
        ≡ union T.cmp (without T.cmp members.items gone.now) more.now) }
{
    let mut after = outside(members, gone);
    after.reserve_exact(more.len())?;
    after.extend_from_slice(more)?;
    merged(after)
}
