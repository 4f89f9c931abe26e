//! Changes of a set whose members are taken over in runs.
ghost use Rattle.std.specs.Prelude.{◌≡◌, ◌↔◌, ◌⊎◌, [], true, length, IfNone, IfOk, IfSome, IsTrue};
ghost use Rattle.std.specs.List.{AllByRecursion};
ghost use Rattle.std.specs.List.Sorted.{IsStrictlySortedBy};
ghost use Rattle.std.specs.declared.cmp.Ordering.TheVariants.{Less};
ghost use Rattle.sets.specs.Sets.{union, without};
ghost use Rattle.quad_sets.specs.Runs.{AreLessTo, IsParted, IsFirstChange};

use sets::Exact;
use std::alloc::{AllocError, Global};

/// Whether the last member is below a value, if there is one.
fn is_last_below<T: Exact>(set: &[T], value: &T) -> bool
    requires { IsStrictlySortedBy T.cmp set.now }
    ensures { result ≡ true → AreLessTo T.cmp value.now set.now (length set.now) }
{
    let len = set.len();
    0 < len && set[len - 1].cmp(value).is_lt()
}

/// How many members come before those that are not below a value.
fn count_below<T: Exact>(set: &[T], value: &T) -> usize
    requires { IsStrictlySortedBy T.cmp set.now }
    ensures { AreLessTo T.cmp value.now set.now result }
{
    // Often what changes comes behind all.
    if is_last_below(set, value) {
        return set.len();
    }
    let mut count = 0;
    while count < set.len() && set[count].cmp(value).is_lt() {
        count += 1;
    }
    count
}

/// The members below a value, and those above it.
fn parted<'a, T: Exact>(set: &'a [T], value: &T) -> (&'a [T], &'a [T])
    requires { IsStrictlySortedBy T.cmp set.now }
    ensures { IsParted T.cmp set.now value.now result.0.now result.1.now }
{
    let (below, rest) = set.split_at(count_below(set, value));
    match rest.split_first() {
        Some((first, above)) if first.cmp(value).is_eq() => (below, above),
        _ => (below, rest),
    }
}

/// Whether a value is below all members.
fn is_below<T: Exact>(value: &T, set: &[T]) -> bool
    requires { IsStrictlySortedBy T.cmp set.now }
    ensures { IsTrue result ↔ AllByRecursion (λ member. T.cmp value.now member ≡ Less) set.now }
{
    match set.first() {
        Some(first) => value.cmp(first).is_lt(),
        None => true,
    }
}

/// The least value that goes or comes, and what goes and what comes after it.
#[derive(Drop)]
struct Change<'a, T> {
    value: &'a T,
    comes: bool,
    gone: &'a [T],
    more: &'a [T],
}

/// The first change, if there is one. A value that goes and comes is one that comes.
fn first_change<'a, T: Exact>(gone: &'a [T], more: &'a [T]) -> Option<Change<'a, T>>
    requires gone { IsStrictlySortedBy T.cmp gone.now }
    requires more { IsStrictlySortedBy T.cmp more.now }
    ensures none { IfNone result ((gone.now ≡ []) × (more.now ≡ [])) }
    ensures first { IfSome result (λ change. IsFirstChange T.cmp gone.now more.now
        change.value.now change.comes change.gone.now change.more.now) }
{
    match gone.split_first() {
        Some((value, later)) if is_below(value, more) => Some(Change {
            value,
            comes: false,
            gone: later,
            more,
        }),
        _ => {
            let (value, later) = more.split_first()?;
            Some(Change {
                value,
                comes: true,
                gone,
                more: later,
            })
        }
    }
}

/// The first change, as long as members are left. What comes behind them is taken over as it lies.
fn next_change<'a, T: Exact>(rest: &[T], gone: &'a [T], more: &'a [T]) -> Option<Change<'a, T>>
    requires gone { IsStrictlySortedBy T.cmp gone.now }
    requires more { IsStrictlySortedBy T.cmp more.now }
    ensures none { IfNone result ((rest.now ≡ []) ⊎ ((gone.now ≡ []) × (more.now ≡ []))) }
    ensures first { IfSome result (λ change. IsFirstChange T.cmp gone.now more.now
        change.value.now change.comes change.gone.now change.more.now) }
{
    if rest.is_empty() {
        return None;
    }
    first_change(gone, more)
}

/// The set of the members of a set that are none of another's, and of more.
pub(crate) fn changed_in_runs<T: Exact + Copy + Drop>(
    alloc: Global,
    set: &[T],
    gone: &[T],
    more: &[T],
) -> Result<Vec<T>, AllocError>
    requires set { IsStrictlySortedBy T.cmp set.now }
    requires gone { IsStrictlySortedBy T.cmp gone.now }
    requires more { IsStrictlySortedBy T.cmp more.now }
    ensures { IfOk result (λ after. after.items
        ≡ union T.cmp (without T.cmp set.now gone.now) more.now) }
{
    let mut list = Vec::new(alloc);
    list.reserve_exact(set.len().saturating_add(more.len()))?;
    let mut rest = set;
    let mut gone = gone;
    let mut more = more;
    while let Some(change) = next_change(rest, gone, more) {
        let (below, above) = parted(rest, change.value);
        list.extend_from_slice(below)?;
        if change.comes {
            list.push(*change.value)?;
        }
        rest = above;
        gone = change.gone;
        more = change.more;
    }
    list.extend_from_slice(rest)?;
    list.extend_from_slice(more)?;
    Ok(list)
}
