//! Lists put in order by several threads side by side.
//!
//! Stands on `rayon`, which makes as many threads as there are processors where a list is long.
//! Used above: what a call answers is the same list, sorted.
#![tactic(auto)]

ghost use Rattle.std.specs.List.Sorted.{IsPermutation, IsSortedByClosure};

use rayon::slice::par_sort_unstable_by;
use std::cmp::Ordering;
use std::thread::Threads;

/// These elements sorted by what `compare` answers. Equal ones may change places.
pub fn sorted_by<T: Threads + Sync, X: Send, F: FnMut(&X, &X) -> Ordering + Copy + Send + Sync>(
    rt: &T,
    mut list: Vec<X>,
    compare: F,
) -> Vec<X>
    requires { F.IsAlwaysCallable compare }
    ensures permutation { IsPermutation list.items result.items }
    ensures sorted { IsSortedByClosure F.FnMut compare result.items }
{
    par_sort_unstable_by(rt, list.as_mut_slice(), compare);
    list
}
