//! How levels become one.
ghost use Rattle.std.specs.Prelude.{◌≡◌, ◌≤◌, ◌<◌, ◌+◌, ◌∷◌, ◌++◌, length, take, drop, slice_range, vec_len, IfOk, IfSome, OnOk, OnErr};
ghost use Rattle.std.specs.Thread.{IsSync};
ghost use Rattle.reads.specs.Reads.{View as Dataset, applied};
ghost use Rattle.version_overlay.specs.Joined.{Joined, size_of, size_of_all, most_joined};
ghost use Rattle.version_overlay.specs.Settled.{changed_by};

use crate::level::Level;
use delta::Delta;
use quad_lists::Arrangement;
use std::alloc::{AllocError, Global};
use std::thread::{Threads, join};

/// How many levels that are alike in length become one. To put them in order takes longer than to
/// look at each.
const ALIKE: usize = 4;

/// The same where they are put in no order.
const ALIKE_UNORDERED: usize = 2;

/// How many quads and names are joined at most in one go: who waits for the changes does not wait
/// the longer, the more of them there are.
pub(crate) const MOST: usize = 131_072;

/// Fewer levels are joined by one thread.
const WORTH_THREADS: usize = 64;

/// The changes of these levels as one. Those of each half are joined first, so that each is copied
/// about as often as they can be halved.
pub(crate) fn all_joined(alloc: Global, levels: &[Level]) -> Result<Delta, AllocError>
    requires { 1 ≤ length levels.now }
    ensures { IfOk result (λ change. (d : Dataset) → applied change d ≡ changed_by levels.now d) }
{
    if levels.len() == 1 {
        return levels[0].change().copied(alloc);
    }
    let (first, rest) = levels.split_at(levels.len() / 2);
    let earlier = all_joined(alloc, first)?;
    let later = all_joined(alloc, rest)?;
    earlier.followed_by(alloc, &later)
}

/// The same, by so many threads, where they can be had.
pub(crate) fn all_joined_by<T: Threads + Sync>(
    rt: &T,
    alloc: Global,
    levels: &[Level],
    threads: u32,
) -> Result<Delta, AllocError>
    requires { 1 ≤ length levels.now }
    ensures { IfOk result (λ change. (d : Dataset) → applied change d ≡ changed_by levels.now d) }
{
    if threads <= 1 || levels.len() < WORTH_THREADS {
        return all_joined(alloc, levels);
    }
    let (first, rest) = levels.split_at(levels.len() / 2);
    let others = threads / 2;
    let own = threads - others;
    let (later, earlier) = join(
        rt,
        || -> Result<Delta, AllocError>
            requires { IsSync T.row × (1 ≤ length rest.now) }
            ensures { IfOk result (λ change. (d : Dataset)
                → applied change d ≡ changed_by rest.entry.now d) }
        { all_joined_by(rt, alloc, rest, others) },
        || -> Result<Delta, AllocError>
            requires { IsSync T.row × (1 ≤ length first.now) }
            ensures { IfOk result (λ change. (d : Dataset)
                → applied change d ≡ changed_by first.entry.now d) }
        { all_joined_by(rt, alloc, first, own) },
    );
    earlier?.followed_by(alloc, &later?)
}

/// Neighbours that are to become one.
#[derive(Clone, Copy, Drop)]
struct Run {
    /// The place of the first.
    first: usize,
    /// The place behind the last.
    past: usize,
    /// How many quads and names may be joined beside theirs.
    left: usize,
}

// How many quads and names a level's change speaks of.
fn size(level: &Level) -> usize {
    let change = level.change();
    let quads = change.present().len().saturating_add(change.absent().len());
    let names = change.there().len().saturating_add(change.gone().len());
    quads.saturating_add(names)
}

// How many digits a length has to the base of four. Levels of as many are alike.
fn digits(size: usize) -> u32 {
    (usize::BITS - size.leading_zeros()).div_ceil(2)
}

// What is left of a number of quads and names beside those of a level, if it has no more.
fn left_beside(level: &Level, left: usize) -> Option<usize>
    ensures { IfSome result (λ rest. size_of level.now + rest ≡ left) }
{
    let change = level.change();
    let left = left.checked_sub(change.present().len())?;
    let left = left.checked_sub(change.absent().len())?;
    let left = left.checked_sub(change.there().len())?;
    left.checked_sub(change.gone().len())
}

// The same, if the length of the level has no more digits than these.
fn left_if_alike(level: &Level, most: u32, left: usize) -> Option<usize>
    ensures { IfSome result (λ rest. size_of level.now + rest ≡ left) }
{
    if most < digits(size(level)) {
        return None;
    }
    left_beside(level, left)
}

// The level before this place, and those before it whose lengths have no more digits, as far as all
// may be joined.
#[tactic(auto, using(crate::proofs::Neighbours::none_before, crate::proofs::Neighbours::more_before))]
fn run_before(levels: &[Level], past: usize, room: usize) -> Run
    requires some { 1 ≤ past }
    requires within { past ≤ length levels.now }
    ensures past { result.past ≡ past }
    ensures first { result.first ≤ past }
    ensures left { size_of_all (slice_range levels.now result.first result.past) + result.left
        ≡ room }
{
    let most = digits(size(&levels[past - 1]));
    let mut first = past;
    let mut left = room;
    while 0 < first {
        let Some(rest) = left_if_alike(&levels[first - 1], most, left) else {
            break;
        };
        left = rest;
        first -= 1;
    }
    Run { first, past, left }
}

// The last neighbours that are alike in length, and so many that they are to become one.
fn alike_run(levels: &[Level], many: usize, left: usize) -> Option<Run>
    requires { 2 ≤ many }
    ensures { IfSome result (λ run. (run.first + 2 ≤ run.past) × (run.past ≤ length levels.now)
        × (size_of_all (slice_range levels.now run.first run.past) + run.left ≡ left)) }
{
    let mut past = levels.len();
    while 0 < past {
        let run = run_before(levels, past, left);
        if many <= past - run.first {
            return Some(run);
        }
        past -= 1;
    }
    None
}

// One level in place of those from the first place on and before the other.
fn replace(levels: &mut Vec<Level>, first: usize, past: usize, one: Level)
    requires some { first < past }
    requires within { past ≤ vec_len levels.old }
    ensures items { levels.new.items
        ≡ take first levels.old.items ++ one ∷ drop past levels.old.items }
    ensures len { vec_len levels.new + past ≡ vec_len levels.old + first + 1 }
{
    let behind = levels.len() - past;
    levels.rotate_left(past);
    levels.truncate(behind + first + 1);
    levels[behind + first] = one;
    levels.rotate_left(behind);
}

// Neighbours become one level, which is put in order. After want of memory they are as before.
fn join_run(
    alloc: Global,
    levels: &mut Vec<Level>,
    first: usize,
    past: usize,
    orders: &[Arrangement],
) -> Result<(), AllocError>
    requires some { first < past }
    requires within { past ≤ vec_len levels.old }
    ensures same { (d : Dataset) → changed_by levels.new.items d ≡ changed_by levels.old.items d }
    ensures joined { OnOk result (Joined levels.old.items
        (size_of_all (slice_range levels.old.items first past)) levels.new.items) }
    ensures fewer { OnOk result (vec_len levels.new + past ≡ vec_len levels.old + first + 1) }
    ensures err { OnErr result (levels.new.items ≡ levels.old.items) }
{
    let change = all_joined(alloc, &levels[first..past])?;
    let mut one = Level::new(alloc, change);
    one.put_in_order(alloc, orders);
    replace(levels, first, past, one);
    Ok(())
}

// How many levels that are alike in length become one.
fn many_in(orders: &[Arrangement]) -> usize
    ensures { 2 ≤ result }
{
    if orders.is_empty() {
        ALIKE_UNORDERED
    } else {
        ALIKE
    }
}

/// Neighbours that are alike in length become one level, which is put in order, as far as there is
/// memory, and so many quads and names are joined at most. The rest is left to the next time.
pub(crate) fn join_alike(alloc: Global, levels: &mut Vec<Level>, orders: &[Arrangement])
    ensures same { (d : Dataset) → changed_by levels.new.items d ≡ changed_by levels.old.items d }
    ensures joined { Joined levels.old.items most_joined levels.new.items }
{
    let many = many_in(orders);
    let mut left = MOST;
    while let Some(run) = alike_run(levels, many, left) {
        if join_run(alloc, levels, run.first, run.past, orders).is_err() {
            break;
        }
        left = run.left;
    }
}
