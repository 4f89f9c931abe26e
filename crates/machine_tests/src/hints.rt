//! Hints that one thread puts into the deques of some seats and takes out of them.
ghost use Rattle.scheduler.specs.Task.{IsHint};

use scheduler::{Hints, Task};
use std::alloc::AllocError;
use std::test::Fail;

/// More hints than a deque has room for at first.
const MANY: usize = 1_000;

// The request that the next hint of a seat says may be taken.
fn found(seats: &mut Vec<Hints>, seat: usize) -> Option<usize> {
    match seats.get_mut(seat)?.find()? {
        Task::Take(place) => Some(place),
        _ => None,
    }
}

// Puts a hint into the deque of a seat, if there is the seat.
fn put(seats: &mut Vec<Hints>, seat: usize, task: Task) -> Result<(), AllocError>
    requires { IsHint task }
{
    match seats.get_mut(seat) {
        Some(hints) => hints.push(task),
        None => Ok(()),
    }
}

#[test]
fn hints_are_found(rt: HostRuntime) -> Result<(), Fail> {
    let mut seats = Hints::new(rt.alloc(), 2)?;
    put(&mut seats, 0, Task::Take(3))?;
    put(&mut seats, 0, Task::Take(5))?;
    let own = found(&mut seats, 0);
    let other = found(&mut seats, 1);
    let third = found(&mut seats, 0);
    let fourth = found(&mut seats, 1);
    drop(seats);
    assert!(rt; (own == Some(3) && other == Some(5)) || (own == Some(5) && other == Some(3)));
    assert!(rt; third.is_none() && fourth.is_none());
    Ok(())
}

// How many of this many requests are found by the seats in turn, each for the first time.
fn count_found(seats: &mut Vec<Hints>, is_found: &mut [bool]) -> usize {
    let mut count = 0usize;
    for turn in 0..is_found.len() {
        let Some(place) = found(seats, turn % 3) else {
            continue;
        };
        let Some(flag) = is_found.get_mut(place) else {
            continue;
        };
        if !std::mem::replace(flag, true) {
            count = count.saturating_add(1);
        }
    }
    count
}

#[test]
fn each_hint_is_found_once(rt: HostRuntime) -> Result<(), Fail> {
    let mut seats = Hints::new(rt.alloc(), 3)?;
    for place in 0..MANY {
        put(&mut seats, place % 2, Task::Take(place))?;
    }
    let mut is_found = Vec::from_elem(rt.alloc(), false, MANY)?;
    let count = count_found(&mut seats, &mut is_found);
    let last = found(&mut seats, 2);
    drop(is_found);
    drop(seats);
    assert!(rt; count == MANY && last.is_none());
    Ok(())
}
