//! A block that two workers run, event by event: through a book, and then through a shared book by
//! calls that never wait. What ends for want of memory is made once more. It prints each reply, the
//! journals and where they lead: `tests/again` refuses each allocation once, and compares.
#![tactic(auto)]

mod input;
mod player;
mod runs;
mod seats;
mod text;

use crate::player::Again;
use crate::runs::{through_book, through_shared};
use std::alloc::AllocError;
use std::process::ExitCode;
use std::sync::Wait;

// The texts of both runs.
fn both<R: Wait + AllocGlobal>(rt: &R, again: &mut Again) -> Result<String, AllocError> {
    let mut text = through_book(rt.alloc(), again)?;
    let more = through_shared(rt, rt.alloc(), again)?;
    text.push_str(more.as_str())?;
    Ok(text)
}

// Which call was made again goes to standard error. If memory is short once more after that, it is
// told as an answer: one allocation alone is refused, so it must not be.
fn main(rt: HostRuntime) -> ExitCode {
    let mut again = None;
    let text = both(&rt, &mut again);
    if let Some((way, word)) = again {
        let _ = eprintln!(&rt; "again: {way} {word}");
    }
    let printed = match text {
        Ok(text) => print!(&rt; "{text}"),
        Err(_) if again.is_some() => println!(&rt; "memory is short once more"),
        Err(_) => return ExitCode::from(5),
    };
    match printed {
        Ok(()) => ExitCode::SUCCESS,
        Err(_) => ExitCode::from(6),
    }
}
