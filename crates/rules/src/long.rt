//! Texts of more than 2^20 bytes: each is refused, and none is kept whole.
ghost use Rattle.std.specs.Prelude.{◌≡◌, ◌<◌, ◌^◌, IfOk, length};
ghost use Rattle.rules.specs.Refusal.{IsRefusal};
ghost use Rattle.rules.specs.Long.{IsFrontSeen, IsSeen};

use crate::request::first_of;
use faults::{Kinds, Walk, see_steps};
use grammar::front_steps;
use grammar::laws::one_reading;
use lexer::Stop;
use meaning::Refusal;
use std::alloc::{AllocError, Global};

/// Finds the faults of the first steps of a text, and gives the text that follows them.
fn see_front<'a>(alloc: Global, walk: &mut Walk<'a>, text: &'a [u8]) -> Result<&'a [u8], Stop>
    ensures { IsFrontSeen text.now walk.old walk.new result }
{
    let (steps, rest) = front_steps(alloc, text)?;
    see_steps(alloc, walk, steps.as_slice())?;
    Ok(rest)
}

/// The kinds of fault in a text, whose steps are read and forgotten one after another.
fn kinds_of_long(alloc: Global, text: &[u8]) -> Result<Kinds, Stop>
    requires { 2 ^ 20 < length text.now }
    ensures { IsSeen text.now result }
{
    one_reading();
    let mut walk = Walk::of_long_text(alloc);
    let mut rest = text;
    while !rest.is_empty() {
        rest = see_front(alloc, &mut walk, rest)?;
    }
    Ok(walk.kinds())
}

/// Why a text is refused. An error comes as for `check`.
pub fn refusal_of_long(alloc: Global, text: &[u8]) -> Result<Refusal, AllocError>
    requires { 2 ^ 20 < length text.now }
    ensures { IfOk result (IsRefusal text.now) }
{
    match kinds_of_long(alloc, text) {
        Ok(kinds) => match first_of(kinds) {
            Some(kind) => Ok(kind),
            None => unreachable!(),
        },
        Err(Stop::NoReading) => Ok(Refusal::Syntax),
        Err(Stop::Memory) => Err(AllocError),
    }
}
