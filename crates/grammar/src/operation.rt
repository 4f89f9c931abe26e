//! Operations, told apart by their first words.
ghost use Rattle.std.specs.Prelude.{◌≡◌};
ghost use Rattle.productions.specs.Steps.{Gives};
ghost use Rattle.grammar.specs.Reading.{update_at, transferred_at, operation_at};

use crate::graphs::{clear_at, create_at, drop_at, transfer_at};
use crate::updates::{deleted_at, inserted_at, with_at};
use algebra::Transfer;
use lexer::{Stop, Token};
use productions::after_keyword;
use std::alloc::Global;
use syntax_trees::Operation;

/// INSERT, DELETE or WITH.
#[tactic(auto, unfolding(crate::specs::Reading::update_at))]
fn update_at<'t, 'a>(
    alloc: Global,
    tokens: &'t [Token<'a>],
) -> Result<(Operation<'a>, &'t [Token<'a>]), Stop>
    ensures { Gives (λ x. (x.0, x.1.now)) result (update_at tokens.now) }
{
    if let Some(rest) = after_keyword(b"INSERT", tokens) {
        return inserted_at(alloc, rest);
    }
    if let Some(rest) = after_keyword(b"DELETE", tokens) {
        return deleted_at(alloc, rest);
    }
    match after_keyword(b"WITH", tokens) {
        Some(rest) => with_at(alloc, rest),
        None => Err(Stop::NoReading),
    }
}

/// COPY, MOVE, ADD, or one of those above.
#[tactic(auto, unfolding(crate::specs::Reading::transferred_at))]
fn transferred_at<'t, 'a>(
    alloc: Global,
    tokens: &'t [Token<'a>],
) -> Result<(Operation<'a>, &'t [Token<'a>]), Stop>
    ensures { Gives (λ x. (x.0, x.1.now)) result (transferred_at tokens.now) }
{
    if let Some(rest) = after_keyword(b"COPY", tokens) {
        return transfer_at(Transfer::Copy, rest);
    }
    if let Some(rest) = after_keyword(b"MOVE", tokens) {
        return transfer_at(Transfer::Move, rest);
    }
    match after_keyword(b"ADD", tokens) {
        Some(rest) => transfer_at(Transfer::Add, rest),
        None => update_at(alloc, tokens),
    }
}

/// The operation at the front of the tokens, and what follows it.
#[tactic(auto, unfolding(crate::specs::Reading::operation_at))]
pub fn operation_at<'t, 'a>(
    alloc: Global,
    tokens: &'t [Token<'a>],
) -> Result<(Operation<'a>, &'t [Token<'a>]), Stop>
    ensures { Gives (λ x. (x.0, x.1.now)) result (operation_at tokens.now) }
{
    if let Some(rest) = after_keyword(b"CREATE", tokens) {
        return create_at(rest);
    }
    if let Some(rest) = after_keyword(b"DROP", tokens) {
        return drop_at(rest);
    }
    match after_keyword(b"CLEAR", tokens) {
        Some(rest) => clear_at(rest),
        None => transferred_at(alloc, tokens),
    }
}
