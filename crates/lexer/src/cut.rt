//! All tokens of a text.
ghost use Rattle.std.specs.Prelude.{◌≡◌, ◌+◌, ◌<◌, ◌^◌, IfOk, IfErr, Some, None};
ghost use Rattle.lexer.specs.Reading.{NoneAhead, token_at};
ghost use Rattle.lexer.specs.Ends.{depth_after, is_end};
ghost use Rattle.lexer.specs.Gives.{IsCut, IsFrontCut};

use crate::scan::{edge_at, skip, token_at};
use crate::stop::Stop;
use crate::token::{Sign, Token};
use iris::laws::runs_are_longest;
use std::alloc::Global;

/// For how many tokens there is room at first, at most.
const MOST_ROOM: usize = 64;

/// The longest token at the front of a text, and what follows it.
fn longest(text: &[u8], edge: usize) -> Result<(Token<'_>, &[u8]), Stop>
    requires { NoneAhead text.now edge }
    ensures found { IfOk result (λ x. token_at text.now ≡ Some (x.0, x.1.now)) }
    ensures none { IfErr result (λ e. (e ≡ Stop.NoReading) × (token_at text.now ≡ None)) }
{
    match token_at(text, edge) {
        Some(found) => Ok(found),
        None => Err(Stop::NoReading),
    }
}

// About how many tokens a short text has.
fn likely_count(text: &[u8]) -> usize {
    (text.len() / 8).min(MOST_ROOM)
}

fn tokens_of(alloc: Global, text: &[u8]) -> Result<Vec<Token<'_>>, Stop>
    ensures { IsCut text.now result }
{
    runs_are_longest();
    let mut tokens = Vec::with_capacity(alloc, likely_count(text))?;
    let mut rest = skip(text);
    let mut edge = rest.len();
    while !rest.is_empty() {
        edge = edge_at(rest, edge);
        let (token, after) = longest(rest, edge)?;
        tokens.push(token)?;
        rest = skip(after);
    }
    Ok(tokens)
}

/// The tokens of a text, white space and comments left out; each is the longest that begins there
/// (SPARQL 1.1 Query, 19.4 and 19.8). `NoReading` comes only where the text can't be cut into
/// tokens, `Memory` only where a growth was refused.
pub fn tokens(alloc: Global, text: &str) -> Result<Vec<Token<'_>>, Stop>
    ensures { IsCut text.now result }
{
    tokens_of(alloc, text.as_bytes())
}

/// How many braces are open behind a token, where so many are before it.
fn depth_after(token: &Token<'_>, depth: usize) -> usize
    requires { depth + 1 < 2 ^ 64 }
    ensures { result ≡ depth_after token.now depth }
{
    match token {
        Token::Sign(Sign::OpenBrace) => depth + 1,
        Token::Sign(Sign::CloseBrace) => depth.saturating_sub(1),
        _ => depth,
    }
}

/// Whether a token is a `;`, and no brace is open.
fn is_end(token: &Token<'_>, depth: usize) -> bool
    ensures { result ≡ is_end token.now depth }
{
    match token {
        Token::Sign(Sign::Semicolon) => depth == 0,
        _ => false,
    }
}

/// The tokens at the front of a text, to the first `;` outside braces, which is the last of them,
/// or to the text's end; and the text that follows them. `NoReading` comes only where the text
/// can't be cut into tokens, `Memory` only where a growth was refused.
pub fn step_tokens(alloc: Global, text: &[u8]) -> Result<(Vec<Token<'_>>, &[u8]), Stop>
    ensures { IsFrontCut text.now result }
{
    runs_are_longest();
    let mut tokens = Vec::new(alloc);
    let mut rest = skip(text);
    let most = rest.len();
    let mut edge = most;
    let mut depth = 0;
    while !rest.is_empty() {
        edge = edge_at(rest, edge);
        let (token, after) = longest(rest, edge)?;
        let ends = is_end(&token, depth);
        depth = depth_after(&token, depth);
        tokens.push(token)?;
        rest = skip(after);
        if ends {
            return Ok((tokens, rest));
        }
    }
    Ok((tokens, rest))
}
