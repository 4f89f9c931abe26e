//! Declarations of prefixes, and requests.
ghost use Rattle.std.specs.Prelude.{◌≡◌, MatchOption, IfOk, None, Some};
ghost use Rattle.grammar.specs.Reads.{IsParsed};
ghost use Rattle.grammar.specs.Fronts.{IsFrontRead};
ghost use Rattle.productions.specs.Steps.{Gives};
ghost use Rattle.grammar.specs.Reading.{namespace_at, reference_at, declared_at, ended_at, done_at, step_at, AreRead, IsRead};

use crate::laws::quads_and_groups_are_read;
use crate::operation::operation_at;
use lexer::laws::one_cut;
use lexer::{IriText, Piece, Sign, Stop, Token, step_tokens, tokens};
use productions::{after_keyword, kept};
use sets::Items;
use std::alloc::{AllocError, Global};
use syntax_trees::{Step, Syntax};

/// The prefix that a namespace declares, and what follows it.
fn namespace_at<'t, 'a>(tokens: &'t [Token<'a>]) -> Result<(Piece<'a>, &'t [Token<'a>]), Stop>
    ensures { Gives (λ x. (x.0, x.1.now)) result (namespace_at tokens.now) }
{
    let [first, rest @ ..] = tokens else {
        return Err(Stop::NoReading);
    };
    match first {
        Token::Name { prefix, local } if local.as_bytes().is_empty() => Ok((prefix.again(), rest)),
        _ => Err(Stop::NoReading),
    }
}

/// The IRI at the front of the tokens, and what follows it.
fn reference_at<'t, 'a>(tokens: &'t [Token<'a>]) -> Result<(IriText<'a>, &'t [Token<'a>]), Stop>
    ensures { Gives (λ x. (x.0, x.1.now)) result (reference_at tokens.now) }
{
    let [first, rest @ ..] = tokens else {
        return Err(Stop::NoReading);
    };
    match first {
        Token::Iri(iri) => Ok((iri.again(), rest)),
        _ => Err(Stop::NoReading),
    }
}

/// A namespace and its IRI, behind the word `PREFIX`.
#[tactic(auto, unfolding(crate::specs::Reading::declared_at))]
fn declared_at<'t, 'a>(tokens: &'t [Token<'a>]) -> Result<(Step<'a>, &'t [Token<'a>]), Stop>
    ensures { Gives (λ x. (x.0, x.1.now)) result (declared_at tokens.now) }
{
    let (prefix, rest) = namespace_at(tokens)?;
    let (iri, rest) = reference_at(rest)?;
    Ok((Step::Declare { prefix, iri }, rest))
}

/// What follows the `;` after an operation, or nothing where nothing is left.
fn ended_at<'t, 'a>(tokens: &'t [Token<'a>]) -> Option<&'t [Token<'a>]>
    ensures { MatchOption result (ended_at tokens.now ≡ None)
        (λ rest. ended_at tokens.now ≡ Some rest.now) }
{
    let [first, rest @ ..] = tokens else {
        return Some(tokens);
    };
    match first {
        Token::Sign(Sign::Semicolon) => Some(rest),
        _ => None,
    }
}

/// An operation and what ends it.
#[tactic(auto, unfolding(crate::specs::Reading::done_at))]
fn done_at<'t, 'a>(
    alloc: Global,
    tokens: &'t [Token<'a>],
) -> Result<(Step<'a>, &'t [Token<'a>]), Stop>
    ensures { Gives (λ x. (x.0, x.1.now)) result (done_at tokens.now) }
{
    let (operation, rest) = operation_at(alloc, tokens)?;
    match ended_at(rest) {
        Some(rest) => Ok((Step::Do(operation), rest)),
        None => Err(Stop::NoReading),
    }
}

/// A declaration, or an operation and what ends it.
#[tactic(auto, unfolding(crate::specs::Reading::step_at))]
fn step_at<'t, 'a>(
    alloc: Global,
    tokens: &'t [Token<'a>],
) -> Result<(Step<'a>, &'t [Token<'a>]), Stop>
    ensures { Gives (λ x. (x.0, x.1.now)) result (step_at tokens.now) }
{
    match after_keyword(b"PREFIX", tokens) {
        Some(rest) => declared_at(rest),
        None => done_at(alloc, tokens),
    }
}

/// All tokens of a request.
fn steps_of<'a>(alloc: Global, tokens: &[Token<'a>]) -> Result<Items<Step<'a>>, Stop>
    ensures { AreRead tokens.now result }
{
    quads_and_groups_are_read();
    let mut found = Items::new(alloc);
    let mut rest = tokens;
    while !rest.is_empty() {
        let (step, after) = step_at(alloc, rest)?;
        found.push(step)?;
        rest = kept(after);
    }
    Ok(found)
}

fn read(alloc: Global, text: &str) -> Result<Items<Step<'_>>, Stop>
    ensures { IsRead text.now result }
{
    let tokens = tokens(alloc, text)?;
    steps_of(alloc, tokens.as_slice())
}

/// The first steps of a text, to where one may end, and the text that follows them, which is
/// shorter. So the tokens and the tree of one operation are in memory, and not those of a whole
/// request. `NoReading` comes only where the text has none, `Memory` only where a growth was
/// refused.
pub fn front_steps(alloc: Global, text: &[u8]) -> Result<(Items<Step<'_>>, &[u8]), Stop>
    ensures { IsFrontRead text.now result }
{
    one_cut();
    quads_and_groups_are_read();
    let (tokens, rest) = step_tokens(alloc, text)?;
    let steps = steps_of(alloc, tokens.as_slice())?;
    Ok((steps, rest))
}

/// The reading of a request's text (SPARQL 1.1 Update, 19.8), which has one at most. `None` comes
/// only where the text has none.
pub fn parse(alloc: Global, text: &str) -> Result<Option<Syntax<'_>>, AllocError>
    ensures { IfOk result (IsParsed text.now) }
{
    match read(alloc, text) {
        Ok(steps) => Ok(Some(Syntax {
            steps,
            length: text.len(),
        })),
        Err(Stop::NoReading) => Ok(None),
        Err(Stop::Memory) => Err(AllocError),
    }
}
