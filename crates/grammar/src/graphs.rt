//! Operations on graphs: CREATE, DROP, CLEAR, COPY, MOVE and ADD.
ghost use Rattle.std.specs.Prelude.{◌≡◌};
ghost use Rattle.productions.specs.Steps.{Gives};
ghost use Rattle.grammar.specs.Reading.{silent_at, graph_at, graph_target_at, target_at, name_place_at, place_at, create_at, drop_at, clear_at, transfer_at};

use algebra::{Target, Transfer};
use lexer::{Stop, Token};
use productions::{after_keyword, name_at};
use syntax_trees::{Name, Operation, Place};

/// `['SILENT']`
fn silent_at<'t, 'a>(tokens: &'t [Token<'a>]) -> (bool, &'t [Token<'a>])
    ensures word { result.0 ≡ (silent_at tokens.now).0 }
    ensures rest { result.1.now ≡ (silent_at tokens.now).1 }
{
    match after_keyword(b"SILENT", tokens) {
        Some(rest) => (true, rest),
        None => (false, tokens),
    }
}

/// `'GRAPH' Iri`
#[tactic(auto, unfolding(crate::specs::Reading::graph_at))]
fn graph_at<'t, 'a>(tokens: &'t [Token<'a>]) -> Result<(Name<'a>, &'t [Token<'a>]), Stop>
    ensures { Gives (λ x. (x.0, x.1.now)) result (graph_at tokens.now) }
{
    match after_keyword(b"GRAPH", tokens) {
        Some(rest) => name_at(rest),
        None => Err(Stop::NoReading),
    }
}

#[tactic(auto, unfolding(crate::specs::Reading::graph_target_at))]
fn graph_target_at<'t, 'a>(
    tokens: &'t [Token<'a>],
) -> Result<(Target<Name<'a>>, &'t [Token<'a>]), Stop>
    ensures { Gives (λ x. (x.0, x.1.now)) result (graph_target_at tokens.now) }
{
    let (graph, rest) = graph_at(tokens)?;
    Ok((Target::Graph(graph), rest))
}

/// `'GRAPH' Iri | 'DEFAULT' | 'NAMED' | 'ALL'`
#[tactic(auto, unfolding(crate::specs::Reading::target_at))]
fn target_at<'t, 'a>(tokens: &'t [Token<'a>]) -> Result<(Target<Name<'a>>, &'t [Token<'a>]), Stop>
    ensures { Gives (λ x. (x.0, x.1.now)) result (target_at tokens.now) }
{
    if let Some(rest) = after_keyword(b"DEFAULT", tokens) {
        return Ok((Target::Default, rest));
    }
    if let Some(rest) = after_keyword(b"NAMED", tokens) {
        return Ok((Target::Named, rest));
    }
    match after_keyword(b"ALL", tokens) {
        Some(rest) => Ok((Target::All, rest)),
        None => graph_target_at(tokens),
    }
}

#[tactic(auto, unfolding(crate::specs::Reading::name_place_at))]
fn name_place_at<'t, 'a>(tokens: &'t [Token<'a>]) -> Result<(Place<'a>, &'t [Token<'a>]), Stop>
    ensures { Gives (λ x. (x.0, x.1.now)) result (name_place_at tokens.now) }
{
    let (graph, rest) = name_at(tokens)?;
    Ok((Place::Graph(graph), rest))
}

/// `'DEFAULT' | ['GRAPH'] Iri`
#[tactic(auto, unfolding(crate::specs::Reading::place_at))]
fn place_at<'t, 'a>(tokens: &'t [Token<'a>]) -> Result<(Place<'a>, &'t [Token<'a>]), Stop>
    ensures { Gives (λ x. (x.0, x.1.now)) result (place_at tokens.now) }
{
    if let Some(rest) = after_keyword(b"DEFAULT", tokens) {
        return Ok((Place::Default, rest));
    }
    match after_keyword(b"GRAPH", tokens) {
        Some(rest) => name_place_at(rest),
        None => name_place_at(tokens),
    }
}

/// What follows `CREATE`.
#[tactic(auto, unfolding(crate::specs::Reading::create_at))]
pub fn create_at<'t, 'a>(tokens: &'t [Token<'a>]) -> Result<(Operation<'a>, &'t [Token<'a>]), Stop>
    ensures { Gives (λ x. (x.0, x.1.now)) result (create_at tokens.now) }
{
    let (silent, rest) = silent_at(tokens);
    let (graph, rest) = graph_at(rest)?;
    Ok((Operation::Create { silent, graph }, rest))
}

/// What follows `DROP`.
#[tactic(auto, unfolding(crate::specs::Reading::drop_at))]
pub fn drop_at<'t, 'a>(tokens: &'t [Token<'a>]) -> Result<(Operation<'a>, &'t [Token<'a>]), Stop>
    ensures { Gives (λ x. (x.0, x.1.now)) result (drop_at tokens.now) }
{
    let (silent, rest) = silent_at(tokens);
    let (target, rest) = target_at(rest)?;
    Ok((Operation::Drop { silent, target }, rest))
}

/// What follows `CLEAR`.
#[tactic(auto, unfolding(crate::specs::Reading::clear_at))]
pub fn clear_at<'t, 'a>(tokens: &'t [Token<'a>]) -> Result<(Operation<'a>, &'t [Token<'a>]), Stop>
    ensures { Gives (λ x. (x.0, x.1.now)) result (clear_at tokens.now) }
{
    let (silent, rest) = silent_at(tokens);
    let (target, rest) = target_at(rest)?;
    Ok((Operation::Clear { silent, target }, rest))
}

/// What follows `COPY`, `MOVE` or `ADD`.
#[tactic(auto, unfolding(crate::specs::Reading::transfer_at))]
pub fn transfer_at<'t, 'a>(
    how: Transfer,
    tokens: &'t [Token<'a>],
) -> Result<(Operation<'a>, &'t [Token<'a>]), Stop>
    ensures { Gives (λ x. (x.0, x.1.now)) result (transfer_at how tokens.now) }
{
    let (silent, rest) = silent_at(tokens);
    let (from, rest) = place_at(rest)?;
    let Some(rest) = after_keyword(b"TO", rest) else {
        return Err(Stop::NoReading);
    };
    let (to, rest) = place_at(rest)?;
    let transfer = Operation::Transfer {
        how,
        silent,
        from,
        to,
    };
    Ok((transfer, rest))
}
