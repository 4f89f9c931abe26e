//! Quads: triples in braces, and those of GRAPH blocks.
ghost use Rattle.std.specs.Prelude.{◌≡◌};
ghost use Rattle.productions.specs.Steps.{Gives};
ghost use Rattle.triples.specs.Reading.{after_dot, braced_at, graph_block_at, default_block_at, section_at, blocks_behind, quads_at};

use crate::nodes::graph_name_at;
use crate::subjects::maybe_triples_at;
use lexer::{Sign, Stop, Token};
use productions::{after_keyword, after_sign, kept};
use sets::Items;
use std::alloc::Global;
use syntax_trees::{Block, SameSubject};

/// What follows a dot, or all where there is none.
fn after_dot<'t, 'a>(tokens: &'t [Token<'a>]) -> &'t [Token<'a>]
    ensures { result.now ≡ after_dot tokens.now }
{
    if let Some(rest) = after_sign(Sign::Dot, tokens) {
        return rest;
    }
    tokens
}

/// `'{' [Triples] '}'`
#[tactic(auto, unfolding(crate::specs::Reading::braced_at))]
fn braced_at<'t, 'a>(
    alloc: Global,
    tokens: &'t [Token<'a>],
) -> Result<(Items<SameSubject<'a>>, &'t [Token<'a>]), Stop>
    ensures { Gives (λ x. (x.0, x.1.now)) result (braced_at tokens.now) }
{
    let Some(inside) = after_sign(Sign::OpenBrace, tokens) else {
        return Err(Stop::NoReading);
    };
    let (triples, rest) = maybe_triples_at(alloc, inside)?;
    match after_sign(Sign::CloseBrace, rest) {
        Some(rest) => Ok((triples, rest)),
        None => Err(Stop::NoReading),
    }
}

/// The block of a graph, behind `GRAPH`.
#[tactic(auto, unfolding(crate::specs::Reading::graph_block_at))]
fn graph_block_at<'t, 'a>(
    alloc: Global,
    tokens: &'t [Token<'a>],
) -> Result<(Block<'a>, &'t [Token<'a>]), Stop>
    ensures { Gives (λ x. (x.0, x.1.now)) result (graph_block_at tokens.now) }
{
    let (graph, rest) = graph_name_at(tokens)?;
    let (triples, rest) = braced_at(alloc, rest)?;
    let block = Block {
        graph: Some(graph),
        triples,
    };
    Ok((block, after_dot(rest)))
}

/// A block of the default graph: `[Triples]`.
#[tactic(auto, unfolding(crate::specs::Reading::default_block_at))]
fn default_block_at<'t, 'a>(
    alloc: Global,
    tokens: &'t [Token<'a>],
) -> Result<(Block<'a>, &'t [Token<'a>]), Stop>
    ensures { Gives (λ x. (x.0, x.1.now)) result (default_block_at tokens.now) }
{
    let (triples, rest) = maybe_triples_at(alloc, tokens)?;
    let block = Block {
        graph: None,
        triples,
    };
    Ok((block, rest))
}

/// The two blocks behind `GRAPH`.
#[tactic(auto, unfolding(crate::specs::Reading::section_at))]
fn section_at<'t, 'a>(
    alloc: Global,
    tokens: &'t [Token<'a>],
) -> Result<((Block<'a>, Block<'a>), &'t [Token<'a>]), Stop>
    ensures { Gives (λ x. (x.0, x.1.now)) result (section_at tokens.now) }
{
    let (block, rest) = graph_block_at(alloc, tokens)?;
    let (after, rest) = default_block_at(alloc, rest)?;
    Ok(((block, after), rest))
}

/// A first block, and those that follow, to the brace that ends them.
fn blocks_behind<'t, 'a>(
    alloc: Global,
    first: Block<'a>,
    tokens: &'t [Token<'a>],
) -> Result<(Items<Block<'a>>, &'t [Token<'a>]), Stop>
    ensures { Gives (λ x. (x.0, x.1.now)) result (blocks_behind first.entry tokens.now) }
{
    let mut found = Items::new(alloc);
    found.push(first)?;
    let mut rest = tokens;
    while let Some(inside) = after_keyword(b"GRAPH", rest) {
        let ((block, default), after) = section_at(alloc, inside)?;
        found.push(block)?;
        found.push(default)?;
        rest = kept(after);
    }
    match after_sign(Sign::CloseBrace, rest) {
        Some(rest) => Ok((found, rest)),
        None => Err(Stop::NoReading),
    }
}

/// The quads in braces at the front of the tokens (SPARQL 1.1 Update, 19.8, productions 48 to 51),
/// and what follows them: a block of the default graph, then for each GRAPH block that block and
/// another of the default graph, the triples behind it. Blocks may be empty. `NoReading` where the
/// tokens begin with anything else, `Memory` where a growth is refused.
#[tactic(auto, unfolding(crate::specs::Reading::quads_at))]
pub fn quads_at<'t, 'a>(
    alloc: Global,
    tokens: &'t [Token<'a>],
) -> Result<(Items<Block<'a>>, &'t [Token<'a>]), Stop>
    ensures { Gives (λ x. (x.0, x.1.now)) result (quads_at tokens.now) }
{
    let Some(inside) = after_sign(Sign::OpenBrace, tokens) else {
        return Err(Stop::NoReading);
    };
    let (first, rest) = default_block_at(alloc, inside)?;
    blocks_behind(alloc, first, rest)
}
