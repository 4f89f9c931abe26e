//! Objects, properties and triples.
ghost use Rattle.std.specs.Prelude.{◌≡◌};
ghost use Rattle.productions.specs.Steps.{Gives};
ghost use Rattle.triples.specs.Reading.{objects_at, property_at, properties_at, same_at, triples_at, maybe_triples_at};

use crate::links::{object_link, property_link, triple_link};
use crate::nodes::{begins_node, node_at, object_at, verb_at};
use lexer::{Stop, Token};
use productions::kept;
use sets::Items;
use std::alloc::Global;
use syntax_trees::{Node, Property, SameSubject};

/// `Object { ',' Object }`
fn objects_at<'t, 'a>(
    alloc: Global,
    tokens: &'t [Token<'a>],
) -> Result<(Items<Node<'a>>, &'t [Token<'a>]), Stop>
    ensures { Gives (λ x. (x.0, x.1.now)) result (objects_at tokens.now) }
{
    // Most often one follows.
    let mut found = Items::from_vec(Vec::with_capacity(alloc, 1)?);
    let mut rest = tokens;
    let mut goes_on = true;
    while goes_on {
        let (object, after) = object_at(rest)?;
        found.push(object)?;
        let (next, after) = object_link(after);
        goes_on = next;
        rest = kept(after);
    }
    Ok((found, rest))
}

/// `Verb Objects`
#[tactic(auto, unfolding(crate::specs::Reading::property_at))]
fn property_at<'t, 'a>(
    alloc: Global,
    tokens: &'t [Token<'a>],
) -> Result<(Property<'a>, &'t [Token<'a>]), Stop>
    ensures { Gives (λ x. (x.0, x.1.now)) result (property_at tokens.now) }
{
    let (verb, rest) = verb_at(tokens)?;
    let (objects, rest) = objects_at(alloc, rest)?;
    Ok((Property { verb, objects }, rest))
}

/// `Verb Objects { ';' [Verb Objects] }`
fn properties_at<'t, 'a>(
    alloc: Global,
    tokens: &'t [Token<'a>],
) -> Result<(Items<Property<'a>>, &'t [Token<'a>]), Stop>
    ensures { Gives (λ x. (x.0, x.1.now)) result (properties_at tokens.now) }
{
    // Most often one follows.
    let mut found = Items::from_vec(Vec::with_capacity(alloc, 1)?);
    let mut rest = tokens;
    let mut goes_on = true;
    while goes_on {
        let (property, after) = property_at(alloc, rest)?;
        found.push(property)?;
        let (next, after) = property_link(after);
        goes_on = next;
        rest = kept(after);
    }
    Ok((found, rest))
}

/// A subject and its properties.
#[tactic(auto, unfolding(crate::specs::Reading::same_at))]
fn same_at<'t, 'a>(
    alloc: Global,
    tokens: &'t [Token<'a>],
) -> Result<(SameSubject<'a>, &'t [Token<'a>]), Stop>
    ensures { Gives (λ x. (x.0, x.1.now)) result (same_at tokens.now) }
{
    let (subject, rest) = node_at(tokens)?;
    let (properties, rest) = properties_at(alloc, rest)?;
    let same = SameSubject {
        subject,
        properties,
    };
    Ok((same, rest))
}

/// The triples at the front of the tokens, one subject or more, with the dot behind them where
/// there is one (SPARQL 1.1 Query, 19.8, productions 52 and 75), and what follows them. `NoReading`
/// where they begin with none, `Memory` where a growth is refused.
pub fn triples_at<'t, 'a>(
    alloc: Global,
    tokens: &'t [Token<'a>],
) -> Result<(Items<SameSubject<'a>>, &'t [Token<'a>]), Stop>
    ensures { Gives (λ x. (x.0, x.1.now)) result (triples_at tokens.now) }
{
    let mut found = Items::new(alloc);
    let mut rest = tokens;
    let mut goes_on = true;
    while goes_on {
        let (same, after) = same_at(alloc, rest)?;
        found.push(same)?;
        let (next, after) = triple_link(after);
        goes_on = next;
        rest = kept(after);
    }
    Ok((found, rest))
}

/// `[Triples]`: the same, or no triples where the tokens begin with none.
#[tactic(auto, unfolding(crate::specs::Reading::maybe_triples_at))]
pub fn maybe_triples_at<'t, 'a>(
    alloc: Global,
    tokens: &'t [Token<'a>],
) -> Result<(Items<SameSubject<'a>>, &'t [Token<'a>]), Stop>
    ensures { Gives (λ x. (x.0, x.1.now)) result (maybe_triples_at tokens.now) }
{
    if begins_node(tokens) {
        triples_at(alloc, tokens)
    } else {
        Ok((Items::new(alloc), tokens))
    }
}
