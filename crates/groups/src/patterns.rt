//! The triples between the parts of a group.
ghost use Rattle.std.specs.Prelude.{◌≡◌, ℕ, List};
ghost use Rattle.lexer.specs.declared.token.Token.{Token};
ghost use Rattle.productions.specs.Steps.{Reader, Gives};
ghost use Rattle.syntax_trees.specs.Groups.{Part, part_of, parts_of};
ghost use Rattle.syntax_trees.specs.Groups as parts;
ghost use Rattle.triples.specs.Reading.{after_dot};
ghost use Rattle.groups.specs.Reading.{behind, unlabelled_at, front_at, part_with, item_with};

use crate::unlabelled::are_unlabelled;
use lexer::{Sign, Stop, Token};
use productions::after_sign;
use sets::Items;
use std::alloc::Global;
use syntax_trees::{Element, SameSubject};
use triples::{begins_node, triples_at};

/// What follows the full stop at the front of the tokens, if there is one.
pub fn after_dot<'t, 'a>(tokens: &'t [Token<'a>]) -> &'t [Token<'a>]
    ensures { result.now ≡ after_dot tokens.now }
{
    let Some(rest) = after_sign(Sign::Dot, tokens) else {
        return tokens;
    };
    rest
}

fn triples_of<'a>(triples: Items<SameSubject<'a>>) -> Element<'a>
    ensures { part_of result ≡ parts.Triples triples.entry }
{
    Element::Triples(triples)
}

#[tactic(auto, unfolding(crate::specs::Reading::unlabelled_at))]
fn push_unlabelled<'t, 'a>(
    alloc: Global,
    found: &mut Vec<Element<'a>>,
    tokens: &'t [Token<'a>],
) -> Result<&'t [Token<'a>], Stop>
    ensures { Gives (λ rest. (parts_of found.new.items, rest.now)) result
        (behind (parts_of found.old.items) (unlabelled_at tokens.now)) }
{
    let (triples, rest) = triples_at(alloc, tokens)?;
    if !are_unlabelled(triples.as_slice()) {
        return Err(Stop::NoReading);
    }
    found.push(triples_of(triples))?;
    Ok(rest)
}

/// `[Triples]`, pushed as a part where there are any.
#[tactic(auto, unfolding(crate::specs::Reading::front_at))]
pub fn push_front<'t, 'a>(
    alloc: Global,
    found: &mut Vec<Element<'a>>,
    tokens: &'t [Token<'a>],
) -> Result<&'t [Token<'a>], Stop>
    ensures { Gives (λ rest. (parts_of found.new.items, rest.now)) result
        (behind (parts_of found.old.items) (front_at tokens.now)) }
{
    if begins_node(tokens) {
        push_unlabelled(alloc, found, tokens)
    } else {
        Ok(tokens)
    }
}

/// `Part ['.'] [Triples]`, of which the part was read: pushes it and the triples behind it, and
/// gives what follows them.
#[tactic(auto, unfolding(crate::specs::Reading::item_with))]
pub fn push_item<'t, 'a>(
    alloc: Global,
    found: &mut Vec<Element<'a>>,
    read: Result<(Element<'a>, &'t [Token<'a>]), Stop>,
) -> Result<&'t [Token<'a>], Stop>
    ensures { (n : ℕ) (inner : Reader (List Part)) (ts : List Token)
        → Gives (λ x. (part_of x.0, x.1.now)) read.entry (part_with n inner ts)
        → Gives (λ rest. (parts_of found.new.items, rest.now)) result
        (behind (parts_of found.old.items) (item_with n inner ts)) }
{
    let (part, rest) = read?;
    found.push(part)?;
    push_front(alloc, found, after_dot(rest))
}
