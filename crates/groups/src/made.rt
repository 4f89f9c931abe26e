//! Parts of groups, made of what was read.
ghost use Rattle.std.specs.Prelude.{◌≡◌, ◌++◌, ◌∷◌, [], List, Option, Some, option_and_then};
ghost use Rattle.lexer.specs.declared.token.Token.{Token};
ghost use Rattle.productions.specs.Steps.{Reader, Gives};
ghost use Rattle.productions.specs.Many.{many};
ghost use Rattle.syntax_trees.specs.Groups.{Part, part_of, parts_of, lists_of};
ghost use Rattle.syntax_trees.specs.Groups as parts;
ghost use Rattle.groups.specs.Reading.{union_link, union_with, optional_with, minus_with};

use lexer::{Stop, Token};
use syntax_trees::{Element, Node};

/// The union of the groups that were read.
#[tactic(auto, unfolding(crate::specs::Reading::union_with), using(crate::proofs::TreeLaws::union_lists))]
pub fn union_of<'t, 'a>(
    read: Result<(Vec<Vec<Element<'a>>>, &'t [Token<'a>]), Stop>,
) -> Result<(Element<'a>, &'t [Token<'a>]), Stop>
    ensures { (inner : Reader (List Part)) (ts : List Token)
        → Gives (λ x. (lists_of x.0.items, x.1.now)) read.entry (many inner union_link ts)
        → Gives (λ x. (part_of x.0, x.1.now)) result (union_with inner ts) }
{
    let (groups, rest) = read?;
    Ok((Element::Union(groups), rest))
}

/// OPTIONAL with the group that was read.
#[tactic(auto, unfolding(crate::specs::Reading::optional_with))]
pub fn optional_of<'t, 'a>(
    read: Result<(Vec<Element<'a>>, &'t [Token<'a>]), Stop>,
) -> Result<(Element<'a>, &'t [Token<'a>]), Stop>
    ensures { (inner : Reader (List Part)) (ts : List Token)
        → Gives (λ x. (parts_of x.0.items, x.1.now)) read.entry (inner ts)
        → Gives (λ x. (part_of x.0, x.1.now)) result (optional_with inner ts) }
{
    let (group, rest) = read?;
    Ok((Element::Optional(group), rest))
}

/// MINUS with the group that was read.
#[tactic(auto, unfolding(crate::specs::Reading::minus_with))]
pub fn minus_of<'t, 'a>(
    read: Result<(Vec<Element<'a>>, &'t [Token<'a>]), Stop>,
) -> Result<(Element<'a>, &'t [Token<'a>]), Stop>
    ensures { (inner : Reader (List Part)) (ts : List Token)
        → Gives (λ x. (parts_of x.0.items, x.1.now)) read.entry (inner ts)
        → Gives (λ x. (part_of x.0, x.1.now)) result (minus_with inner ts) }
{
    let (group, rest) = read?;
    Ok((Element::Minus(group), rest))
}

/// GRAPH with its name and the group that was read.
pub fn graph_of<'t, 'a>(
    name: Node<'a>,
    read: Result<(Vec<Element<'a>>, &'t [Token<'a>]), Stop>,
) -> Result<(Element<'a>, &'t [Token<'a>]), Stop>
    ensures { (given : Option (List Part × List Token))
        → Gives (λ x. (parts_of x.0.items, x.1.now)) read.entry given
        → Gives {Y = Part × List Token} (λ x. (part_of x.0, x.1.now)) result
        (option_and_then (λ g. Some (parts.InGraph name.entry (parts.group g.0), g.1)) given) }
{
    let (group, rest) = read?;
    Ok((Element::Graph(name, group), rest))
}

/// Pushes the group that was read, and gives what follows it.
pub fn push_group<'t, 'a>(
    found: &mut Vec<Vec<Element<'a>>>,
    read: Result<(Vec<Element<'a>>, &'t [Token<'a>]), Stop>,
) -> Result<&'t [Token<'a>], Stop>
    ensures { (given : Option (List Part × List Token))
        → Gives (λ x. (parts_of x.0.items, x.1.now)) read.entry given
        → Gives {Y = List (List Part) × List Token} (λ rest. (lists_of found.new.items, rest.now))
        result
        (option_and_then (λ g. Some (lists_of found.old.items ++ g.0 ∷ [], g.1)) given) }
{
    let (group, rest) = read?;
    found.push(group)?;
    Ok(rest)
}
