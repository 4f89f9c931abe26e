//! The trees of groups.
ghost use Rattle.std.specs.Prelude.{◌≡◌};
ghost use Rattle.syntax_trees.specs.Groups.{parts_of};

use crate::expression::Expression;
use crate::tree::{Node, SameSubject};
use sets::Items;
use std::marker::Model;

/// An element of a group (SPARQL 1.1 Query, 19.8, productions 53 to 68). A group is a list of them.
#[derive(Drop)]
pub enum Element<'a> {
    Triples(Items<SameSubject<'a>>),
    /// A group in braces, or the groups of a union.
    Union(Vec<Vec<Element<'a>>>),
    Optional(Vec<Element<'a>>),
    Minus(Vec<Element<'a>>),
    /// A graph, which is a name or a variable, and the group that is asked of it.
    Graph(Node<'a>, Vec<Element<'a>>),
    Filter(Expression<'a>),
}

/// The group of a WHERE. Contracts see its parts.
#[derive(Drop)]
pub struct Group<'a> {
    elements: Vec<Element<'a>>,
}

impl<'a> Model for Group<'a> {
    ghost use Rattle.std.specs.Prelude.{List};
    ghost use Rattle.syntax_trees.specs.Groups.{Part, parts_of};
    ghost use Rattle.std.specs.Coded.{codes};
    ghost use Rattle.syntax_trees.specs.Codes.{group_code};

    ghost Value = { List Part };

    ghost coded = { group_code (Prim.hlevel codes) };

    ghost view = { λ g. parts_of g.elements.items };
}

impl<'a> Group<'a> {
    /// The group of these elements. It takes no memory.
    pub fn new(elements: Vec<Element<'a>>) -> Group<'a>
        ensures { result ≡ parts_of elements.entry.items }
    {
        Group { elements }
    }

    /// Its elements.
    pub fn elements(&self) -> &[Element<'a>]
        ensures { parts_of result.now ≡ self.now }
    {
        self.elements.as_slice()
    }
}
