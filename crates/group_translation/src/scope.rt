//! What the nodes of an operation stand for.
ghost use Rattle.std.specs.Prelude.{◌≡◌, IfOk};
ghost use Rattle.group_translation.specs.Triples.{place_of, slot_of, graph_of};

use algebra::{Place, Slot};
use names::{Labels, Prefixes, Variables};
use std::alloc::{AllocError, Global};
use syntax_trees::{Name, Node};
use terms::Term;

/// The declared prefixes, and the numbers of an operation's variables and labels.
#[derive(Clone, Copy)]
pub struct Scope<'s, 'a> {
    pub prefixes: &'s Prefixes<'a>,
    pub variables: &'s Variables<'a>,
    pub labels: &'s Labels<'a>,
}

impl<'s, 'a> Scope<'s, 'a> {
    /// What a node of a pattern stands for.
    pub(crate) fn place(&self, alloc: Global, node: &Node<'a>) -> Result<Place<Term>, AllocError>
        ensures { IfOk result (λ place. place ≡ place_of self.now.prefixes.now
            self.now.variables.now node.now) }
    {
        match node {
            Node::Variable(name) => Ok(Place::Variable(self.variables.number(name))),
            Node::Name(_) | Node::Type | Node::Blank(_) | Node::Literal(_) => {
                Ok(Place::Term(self.prefixes.term_of(alloc, node)?))
            }
        }
    }

    /// What a node of a template stands for.
    pub(crate) fn slot(&self, alloc: Global, node: &Node<'a>) -> Result<Slot<Term>, AllocError>
        ensures { IfOk result (λ slot. slot ≡ slot_of self.now.prefixes.now self.now.variables.now
            self.now.labels.now node.now) }
    {
        match node {
            Node::Variable(name) => Ok(Slot::Variable(self.variables.number(name))),
            Node::Blank(label) => Ok(Slot::Label(self.labels.number(label))),
            Node::Name(_) | Node::Type | Node::Literal(_) => {
                Ok(Slot::Term(self.prefixes.term_of(alloc, node)?))
            }
        }
    }

    /// The graph of a template's quads: that of their GRAPH block, else that of WITH.
    pub(crate) fn graph(
        &self,
        alloc: Global,
        with: &Option<Name<'a>>,
        graph: &Option<Node<'a>>,
    ) -> Result<Option<Slot<Term>>, AllocError>
        ensures { IfOk result (λ slot. slot ≡ graph_of self.now.prefixes.now self.now.variables.now
            self.now.labels.now with.now graph.now) }
    {
        match graph {
            Some(node) => Ok(Some(self.slot(alloc, node)?)),
            None => match with {
                Some(name) => Ok(Some(Slot::Term(self.prefixes.name_term(alloc, name)?))),
                None => Ok(None),
            },
        }
    }
}
