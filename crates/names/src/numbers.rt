//! The numbers of variables and of blank node labels.
ghost use Rattle.std.specs.List.Sorted.{IsStrictlySortedBy};
ghost use Rattle.std.specs.Prelude.{◌≡◌, ◌≤◌, [], length, filter_map, IfOk, OnErr, OnOk};
ghost use Rattle.terms.specs.Term.{text_cmp};
ghost use Rattle.names.specs.Numbers.{variable_of, variables_of, number_of, label_of, labels_of, is_label_in, with_label, with_labels, label_number};

use crate::key::Key;
use lexer::{Label, Piece};
use sets::{place_of, set_of};
use std::alloc::{AllocError, Global};
use std::collections::BTreeMap;
use std::marker::Model;
use syntax_trees::Node;

/// The most variables or labels of an operation.
const MOST: usize = u32::MAX as usize;

/// The names of variables, each once and in the order of their bytes. Contracts see them as a list.
#[derive(Drop)]
pub struct Variables<'a> {
    names: Vec<Key<'a>>,
}

impl<'a> Model for Variables<'a> {
    ghost use Rattle.std.specs.Prelude.{◌<◌, ◌^◌, List, ℕ, length};
    ghost use Rattle.std.specs.List.Sorted.{IsStrictlySortedBy};
    ghost use Rattle.terms.specs.Term.{text_cmp};

    ghost Value = { List (List ℕ) };

    ghost view = { λ v. v.names.items };

    ghost invariant = { λ v. IsStrictlySortedBy text_cmp v.names.items × (length v.names.items < 2 ^ 32) };
}

/// The place of a name in a set, or how many there are where it isn't among them.
#[tactic(auto, using(crate::proofs::NumberLaws::place_number, crate::proofs::NumberLaws::none_number))]
fn number_in(names: &[Key<'_>], name: &Key<'_>) -> usize
    requires { IsStrictlySortedBy text_cmp names.now }
    ensures within { result ≤ length names.now }
    ensures number { result ≡ number_of names.now name.now }
{
    match place_of(names, name) {
        Some(place) => place,
        None => names.len(),
    }
}

/// The names of the variables among nodes, as often as they stand there.
fn variable_names<'a>(alloc: Global, nodes: &[Node<'a>]) -> Result<Vec<Key<'a>>, AllocError>
    ensures { IfOk result (λ names. names.items ≡ filter_map variable_of nodes.now) }
{
    let mut names = Vec::new(alloc);
    for node in nodes {
        if let Node::Variable(name) = node {
            names.push(Key::new(name.as_bytes()))?;
        }
    }
    Ok(names)
}

impl<'a> Variables<'a> {
    /// Those among nodes. An error comes only where a growth was refused, or where they are 2^32 or
    /// more.
    #[tactic(auto, using(crate::proofs::NumberLaws::sorted))]
    pub fn of(alloc: Global, nodes: &[Node<'a>]) -> Result<Variables<'a>, AllocError>
        ensures { IfOk result (λ variables. variables ≡ variables_of nodes.now) }
    {
        let names = set_of(variable_names(alloc, nodes)?);
        if names.len() > MOST {
            return Err(AllocError);
        }
        Ok(Variables { names })
    }

    /// How many there are.
    pub fn width(&self) -> u32
        ensures { result ≡ length self.now }
    {
        self.names.len() as u32
    }

    /// The number of a variable: its place, or how many there are where it isn't among them.
    pub fn number(&self, name: &Piece<'a>) -> u32
        ensures { result ≡ number_of self.now name.now }
    {
        number_in(self.names.as_slice(), &Key::new(name.as_bytes())) as u32
    }
}

/// Blank node labels and their numbers. Contracts see them as a list in the order of the labels.
#[derive(Drop)]
pub struct Labels<'a> {
    map: BTreeMap<Key<'a>, u32>,
}

impl<'a> Model for Labels<'a> {
    ghost use Rattle.std.specs.Prelude.{List, ℕ};

    ghost Value = { List (List ℕ × ℕ) };

    ghost view = { λ l. l.map.entries };
}

impl<'a> Labels<'a> {
    /// No labels.
    pub fn new(alloc: Global) -> Labels<'a>
        ensures { result ≡ [] }
    {
        Labels {
            map: BTreeMap::new(alloc),
        }
    }

    /// Whether a label has a number.
    pub fn has(&self, label: &Label<'a>) -> bool
        ensures { result ≡ is_label_in self.now label.now }
    {
        self.map.contains_key(&Key::new(label.as_bytes()))
    }

    /// The next number for a label, if it has none. An error comes only where a growth was refused,
    /// or where there are 2^32 labels, and leaves the labels as they are.
    pub fn add(&mut self, label: &Label<'a>) -> Result<(), AllocError>
        ensures ok { OnOk result (self.new ≡ with_label label.now self.old) }
        ensures err { OnErr result (self.new ≡ self.old) }
    {
        if self.has(label) {
            return Ok(());
        }
        let number = self.map.len();
        if number > MOST {
            return Err(AllocError);
        }
        self.map.insert(Key::new(label.as_bytes()), number as u32)?;
        Ok(())
    }

    /// Numbers for the labels among nodes, in their order. An error comes only where a growth was
    /// refused, or where there are 2^32 labels; some of them may have numbers then, so a caller
    /// drops the labels.
    pub fn add_nodes(&mut self, nodes: &[Node<'a>]) -> Result<(), AllocError>
        ensures { OnOk result (self.new ≡ with_labels (labels_of nodes.now) self.old) }
    {
        for node in nodes {
            if let Node::Blank(label) = node {
                self.add(label)?;
            }
        }
        Ok(())
    }

    /// The number of a label, or 0 where it has none.
    pub fn number(&self, label: &Label<'a>) -> u32
        ensures { result ≡ label_number self.now label.now }
    {
        match self.map.get(&Key::new(label.as_bytes())) {
            Some(number) => *number,
            None => 0,
        }
    }
}
