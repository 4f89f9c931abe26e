//! The nodes of an operation, gathered once.
ghost use Rattle.std.specs.Prelude.{◌≡◌, ◌++◌, [], Bool, IfOk, OnOk, length};
ghost use Rattle.algebra.specs.declared.update.Transfer.{Transfer};
ghost use Rattle.syntax_trees.specs.declared.tree.Operation.TheVariants as operation;
ghost use Rattle.nodes.specs.Nodes.{nodes_of_blocks, nodes_of_place, nodes_of_where, nodes_of_operation, deleted_of};
ghost use Rattle.nodes.specs.Places.{ArePlacesOf};

use crate::nodes::{add_blocks, add_group, add_name, add_place, add_target, add_with};
use algebra::Target;
use std::alloc::{AllocError, Global};
use std::marker::Model;
use syntax_trees::{Block, Group, Name, Node, Operation, Place};

/// Where among the nodes of an operation those of what it deletes begin and end, and where those of
/// its WHERE begin, which are the last ones.
#[derive(Clone, Copy, Drop)]
struct Places {
    delete_start: usize,
    delete_end: usize,
    where_start: usize,
}

/// An operation with its nodes. Contracts see the operation.
#[derive(Drop)]
pub struct OperationNodes<'e, 'a> {
    operation: &'e Operation<'a>,
    nodes: Vec<Node<'a>>,
    places: Places,
}

impl<'e, 'a> Model for OperationNodes<'e, 'a> {
    ghost use Rattle.std.specs.Coded.{codes};
    ghost use Rattle.syntax_trees.specs.Codes.{group_code};
    ghost use Rattle.syntax_trees.specs.declared.tree.Operation.{Operation};

    ghost Value = { Operation };

    ghost coded = { Prim.hlevel (codes, group_code (Prim.hlevel codes)) };

    ghost use Rattle.nodes.specs.Places.{ArePlacesOf};

    ghost view = { λ o. o.operation.now };

    ghost invariant = { λ o. ArePlacesOf o.operation.now o.nodes.items o.places };
}

/// The places of an operation that neither deletes quads nor has a WHERE.
fn no_places(nodes: &[Node<'_>]) -> Places
    ensures { result ≡ record { delete_start = 0; delete_end = 0; where_start = length nodes.now } }
{
    Places {
        delete_start: 0,
        delete_end: 0,
        where_start: nodes.len(),
    }
}

/// Gathers the nodes of two places.
fn add_both<'a>(
    found: &mut Vec<Node<'a>>,
    from: &Place<'a>,
    to: &Place<'a>,
) -> Result<(), AllocError>
    ensures { OnOk result (found.new.items ≡ found.old.items
        ++ nodes_of_place from.now ++ nodes_of_place to.now) }
{
    add_place(found, from)?;
    add_place(found, to)
}

/// Gathers the nodes of a CREATE.
fn add_created<'a>(found: &mut Vec<Node<'a>>, graph: &Name<'a>) -> Result<Places, AllocError>
    requires { found.old.items ≡ [] }
    ensures { (silent : Bool)
        → IfOk result (ArePlacesOf (operation.Create silent graph.now) found.new.items) }
{
    add_name(found, graph)?;
    Ok(no_places(found.as_slice()))
}

/// Gathers the nodes of a DROP or of a CLEAR.
fn add_emptied<'a>(
    found: &mut Vec<Node<'a>>,
    target: &Target<Name<'a>>,
) -> Result<Places, AllocError>
    requires { found.old.items ≡ [] }
    ensures dropped { (silent : Bool)
        → IfOk result (ArePlacesOf (operation.Drop silent target.now) found.new.items) }
    ensures cleared { (silent : Bool)
        → IfOk result (ArePlacesOf (operation.Clear silent target.now) found.new.items) }
{
    add_target(found, target)?;
    Ok(no_places(found.as_slice()))
}

/// Gathers the nodes of a COPY, MOVE or ADD.
fn add_transfer<'a>(
    found: &mut Vec<Node<'a>>,
    from: &Place<'a>,
    to: &Place<'a>,
) -> Result<Places, AllocError>
    requires { found.old.items ≡ [] }
    ensures { (how : Transfer) (silent : Bool)
        → IfOk result (ArePlacesOf (operation.Transfer how silent from.now to.now)
        found.new.items) }
{
    add_both(found, from, to)?;
    Ok(no_places(found.as_slice()))
}

/// Gathers the nodes of an INSERT DATA.
fn add_insert_data<'a>(found: &mut Vec<Node<'a>>, quads: &[Block<'a>]) -> Result<Places, AllocError>
    requires { found.old.items ≡ [] }
    ensures { IfOk result (ArePlacesOf (operation.InsertData quads.now) found.new.items) }
{
    add_blocks(found, quads)?;
    Ok(no_places(found.as_slice()))
}

/// Gathers the nodes of a DELETE DATA.
fn add_delete_data<'a>(found: &mut Vec<Node<'a>>, quads: &[Block<'a>]) -> Result<Places, AllocError>
    requires { found.old.items ≡ [] }
    ensures { IfOk result (ArePlacesOf (operation.DeleteData quads.now) found.new.items) }
{
    add_blocks(found, quads)?;
    Ok(Places {
        delete_start: 0,
        delete_end: found.len(),
        where_start: found.len(),
    })
}

/// Gathers the nodes of a DELETE WHERE.
fn add_delete_where<'a>(
    found: &mut Vec<Node<'a>>,
    quads: &[Block<'a>],
) -> Result<Places, AllocError>
    requires { found.old.items ≡ [] }
    ensures { IfOk result (ArePlacesOf (operation.DeleteWhere quads.now) found.new.items) }
{
    add_blocks(found, quads)?;
    Ok(Places {
        delete_start: 0,
        delete_end: found.len(),
        where_start: 0,
    })
}

/// Gathers the nodes of a DELETE and INSERT with its WHERE.
fn add_modify<'a>(
    alloc: Global,
    found: &mut Vec<Node<'a>>,
    with: &Option<Name<'a>>,
    delete: &[Block<'a>],
    insert: &[Block<'a>],
    pattern: &Group<'a>,
) -> Result<Places, AllocError>
    requires { found.old.items ≡ [] }
    ensures { IfOk result (ArePlacesOf (operation.Modify with.now delete.now insert.now pattern.now)
        found.new.items) }
{
    add_with(found, with)?;
    let delete_start = found.len();
    add_blocks(found, delete)?;
    let delete_end = found.len();
    add_blocks(found, insert)?;
    let where_start = found.len();
    add_group(alloc, found, pattern.elements())?;
    Ok(Places {
        delete_start,
        delete_end,
        where_start,
    })
}

/// Gathers the nodes of an operation.
fn add_operation<'a>(
    alloc: Global,
    found: &mut Vec<Node<'a>>,
    operation: &Operation<'a>,
) -> Result<Places, AllocError>
    requires { found.old.items ≡ [] }
    ensures { IfOk result (ArePlacesOf operation.now found.new.items) }
{
    match operation {
        Operation::Create { graph, .. } => add_created(found, graph),
        Operation::Drop { target, .. } => add_emptied(found, target),
        Operation::Clear { target, .. } => add_emptied(found, target),
        Operation::Transfer { from, to, .. } => add_transfer(found, from, to),
        Operation::InsertData(quads) => add_insert_data(found, quads.as_slice()),
        Operation::DeleteData(quads) => add_delete_data(found, quads.as_slice()),
        Operation::DeleteWhere(quads) => add_delete_where(found, quads.as_slice()),
        Operation::Modify {
            with,
            delete,
            insert,
            pattern,
        } => add_modify(
            alloc,
            found,
            with,
            delete.as_slice(),
            insert.as_slice(),
            pattern,
        ),
    }
}

impl<'e, 'a> OperationNodes<'e, 'a> {
    /// An operation with its nodes. An error comes only where a growth was refused.
    pub fn of(
        alloc: Global,
        operation: &'e Operation<'a>,
    ) -> Result<OperationNodes<'e, 'a>, AllocError>
        ensures { IfOk result (λ nodes. nodes ≡ operation.entry.now) }
    {
        let mut nodes = Vec::new(alloc);
        let places = add_operation(alloc, &mut nodes, operation)?;
        Ok(OperationNodes {
            operation,
            nodes,
            places,
        })
    }

    /// The operation.
    pub fn operation(&self) -> &'e Operation<'a>
        ensures { result.now ≡ self.now }
    {
        self.operation
    }

    /// Its nodes, in the order of its text (SPARQL 1.1 Update, 19.8, production 30): names of
    /// graphs, WITH, templates and WHERE.
    pub fn all(&self) -> &[Node<'a>]
        ensures { result.now ≡ nodes_of_operation self.now }
    {
        self.nodes.as_slice()
    }

    /// The nodes of what it deletes (SPARQL 1.1 Update, 19.8, productions 39, 40 and 42): of the
    /// quads of DELETE DATA and of DELETE WHERE, and of the template of DELETE.
    pub fn of_delete(&self) -> &[Node<'a>]
        ensures { result.now ≡ nodes_of_blocks (deleted_of self.now) }
    {
        let (front, _) = self.all().split_at(self.places.delete_end);
        front.split_at(self.places.delete_start).1
    }

    /// The nodes of its WHERE (SPARQL 1.1 Update, 19.8, productions 40 and 41). DELETE WHERE has
    /// its quads there, and operations on graphs and on data have none.
    pub fn of_where(&self) -> &[Node<'a>]
        ensures { result.now ≡ nodes_of_where self.now }
    {
        self.all().split_at(self.places.where_start).1
    }
}
