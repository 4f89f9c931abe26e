//! The nodes of names, quads and groups, one after another.
ghost use Rattle.std.specs.Prelude.{◌≡◌, ◌<◌, ◌++◌, ◌∷◌, [], OnOk};
ghost use Rattle.syntax_trees.specs.declared.tree.Node.TheVariants as node;
ghost use Rattle.std.specs.Option.{option_to_list};
ghost use Rattle.syntax_trees.specs.Expressions.{tree_of};
ghost use Rattle.syntax_trees.specs.Groups.{part_of, parts_of, group};
ghost use Rattle.nodes.specs.Nodes.{nodes_of_property, nodes_of_subject, nodes_of_triples, nodes_of_block, nodes_of_blocks, nodes_of_tree, nodes_of_part, nodes_of_parts, nodes_of_target, nodes_of_place, nodes_of_with};
ghost use Rattle.nodes.specs.Pending.{pending_nodes, pending_weight};

use algebra::Target;
use std::alloc::{AllocError, Global};
use syntax_trees::{Block, Element, Expression, Literal, Name, Node, Place, Property, SameSubject};

/// The same name again.
fn name_again<'a>(name: &Name<'a>) -> Name<'a>
    ensures { result ≡ name.now }
{
    match name {
        Name::Iri(iri) => Name::Iri(iri.again()),
        Name::Prefixed { prefix, local } => Name::Prefixed {
            prefix: prefix.again(),
            local: local.again(),
        },
    }
}

fn literal_again<'a>(literal: &Literal<'a>) -> Literal<'a>
    ensures { result ≡ literal.now }
{
    match literal {
        Literal::Plain(text) => Literal::Plain(text.again()),
        Literal::Tagged(text, tag) => Literal::Tagged(text.again(), tag.again()),
        Literal::Typed(text, datatype) => Literal::Typed(text.again(), name_again(datatype)),
        Literal::Integer(digits) => Literal::Integer(digits.again()),
        Literal::Boolean(truth) => Literal::Boolean(*truth),
    }
}

fn node_again<'a>(node: &Node<'a>) -> Node<'a>
    ensures { result ≡ node.now }
{
    match node {
        Node::Name(name) => Node::Name(name_again(name)),
        Node::Type => Node::Type,
        Node::Variable(name) => Node::Variable(name.again()),
        Node::Blank(label) => Node::Blank(label.again()),
        Node::Literal(literal) => Node::Literal(literal_again(literal)),
    }
}

fn add_node<'a>(found: &mut Vec<Node<'a>>, node: &Node<'a>) -> Result<(), AllocError>
    ensures { OnOk result (found.new.items ≡ found.old.items ++ node.now ∷ []) }
{
    found.push(node_again(node))?;
    Ok(())
}

fn add_property<'a>(found: &mut Vec<Node<'a>>, property: &Property<'a>) -> Result<(), AllocError>
    ensures { OnOk result (found.new.items ≡ found.old.items ++ nodes_of_property property.now) }
{
    add_node(found, &property.verb)?;
    for object in property.objects.as_slice() {
        add_node(found, object)?;
    }
    Ok(())
}

fn add_subject<'a>(found: &mut Vec<Node<'a>>, same: &SameSubject<'a>) -> Result<(), AllocError>
    ensures { OnOk result (found.new.items ≡ found.old.items ++ nodes_of_subject same.now) }
{
    add_node(found, &same.subject)?;
    for property in same.properties.as_slice() {
        add_property(found, property)?;
    }
    Ok(())
}

fn add_triples<'a>(found: &mut Vec<Node<'a>>, triples: &[SameSubject<'a>]) -> Result<(), AllocError>
    ensures { OnOk result (found.new.items ≡ found.old.items ++ nodes_of_triples triples.now) }
{
    // Most subjects have one property, of one object.
    found.reserve(triples.len().saturating_mul(3))?;
    for same in triples {
        add_subject(found, same)?;
    }
    Ok(())
}

fn add_graph<'a>(found: &mut Vec<Node<'a>>, graph: &Option<Node<'a>>) -> Result<(), AllocError>
    ensures { OnOk result (found.new.items ≡ found.old.items ++ option_to_list graph.now) }
{
    match graph {
        Some(node) => add_node(found, node),
        None => Ok(()),
    }
}

fn add_block<'a>(found: &mut Vec<Node<'a>>, block: &Block<'a>) -> Result<(), AllocError>
    ensures { OnOk result (found.new.items ≡ found.old.items ++ nodes_of_block block.now) }
{
    add_graph(found, &block.graph)?;
    add_triples(found, block.triples.as_slice())
}

pub(crate) fn add_blocks<'a>(
    found: &mut Vec<Node<'a>>,
    blocks: &[Block<'a>],
) -> Result<(), AllocError>
    ensures { OnOk result (found.new.items ≡ found.old.items ++ nodes_of_blocks blocks.now) }
{
    for block in blocks {
        add_block(found, block)?;
    }
    Ok(())
}

/// Puts an operand onto the stack of what is still to come.
fn put<'e, 'a>(
    pending: &mut Vec<&'e Expression<'a>>,
    operand: &'e Expression<'a>,
) -> Result<(), AllocError>
    ensures { OnOk result (pending.new.items ≡ pending.old.items ++ operand.entry ∷ []) }
{
    pending.push(operand)?;
    Ok(())
}

/// Puts two operands onto the stack, of which the left one comes first.
fn put_two<'e, 'a>(
    pending: &mut Vec<&'e Expression<'a>>,
    left: &'e Expression<'a>,
    right: &'e Expression<'a>,
) -> Result<(), AllocError>
    ensures { OnOk result (pending.new.items
        ≡ (pending.old.items ++ right.entry ∷ []) ++ left.entry ∷ []) }
{
    put(pending, right)?;
    put(pending, left)
}

/// Adds the nodes of an expression that has no operands, and puts those of any other one onto the
/// stack.
#[tactic(auto, using(crate::proofs::TreeLaws::pending_push, crate::proofs::TreeLaws::weight_push))]
fn add_next<'e, 'a>(
    found: &mut Vec<Node<'a>>,
    pending: &mut Vec<&'e Expression<'a>>,
    next: &'e Expression<'a>,
) -> Result<(), AllocError>
    ensures nodes { OnOk result (found.new.items ++ pending_nodes pending.new.items
        ≡ found.old.items ++ pending_nodes (pending.old.items ++ next.entry ∷ [])) }
    ensures fewer { OnOk result (pending_weight pending.new.items
        < pending_weight (pending.old.items ++ next.entry ∷ [])) }
{
    match next {
        Expression::Value(node) => add_node(found, node),
        Expression::Bound(name) => add_node(found, &Node::Variable(name.again())),
        Expression::Not(inner) => put(pending, inner),
        Expression::One(_, inner) => put(pending, inner),
        Expression::Binary(_, left, right) => put_two(pending, left, right),
        Expression::Two(_, left, right) => put_two(pending, left, right),
    }
}

/// Adds the nodes of an expression. Left operands lie as deep as a text is long: what is still to
/// come stands on a stack.
#[tactic(auto, using(crate::proofs::TreeLaws::pending_push, crate::proofs::TreeLaws::weight_push))]
fn add_expression<'a>(
    alloc: Global,
    found: &mut Vec<Node<'a>>,
    expression: &Expression<'a>,
) -> Result<(), AllocError>
    ensures { OnOk result (found.new.items ≡ found.old.items
        ++ nodes_of_tree (tree_of expression.now)) }
{
    let mut pending = Vec::new(alloc);
    put(&mut pending, expression)?;
    while let Some(next) = pending.pop() {
        add_next(found, &mut pending, next)?;
    }
    Ok(())
}

#[cycle(add_group)]
pub(crate) fn add_group<'a>(
    alloc: Global,
    found: &mut Vec<Node<'a>>,
    elements: &[Element<'a>],
) -> Result<(), AllocError>
    ensures { OnOk result (found.new.items ≡ found.old.items
        ++ nodes_of_parts (group (parts_of elements.now))) }
{
    for element in elements {
        add_element(alloc, found, element)?;
    }
    Ok(())
}

#[cycle(add_group)]
#[tactic(auto, using(crate::proofs::GroupLaws::union_lists))]
fn add_element<'a>(
    alloc: Global,
    found: &mut Vec<Node<'a>>,
    element: &Element<'a>,
) -> Result<(), AllocError>
    ensures { OnOk result (found.new.items ≡ found.old.items
        ++ nodes_of_part (part_of element.now)) }
{
    match element {
        Element::Triples(triples) => add_triples(found, triples.as_slice()),
        Element::Union(groups) => {
            for group in groups {
                add_group(alloc, found, group.as_slice())?;
            }
            Ok(())
        }
        Element::Optional(group) => add_group(alloc, found, group.as_slice()),
        Element::Minus(group) => add_group(alloc, found, group.as_slice()),
        Element::Graph(node, group) => {
            add_node(found, node)?;
            add_group(alloc, found, group.as_slice())
        }
        Element::Filter(expression) => add_expression(alloc, found, expression),
    }
}

pub(crate) fn add_name<'a>(found: &mut Vec<Node<'a>>, name: &Name<'a>) -> Result<(), AllocError>
    ensures { OnOk result (found.new.items ≡ found.old.items ++ node.Name name.now ∷ []) }
{
    found.push(Node::Name(name_again(name)))?;
    Ok(())
}

pub(crate) fn add_target<'a>(
    found: &mut Vec<Node<'a>>,
    target: &Target<Name<'a>>,
) -> Result<(), AllocError>
    ensures { OnOk result (found.new.items ≡ found.old.items ++ nodes_of_target target.now) }
{
    match target {
        Target::Graph(name) => add_name(found, name),
        Target::Default | Target::Named | Target::All => Ok(()),
    }
}

pub(crate) fn add_place<'a>(found: &mut Vec<Node<'a>>, place: &Place<'a>) -> Result<(), AllocError>
    ensures { OnOk result (found.new.items ≡ found.old.items ++ nodes_of_place place.now) }
{
    match place {
        Place::Default => Ok(()),
        Place::Graph(name) => add_name(found, name),
    }
}

pub(crate) fn add_with<'a>(
    found: &mut Vec<Node<'a>>,
    graph: &Option<Name<'a>>,
) -> Result<(), AllocError>
    ensures { OnOk result (found.new.items ≡ found.old.items ++ nodes_of_with graph.now) }
{
    match graph {
        Some(name) => add_name(found, name),
        None => Ok(()),
    }
}
