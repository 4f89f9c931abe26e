//! What operations are refused for.
ghost use Rattle.std.specs.Prelude.{◌≡◌, [], OnOk};
ghost use Rattle.std.specs.List.{list_any};
ghost use Rattle.meaning.specs.declared.reply.Refusal.TheVariants as refusal;
ghost use Rattle.names.specs.Numbers.{labels_of, is_label_in, with_labels};
ghost use Rattle.faults.specs.Faults.{is_lang_literal, is_lang_node, is_undeclared, is_undeclared_literal, is_undeclared_node, is_variable, is_blank, is_refused, inserted_labels};
ghost use Rattle.faults.specs.Kinds.{AreKindsAt};

use crate::kinds::Kinds;
use names::{Labels, Prefixes};
use nodes::OperationNodes;
use std::alloc::AllocError;
use syntax_trees::{Literal, Node, Operation};

fn is_lang_literal<'a>(prefixes: &Prefixes<'a>, literal: &Literal<'a>) -> bool
    ensures { result ≡ is_lang_literal prefixes.now literal.now }
{
    match literal {
        Literal::Typed(_, datatype) => prefixes.is_lang_string(datatype),
        Literal::Plain(_) | Literal::Tagged(_, _) | Literal::Integer(_) | Literal::Boolean(_) => {
            false
        }
    }
}

fn is_lang_node<'a>(prefixes: &Prefixes<'a>, node: &Node<'a>) -> bool
    ensures { result ≡ is_lang_node prefixes.now node.now }
{
    match node {
        Node::Literal(literal) => is_lang_literal(prefixes, literal),
        Node::Name(_) | Node::Type | Node::Variable(_) | Node::Blank(_) => false,
    }
}

fn is_undeclared_literal<'a>(prefixes: &Prefixes<'a>, literal: &Literal<'a>) -> bool
    ensures { result ≡ is_undeclared_literal prefixes.now literal.now }
{
    match literal {
        Literal::Typed(_, datatype) => prefixes.is_undeclared(datatype),
        Literal::Plain(_) | Literal::Tagged(_, _) | Literal::Integer(_) | Literal::Boolean(_) => {
            false
        }
    }
}

fn is_undeclared_node<'a>(prefixes: &Prefixes<'a>, node: &Node<'a>) -> bool
    ensures { result ≡ is_undeclared_node prefixes.now node.now }
{
    match node {
        Node::Name(name) => prefixes.is_undeclared(name),
        Node::Literal(literal) => is_undeclared_literal(prefixes, literal),
        Node::Type | Node::Variable(_) | Node::Blank(_) => false,
    }
}

fn any_lang<'a>(prefixes: &Prefixes<'a>, nodes: &[Node<'a>]) -> bool
    ensures { result ≡ list_any (is_lang_node prefixes.now) nodes.now }
{
    for node in nodes {
        if is_lang_node(prefixes, node) {
            return true;
        }
    }
    false
}

fn any_undeclared<'a>(prefixes: &Prefixes<'a>, nodes: &[Node<'a>]) -> bool
    ensures { result ≡ list_any (is_undeclared_node prefixes.now) nodes.now }
{
    for node in nodes {
        if is_undeclared_node(prefixes, node) {
            return true;
        }
    }
    false
}

fn is_variable(node: &Node<'_>) -> bool
    ensures { result ≡ is_variable node.now }
{
    matches!(node, Node::Variable(_))
}

fn is_blank(node: &Node<'_>) -> bool
    ensures { result ≡ is_blank node.now }
{
    matches!(node, Node::Blank(_))
}

fn any_variable(nodes: &[Node<'_>]) -> bool
    ensures { result ≡ list_any is_variable nodes.now }
{
    nodes.iter().any(|node| is_variable(node))
}

fn any_blank(nodes: &[Node<'_>]) -> bool
    ensures { result ≡ list_any is_blank nodes.now }
{
    nodes.iter().any(|node| is_blank(node))
}

/// Whether data has a variable.
fn has_variable_in_data(nodes: &OperationNodes<'_, '_>) -> bool
    ensures { (result ≡ is_refused refusal.VariableInData [] nodes.now) }
{
    match nodes.operation() {
        Operation::InsertData(_) | Operation::DeleteData(_) => any_variable(nodes.all()),
        _ => false,
    }
}

/// Whether one of the labels among nodes has a number.
fn any_known<'a>(known: &Labels<'a>, nodes: &[Node<'a>]) -> bool
    ensures { result ≡ list_any (is_label_in known.now) (labels_of nodes.now) }
{
    for node in nodes {
        if let Node::Blank(label) = node {
            if known.has(label) {
                return true;
            }
        }
    }
    false
}

/// Whether an INSERT DATA has a label of those that were seen.
fn has_reused_label<'a>(seen: &Labels<'a>, nodes: &OperationNodes<'_, 'a>) -> bool
    ensures { result ≡ list_any (is_label_in seen.now) (inserted_labels nodes.now) }
{
    match nodes.operation() {
        Operation::InsertData(_) => any_known(seen, nodes.all()),
        _ => false,
    }
}

/// Adds the labels of an INSERT DATA to those that were seen.
pub(crate) fn see_labels<'a>(
    seen: &mut Labels<'a>,
    nodes: &OperationNodes<'_, 'a>,
) -> Result<(), AllocError>
    ensures { OnOk result (seen.new ≡ with_labels (inserted_labels nodes.now) seen.old) }
{
    match nodes.operation() {
        Operation::InsertData(_) => seen.add_nodes(nodes.all()),
        _ => Ok(()),
    }
}

/// What an operation is refused for, after these declarations and labels.
pub(crate) fn kinds_of<'a>(
    prefixes: &Prefixes<'a>,
    seen: &Labels<'a>,
    nodes: &OperationNodes<'_, 'a>,
) -> Kinds
    ensures { AreKindsAt prefixes.now seen.now nodes.now result }
{
    Kinds {
        syntax: any_lang(prefixes, nodes.all()),
        prefix: any_undeclared(prefixes, nodes.all()),
        variable_in_data: has_variable_in_data(nodes),
        blank_in_delete: any_blank(nodes.of_delete()),
        label_reused: has_reused_label(seen, nodes),
        limit: false,
    }
}
