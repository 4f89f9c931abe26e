//! Groups as tables write them: parts in braces, triples in square brackets, and before other
//! parts a letter for the kind.
use groups::group_at;
use lexer::{Stop, Token, tokens};
use std::alloc::{AllocError, Global};
use syntax_trees::{Element, Expression, Literal, Name, Node, One, Operator, SameSubject, Two};

fn put(out: &mut Vec<u8>, before: &str, bytes: &[u8]) -> Result<(), AllocError> {
    out.extend_from_slice(before.as_bytes())?;
    out.extend_from_slice(bytes)
}

fn put_name(out: &mut Vec<u8>, name: &Name<'_>) -> Result<(), AllocError> {
    match name {
        Name::Iri(iri) => {
            put(out, "<", iri.again().as_bytes())?;
            put(out, ">", b"")
        }
        Name::Prefixed { prefix, local } => {
            put(out, "", prefix.again().as_bytes())?;
            put(out, ":", local.again().as_bytes())
        }
    }
}

fn put_literal(alloc: Global, out: &mut Vec<u8>, literal: &Literal<'_>) -> Result<(), AllocError> {
    match literal {
        Literal::Plain(text) => put(out, "'", text.again().value(alloc)?.as_bytes()),
        Literal::Tagged(text, tag) => {
            put(out, "'", text.again().value(alloc)?.as_bytes())?;
            put(out, "@", tag.again().lower(alloc)?.as_bytes())
        }
        Literal::Typed(text, datatype) => {
            put(out, "'", text.again().value(alloc)?.as_bytes())?;
            put(out, "^", b"")?;
            put_name(out, datatype)
        }
        Literal::Integer(digits) => put(out, "", digits.again().as_bytes()),
        Literal::Boolean(true) => put(out, "true", b""),
        Literal::Boolean(false) => put(out, "false", b""),
    }
}

fn put_node(alloc: Global, out: &mut Vec<u8>, node: &Node<'_>) -> Result<(), AllocError> {
    match node {
        Node::Name(name) => put_name(out, name),
        Node::Type => put(out, "a", b""),
        Node::Variable(name) => put(out, "?", name.again().as_bytes()),
        Node::Blank(label) => put(out, "_:", label.again().as_bytes()),
        Node::Literal(literal) => put_literal(alloc, out, literal),
    }
}

/// Each triple with a bar behind it.
fn put_same(alloc: Global, out: &mut Vec<u8>, same: &SameSubject<'_>) -> Result<(), AllocError> {
    for property in same.properties.as_slice() {
        for object in property.objects.as_slice() {
            put_node(alloc, out, &same.subject)?;
            put(out, " ", b"")?;
            put_node(alloc, out, &property.verb)?;
            put(out, " ", b"")?;
            put_node(alloc, out, object)?;
            put(out, "|", b"")?;
        }
    }
    Ok(())
}

fn operator_text(operator: Operator) -> &'static str {
    match operator {
        Operator::Or => "||",
        Operator::And => "&&",
        Operator::Equal => "=",
        Operator::NotEqual => "!=",
        Operator::Less => "<",
        Operator::Greater => ">",
        Operator::LessEqual => "<=",
        Operator::GreaterEqual => ">=",
        Operator::Plus => "+",
        Operator::Minus => "-",
        Operator::Times => "*",
    }
}

fn one_text(function: One) -> &'static str {
    match function {
        One::IsIri => "isIRI(",
        One::IsBlank => "isBlank(",
        One::IsLiteral => "isLiteral(",
        One::Str => "STR(",
        One::Lang => "LANG(",
        One::Datatype => "DATATYPE(",
        One::StrLen => "STRLEN(",
    }
}

fn two_text(function: Two) -> &'static str {
    match function {
        Two::SameTerm => "sameTerm(",
        Two::StrStarts => "STRSTARTS(",
        Two::StrEnds => "STRENDS(",
        Two::Contains => "CONTAINS(",
    }
}

/// Each operator with its operands in parentheses.
fn put_expression(
    alloc: Global,
    out: &mut Vec<u8>,
    expression: &Expression<'_>,
) -> Result<(), AllocError> {
    match expression {
        Expression::Binary(operator, left, right) => {
            put(out, "(", b"")?;
            put_expression(alloc, out, left)?;
            put(out, operator_text(*operator), b"")?;
            put_expression(alloc, out, right)?;
            put(out, ")", b"")
        }
        Expression::Not(inner) => {
            put(out, "!", b"")?;
            put_expression(alloc, out, inner)
        }
        Expression::Value(node) => put_node(alloc, out, node),
        Expression::Bound(name) => {
            put(out, "BOUND(", name.again().as_bytes())?;
            put(out, ")", b"")
        }
        Expression::One(function, argument) => {
            put(out, one_text(*function), b"")?;
            put_expression(alloc, out, argument)?;
            put(out, ")", b"")
        }
        Expression::Two(function, left, right) => {
            put(out, two_text(*function), b"")?;
            put_expression(alloc, out, left)?;
            put(out, ",", b"")?;
            put_expression(alloc, out, right)?;
            put(out, ")", b"")
        }
    }
}

#[cycle(told)]
fn put_group(alloc: Global, out: &mut Vec<u8>, group: &[Element<'_>]) -> Result<(), AllocError> {
    put(out, "{", b"")?;
    for element in group {
        put_element(alloc, out, element)?;
    }
    put(out, "}", b"")
}

#[cycle(told)]
fn put_element(alloc: Global, out: &mut Vec<u8>, element: &Element<'_>) -> Result<(), AllocError> {
    match element {
        Element::Triples(triples) => {
            put(out, "[", b"")?;
            for same in triples.as_slice() {
                put_same(alloc, out, same)?;
            }
            put(out, "]", b"")
        }
        Element::Union(groups) => {
            put(out, "U", b"")?;
            for group in groups {
                put_group(alloc, out, group.as_slice())?;
            }
            Ok(())
        }
        Element::Optional(group) => {
            put(out, "O", b"")?;
            put_group(alloc, out, group.as_slice())
        }
        Element::Minus(group) => {
            put(out, "M", b"")?;
            put_group(alloc, out, group.as_slice())
        }
        Element::Graph(name, group) => {
            put(out, "G", b"")?;
            put_node(alloc, out, name)?;
            put_group(alloc, out, group.as_slice())
        }
        Element::Filter(condition) => {
            put(out, "F", b"")?;
            put_expression(alloc, out, condition)
        }
    }
}

/// The group at the front of the tokens, with a `+` behind it for each token that follows.
fn put_read(
    alloc: Global,
    out: &mut Vec<u8>,
    depth: usize,
    tokens: &[Token<'_>],
) -> Result<(), Stop> {
    let (group, rest) = group_at(alloc, depth, tokens)?;
    put_group(alloc, out, group.as_slice())?;
    for _token in rest {
        put(out, "+", b"")?;
    }
    Ok(())
}

/// The group at the front of a text, or `none`.
pub fn told(alloc: Global, depth: usize, text: &str) -> Result<Vec<u8>, Stop> {
    let tokens = tokens(alloc, text)?;
    let mut out = Vec::new(alloc);
    match put_read(alloc, &mut out, depth, tokens.as_slice()) {
        Ok(()) => Ok(out),
        Err(Stop::NoReading) => {
            put(&mut out, "none", b"")?;
            Ok(out)
        }
        Err(Stop::Memory) => Err(Stop::Memory),
    }
}
