//! Nodes: subjects, verbs, objects and graph names.
ghost use Rattle.std.specs.Prelude.{◌≡◌};
ghost use Rattle.productions.specs.Steps.{Gives};
ghost use Rattle.triples.specs.Reads.{is_a};
ghost use Rattle.triples.specs.Reading.{named_at, node_at, graph_name_at, verb_at, value_at, object_at, begins_node, begins_verb};

use lexer::{Piece, Stop, Token};
use productions::{literal_at, name_at};
use syntax_trees::Node;

fn named_at<'t, 'a>(tokens: &'t [Token<'a>]) -> Result<(Node<'a>, &'t [Token<'a>]), Stop>
    ensures { Gives (λ x. (x.0, x.1.now)) result (named_at tokens.now) }
{
    let (name, rest) = name_at(tokens)?;
    Ok((Node::Name(name), rest))
}

/// `variable | Iri | blank`
pub fn node_at<'t, 'a>(tokens: &'t [Token<'a>]) -> Result<(Node<'a>, &'t [Token<'a>]), Stop>
    ensures { Gives (λ x. (x.0, x.1.now)) result (node_at tokens.now) }
{
    let [first, rest @ ..] = tokens else {
        return Err(Stop::NoReading);
    };
    match first {
        Token::Variable(variable) => Ok((Node::Variable(variable.again()), rest)),
        Token::Blank(label) => Ok((Node::Blank(label.again()), rest)),
        _ => named_at(tokens),
    }
}

/// The name of a graph, or the variable for it, at the front of the tokens (SPARQL 1.1 Query, 19.8,
/// production 107), and what follows it. `NoReading` where they begin with anything else.
pub fn graph_name_at<'t, 'a>(tokens: &'t [Token<'a>]) -> Result<(Node<'a>, &'t [Token<'a>]), Stop>
    ensures { Gives (λ x. (x.0, x.1.now)) result (graph_name_at tokens.now) }
{
    let [first, rest @ ..] = tokens else {
        return Err(Stop::NoReading);
    };
    match first {
        Token::Variable(name) => Ok((Node::Variable(name.again()), rest)),
        _ => named_at(tokens),
    }
}

fn is_a(word: &Piece<'_>) -> bool
    ensures { result ≡ is_a word.now }
{
    match word.as_bytes() {
        [b] => *b == b'a',
        _ => false,
    }
}

/// `variable | Iri | 'a'`
pub fn verb_at<'t, 'a>(tokens: &'t [Token<'a>]) -> Result<(Node<'a>, &'t [Token<'a>]), Stop>
    ensures { Gives (λ x. (x.0, x.1.now)) result (verb_at tokens.now) }
{
    let [first, rest @ ..] = tokens else {
        return Err(Stop::NoReading);
    };
    match first {
        Token::Word(word) if is_a(word) => Ok((Node::Type, rest)),
        Token::Word(_) => Err(Stop::NoReading),
        _ => graph_name_at(tokens),
    }
}

#[tactic(auto, unfolding(crate::specs::Reading::value_at))]
fn value_at<'t, 'a>(tokens: &'t [Token<'a>]) -> Result<(Node<'a>, &'t [Token<'a>]), Stop>
    ensures { Gives (λ x. (x.0, x.1.now)) result (value_at tokens.now) }
{
    let (literal, rest) = literal_at(tokens)?;
    Ok((Node::Literal(literal), rest))
}

/// `variable | Iri | blank | Literal`
pub fn object_at<'t, 'a>(tokens: &'t [Token<'a>]) -> Result<(Node<'a>, &'t [Token<'a>]), Stop>
    ensures { Gives (λ x. (x.0, x.1.now)) result (object_at tokens.now) }
{
    let [first, ..] = tokens else {
        return Err(Stop::NoReading);
    };
    match first {
        Token::Text(_) | Token::Integer(_) | Token::Word(_) => value_at(tokens),
        _ => node_at(tokens),
    }
}

/// Whether a subject stands at the front of the tokens, and so triples do (SPARQL 1.1 Query, 19.8,
/// production 75).
pub fn begins_node(tokens: &[Token<'_>]) -> bool
    ensures { result ≡ begins_node tokens.now }
{
    match tokens {
        [first, ..] => matches!(
            first,
            Token::Variable(_) | Token::Iri(_) | Token::Name { .. } | Token::Blank(_)
        ),
        [] => false,
    }
}

pub fn begins_verb(tokens: &[Token<'_>]) -> bool
    ensures { result ≡ begins_verb tokens.now }
{
    let [first, ..] = tokens else {
        return false;
    };
    match first {
        Token::Variable(_) | Token::Iri(_) | Token::Name { .. } => true,
        Token::Word(word) => is_a(word),
        _ => false,
    }
}
