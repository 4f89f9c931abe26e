//! The trees of requests, but for groups and expressions.

use crate::group::Group;
use algebra::{Target, Transfer};
use lexer::{Digits, IriText, Label, LocalPart, Piece, Quoted, Tag};
use sets::Items;

/// An IRI, or a prefixed name (SPARQL 1.1 Query, 19.8, production 136).
#[derive(Drop)]
pub enum Name<'a> {
    Iri(IriText<'a>),
    Prefixed {
        prefix: Piece<'a>,
        local: LocalPart<'a>,
    },
}

/// A literal (SPARQL 1.1 Query, 19.8, productions 129, 130 and 134).
#[derive(Drop)]
pub enum Literal<'a> {
    /// A string alone.
    Plain(Quoted<'a>),
    /// A string with a language tag.
    Tagged(Quoted<'a>, Tag<'a>),
    /// A string with its datatype.
    Typed(Quoted<'a>, Name<'a>),
    Integer(Digits<'a>),
    Boolean(bool),
}

/// A place of a triple: a name, `a`, a variable, a blank node or a literal (SPARQL 1.1 Query, 19.8,
/// productions 78, 106, 108 and 109).
#[derive(Drop)]
pub enum Node<'a> {
    Name(Name<'a>),
    /// The verb `a`.
    Type,
    /// A variable, without its `?` or `$`.
    Variable(Piece<'a>),
    /// A blank node, by its label.
    Blank(Label<'a>),
    Literal(Literal<'a>),
}

/// A verb and its objects.
#[derive(Drop)]
pub struct Property<'a> {
    pub verb: Node<'a>,
    pub objects: Items<Node<'a>>,
}

/// A subject and its properties (SPARQL 1.1 Query, 19.8, production 75).
#[derive(Drop)]
pub struct SameSubject<'a> {
    pub subject: Node<'a>,
    pub properties: Items<Property<'a>>,
}

/// Triples, and the graph that they stand in, which is a name or a variable (SPARQL 1.1 Update,
/// 19.8, productions 50 to 52). No graph is the default graph.
#[derive(Drop)]
pub struct Block<'a> {
    pub graph: Option<Node<'a>>,
    pub triples: Items<SameSubject<'a>>,
}

/// What COPY, MOVE and ADD name: a graph, or the default graph (SPARQL 1.1 Update, 19.8, production
/// 45).
#[derive(Drop)]
pub enum Place<'a> {
    Default,
    Graph(Name<'a>),
}

/// An operation (SPARQL 1.1 Update, 19.8, production 30).
#[derive(Drop)]
pub enum Operation<'a> {
    Create {
        silent: bool,
        graph: Name<'a>,
    },
    Drop {
        silent: bool,
        target: Target<Name<'a>>,
    },
    Clear {
        silent: bool,
        target: Target<Name<'a>>,
    },
    Transfer {
        how: Transfer,
        silent: bool,
        from: Place<'a>,
        to: Place<'a>,
    },
    InsertData(Items<Block<'a>>),
    DeleteData(Items<Block<'a>>),
    DeleteWhere(Items<Block<'a>>),
    /// DELETE and INSERT with their templates, one of which may be missing and is then empty, the
    /// graph of WITH, and the group of WHERE.
    Modify {
        with: Option<Name<'a>>,
        delete: Items<Block<'a>>,
        insert: Items<Block<'a>>,
        pattern: Group<'a>,
    },
}

/// A part of a request: a declaration of a prefix, or an operation.
#[derive(Drop)]
pub enum Step<'a> {
    Declare { prefix: Piece<'a>, iri: IriText<'a> },
    Do(Operation<'a>),
}

/// A request: its declarations and operations in order, and the length of its text in bytes.
#[derive(Drop)]
pub struct Syntax<'a> {
    pub steps: Items<Step<'a>>,
    pub length: usize,
}

/// A triple, or a triple pattern.
#[derive(Drop)]
pub struct Triple<'a> {
    pub subject: Node<'a>,
    pub verb: Node<'a>,
    pub object: Node<'a>,
}
