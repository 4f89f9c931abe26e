//! The trees of filter expressions.
ghost use Rattle.std.specs.Prelude.{◌≡◌};
ghost use Rattle.syntax_trees.specs.Operators.{rank, level_of};

use crate::tree::Node;
use lexer::Piece;

/// An operator between two operands (SPARQL 1.1 Query, 19.8, productions 111 to 117).
#[derive(Clone, Copy, Debug, Drop, PartialEq, Eq)]
pub enum Operator {
    Or,
    And,
    Equal,
    NotEqual,
    Less,
    Greater,
    LessEqual,
    GreaterEqual,
    Plus,
    Minus,
    Times,
}

/// How tightly operators bind.
#[derive(Clone, Copy, Debug, Drop, PartialEq, Eq)]
pub enum Level {
    Or,
    And,
    Relation,
    Sum,
    Product,
}

/// A function of one value (SPARQL 1.1 Query, 19.8, production 121).
#[derive(Clone, Copy, Debug, Drop, PartialEq, Eq)]
pub enum One {
    IsIri,
    IsBlank,
    IsLiteral,
    Str,
    Lang,
    Datatype,
    StrLen,
}

/// A function of two values (SPARQL 1.1 Query, 19.8, production 121).
#[derive(Clone, Copy, Debug, Drop, PartialEq, Eq)]
pub enum Two {
    SameTerm,
    StrStarts,
    StrEnds,
    Contains,
}

/// A filter expression (SPARQL 1.1 Query, 19.8, production 110). Operands of one level stand from
/// left to right.
pub enum Expression<'a> {
    Binary(Operator, Box<Expression<'a>>, Box<Expression<'a>>),
    Not(Box<Expression<'a>>),
    /// A name, a literal or a variable.
    Value(Node<'a>),
    /// Whether a variable is bound.
    Bound(Piece<'a>),
    One(One, Box<Expression<'a>>),
    Two(Two, Box<Expression<'a>>, Box<Expression<'a>>),
}

// A loop: the left operands of a text lie as deep as it is long.
impl Drop for Expression<'_> {
    fn drop(mut self) {
        loop {
            match self {
                Expression::Binary(_, left, _right) => self = Box::into_inner(left),
                Expression::Not(_inner) => return,
                Expression::Value(_node) => return,
                Expression::Bound(_name) => return,
                Expression::One(_, _inner) => return,
                Expression::Two(_, _left, _right) => return,
            }
        }
    }
}

impl Level {
    /// The higher, the tighter.
    pub fn rank(self) -> u8
        ensures { result ≡ rank self }
    {
        match self {
            Level::Or => 1,
            Level::And => 2,
            Level::Relation => 3,
            Level::Sum => 4,
            Level::Product => 5,
        }
    }
}

impl Operator {
    /// How tightly it binds.
    pub fn level(self) -> Level
        ensures { result ≡ level_of self }
    {
        match self {
            Operator::Or => Level::Or,
            Operator::And => Level::And,
            Operator::Equal
            | Operator::NotEqual
            | Operator::Less
            | Operator::Greater
            | Operator::LessEqual
            | Operator::GreaterEqual => Level::Relation,
            Operator::Plus | Operator::Minus => Level::Sum,
            Operator::Times => Level::Product,
        }
    }
}
