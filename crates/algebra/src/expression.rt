//! Filter expressions.

/// A function of one value (SPARQL 1.1 Query, 17.3 and 17.4).
#[derive(Clone, Copy, Debug, Drop, PartialEq, Eq)]
pub enum OneOperator {
    Not,
    IsIri,
    IsBlank,
    IsLiteral,
    Str,
    Lang,
    Datatype,
    StrLen,
}

/// A function of two values (SPARQL 1.1 Query, 17.3 and 17.4).
#[derive(Clone, Copy, Debug, Drop, PartialEq, Eq)]
pub enum TwoOperator {
    Or,
    And,
    Equal,
    NotEqual,
    Less,
    LessEqual,
    Greater,
    GreaterEqual,
    Plus,
    Minus,
    Times,
    SameTerm,
    StrStarts,
    StrEnds,
    Contains,
}

/// A filter expression (SPARQL 1.1 Query, section 17). Variables have the numbers that they have in
/// patterns. It is no deeper than the parentheses of its text, however long that is.
#[derive(Drop)]
pub enum Expression<T> {
    Constant(T),
    Variable(u32),
    /// Whether a variable is bound.
    Bound(u32),
    One(OneOperator, Box<Expression<T>>),
    Two(TwoOperator, Box<Expression<T>>, Box<Expression<T>>),
    /// Operators with their right operands, from left to right.
    Chain(Box<Expression<T>>, Vec<(TwoOperator, Expression<T>)>),
}
