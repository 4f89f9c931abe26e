//! Tokens, as slices of the text.

use crate::pieces::{Digits, IriText, Label, LocalPart, Piece, Quoted, Tag};

/// The signs of requests (SPARQL 1.1 Query, 19.8, in its productions).
#[derive(Clone, Copy, Debug, PartialEq, Eq)]
pub enum Sign {
    OpenBrace,
    CloseBrace,
    OpenParen,
    CloseParen,
    Dot,
    Semicolon,
    Comma,
    Carets,
    Equal,
    NotEqual,
    Less,
    Greater,
    LessEqual,
    GreaterEqual,
    Ampersands,
    Bars,
    Bang,
    Plus,
    Minus,
    Star,
}

/// A token (SPARQL 1.1 Query, 19.8, the terminals).
#[derive(Drop)]
pub enum Token<'a> {
    /// An IRI, without its angle brackets.
    Iri(IriText<'a>),
    /// A prefixed name, without its colon. With no local part it is also a namespace.
    Name {
        prefix: Piece<'a>,
        local: LocalPart<'a>,
    },
    /// A variable, without its `?` or `$`.
    Variable(Piece<'a>),
    /// A blank node label, without its `_:`.
    Blank(Label<'a>),
    /// A string, without its quotes.
    Text(Quoted<'a>),
    /// A language tag, without its `@`.
    Tag(Tag<'a>),
    /// Digits.
    Integer(Digits<'a>),
    /// A run of letters that is no prefix of a prefixed name.
    Word(Piece<'a>),
    Sign(Sign),
}
