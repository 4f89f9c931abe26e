//! Tokens as tables write them: a letter for the kind, a colon and the parts; signs as they are
//! written.
use lexer::{Sign, Stop, Token, tokens};
use std::alloc::{AllocError, Global};

fn sign_text(sign: Sign) -> &'static str {
    match sign {
        Sign::OpenBrace => "{",
        Sign::CloseBrace => "}",
        Sign::OpenParen => "(",
        Sign::CloseParen => ")",
        Sign::Dot => ".",
        Sign::Semicolon => ";",
        Sign::Comma => ",",
        Sign::Carets => "^^",
        Sign::Equal => "=",
        Sign::NotEqual => "!=",
        Sign::Less => "<",
        Sign::Greater => ">",
        Sign::LessEqual => "<=",
        Sign::GreaterEqual => ">=",
        Sign::Ampersands => "&&",
        Sign::Bars => "||",
        Sign::Bang => "!",
        Sign::Plus => "+",
        Sign::Minus => "-",
        Sign::Star => "*",
    }
}

fn put_token(alloc: Global, out: &mut Vec<u8>, token: &Token<'_>) -> Result<(), AllocError> {
    match token {
        Token::Iri(iri) => put(out, b"I:", iri.again().as_bytes()),
        Token::Name { prefix, local } => {
            put(out, b"N:", prefix.again().as_bytes())?;
            put(out, b":", local.again().as_bytes())
        }
        Token::Variable(name) => put(out, b"V:", name.again().as_bytes()),
        Token::Blank(label) => put(out, b"B:", label.again().as_bytes()),
        Token::Text(text) => put(out, b"S:", text.again().value(alloc)?.as_bytes()),
        Token::Tag(tag) => put(out, b"T:", tag.again().lower(alloc)?.as_bytes()),
        Token::Integer(digits) => put(out, b"D:", digits.again().as_bytes()),
        Token::Word(word) => put(out, b"W:", word.again().as_bytes()),
        Token::Sign(sign) => put(out, b"", sign_text(*sign).as_bytes()),
    }
}

fn put(out: &mut Vec<u8>, kind: &[u8], bytes: &[u8]) -> Result<(), AllocError> {
    out.extend_from_slice(kind)?;
    out.extend_from_slice(bytes)
}

/// The tokens of a text, each with a space before it; or `none`.
pub fn told(alloc: Global, text: &str) -> Result<Vec<u8>, Stop> {
    let mut out = Vec::new(alloc);
    match tokens(alloc, text) {
        Ok(tokens) => {
            for token in tokens.as_slice() {
                put(&mut out, b" ", b"")?;
                put_token(alloc, &mut out, token)?;
            }
            Ok(out)
        }
        Err(Stop::NoReading) => {
            put(&mut out, b"none", b"")?;
            Ok(out)
        }
        Err(Stop::Memory) => Err(Stop::Memory),
    }
}
