//! Tables of texts with their tokens.
use crate::token_lists::told;
use lexer::{Piece, Stop, Token, tokens};
use std::alloc::Global;
use std::process::Abort;
use std::test::Fail;

fn check_table(rt: &impl Abort, alloc: Global, table: &[(&str, &str)]) -> Result<(), Fail> {
    for (text, want) in table {
        let found = told(alloc, text)?;
        assert!(rt; found.as_slice() == want.as_bytes(), "{text:?}");
    }
    Ok(())
}

const NONE: &str = "none";

const ANGLES: [(&str, &str); 21] = [
    ("<a:b>", " I:a:b"),
    ("<urn:#c>", " I:urn:#c"),
    ("<http://e/é>", " I:http://e/é"),
    ("<<a:b>", " < I:a:b"),
    ("<a:b><c:d>", " I:a:b I:c:d"),
    ("FILTER(?o<2)FILTER(?s>1)", NONE),
    ("FILTER(?o<=2)FILTER(?s>1)", NONE),
    ("?o<2&&?s>1", NONE),
    ("<b>", NONE),
    ("<>", NONE),
    ("<1:b>", NONE),
    ("<=b>", NONE),
    ("<#c>", NONE),
    ("<#c\n", " <"),
    ("?o<2||?s>1", " V:o < D:2 || V:s > D:1"),
    ("?o < 2", " V:o < D:2"),
    ("?o<2{>", " V:o < D:2 { >"),
    ("<a:b", " < N:a:b"),
    ("<a:b >", " < N:a:b >"),
    ("<=2", " <= D:2"),
    ("< =2", " < = D:2"),
];

#[test]
fn angles(rt: HostRuntime) -> Result<(), Fail> {
    check_table(&rt, rt.alloc(), &ANGLES)
}

const NAMES: [(&str, &str); 36] = [
    ("a:b:c", " N:a:b N::c"),
    ("?sex:p", " V:sex N::p"),
    ("_:x:y", " B:x N::y"),
    ("1:a", " D:1 N::a"),
    ("true1", " W:true D:1"),
    ("INSERTDATA", " W:INSERTDATA"),
    ("PREFIX:<a:>", " N:PREFIX: I:a:"),
    ("GRAPH:g", " N:GRAPH:g"),
    ("COPY:a", " N:COPY:a"),
    ("ex: :", " N:ex: N::"),
    ("ex:a.", " N:ex:a ."),
    ("ex:a.b", " N:ex:a . W:b"),
    ("ex:b-", " N:ex:b-"),
    ("ex:-b", " N:ex: - W:b"),
    ("ex:_1-", " N:ex:_1-"),
    ("e-x_1:0", " N:e-x_1:0"),
    ("a-b", " W:a - W:b"),
    ("a-b-c:d", " N:a-b-c:d"),
    ("a-b c:d-e", " W:a - W:b N:c:d-e"),
    ("a-bc.d-e:f", " W:a - W:bc . N:d-e:f"),
    ("a_b", NONE),
    ("_a", NONE),
    ("TRUE ISiri A a", " W:TRUE W:ISiri W:A W:a"),
    ("?x$x?_1$_", " V:x V:x V:_1 V:_"),
    ("?x-1", " V:x - D:1"),
    ("?x - y", " V:x - W:y"),
    ("?", NONE),
    ("$ x", NONE),
    ("?1", NONE),
    ("_:1_a", " B:1_a"),
    ("_:a.", " B:a ."),
    ("_:a-b", " B:a - W:b"),
    ("_:", NONE),
    ("_:-", NONE),
    ("_ :a", NONE),
    ("", ""),
];

#[test]
fn names(rt: HostRuntime) -> Result<(), Fail> {
    check_table(&rt, rt.alloc(), &NAMES)
}

const NUMBERS: [(&str, &str); 15] = [
    ("1.", " D:1 ."),
    ("1 .5", " D:1 . D:5"),
    ("1..5", " D:1 . . D:5"),
    ("1.a", " D:1 . W:a"),
    ("1.5", NONE),
    ("12.5", NONE),
    ("1a", NONE),
    ("12a", NONE),
    ("1_", NONE),
    ("1e5", NONE),
    ("01 1", " D:01 D:1"),
    ("-1", " - D:1"),
    ("+1", " + D:1"),
    ("1é", NONE),
    (
        "123456789012345678901234567890",
        " D:123456789012345678901234567890",
    ),
];

#[test]
fn numbers(rt: HostRuntime) -> Result<(), Fail> {
    check_table(&rt, rt.alloc(), &NUMBERS)
}

const STRINGS: [(&str, &str); 32] = [
    ("\"\"", " S:"),
    ("''", " S:"),
    ("\"\" ''", " S: S:"),
    ("\"\"\"", NONE),
    ("'''", NONE),
    ("\"\"\"\"", NONE),
    ("\"\"'a'", " S: S:a"),
    ("\"a\"\"\"", " S:a S:"),
    ("'a''b'", " S:a S:b"),
    ("'a'''b'", NONE),
    ("'a'''b''", " S:a S: W:b S:"),
    ("\"a'b\"", " S:a'b"),
    ("'a\"b'", " S:a\"b"),
    (r#""\t\b\n\r\f\"\'\\""#, " S:\t\u{8}\n\r\u{c}\"'\\"),
    (r#"'\\\'' x"#, " S:\\' W:x"),
    (r#""\\""#, " S:\\"),
    (r#""\u0041""#, NONE),
    (r#""\x""#, NONE),
    (r#""\""#, NONE),
    ("\"a\nb\"", NONE),
    ("\"a\rb\"", NONE),
    ("\"a", NONE),
    ("'a\"", NONE),
    ("\"é\u{feff}日\"", " S:é\u{feff}日"),
    ("\"é\\té\"", " S:é\té"),
    ("\"#a\0\"", " S:#a\0"),
    ("\"x\" @en", " S:x T:en"),
    ("\"x\"@EN-gb", " S:x T:en-gb"),
    ("\"x\" # c\n@en", " S:x T:en"),
    ("\"x\" ^^ ex:t", " S:x ^^ N:ex:t"),
    ("\"x\"@en^^ex:t", " S:x T:en ^^ N:ex:t"),
    ("\"x\"^^<a:b>", " S:x ^^ I:a:b"),
];

#[test]
fn strings(rt: HostRuntime) -> Result<(), Fail> {
    check_table(&rt, rt.alloc(), &STRINGS)
}

const TAGS: [(&str, &str); 9] = [
    ("@en-a1-B2", " T:en-a1-b2"),
    ("@en-", " T:en -"),
    ("@en--a", " T:en - - W:a"),
    ("@en-_", NONE),
    ("@en1", " T:en D:1"),
    ("@en:a", " T:en N::a"),
    ("@", NONE),
    ("@1", NONE),
    ("@-a", NONE),
];

#[test]
fn tags(rt: HostRuntime) -> Result<(), Fail> {
    check_table(&rt, rt.alloc(), &TAGS)
}

const SIGNS: [(&str, &str); 13] = [
    (
        "{}().;,^^=!=< ><= >=&&||!+-*",
        " { } ( ) . ; , ^^ = != < > <= >= && || ! + - *",
    ),
    ("!!=", " ! !="),
    ("==", " = ="),
    ("=>", " = >"),
    (">==", " >= ="),
    ("!= !", " != !"),
    ("! =", " ! ="),
    ("^^^^", " ^^ ^^"),
    ("^", NONE),
    ("^^^", NONE),
    ("&", NONE),
    ("|", NONE),
    ("[]", NONE),
];

#[test]
fn signs(rt: HostRuntime) -> Result<(), Fail> {
    check_table(&rt, rt.alloc(), &SIGNS)
}

const SPACES: [(&str, &str); 16] = [
    (" \t\r\n", ""),
    ("# nothing", ""),
    ("# c\r}", " }"),
    ("# c\n}", " }"),
    ("# c }\u{2028}}", ""),
    ("ex:b#c", " N:ex:b"),
    ("a#'\"\n<a:b>", " W:a I:a:b"),
    ("#\0", ""),
    ("<a:\0b>", NONE),
    ("\0", NONE),
    ("\u{feff}a", NONE),
    ("a\u{a0}b", NONE),
    ("é", NONE),
    ("a\u{b}b", NONE),
    ("# é\n a", " W:a"),
    ("a\tb\rc\nd e", " W:a W:b W:c W:d W:e"),
];

#[test]
fn white_space_and_comments(rt: HostRuntime) -> Result<(), Fail> {
    check_table(&rt, rt.alloc(), &SPACES)
}

/// Parts, and how many tokens 2000 of each have.
const PARTS: [(&str, usize); 7] = [
    ("a-", 4000),
    ("a-:", 2000),
    ("<a", 4000),
    ("-", 2000),
    ("ab-c d:e ", 8000),
    ("'\\\\' ", 2000),
    ("@a-a-", 4000),
];

/// How many tokens a text has of 2000 such parts.
fn count_of(alloc: Global, part: &str) -> Result<usize, Stop> {
    let mut text = String::new(alloc);
    for _ in 0..2000 {
        text.push_str(part)?;
    }
    Ok(tokens(alloc, text.as_str())?.len())
}

#[test]
fn long_texts(rt: HostRuntime) -> Result<(), Fail> {
    for (part, count) in &PARTS {
        assert_eq!(rt; count_of(rt.alloc(), part)?, *count, "{part}");
    }
    Ok(())
}

fn is_word(token: &Token<'_>, text: &[u8]) -> bool {
    match token {
        Token::Word(word) => word.as_bytes() == text,
        _ => false,
    }
}

#[test]
fn one_token(rt: HostRuntime) -> Result<(), Fail> {
    let found = tokens(rt.alloc(), " a ")?;
    assert!(rt; matches!(found.as_slice(), [word] if is_word(word, b"a")));
    assert!(rt; matches!(tokens(rt.alloc(), "?"), Err(Stop::NoReading)));
    Ok(())
}
