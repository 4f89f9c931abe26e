//! Tables of texts with their groups.
use crate::parsed_groups::told;
use lexer::Stop;
use std::alloc::{AllocError, Global};
use std::process::Abort;

fn check_table(rt: &impl Abort, alloc: Global, table: &[(&str, &str)]) -> Result<(), Stop> {
    for (text, want) in table {
        let found = told(alloc, 64, text)?;
        assert!(rt; found.as_slice() == want.as_bytes(), "{text:?}");
    }
    Ok(())
}

const NONE: &str = "none";

const TRIPLES: [(&str, &str); 20] = [
    ("{ }", "{}"),
    ("{ } } ;", "{}++"),
    ("", NONE),
    ("{", NONE),
    ("}", NONE),
    ("?s ?p ?o", NONE),
    ("{ ?s ?p ?o }", "{[?s ?p ?o|]}"),
    (
        "{ $s a 'x'@EN , ex:o ; ; <a:b> 1 . }",
        "{[?s a 'x@en|?s a ex:o|?s <a:b> 1|]}",
    ),
    ("{ ?s ?p ?o . ex:s ?p true }", "{[?s ?p ?o|ex:s ?p true|]}"),
    ("{ ?s ?p ?o ex:s ?p true }", NONE),
    ("{ ?s ?p ?o . . }", NONE),
    ("{ . }", NONE),
    ("{ ?s A ?o }", NONE),
    ("{ a ?p ?o }", NONE),
    ("{ 1 ?p ?o }", NONE),
    ("{ _:b ?p ?o }", NONE),
    ("{ ?s ?p _:b }", NONE),
    ("{ ?s ?p ?o , _:b }", NONE),
    ("{ ?s ?p ?o ; a _:b }", NONE),
    ("{ ?s ?p ?o . ?s ?p ?o . ?s ?p _:b . }", NONE),
];

#[test]
fn triples(rt: HostRuntime) -> Result<(), Stop> {
    check_table(&rt, rt.alloc(), &TRIPLES)
}

const PARTS: [(&str, &str); 36] = [
    ("{ {} }", "{U{}}"),
    ("{ {} . }", "{U{}}"),
    ("{ {} . . }", NONE),
    ("{ {} ; }", NONE),
    ("{ {} {} }", "{U{}U{}}"),
    ("{ {} . ?s ?p ?o }", "{U{}[?s ?p ?o|]}"),
    ("{ {} ?s ?p ?o }", "{U{}[?s ?p ?o|]}"),
    ("{ ?s ?p ?o {} }", "{[?s ?p ?o|]U{}}"),
    (
        "{ ?s ?p 'x' . {} . ?a ?b ?c . {} ?d ?e ?f }",
        "{[?s ?p 'x|]U{}[?a ?b ?c|]U{}[?d ?e ?f|]}",
    ),
    ("{ {} UNION {} union { ?s a ?o } }", "{U{}{}{[?s a ?o|]}}"),
    ("{ {} . UNION {} }", NONE),
    ("{ {} UNION }", NONE),
    ("{ UNION {} }", NONE),
    ("{ {} UNION OPTIONAL {} }", NONE),
    ("{ OPTIONAL { ?s ?p ?o } }", "{O{[?s ?p ?o|]}}"),
    ("{ optional {} Minus {} . OPTIONAL {} }", "{O{}M{}O{}}"),
    ("{ ?s ?p ?o OPTIONAL {} }", "{[?s ?p ?o|]O{}}"),
    ("{ OPTIONAL }", NONE),
    ("{ OPTIONAL {} UNION {} }", NONE),
    ("{ OPTIONAL ?s ?p ?o }", NONE),
    ("{ OPTIONAL { ?s ?p _:b } }", NONE),
    ("{ MINUS { {} UNION { MINUS {} } } }", "{M{U{}{M{}}}}"),
    ("{ MINUS }", NONE),
    ("{ GRAPH ?g { } }", "{G?g{}}"),
    (
        "{ graph <a:b> { ?s ?p ?o } . GRAPH :g {} }",
        "{G<a:b>{[?s ?p ?o|]}G:g{}}",
    ),
    ("{ GRAPH ?g { GRAPH ?h { } } }", "{G?g{G?h{}}}"),
    ("{ GRAPH _:b {} }", NONE),
    ("{ GRAPH a {} }", NONE),
    ("{ GRAPH {} }", NONE),
    ("{ GRAPH ?g }", NONE),
    ("{ GRAPH ?g ?s ?p ?o }", NONE),
    ("{ {} OPTIONALS {} }", NONE),
    ("{ ?s ?p ?o } }", "{[?s ?p ?o|]}+"),
    ("{ {", NONE),
    ("{ { }", NONE),
    ("{ SELECT {} }", NONE),
];

#[test]
fn parts(rt: HostRuntime) -> Result<(), Stop> {
    check_table(&rt, rt.alloc(), &PARTS)
}

const FILTERS: [(&str, &str); 21] = [
    ("{ FILTER (?x) }", "{F?x}"),
    ("{ filter(?x = 1) . }", "{F(?x=1)}"),
    ("{ FILTER ?x }", NONE),
    ("{ FILTER BOUND(?x) . ?s ?p ?o }", "{FBOUND(x)[?s ?p ?o|]}"),
    (
        "{ FILTER bound(?x) FILTER isiri(?x) }",
        "{FBOUND(x)FisIRI(?x)}",
    ),
    ("{ FILTER STR(?x) = 1 }", NONE),
    ("{ FILTER (STR(?x) = 'a') }", "{F(STR(?x)='a)}"),
    (
        "{ FILTER sameTerm(?x, ?y) ?s ?p ?o }",
        "{FsameTerm(?x,?y)[?s ?p ?o|]}",
    ),
    ("{ FILTER <a:b>(?x) }", NONE),
    ("{ FILTER !BOUND(?x) }", NONE),
    ("{ FILTER (!BOUND(?x)) }", "{F!BOUND(x)}"),
    ("{ FILTER () }", NONE),
    ("{ FILTER (?x }", NONE),
    ("{ FILTER }", NONE),
    ("{ FILTER {} }", NONE),
    ("{ FILTER (?x) UNION {} }", NONE),
    ("{ FILTER (_:b) }", NONE),
    (
        "{ FILTER (?x - 1 - 2 * 3 < 4 && ?y || ?z) }",
        "{F(((((?x-1)-(2*3))<4)&&?y)||?z)}",
    ),
    ("{ FILTER (?x = ?y = ?z) }", NONE),
    (
        "{ ?s ?p ?o FILTER (?o < 2) FILTER (?s > 1) }",
        "{[?s ?p ?o|]F(?o<2)F(?s>1)}",
    ),
    ("{ OPTIONAL { FILTER (?x) } FILTER (?y) }", "{O{F?x}F?y}"),
];

#[test]
fn filters(rt: HostRuntime) -> Result<(), Stop> {
    check_table(&rt, rt.alloc(), &FILTERS)
}

const NESTED: [(usize, &str, &str); 14] = [
    (0, "{ }", NONE),
    (1, "{ } {", "{}+"),
    (1, "{ { } }", NONE),
    (2, "{ { } { } }", "{U{}U{}}"),
    (2, "{ { } UNION { { } } }", NONE),
    (3, "{ { } UNION { { } } }", "{U{}{U{}}}"),
    (1, "{ FILTER (?x) }", NONE),
    (2, "{ FILTER (?x) }", "{F?x}"),
    (2, "{ FILTER (?x + (?y)) }", NONE),
    (3, "{ FILTER (?x + (?y)) }", "{F(?x+?y)}"),
    (1, "{ FILTER BOUND(?x) }", NONE),
    (2, "{ FILTER BOUND(?x) }", "{FBOUND(x)}"),
    (2, "{ MINUS { FILTER BOUND(?x) } }", NONE),
    (3, "{ MINUS { FILTER BOUND(?x) } }", "{M{FBOUND(x)}}"),
];

#[test]
fn nested(rt: HostRuntime) -> Result<(), Stop> {
    for (depth, text, want) in &NESTED {
        let found = told(rt.alloc(), *depth, text)?;
        assert!(rt; found.as_slice() == want.as_bytes(), "{depth} {text:?}");
    }
    Ok(())
}

/// As many opening signs, and as many closing ones.
fn signs(
    alloc: Global,
    count: usize,
    open: char,
    inner: &str,
    close: char,
) -> Result<String, AllocError> {
    let mut text = String::new(alloc);
    for _ in 0..count {
        text.push(open)?;
    }
    text.push_str(inner)?;
    for _ in 0..count {
        text.push(close)?;
    }
    Ok(text)
}

fn is_read(alloc: Global, depth: usize, text: &str) -> Result<bool, Stop> {
    Ok(told(alloc, depth, text)?.as_slice() != NONE.as_bytes())
}

/// Whether so many groups, one in another, are read.
fn reads_braces(alloc: Global, count: usize) -> Result<bool, Stop> {
    let braces = signs(alloc, count, '{', "", '}')?;
    is_read(alloc, 64, braces.as_str())
}

/// Whether a filter in so many parentheses is read.
fn reads_parentheses(alloc: Global, count: usize) -> Result<bool, Stop> {
    let condition = signs(alloc, count, '(', "?x", ')')?;
    let filter = format!(in alloc; "{{ FILTER {condition} }}")?;
    is_read(alloc, 65, filter.as_str())
}

/// How deep a text is, and whether it is read.
const DEPTHS: [(usize, bool); 4] = [(1, true), (64, true), (65, false), (500, false)];

#[test]
fn deepest(rt: HostRuntime) -> Result<(), Stop> {
    for (count, want) in &DEPTHS {
        let is_read = reads_braces(rt.alloc(), *count)?;
        assert!(rt; is_read == *want, "{count} braces");
        let is_read = reads_parentheses(rt.alloc(), *count)?;
        assert!(rt; is_read == *want, "{count} parentheses");
    }
    Ok(())
}
