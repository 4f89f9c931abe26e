//! Objects of statements: strings with their escapes, tags, datatypes, labels and IRIs.
use crate::fixtures::{fault_of, spells};
use nquads::{BaseFault, read_bytes};
use std::alloc::{AllocError, Global};

/// Objects as they are written, and their canonical texts.
const OBJECTS: [(&str, &str); 24] = [
    (r#""""#, r#""""#),
    (r#""a b""#, r#""a b""#),
    (r#""\t\b\n\r\f\"\'\\""#, "\"\t\u{8}\\n\\r\u{c}\\\"'\\\\\""),
    (r#""\u0041\U00000042c""#, r#""ABc""#),
    (
        r#""\u00e9\u65E5\U0001f600\uD7FF\uE000\U0010FFFF""#,
        "\"é日\u{1f600}\u{d7ff}\u{e000}\u{10ffff}\"",
    ),
    (r#""\u0000\u007f\u0080""#, "\"\0\u{7f}\u{80}\""),
    ("\"\0\t\u{85}\u{2028}é\"", "\"\0\t\u{85}\u{2028}é\""),
    (r#""\u0022\u005C\u000A\u000D""#, r#""\"\\\n\r""#),
    (r#""x"@EN"#, r#""x"@en"#),
    (r#""x"@en-A1-B2"#, r#""x"@en-a1-b2"#),
    (r#""x"@a-1"#, r#""x"@a-1"#),
    (
        r#""x"^^<http://www.w3.org/2001/XMLSchema#string>"#,
        r#""x""#,
    ),
    (r#""x"^^<x:d>"#, r#""x"^^<x:d>"#),
    (r#""x"^^<\u0078:d>"#, r#""x"^^<x:d>"#),
    (
        r#""01"^^<http://www.w3.org/2001/XMLSchema#integer>"#,
        r#""01"^^<http://www.w3.org/2001/XMLSchema#integer>"#,
    ),
    (r#""<a> _:b .""#, r#""<a> _:b .""#),
    ("_:a", "_:a"),
    ("_:_9A", "_:_9A"),
    ("_:0", "_:0"),
    (r"<\u0068ttp://e/a>", "<http://e/a>"),
    (r"<x:\u00e9\U0001F600>", "<x:é\u{1f600}>"),
    ("<a:>", "<a:>"),
    (r"<\U00000061\u003A>", "<a:>"),
    ("<x:é>", "<x:é>"),
];

/// Texts that are no object.
const NO_OBJECTS: [&str; 46] = [
    r#""a"#,
    r#"a""#,
    r#""a"b""#,
    r#""\""#,
    r#""\x""#,
    r#""\u""#,
    r#""\u004""#,
    r#""\u004g""#,
    r#""\u 041""#,
    r#""\U0000004""#,
    r#""\U0000004G""#,
    r#""\uD800""#,
    r#""\uDFFF""#,
    r#""\U0000D800""#,
    r#""\U00110000""#,
    r#""\UFFFFFFFF""#,
    r#""x" @en"#,
    r#""x"@ en"#,
    r#""x"@"#,
    r#""x"@1"#,
    r#""x"@e1"#,
    r#""x"@en-"#,
    r#""x"@-en"#,
    r#""x"@en--a"#,
    r#""x"@en_a"#,
    r#""x"^<x:d>"#,
    r#""x"^^"#,
    r#""x"^^ <x:d>"#,
    r#""x" ^^<x:d>"#,
    r#""x"^^<d>"#,
    r#""x"^^_:d"#,
    r#""x"^^<http://www.w3.org/1999/02/22-rdf-syntax-ns#langString>"#,
    r#""x"@en^^<http://www.w3.org/1999/02/22-rdf-syntax-ns#langString>"#,
    "'x'",
    "_:",
    "_:a-b",
    "_:a.b",
    "_: a",
    "_:é",
    r"<x:\t>",
    r"<x:\u0020>",
    r"<x:\u003e>",
    r"<x:\u005C>",
    r"<\u0031x:a>",
    "<x:a b>",
    "<x:\"a\">",
];

/// A statement with this object.
fn stated(alloc: Global, object: &str) -> Result<String, AllocError> {
    format!(in alloc; "<x:a> <x:p> {object} .\n")
}

/// Whether an object as it is written has this canonical text.
fn is_written(alloc: Global, object: &str, canonical: &str) -> Result<bool, BaseFault> {
    let (line, wanted) = (stated(alloc, object)?, stated(alloc, canonical)?);
    spells(alloc, line.as_bytes(), wanted.as_bytes())
}

#[test]
fn objects(rt: HostRuntime) -> Result<(), BaseFault> {
    for (object, canonical) in &OBJECTS {
        assert!(rt; is_written(rt.alloc(), object, canonical)?, "{object:?}");
        assert!(rt; is_written(rt.alloc(), canonical, canonical)?, "{object:?}");
    }
    Ok(())
}

/// What is wrong with a statement with this object, if anything is.
fn fault_with(alloc: Global, object: &str) -> Result<Option<BaseFault>, BaseFault> {
    let line = stated(alloc, object)?;
    fault_of(read_bytes(alloc, line.as_bytes()))
}

#[test]
fn no_objects(rt: HostRuntime) -> Result<(), BaseFault> {
    for object in &NO_OBJECTS {
        let fault = fault_with(rt.alloc(), object)?;
        assert!(rt; matches!(fault, Some(BaseFault::BadLine(1))), "{object:?}");
    }
    Ok(())
}
