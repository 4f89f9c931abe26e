//! Lists, sets and IRIs.
use datasets::Id;
use iris::{Iri, is_iri, text_of};
use sets::{Items, set_of};
use std::alloc::{AllocError, Global};

#[test]
fn items(rt: HostRuntime) -> Result<(), AllocError> {
    let mut list = Items::new(rt.alloc());
    assert!(rt; list.is_empty());
    for number in [3u8, 1, 3] {
        list.push(number)?;
    }
    let copy = list.copied(rt.alloc())?;
    list.clear();
    assert!(rt; list.is_empty() && copy.len() == 3);
    let again = Items::from_vec(copy.into_vec());
    assert!(rt; again.as_slice() == [3, 1, 3].as_slice());
    Ok(())
}

#[test]
fn sets_of_numbers(rt: HostRuntime) -> Result<(), AllocError> {
    let mut members = Vec::new(rt.alloc());
    for number in [5, 2, 9, 2, 5] {
        members.push(Id::Known(number))?;
    }
    let set = set_of(members);
    assert!(rt; matches!(set.as_slice(), [Id::Known(2), Id::Known(5), Id::Known(9)]));
    Ok(())
}

/// Texts, and whether each is an IRI.
const IRIS: [(&str, bool); 12] = [
    ("x:", true),
    ("http://e/a?b=c&d#e", true),
    ("a+b-c.1:%41", true),
    ("urn:é:日本", true),
    ("", false),
    ("a", false),
    (":a", false),
    ("1x:a", false),
    ("x_y:a", false),
    ("x:a b", false),
    ("x:<a>", false),
    ("x:\\u0041", false),
];

/// Whether a copy of the IRI of this text has it, if it is one.
fn has_text(alloc: Global, text: &str) -> Result<Option<bool>, AllocError> {
    let Some(iri) = Iri::check(alloc, text)? else {
        return Ok(None);
    };
    Ok(Some(iri.copied(alloc)?.as_str() == text))
}

#[test]
fn iris_alone(rt: HostRuntime) -> Result<(), AllocError> {
    for (text, is_one) in &IRIS {
        assert_eq!(rt; is_iri(text.as_bytes()), *is_one, "{text:?}");
        let found = has_text(rt.alloc(), text)?;
        assert!(rt; found == is_one.then_some(true), "{text:?}");
    }
    Ok(())
}

#[test]
fn utf8(rt: HostRuntime) {
    assert_eq!(rt; text_of("é日".as_bytes()), Some("é日"));
    assert_eq!(rt; text_of(b"\xc3"), None);
}
