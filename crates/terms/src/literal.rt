//! Literals and the labels of blank nodes.
ghost use Rattle.std.specs.Prelude.{◌≡◌, IfOk, MatchOption, true, false, nat_eq};
ghost use Rattle.std.specs.Option.{option_copied};
ghost use Rattle.std.specs.Cmp.Lexicographic.{pointwise};
ghost use Rattle.iris.specs.Iri.{IsIri};
ghost use Rattle.iris.specs.Forms.{is_label};
ghost use Rattle.terms.specs.Literal.{IsLiteral};
ghost use Rattle.terms.specs.Vocabulary.{lang_string};
ghost use Rattle.terms.specs.Parts.{tag_bytes, parts_value, is_tagged_alike};

use crate::forms::{is_label, is_tag};
use crate::vocabulary::RDF_LANG_STRING;
use iris::Iri;
use std::alloc::{AllocError, Global};
use std::marker::Model;
use std::sync::Arc;

/// The three parts of a literal. Contracts see them as a literal's.
#[derive(Drop)]
struct Parts {
    lexical: String,
    datatype: Iri,
    tag: Option<String>,
}

impl Model for Parts {
    ghost use Rattle.terms.specs.Literal.{LiteralValue, IsLiteral};

    ghost Value = { LiteralValue };

    ghost use Rattle.terms.specs.Parts.{literal_value};

    ghost view = { literal_value };

    ghost invariant = { λ l. IsLiteral (literal_value l) };
}

/// A literal (RDF 1.1 Concepts, 3.3). Contracts see its three parts. Copies of it share them.
#[derive(Drop)]
pub struct Literal {
    parts: Arc<Parts, Global>,
}

impl Model for Literal {
    ghost use Rattle.terms.specs.Literal.{LiteralValue, IsLiteral};
    ghost use Rattle.std.specs.Arc.{arc_value};

    ghost Value = { LiteralValue };

    ghost view = { λ l. arc_value l.parts };

    ghost invariant = { λ l. IsLiteral (arc_value l.parts) };
}

/// A blank node's label (RDF 1.1 Concepts, 3.4). Contracts see its bytes.
#[derive(Drop)]
pub struct Blank {
    label: String,
}

impl Model for Blank {
    ghost use Rattle.std.specs.Prelude.{List, ℕ, string_bytes, ◌≡◌, true};
    ghost use Rattle.iris.specs.Forms.{is_label};

    ghost Value = { List ℕ };

    ghost view = { λ b. string_bytes b.label };

    ghost invariant = { λ b. is_label (string_bytes b.label) ≡ true };
}

fn is_lang_string(datatype: &Iri) -> bool
    ensures test { result ≡ pointwise nat_eq datatype.now lang_string }
    ensures iri { IsIri datatype.now }
{
    datatype.as_str() == RDF_LANG_STRING
}

/// Whether this tag stands with this datatype: a language tag in lower case with rdf:langString,
/// and none with any other.
fn is_tagged_alike(datatype: &Iri, tag: &Option<String>) -> bool
    ensures test { result ≡ is_tagged_alike datatype.now (tag_bytes tag.now) }
    ensures iri { IsIri datatype.now }
{
    let is_lang_string = is_lang_string(datatype);
    match tag {
        None => !is_lang_string,
        Some(tag) => is_lang_string && is_tag(tag.as_bytes()),
    }
}

impl Literal {
    /// The literal of these parts (RDF 1.1 Concepts, 3.3), `None` where they are none: the tag
    /// isn't a language tag in lower case, or it stands with another datatype than rdf:langString,
    /// or it is missing with that one. An `Err` comes only where memory runs out.
    #[tactic(auto, using(crate::proofs::FormLaws::literals))]
    pub fn new(
        alloc: Global,
        lexical: String,
        datatype: Iri,
        tag: Option<String>,
    ) -> Result<Option<Literal>, AllocError>
        ensures { IfOk result (λ found. MatchOption found
            (IsLiteral (parts_value lexical datatype tag) → ⊥)
            (λ l. (l ≡ parts_value lexical datatype tag) × IsLiteral l)) }
    {
        if !is_tagged_alike(&datatype, &tag) {
            return Ok(None);
        }
        let parts = Parts {
            lexical,
            datatype,
            tag,
        };
        Ok(Some(Literal {
            parts: Arc::new(alloc, parts)?,
        }))
    }

    /// The same literal again, in the same memory. An `Err` comes only where more copies would be
    /// held at once than can be counted.
    pub fn copied(&self, _alloc: Global) -> Result<Literal, AllocError>
        ensures { IfOk result (λ copy. copy ≡ self.now) }
    {
        Ok(Literal {
            parts: Arc::try_clone(&self.parts)?,
        })
    }

    /// The lexical form.
    pub fn lexical(&self) -> &str
        ensures text { result.now ≡ self.now.lexical }
        ensures form { IsLiteral self.now }
    {
        self.parts.lexical.as_str()
    }

    /// The datatype's IRI.
    pub fn datatype(&self) -> &Iri
        ensures { result.now ≡ self.now.datatype }
    {
        &self.parts.datatype
    }

    /// The language tag, in lower case, if it has one.
    pub fn tag(&self) -> Option<&str>
        ensures { option_copied result ≡ self.now.tag }
    {
        match &self.parts.tag {
            None => None,
            Some(tag) => Some(tag.as_str()),
        }
    }
}

impl Blank {
    /// The label of a text without `_:`, if it is one: one or more ASCII letters, digits and `_`.
    /// An `Err` comes only where memory runs out.
    pub fn check(alloc: Global, text: &str) -> Result<Option<Blank>, AllocError>
        ensures { IfOk result (λ found. MatchOption found (is_label text.now ≡ false)
            (λ blank. (blank ≡ text.now) × (is_label text.now ≡ true))) }
    {
        if !is_label(text.as_bytes()) {
            return Ok(None);
        }
        let label = String::from_str(alloc, text)?;
        Ok(Some(Blank { label }))
    }

    /// The label, without `_:`.
    pub fn as_str(&self) -> &str
        ensures text { result.now ≡ self.now }
        ensures form { is_label self.now ≡ true }
    {
        self.label.as_str()
    }

    /// The same label again.
    pub fn copied(&self) -> Result<Blank, AllocError>
        ensures { IfOk result (λ copy. copy ≡ self.now) }
    {
        Ok(Blank {
            label: self.label.clone()?,
        })
    }
}
