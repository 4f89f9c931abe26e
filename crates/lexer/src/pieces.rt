//! Parts of a request's text.
ghost use Rattle.std.specs.Prelude.{◌≡◌, true, map, IsUtf8, IfOk, string_bytes};
ghost use Rattle.std.specs.Char.{to_ascii_lowercase};
ghost use Rattle.iris.specs.Iri.{IsIri};
ghost use Rattle.iris.specs.Forms.{is_label, is_tag};
ghost use Rattle.lexer.specs.Names.{AreDigits, IsLocal};
ghost use Rattle.lexer.specs.Strings.{IsEscaped, unescaped};

use crate::strings::unescaped;
use std::alloc::{AllocError, Global};
use std::marker::{Model, PhantomData};

/// What a kind of text is made of.
pub trait Form {
    ghost use Rattle.std.specs.Prelude.{List, ℕ};

    /// Holds of the bytes of such a text.
    ghost has: { List ℕ → Type 0 };
}

/// Any bytes.
pub struct AnyForm;

impl Form for AnyForm {
    ghost has = { λ _. Unit {0} };
}

/// The text of an IRI, without its angle brackets (SPARQL 1.1 Query, 19.8, production 139).
pub struct IriForm;

impl Form for IriForm {
    ghost has = { IsIri };
}

/// The local part of a prefixed name (SPARQL 1.1 Query, 19.8, production 141).
pub struct LocalForm;

impl Form for LocalForm {
    ghost has = { IsLocal };
}

/// A blank node label, without its `_:` (SPARQL 1.1 Query, 19.8, production 142, in this profile).
pub struct LabelForm;

impl Form for LabelForm {
    ghost has = { λ bytes. is_label bytes ≡ true };
}

/// The digits of an integer (SPARQL 1.1 Query, 19.8, production 146), of which there is one or
/// more.
pub struct DigitsForm;

impl Form for DigitsForm {
    ghost has = { AreDigits };
}

/// A part of a request's text that has some form. Contracts see its bytes.
#[derive(Drop)]
pub struct FormedPiece<'a, F: Form> {
    text: &'a str,
    form: PhantomData<F>,
}

impl<'a, F: Form> Model for FormedPiece<'a, F> {
    ghost use Rattle.std.specs.Prelude.{List, ℕ};

    ghost Value = { List ℕ };

    ghost view = { λ p. p.text.now };

    ghost invariant = { λ p. F.has p.text.now };
}

impl<'a, F: Form> FormedPiece<'a, F> {
    /// The piece that is this text. It takes no memory.
    pub(crate) fn new(text: &'a str) -> FormedPiece<'a, F>
        requires { F.has text.now }
        ensures { result ≡ text.entry.now }
    {
        FormedPiece {
            text,
            form: PhantomData,
        }
    }

    /// Its text, which was judged as UTF-8 when the piece was cut.
    pub fn as_str(&self) -> &'a str
        ensures text { result.now ≡ self.now }
        ensures form { F.has self.now }
    {
        self.text
    }

    /// Its bytes.
    pub fn as_bytes(&self) -> &'a [u8]
        ensures bytes { result.now ≡ self.now }
        ensures form { F.has self.now }
    {
        self.as_str().as_bytes()
    }

    /// The same piece again. It takes no memory.
    pub fn again(&self) -> FormedPiece<'a, F>
        ensures { result ≡ self.now }
    {
        FormedPiece {
            text: self.text,
            form: PhantomData,
        }
    }
}

/// A part of a request's text.
pub type Piece<'a> = FormedPiece<'a, AnyForm>;

/// The text of an IRI, without its angle brackets.
pub type IriText<'a> = FormedPiece<'a, IriForm>;

/// The local part of a prefixed name.
pub type LocalPart<'a> = FormedPiece<'a, LocalForm>;

/// A blank node label, without its `_:`.
pub type Label<'a> = FormedPiece<'a, LabelForm>;

/// The digits of an integer.
pub type Digits<'a> = FormedPiece<'a, DigitsForm>;

/// A language tag, without its `@` (SPARQL 1.1 Query, 19.8, production 145). Contracts see its
/// bytes in lower case, and they are a tag.
#[derive(Drop)]
pub struct Tag<'a> {
    written: &'a str,
}

impl<'a> Model for Tag<'a> {
    ghost use Rattle.std.specs.Prelude.{◌≡◌, List, ℕ, true, map};
    ghost use Rattle.std.specs.Char.{to_ascii_lowercase};
    ghost use Rattle.iris.specs.Forms.{is_tag};

    ghost Value = { List ℕ };

    ghost view = { λ t. map to_ascii_lowercase t.written.now };

    ghost invariant = { λ t. is_tag (map to_ascii_lowercase t.written.now) ≡ true };
}

impl<'a> Tag<'a> {
    /// The tag that is written so. It takes no memory.
    pub(crate) fn new(written: &'a str) -> Tag<'a>
        requires { is_tag (map to_ascii_lowercase written.now) ≡ true }
        ensures { result ≡ map to_ascii_lowercase written.entry.now }
    {
        Tag { written }
    }

    /// Its bytes in lower case. An `Err` comes only where memory runs out.
    pub fn lower(&self, alloc: Global) -> Result<String, AllocError>
        ensures text { IfOk result (λ t. string_bytes t ≡ self.now) }
        ensures form { is_tag self.now ≡ true }
    {
        self.written.to_ascii_lowercase(alloc)
    }

    /// The same tag again. It takes no memory.
    pub fn again(&self) -> Tag<'a>
        ensures { result ≡ self.now }
    {
        Tag {
            written: self.written,
        }
    }
}

/// A string, without its quotes (SPARQL 1.1 Query, 19.8, productions 156 and 157). Contracts see
/// the bytes that it spells, with its escapes undone.
#[derive(Drop)]
pub struct Quoted<'a> {
    between: &'a str,
}

impl<'a> Model for Quoted<'a> {
    ghost use Rattle.std.specs.Prelude.{List, ℕ, IsUtf8};
    ghost use Rattle.lexer.specs.Strings.{IsEscaped, unescaped};

    ghost Value = { List ℕ };

    ghost view = { λ q. unescaped q.between.now };

    ghost invariant = { λ q. IsEscaped q.between.now × IsUtf8 q.between.now };
}

impl<'a> Quoted<'a> {
    /// The string that is written so. It takes no memory.
    pub(crate) fn new(between: &'a str) -> Quoted<'a>
        requires escaped { IsEscaped between.now }
        requires utf8 { IsUtf8 between.now }
        ensures { result ≡ unescaped between.entry.now }
    {
        Quoted { between }
    }

    /// The text that it spells. An `Err` comes only where memory runs out.
    pub fn value(&self, alloc: Global) -> Result<String, AllocError>
        ensures text { IfOk result (λ t. string_bytes t ≡ self.now) }
        ensures form { IsUtf8 self.now }
    {
        unescaped(alloc, self.between)
    }

    /// The same string again. It takes no memory.
    pub fn again(&self) -> Quoted<'a>
        ensures { result ≡ self.now }
    {
        Quoted {
            between: self.between,
        }
    }
}
