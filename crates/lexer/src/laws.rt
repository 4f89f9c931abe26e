//! Laws of the definitions.
ghost use Rattle.std.specs.Prelude.{◌≡◌, ◌++◌, List, ℕ, All};
ghost use Rattle.iris.specs.Iri.{IsIri};
ghost use Rattle.lexer.specs.declared.token.Token.{Token};
ghost use Rattle.lexer.specs.Names.{IsLocal};
ghost use Rattle.lexer.specs.Form.{HasParts};
ghost use Rattle.lexer.specs.Cut.{Cuts};

use iris::laws::runs_are_longest;

/// A text is cut into at most one list of tokens.
pub fn one_cut()
    ensures { (text : List ℕ) (ts us : List Token) → Cuts text ts → Cuts text us → ts ≡ us }
{
    runs_are_longest();
}

/// The parts of a text's tokens have their forms: IRIs are IRIs, local parts are local parts,
/// strings are UTF-8, tags are in lower case.
pub fn tokens_have_parts()
    ensures { (text : List ℕ) (ts : List Token) → Cuts text ts → All HasParts ts }
{}

/// An IRI with a local part after it is an IRI.
pub fn iri_with_local()
    ensures { (iri local : List ℕ) → IsIri iri → IsLocal local → IsIri (iri ++ local) }
{}
