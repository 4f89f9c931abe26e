//! Laws of reading and writing: what is written spells the dataset again. Each function has one
//! law, and calls those that it stands on.
#![tactic(auto)]

ghost use Rattle.std.specs.Prelude.{◌≡◌, ◌∷◌, ◌++◌, All, List, ℕ, true, false, Some, IsUtf8};
ghost use Rattle.std.specs.List.{Contains, list_all};
ghost use Rattle.datasets.specs.Dataset.{Dataset};
ghost use Rattle.terms.specs.declared.term.Term.{Term};
ghost use Rattle.terms.specs.Canonical.{term_text};
ghost use Rattle.nquads_lines.specs.Lines.{is_inner};
ghost use Rattle.nquads_lines.specs.ReadTerms.{object_at};
ghost use Rattle.nquads.specs.Spelled.{Spells};
ghost use Rattle.canonical_nquads.specs.Tag.{is_taken};
ghost use Rattle.canonical_nquads.specs.Canonical.{canonical};
ghost use Rattle.nquads_laws.specs.WellFormed.{IsTerm, IsWellFormed, terms_of, is_written};
ghost use Rattle.nquads_laws.specs.Named.{named_term, named};

use iris::laws::runs_are_longest;
use nquads::laws::one_dataset;
use nquads_lines::laws::{first_line_is_ended, objects_are_read};

/// The canonical text of a well-formed dataset spells it with each made node as the blank node of
/// its label, whatever the tag. Where no blank label begins with the tag's mark, no two terms of
/// the dataset become one.
pub fn spells_again()
    ensures spelled { (d : Dataset Term) (tag : ℕ) → IsWellFormed d
        → Spells (canonical d tag) (named d tag) }
    ensures apart { (d : Dataset Term) (tag : ℕ) → IsWellFormed d → is_taken d.quads tag ≡ false
        → (x y : Term) → Contains (terms_of d) x → Contains (terms_of d) y
        → named_term tag x ≡ named_term tag y → x ≡ y }
{
    runs_are_longest();
    first_line_is_ended();
    one_dataset();
}

/// The text of a term, with a space behind it, is read as the term, where a made node is the blank
/// node of its label.
pub fn terms_are_read()
    ensures { (tag : ℕ) (t : Term) (rest : List ℕ) → IsTerm t
        → object_at (term_text tag t ++ 32 ∷ rest) ≡ Some (named_term tag t, 32 ∷ rest) }
{
    objects_are_read();
}

/// The text of a term is UTF-8, and no line ends in it.
pub fn terms_end_no_line()
    ensures utf8 { (tag : ℕ) (t : Term) → IsTerm t → IsUtf8 (term_text tag t) }
    ensures inner { (tag : ℕ) (t : Term) → IsTerm t → list_all is_inner (term_text tag t) ≡ true }
{}

/// What a text spells is well-formed, and has no made node.
pub fn spelled_is_well_formed()
    ensures formed { (text : List ℕ) (d : Dataset Term) → Spells text d → IsWellFormed d }
    ensures written { (text : List ℕ) (d : Dataset Term) → Spells text d
        → All (λ t. is_written t ≡ true) (terms_of d) }
{}

/// What was read and is written spells what was read.
pub fn read_and_written_again()
    ensures { (text : List ℕ) (d : Dataset Term) (tag : ℕ) → Spells text d
        → Spells (canonical d tag) d }
{
    first_line_is_ended();
    one_dataset();
}

/// Two well-formed datasets have one text only if they are the same by the labels of their made
/// nodes, whatever the tags; and with one tag whose mark begins no blank label of either, only if
/// they are the same.
pub fn texts_differ()
    ensures labels { (d e : Dataset Term) (tag other : ℕ) → IsWellFormed d → IsWellFormed e
        → canonical d tag ≡ canonical e other → named d tag ≡ named e other }
    ensures one_tag { (d e : Dataset Term) (tag : ℕ) → IsWellFormed d → IsWellFormed e
        → is_taken d.quads tag ≡ false → is_taken e.quads tag ≡ false
        → canonical d tag ≡ canonical e tag → d ≡ e }
{
    runs_are_longest();
    first_line_is_ended();
    one_dataset();
}
