//! Texts in the order of their bytes.
ghost use Rattle.std.specs.Prelude.{◌≡◌, refl};
ghost use Rattle.std.specs.Ordering.{eq_by_cmp, as_partial_cmp};
ghost use Rattle.std.specs.Cmp.{eq_by_cmp_equiv, partial_equiv_from_equiv, partial_order_from_total};
ghost use Rattle.terms.specs.Term.{text_cmp};
ghost use Rattle.terms.specs.TermLaws.{text_total, text_exact};
ghost use Rattle.canonical_nquads.specs.Fed.{fed_bytes, fed_alike};

use sets::Exact;
use std::cmp::Ordering;
use std::hash::{Hash, Hasher};
use std::marker::Model;

/// A line of a canonical text, without its end, or the text of a term in it. Contracts see its
/// bytes, and lines are ordered by them.
#[derive(Drop)]
pub struct TextLine {
    bytes: Vec<u8>,
}

impl Model for TextLine {
    ghost use Rattle.std.specs.Prelude.{List, ℕ};

    ghost Value = { List ℕ };

    ghost view = { λ a. a.bytes.items };
}

impl TextLine {
    /// The line of these bytes. It takes no memory.
    pub fn new(bytes: Vec<u8>) -> TextLine
        ensures { result ≡ bytes.items }
    {
        TextLine { bytes }
    }

    /// Its bytes.
    pub fn as_slice(&self) -> &[u8]
        ensures { result.now ≡ self.now }
    {
        self.bytes.as_slice()
    }
}

impl PartialEq for TextLine {
    ghost eq = { eq_by_cmp text_cmp };

    ghost laws = { partial_equiv_from_equiv (eq_by_cmp_equiv text_total) };

    fn eq(&self, other: &TextLine) -> bool {
        self.cmp(other).is_eq()
    }
}

impl Eq for TextLine {
    ghost laws = { eq_by_cmp_equiv text_total };
}

impl PartialOrd for TextLine {
    ghost partial_cmp = { as_partial_cmp text_cmp };

    ghost laws = { partial_order_from_total text_total };

    fn partial_cmp(&self, other: &TextLine) -> Option<Ordering> {
        Some(self.cmp(other))
    }
}

impl Ord for TextLine {
    ghost cmp = { text_cmp };

    ghost total = { text_total };

    ghost matches_partial_cmp = { λ x y. refl };

    ghost matches_eq = { λ x y. refl };

    fn cmp(&self, other: &TextLine) -> Ordering {
        self.as_slice().cmp(other.as_slice())
    }
}

impl Hash for TextLine {
    ghost hash_input = { fed_bytes };

    ghost respects_eq = { fed_alike };

    fn hash<H: Hasher>(&self, state: &mut H) {
        state.write(self.as_slice());
    }
}

impl Exact for TextLine {
    ghost exact = { text_exact };
}
