//! Texts as the keys of sorted maps.
ghost use Rattle.std.specs.Prelude.{◌≡◌, refl};
ghost use Rattle.std.specs.Ordering.{eq_by_cmp, as_partial_cmp};
ghost use Rattle.std.specs.Cmp.{eq_by_cmp_equiv, partial_equiv_from_equiv, partial_order_from_total};
ghost use Rattle.terms.specs.Term.{text_cmp};
ghost use Rattle.terms.specs.TermLaws.{text_total, text_exact};

use sets::Exact;
use std::cmp::Ordering;
use std::marker::Model;

/// A part of a request's text. Contracts see its bytes, and keys are ordered by them.
#[derive(Drop)]
pub struct Key<'a> {
    bytes: &'a [u8],
}

impl<'a> Model for Key<'a> {
    ghost use Rattle.std.specs.Prelude.{List, ℕ};

    ghost Value = { List ℕ };

    ghost view = { λ k. k.bytes.now };
}

impl<'a> Key<'a> {
    /// The key that is these bytes. It takes no memory.
    pub fn new(bytes: &'a [u8]) -> Key<'a>
        ensures { result ≡ bytes.entry.now }
    {
        Key { bytes }
    }

    /// Its bytes.
    pub fn as_bytes(&self) -> &'a [u8]
        ensures { result.now ≡ self.now }
    {
        self.bytes
    }
}

impl PartialEq for Key<'_> {
    ghost eq = { eq_by_cmp text_cmp };

    ghost laws = { partial_equiv_from_equiv (eq_by_cmp_equiv text_total) };

    fn eq(&self, other: &Self) -> bool {
        self.cmp(other).is_eq()
    }
}

impl Eq for Key<'_> {
    ghost laws = { eq_by_cmp_equiv text_total };
}

impl PartialOrd for Key<'_> {
    ghost partial_cmp = { as_partial_cmp text_cmp };

    ghost laws = { partial_order_from_total text_total };

    fn partial_cmp(&self, other: &Self) -> Option<Ordering> {
        Some(self.cmp(other))
    }
}

impl Ord for Key<'_> {
    ghost cmp = { text_cmp };

    ghost total = { text_total };

    ghost matches_partial_cmp = { λ x y. refl };

    ghost matches_eq = { λ x y. refl };

    fn cmp(&self, other: &Self) -> Ordering {
        self.as_bytes().cmp(other.as_bytes())
    }
}

impl Exact for Key<'_> {
    ghost exact = { text_exact };
}
