//! What a change speaks of, as sets.
ghost use Rattle.std.specs.Prelude.{◌≡◌, ◌||◌};
ghost use Rattle.std.specs.List.{list_any};
ghost use Rattle.std.specs.List.Sorted.{IsStrictlySortedBy};
ghost use Rattle.datasets.specs.Id.{id_order};
ghost use Rattle.datasets.specs.Dataset.{quad_order, matches};

use crate::graph_span::GraphSpan;
use datasets::{Id, QuadPattern};
use quad_sets::{QuadSet, QuadSlice};
use std::marker::Model;

/// The sets that a change speaks of: quads that come to be present or absent, and graphs that come
/// to be there or gone.
#[derive(Drop)]
pub struct Parts {
    pub present: QuadSet,
    pub absent: QuadSet,
    pub there: Vec<Id>,
    pub gone: Vec<Id>,
    /// Between which graphs the quads lie, so that most scans of other graphs need no search.
    pub span: GraphSpan,
}

impl Model for Parts {
    ghost use Rattle.datasets.specs.Dataset.{Change};
    ghost use Rattle.datasets.specs.declared.id.Id.{Id};

    ghost Value = { Change Id };

    ghost view = { λ p. record { present = p.present; absent = p.absent; there = p.there.items; gone = p.gone.items } };

    ghost use Rattle.std.specs.List.Sorted.{IsStrictlySortedBy};
    ghost use Rattle.datasets.specs.Id.{id_order};
    ghost use Rattle.delta.specs.GraphSpan.{AreWithin};

    ghost invariant = { λ p. IsStrictlySortedBy id_order p.there.items × IsStrictlySortedBy id_order p.gone.items × AreWithin p.span p.present × AreWithin p.span p.absent };
}

impl Parts {
    /// The quads that come to be present.
    pub fn present(&self) -> QuadSlice<'_>
        ensures value { result ≡ self.now.present }
        ensures set { IsStrictlySortedBy (quad_order id_order) result }
    {
        self.present.as_slice()
    }

    /// The quads that come to be absent.
    pub fn absent(&self) -> QuadSlice<'_>
        ensures value { result ≡ self.now.absent }
        ensures set { IsStrictlySortedBy (quad_order id_order) result }
    {
        self.absent.as_slice()
    }

    /// Whether any quad that it speaks of matches.
    pub fn has_match(&self, pattern: &QuadPattern<Id>) -> bool
        ensures { result ≡ (list_any (matches id_order pattern.now) self.now.present
            || list_any (matches id_order pattern.now) self.now.absent) }
    {
        self.span.lets(&pattern.graph)
            && (self.present().has_match(pattern) || self.absent().has_match(pattern))
    }

    /// The graphs that come to be there, by name.
    pub fn there(&self) -> &[Id]
        ensures value { result.now ≡ self.now.there }
        ensures set { IsStrictlySortedBy id_order result.now }
    {
        self.there.as_slice()
    }

    /// The graphs that come to be gone, by name.
    pub fn gone(&self) -> &[Id]
        ensures value { result.now ≡ self.now.gone }
        ensures set { IsStrictlySortedBy id_order result.now }
    {
        self.gone.as_slice()
    }
}
