//! Changes at numbers of terms: what they speak of, and what they make of a dataset.
ghost use Rattle.std.specs.Prelude.{◌≡◌, IfOk, [], ◌∷◌, filter, true, ◌||◌, if◌then◌else◌};
ghost use Rattle.std.specs.List.{list_any};
ghost use Rattle.std.specs.List.Sorted.{IsStrictlySortedBy};
ghost use Rattle.sets.specs.Sets.{has, set_of as the_set_of};
ghost use Rattle.datasets.specs.Id.{id_order};
ghost use Rattle.datasets.specs.Dataset.{quad_order, matches};
ghost use Rattle.reads.specs.Reads.{View as Dataset, says, applied, covers as the_covers, no_change};
ghost use Rattle.delta.specs.GraphSpan.{AreWithin};
ghost use Rattle.delta.specs.Same.{delta_eq};

use crate::graph_span::GraphSpan;
use crate::lists::{has_names, names_after, same_sets};
use crate::parts::Parts;
use datasets::{Id, Quad, QuadPattern, Read};
use quad_sets::{QuadSet, QuadSlice};
use reads::lists::{copied_names, name_if, names_union};
use reads::same::same_names;
use reads::{CompactView, IndexedView, View};
use sets::{is_member, set_of};
use std::alloc::{AllocError, Global};
use std::marker::Model;
use std::sync::Arc;
use std::thread::Threads;

/// A change: quads that come to be present or absent, and graphs that come to be there or gone. It
/// is shared, and not copied.
#[derive(Drop)]
pub struct Delta {
    // Nothing stands for no change.
    parts: Option<Arc<Parts, Global>>,
}

impl Model for Delta {
    ghost use Rattle.datasets.specs.Dataset.{Change};
    ghost use Rattle.datasets.specs.declared.id.Id.{Id};
    ghost use Rattle.delta.specs.Shared.{change_of};

    ghost Value = { Change Id };

    ghost view = { λ d. change_of d.parts };
}

impl Delta {
    /// No change. It takes no memory.
    pub fn new(_alloc: Global) -> Self
        ensures { result ≡ no_change }
    {
        Delta { parts: None }
    }

    /// The change that speaks of the sets of these, in any order and with repeats.
    pub fn from_parts(
        alloc: Global,
        present: Vec<Quad<Id>>,
        absent: Vec<Quad<Id>>,
        there: Vec<Id>,
        gone: Vec<Id>,
    ) -> Result<Self, AllocError>
        ensures present { IfOk result (λ change. change.present
            ≡ the_set_of (quad_order id_order) present.items) }
        ensures absent { IfOk result (λ change. change.absent
            ≡ the_set_of (quad_order id_order) absent.items) }
        ensures there { IfOk result (λ change. change.there ≡ the_set_of id_order there.items) }
        ensures gone { IfOk result (λ change. change.gone ≡ the_set_of id_order gone.items) }
    {
        let present = QuadSet::of_quads(alloc, present)?;
        let absent = QuadSet::of_quads(alloc, absent)?;
        let (there, gone) = (set_of(there), set_of(gone));
        Delta::from_sets(alloc, present, absent, there, gone)
    }

    /// The change that speaks of these sets.
    pub fn from_sets(
        alloc: Global,
        present: QuadSet,
        absent: QuadSet,
        there: Vec<Id>,
        gone: Vec<Id>,
    ) -> Result<Self, AllocError>
        requires there { IsStrictlySortedBy id_order there.items }
        requires gone { IsStrictlySortedBy id_order gone.items }
        ensures { IfOk result (λ change. change
            ≡ record { present = present; absent = absent; there = there.items; gone = gone.items }) }
    {
        let span = GraphSpan::new()
            .with_all(&present.as_slice())
            .with_all(&absent.as_slice());
        Delta::within(alloc, present, absent, there, gone, span)
    }

    // The same, where the quads lie between these graphs.
    fn within(
        alloc: Global,
        present: QuadSet,
        absent: QuadSet,
        there: Vec<Id>,
        gone: Vec<Id>,
        span: GraphSpan,
    ) -> Result<Self, AllocError>
        requires there { IsStrictlySortedBy id_order there.items }
        requires gone { IsStrictlySortedBy id_order gone.items }
        requires present { AreWithin span present }
        requires absent { AreWithin span absent }
        ensures { IfOk result (λ change. change
            ≡ record { present = present; absent = absent; there = there.items; gone = gone.items }) }
    {
        let parts = Parts {
            present,
            absent,
            there,
            gone,
            span,
        };
        Ok(Delta {
            parts: Some(Arc::new(alloc, parts)?),
        })
    }

    // Whether any quad that it speaks of matches.
    fn has_match(&self, pattern: &QuadPattern<Id>) -> bool
        ensures { result ≡ (list_any (matches id_order pattern.now) self.now.present
            || list_any (matches id_order pattern.now) self.now.absent) }
    {
        match &self.parts {
            Some(parts) => parts.has_match(pattern),
            None => false,
        }
    }

    /// The quads that come to be present.
    pub fn present(&self) -> QuadSlice<'_>
        ensures value { result ≡ self.now.present }
        ensures set { IsStrictlySortedBy (quad_order id_order) result }
    {
        match &self.parts {
            Some(parts) => parts.present(),
            None => QuadSlice::new(),
        }
    }

    /// The quads that come to be absent.
    pub fn absent(&self) -> QuadSlice<'_>
        ensures value { result ≡ self.now.absent }
        ensures set { IsStrictlySortedBy (quad_order id_order) result }
    {
        match &self.parts {
            Some(parts) => parts.absent(),
            None => QuadSlice::new(),
        }
    }

    /// The graphs that come to be there, by name.
    pub fn there(&self) -> &[Id]
        ensures value { result.now ≡ self.now.there }
        ensures set { IsStrictlySortedBy id_order result.now }
    {
        match &self.parts {
            Some(parts) => parts.there(),
            None => &[],
        }
    }

    /// The graphs that come to be gone, by name.
    pub fn gone(&self) -> &[Id]
        ensures value { result.now ≡ self.now.gone }
        ensures set { IsStrictlySortedBy id_order result.now }
    {
        match &self.parts {
            Some(parts) => parts.gone(),
            None => &[],
        }
    }

    /// Whether the change speaks of something that the read asks for.
    #[tactic(auto, unfolding(reads::specs::Reads::covers))]
    pub fn covers(&self, read: &Read<Id>) -> bool
        ensures { result ≡ the_covers self.now read.now }
    {
        match read {
            Read::Scan(pattern) => self.has_match(pattern),
            Read::GraphIs(name) => is_member(self.there(), name) || is_member(self.gone(), name),
            Read::Graphs => has_names(self.there()) || has_names(self.gone()),
        }
    }

    // Of the quads, those that match.
    fn matching_part(&self, alloc: Global, pattern: &QuadPattern<Id>) -> Result<Delta, AllocError>
        ensures { IfOk result (λ part. part ≡ record {
          present = filter (matches id_order pattern.now) self.now.present;
          absent = filter
              (matches id_order pattern.now) self.now.absent;
          there = [];
          gone = [];
        }) }
    {
        let present = self.present().matching(alloc, pattern)?;
        let absent = self.absent().matching(alloc, pattern)?;
        Delta::from_sets(alloc, present, absent, Vec::new(alloc), Vec::new(alloc))
    }

    // The graph of this name, if the change speaks of it.
    fn name_part(&self, alloc: Global, name: &Id) -> Result<Delta, AllocError>
        ensures { IfOk result (λ part. part ≡ record {
          present = [];
          absent = [];
          there = if has id_order self.now.there name.now
              then name.now ∷ [] else [];
          gone = if has id_order self.now.gone name.now
              then name.now ∷ [] else [];
        }) }
    {
        let there = name_if(alloc, is_member(self.there(), name), name)?;
        let gone = name_if(alloc, is_member(self.gone(), name), name)?;
        Delta::from_sets(alloc, QuadSet::new(alloc), QuadSet::new(alloc), there, gone)
    }

    // The graphs.
    fn names_part(&self, alloc: Global) -> Result<Delta, AllocError>
        ensures { IfOk result (λ part. part ≡ record
            { present = []; absent = []; there = self.now.there; gone = self.now.gone }) }
    {
        let there = copied_names(alloc, self.there())?;
        let gone = copied_names(alloc, self.gone())?;
        Delta::from_sets(alloc, QuadSet::new(alloc), QuadSet::new(alloc), there, gone)
    }

    /// The part of the change that the read asks for: what the read says after the part is what it
    /// says after the whole.
    pub fn asked(&self, alloc: Global, read: &Read<Id>) -> Result<Delta, AllocError>
        ensures { IfOk result (λ part. (d : Dataset)
            → says read.now (applied part d) ≡ says read.now (applied self.now d)) }
    {
        match read {
            Read::Scan(pattern) => self.matching_part(alloc, pattern),
            Read::GraphIs(name) => self.name_part(alloc, name),
            Read::Graphs => self.names_part(alloc),
        }
    }

    /// The dataset after the change.
    #[tactic(auto, unfolding(reads::specs::Reads::applied))]
    pub fn apply(&self, alloc: Global, view: View) -> Result<View, AllocError>
        ensures { IfOk result (λ after. after ≡ applied self.now view) }
    {
        let (quads, names) = view.into_parts();
        let list = quads.into_list();
        let quads = QuadSet::of_changed(alloc, list, &self.absent(), &self.present())?;
        let names = names_after(alloc, names, self.gone(), self.there())?;
        Ok(View::from_sets(quads, names))
    }

    /// The same of a dataset in its orders, of which nothing is copied but what stays.
    #[tactic(auto, unfolding(reads::specs::Reads::applied))]
    pub fn apply_indexed(
        &self,
        alloc: Global,
        dataset: &IndexedView,
    ) -> Result<CompactView, AllocError>
        ensures { IfOk result (λ after. after ≡ applied self.now dataset.now) }
    {
        dataset.rises();
        let quads = QuadSet::changed(alloc, &dataset.quads(), &self.absent(), &self.present())?;
        let own = copied_names(alloc, dataset.names())?;
        let names = names_after(alloc, own, self.gone(), self.there())?;
        CompactView::from_sets(alloc, quads, names)
    }

    /// The same, its quads made by so many threads, where they are many.
    #[tactic(auto, unfolding(reads::specs::Reads::applied))]
    pub fn apply_indexed_by<T: Threads + Sync>(
        &self,
        rt: &T,
        alloc: Global,
        dataset: &IndexedView,
        threads: usize,
    ) -> Result<CompactView, AllocError>
        ensures { IfOk result (λ after. after ≡ applied self.now dataset.now) }
    {
        dataset.rises();
        let (going, coming) = (self.absent(), self.present());
        let own = dataset.quads();
        let quads = QuadSet::changed_in_pieces(rt, alloc, &own, &going, &coming, threads)?;
        let there = copied_names(alloc, dataset.names())?;
        let names = names_after(alloc, there, self.gone(), self.there())?;
        Ok(CompactView::from_pieces(quads, names))
    }

    /// This change and then a later one, as one change. What the later one speaks of is as it says.
    pub fn followed_by(&self, alloc: Global, later: &Delta) -> Result<Delta, AllocError>
        ensures { IfOk result (λ both. (d : Dataset)
            → applied both d ≡ applied later.now (applied self.now d)) }
    {
        let present = QuadSet::changed(alloc, &self.present(), &later.absent(), &later.present())?;
        let absent = QuadSet::union(alloc, &self.absent(), &later.absent())?;
        let own = copied_names(alloc, self.there())?;
        let there = names_after(alloc, own, later.gone(), later.there())?;
        let left = copied_names(alloc, self.gone())?;
        let gone = names_union(left, copied_names(alloc, later.gone())?)?;
        // The more is laid together, the less would it tell between which graphs that lies.
        Delta::within(alloc, present, absent, there, gone, GraphSpan::Any)
    }

    /// The same change again, with the same lists. It takes no memory, and fails only where they
    /// have too many owners.
    pub fn copied(&self, _alloc: Global) -> Result<Self, AllocError>
        ensures { IfOk result (λ copy. copy ≡ self.now) }
    {
        let parts = match &self.parts {
            Some(parts) => Some(Arc::try_clone(parts)?),
            None => None,
        };
        Ok(Delta { parts })
    }

    /// Whether two changes speak of the same.
    pub fn is_same(&self, other: &Delta) -> bool
        ensures { result ≡ delta_eq self.now other.now }
    {
        same_sets(&self.present(), &other.present())
            && same_sets(&self.absent(), &other.absent())
            && same_names(self.there(), other.there())
            && same_names(self.gone(), other.gone())
    }
}
