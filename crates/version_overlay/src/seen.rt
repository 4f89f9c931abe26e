//! Filters: what the places of quads can't have had.
ghost use Rattle.std.specs.Prelude.{◌≡◌, true, [], Option, OnOk};
ghost use Rattle.datasets.specs.declared.id.Id.{Id as Number};
ghost use Rattle.datasets.specs.declared.read.QuadPattern.{QuadPattern as PatternOf};
ghost use Rattle.datasets.specs.Dataset.{matches};
ghost use Rattle.datasets.specs.Id.{id_order};
ghost use Rattle.version_overlay.specs.Seen.{slot_of as the_slot_of, is_seen, is_graph_seen, lets, lets_graph, may_match as the_may_match, binds_no_term};

use datasets::{GraphPlace, Id, Quad, QuadPattern};
use std::alloc::{AllocError, Global};
use std::marker::Model;

/// How many slots a filter has at most.
const SLOTS: usize = 262_144;

/// A filter of terms: it lets through each that was put, and few others. Contracts see its slots,
/// each of which says whether a term of it was put. There are as many as the terms so far need.
#[derive(Drop)]
pub struct SeenTerms {
    slots: Vec<bool>,
}

impl Model for SeenTerms {
    ghost use Rattle.std.specs.Prelude.{List, Bool};

    ghost Value = { List Bool };

    ghost view = { λ s. s.slots.items };
}

fn slot_of(term: Id) -> usize
    ensures { result ≡ the_slot_of term }
{
    match term {
        Id::Known(number) => number as usize % SLOTS,
        Id::Made { rank, .. } => rank as usize % SLOTS,
    }
}

impl SeenTerms {
    /// No term was put. It takes no memory.
    pub fn new(alloc: Global) -> SeenTerms
        ensures { result ≡ [] }
    {
        SeenTerms {
            slots: Vec::new(alloc),
        }
    }

    /// One more term. What was let through still is, also where memory runs out.
    pub fn put(&mut self, term: Id) -> Result<(), AllocError>
        ensures added { OnOk result (is_seen self.new term ≡ true) }
        ensures kept { (x : Number) → is_seen self.old x ≡ true → is_seen self.new x ≡ true }
    {
        // What is shared is not written anew.
        if self.has(term) {
            return Ok(());
        }
        let slot = slot_of(term);
        if slot >= self.slots.len() {
            self.slots.resize(slot + 1, false)?;
        }
        self.slots[slot] = true;
        Ok(())
    }

    /// Whether the term is let through, as a term of the same slot was put.
    pub fn has(&self, term: Id) -> bool
        ensures { result ≡ is_seen self.now term }
    {
        match self.slots.get(slot_of(term)) {
            Some(so) => *so,
            None => false,
        }
    }
}

/// A filter of patterns: it lets through each that matches a quad which was put, and few others.
#[derive(Drop)]
pub struct SeenQuads {
    subjects: SeenTerms,
    predicates: SeenTerms,
    objects: SeenTerms,
    graphs: SeenTerms,
}

impl SeenQuads {
    /// No quad was put: what binds a place to a term is stopped. It takes no memory.
    pub fn new(alloc: Global) -> SeenQuads
        ensures { (p : PatternOf Number) → the_may_match result p ≡ binds_no_term p }
    {
        SeenQuads {
            subjects: SeenTerms::new(alloc),
            predicates: SeenTerms::new(alloc),
            objects: SeenTerms::new(alloc),
            graphs: SeenTerms::new(alloc),
        }
    }

    /// One more quad. What was let through still is, also where memory runs out.
    pub fn put(&mut self, quad: &Quad<Id>) -> Result<(), AllocError>
        ensures added { OnOk result ((p : PatternOf Number) → matches id_order p quad.now ≡ true
            → the_may_match self.new p ≡ true) }
        ensures kept { (p : PatternOf Number) → the_may_match self.old p ≡ true
            → the_may_match self.new p ≡ true }
    {
        self.subjects.put(quad.subject)?;
        self.predicates.put(quad.predicate)?;
        self.objects.put(quad.object)?;
        put_graph(&mut self.graphs, quad.graph)
    }

    /// Whether the pattern is let through.
    pub fn may_match(&self, pattern: &QuadPattern<Id>) -> bool
        ensures { result ≡ the_may_match self.now pattern.now }
    {
        may_have(&self.subjects, pattern.subject)
            && may_have(&self.predicates, pattern.predicate)
            && may_have(&self.objects, pattern.object)
            && may_have_graph(&self.graphs, pattern.graph)
    }
}

fn put_graph(seen: &mut SeenTerms, graph: Option<Id>) -> Result<(), AllocError>
    ensures added { OnOk result (is_graph_seen seen.new graph ≡ true) }
    ensures kept { (g : Option Number) → is_graph_seen seen.old g ≡ true
        → is_graph_seen seen.new g ≡ true }
{
    match graph {
        Some(term) => seen.put(term),
        None => Ok(()),
    }
}

// Whether a place may have had the term that it is bound to.
fn may_have(seen: &SeenTerms, place: Option<Id>) -> bool
    ensures { result ≡ lets seen.now place }
{
    match place {
        None => true,
        Some(term) => seen.has(term),
    }
}

fn may_have_graph(seen: &SeenTerms, place: GraphPlace<Id>) -> bool
    ensures { result ≡ lets_graph seen.now place }
{
    match place {
        GraphPlace::Any => true,
        GraphPlace::Only(None) => true,
        GraphPlace::Only(Some(term)) => seen.has(term),
    }
}
