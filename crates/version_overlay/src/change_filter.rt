//! A filter of changes, which stops reads that none of them covers.
ghost use Rattle.std.specs.Prelude.{◌≡◌, true, false, OnOk};
ghost use Rattle.std.specs.List.{list_any};
ghost use Rattle.sets.specs.Sets.{has};
ghost use Rattle.datasets.specs.declared.id.Id.{Id as Number};
ghost use Rattle.datasets.specs.declared.read.QuadPattern.{QuadPattern as PatternOf};
ghost use Rattle.datasets.specs.declared.read.Read.TheVariants.{Scan, GraphIs};
ghost use Rattle.datasets.specs.Dataset.{matches};
ghost use Rattle.datasets.specs.Id.{id_order};
ghost use Rattle.reads.specs.Reads.{Read as Asked, covers};
ghost use Rattle.version_overlay.specs.Seen.{may_match, is_seen, binds_no_term};

use crate::seen::{SeenQuads, SeenTerms};
use datasets::{Id, Read};
use delta::Delta;
use quad_sets::QuadSlice;
use std::alloc::{AllocError, Global};

/// A filter of reads: it lets through each that a change covers which was put, and few others.
#[derive(Drop)]
pub struct ChangeFilter {
    quads: SeenQuads,
    names: SeenTerms,
}

impl ChangeFilter {
    ghost use Rattle.version_overlay.specs.ChangeFilter.{may_cover as the_may_cover};

    /// No change was put: a read is stopped that binds a place to a term or asks for a name. It
    /// takes no memory.
    pub fn new(alloc: Global) -> ChangeFilter
        ensures quads { (p : PatternOf Number) → the_may_cover result (Scan p) ≡ binds_no_term p }
        ensures names { (x : Number) → the_may_cover result (GraphIs x) ≡ false }
    {
        ChangeFilter {
            quads: SeenQuads::new(alloc),
            names: SeenTerms::new(alloc),
        }
    }

    /// One more change. What was let through still is, also where memory runs out.
    pub fn put(&mut self, delta: &Delta) -> Result<(), AllocError>
        ensures added { OnOk result ((read : Asked) → covers delta.now read ≡ true
            → the_may_cover self.new read ≡ true) }
        ensures kept { (read : Asked) → the_may_cover self.old read ≡ true
            → the_may_cover self.new read ≡ true }
    {
        put_all(&mut self.quads, delta)?;
        put_all_names(&mut self.names, delta)
    }

    /// Whether the read is let through: where it isn't, no change that was put covers it.
    pub fn may_cover(&self, read: &Read<Id>) -> bool
        ensures { result ≡ the_may_cover self.now read.now }
    {
        match read {
            Read::Scan(pattern) => self.quads.may_match(pattern),
            Read::GraphIs(name) => self.names.has(*name),
            Read::Graphs => true,
        }
    }
}

// Lets through what a change speaks of. What was let through still is, also where memory runs out.
#[tactic(auto, unfolding(reads::specs::Reads::covers))]
fn put_all(seen: &mut SeenQuads, delta: &Delta) -> Result<(), AllocError>
    ensures added { OnOk result ((p : PatternOf Number) → covers delta.now (Scan p) ≡ true
        → may_match seen.new p ≡ true) }
    ensures kept { (p : PatternOf Number) → may_match seen.old p ≡ true
        → may_match seen.new p ≡ true }
{
    put_quads(seen, &delta.present())?;
    put_quads(seen, &delta.absent())
}

// The same of the names that it speaks of.
#[tactic(auto, unfolding(reads::specs::Reads::covers))]
fn put_all_names(seen: &mut SeenTerms, delta: &Delta) -> Result<(), AllocError>
    ensures added { OnOk result ((x : Number) → covers delta.now (GraphIs x) ≡ true
        → is_seen seen.new x ≡ true) }
    ensures kept { (x : Number) → is_seen seen.old x ≡ true → is_seen seen.new x ≡ true }
{
    put_names(seen, delta.there())?;
    put_names(seen, delta.gone())
}

fn put_names(seen: &mut SeenTerms, names: &[Id]) -> Result<(), AllocError>
    ensures added { OnOk result ((x : Number) → has id_order names.now x ≡ true
        → is_seen seen.new x ≡ true) }
    ensures kept { (x : Number) → is_seen seen.old x ≡ true → is_seen seen.new x ≡ true }
{
    for name in names {
        seen.put(*name)?;
    }
    Ok(())
}

fn put_quads(seen: &mut SeenQuads, quads: &QuadSlice<'_>) -> Result<(), AllocError>
    ensures added { OnOk result ((p : PatternOf Number)
        → list_any (matches id_order p) quads.now ≡ true → may_match seen.new p ≡ true) }
    ensures kept { (p : PatternOf Number) → may_match seen.old p ≡ true
        → may_match seen.new p ≡ true }
{
    for place in 0..quads.len() {
        seen.put(&quads.get(place))?;
    }
    Ok(())
}
