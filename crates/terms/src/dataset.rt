//! Datasets.
ghost use Rattle.std.specs.Prelude.{◌≡◌, ◌++◌, ◌∷◌, [], true, IfOk, OnOk, OnErr, map, slice_index};
ghost use Rattle.std.specs.List.{list_all};
ghost use Rattle.std.specs.Option.{option_to_list, option_map};
ghost use Rattle.datasets.specs.Dataset.{IsDataset};
ghost use Rattle.terms.specs.Term.{term_order};
ghost use Rattle.terms.specs.DataSet.{with_quad, with_graph, united};
ghost use Rattle.terms.specs.Placed.{term_at, quad_at, is_within, is_name_within, is_quad_within, quad_of_places, AreWithin, AreApart, GoesOn, dataset_at};

use crate::table::TermTable;
use crate::term::Term;
use datasets::Quad;
use rayon::slice::par_for_each_mut;
use std::alloc::{AllocError, Global};
use std::marker::Model;
use std::thread::Threads;

/// A dataset (RDF 1.1 Concepts, section 4). Contracts see the set of its quads and the set of its
/// graph names, each as a rising list, however they lie in memory: each term once, and quads and
/// names by the places of their terms. The name of each quad's graph is among the names.
#[derive(Drop)]
pub struct DataSet {
    terms: TermTable,
    quads: Vec<Quad<u32>>,
    names: Vec<u32>,
}

impl Model for DataSet {
    ghost use Rattle.datasets.specs.Dataset.{Dataset, IsDataset};
    ghost use Rattle.terms.specs.declared.term.Term.{Term};

    ghost Value = { Dataset Term };

    ghost use Rattle.terms.specs.Term.{term_order};
    ghost use Rattle.terms.specs.Placed.{dataset_at, AreWithin};

    ghost view = { λ d. dataset_at d.terms d.quads.items d.names.items };

    ghost invariant = { λ d. IsDataset term_order (dataset_at d.terms d.quads.items d.names.items) × AreWithin d.terms d.quads.items d.names.items };
}

/// What a dataset lies in memory as: terms, and quads and graph names by places among them, in any
/// order and maybe more than once.
#[derive(Clone, Copy, Drop)]
pub struct Parts<'a> {
    pub terms: &'a [Term],
    pub quads: &'a [Quad<u32>],
    pub names: &'a [u32],
}

/// What a dataset lay in memory as: its terms, and its quads and graph names by places among them,
/// in any order and maybe more than once.
#[derive(Drop)]
pub struct OwnedParts {
    pub terms: Vec<Term>,
    pub quads: Vec<Quad<u32>>,
    pub names: Vec<u32>,
}

/// The place of a graph's name.
fn placed_name(terms: &mut TermTable, name: Option<Term>) -> Result<Option<u32>, AllocError>
    ensures name { IfOk result (λ n. option_map (term_at terms.new) n ≡ name) }
    ensures within { IfOk result (λ n. is_name_within terms.new n ≡ true) }
    ensures kept { GoesOn terms.old terms.new }
{
    match name {
        Some(name) => Ok(Some(terms.place_of(name)?)),
        None => Ok(None),
    }
}

/// The places of a quad's terms.
fn placed_quad(terms: &mut TermTable, quad: Quad<Term>) -> Result<Quad<u32>, AllocError>
    ensures quad { IfOk result (λ q. quad_at terms.new q ≡ quad) }
    ensures within { IfOk result (λ q. is_quad_within terms.new q ≡ true) }
    ensures kept { GoesOn terms.old terms.new }
{
    let subject = terms.place_of(quad.subject)?;
    let predicate = terms.place_of(quad.predicate)?;
    let object = terms.place_of(quad.object)?;
    let graph = placed_name(terms, quad.graph)?;
    Ok(Quad {
        subject,
        predicate,
        object,
        graph,
    })
}

/// Puts a quad and the name of its graph at the ends of two lists. An `Err`, which comes only where
/// memory runs out, leaves both as they were.
pub fn push_both(
    quads: &mut Vec<Quad<u32>>,
    names: &mut Vec<u32>,
    quad: Quad<u32>,
) -> Result<(), AllocError>
    ensures quads { OnOk result (quads.new.items ≡ quads.old.items ++ quad ∷ []) }
    ensures names { OnOk result (names.new.items ≡ names.old.items ++ option_to_list quad.graph) }
    ensures err { OnErr result ((quads.new.items ≡ quads.old.items)
        × (names.new.items ≡ names.old.items)) }
{
    quads.reserve(1)?;
    if let Some(name) = quad.graph {
        names.push(name)?;
    }
    quads.push_reserved(quad);
    Ok(())
}

/// A quad of numbers of places, with those places.
fn quad_of_places(places: &[u32], quad: &Quad<u32>) -> Quad<u32>
    requires { is_quad_within places.now quad.now ≡ true }
    ensures { result ≡ quad_of_places places.now quad.now }
{
    Quad {
        subject: places[quad.subject as usize],
        predicate: places[quad.predicate as usize],
        object: places[quad.object as usize],
        graph: match quad.graph {
            Some(name) => Some(places[name as usize]),
            None => None,
        },
    }
}

fn quads_of_places(
    alloc: Global,
    places: &[u32],
    quads: &[Quad<u32>],
) -> Result<Vec<Quad<u32>>, AllocError>
    requires { list_all (is_quad_within places.now) quads.now ≡ true }
    ensures { IfOk result (λ placed. placed.items ≡ map (quad_of_places places.now) quads.now) }
{
    let mut placed = Vec::new(alloc);
    placed.reserve(quads.len())?;
    for quad in quads {
        placed.push(quad_of_places(places, quad))?;
    }
    Ok(placed)
}

// Each quad becomes that of its places, by several threads.
fn place_each_by<T: Threads + Sync>(rt: &T, places: &[u32], quads: &mut [Quad<u32>])
    requires { list_all (is_quad_within places.now) quads.old ≡ true }
    ensures { quads.new ≡ map (quad_of_places places.now) quads.old }
{
    par_for_each_mut(
        rt,
        quads,
        |_place: usize, quad: &mut Quad<u32>|
            requires { is_quad_within places.now quad.old ≡ true }
            ensures { quad.new ≡ quad_of_places places.entry.now quad.old }
        {
            *quad = quad_of_places(places, quad);
        },
    );
}

/// The same, made by several threads, where the quads lie.
fn quads_placed_by<T: Threads + Sync>(
    rt: &T,
    places: &[u32],
    mut quads: Vec<Quad<u32>>,
) -> Vec<Quad<u32>>
    requires { list_all (is_quad_within places.now) quads.items ≡ true }
    ensures { result.items ≡ map (quad_of_places places.now) quads.items }
{
    place_each_by(rt, places, quads.as_mut_slice());
    quads
}

fn names_of_places(alloc: Global, places: &[u32], names: &[u32]) -> Result<Vec<u32>, AllocError>
    requires { list_all (is_within places.now) names.now ≡ true }
    ensures { IfOk result (λ placed. placed.items ≡ map (slice_index places.now) names.now) }
{
    let mut placed = Vec::with_capacity(alloc, names.len())?;
    for name in names {
        placed.push(places[*name as usize])?;
    }
    Ok(placed)
}

/// Puts quads and names at the ends of two lists.
fn append_both(
    quads: &mut Vec<Quad<u32>>,
    names: &mut Vec<u32>,
    other_quads: &[Quad<u32>],
    other_names: &[u32],
) -> Result<(), AllocError>
    ensures quads { OnOk result (quads.new.items ≡ quads.old.items ++ other_quads.now) }
    ensures names { OnOk result (names.new.items ≡ names.old.items ++ other_names.now) }
    ensures err { OnErr result ((quads.new.items ≡ quads.old.items)
        × (names.new.items ≡ names.old.items)) }
{
    quads.reserve(other_quads.len())?;
    names.extend_from_slice(other_names)?;
    quads.extend_from_slice(other_quads)
}

/// The quads and names of a dataset, at places in a table that gets its terms.
fn parts_in(
    alloc: Global,
    terms: &mut TermTable,
    other: DataSet,
) -> Result<(Vec<Quad<u32>>, Vec<u32>), AllocError>
    ensures parts { IfOk result (λ r. dataset_at terms.new r.0.items r.1.items ≡ other) }
    ensures within { IfOk result (λ r. AreWithin terms.new r.0.items r.1.items) }
    ensures dataset { IsDataset term_order other }
    ensures kept { GoesOn terms.old terms.new }
{
    let DataSet {
        terms: others,
        quads,
        names,
    } = other;
    let places = terms.places_of(alloc, others)?;
    let quads = quads_of_places(alloc, places.as_slice(), quads.as_slice())?;
    let names = names_of_places(alloc, places.as_slice(), names.as_slice())?;
    Ok((quads, names))
}

/// The same, where several threads look for the terms that the table has.
fn parts_in_by<T: Threads + Sync>(
    rt: &T,
    alloc: Global,
    terms: &mut TermTable,
    other: DataSet,
) -> Result<(Vec<Quad<u32>>, Vec<u32>), AllocError>
    ensures parts { IfOk result (λ r. dataset_at terms.new r.0.items r.1.items ≡ other) }
    ensures within { IfOk result (λ r. AreWithin terms.new r.0.items r.1.items) }
    ensures dataset { IsDataset term_order other }
    ensures kept { GoesOn terms.old terms.new }
{
    let DataSet {
        terms: others,
        quads,
        names,
    } = other;
    let places = terms.places_of_by(rt, alloc, others)?;
    let quads = quads_placed_by(rt, places.as_slice(), quads);
    let names = names_of_places(alloc, places.as_slice(), names.as_slice())?;
    Ok((quads, names))
}

impl DataSet {
    /// No quad and no name.
    pub fn new(alloc: Global) -> DataSet
        ensures { result ≡ record { quads = []; names = [] } }
    {
        DataSet {
            terms: TermTable::new(alloc),
            quads: Vec::new(alloc),
            names: Vec::new(alloc),
        }
    }

    /// The dataset of the quads and names at these places, in any order and maybe more than once.
    /// It takes no memory.
    pub fn from_parts(terms: TermTable, quads: Vec<Quad<u32>>, names: Vec<u32>) -> DataSet
        requires within { AreWithin terms quads.items names.items }
        requires dataset { IsDataset term_order (dataset_at terms quads.items names.items) }
        ensures { result ≡ dataset_at terms quads.items names.items }
    {
        DataSet {
            terms,
            quads,
            names,
        }
    }

    /// Puts in a quad, and the name of its graph. An `Err`, which comes only where memory runs out,
    /// leaves the dataset as it was.
    pub fn add(&mut self, quad: Quad<Term>) -> Result<(), AllocError>
        ensures ok { OnOk result (self.new ≡ with_quad quad self.old) }
        ensures err { OnErr result (self.new ≡ self.old) }
    {
        let quad = placed_quad(&mut self.terms, quad)?;
        push_both(&mut self.quads, &mut self.names, quad)?;
        Ok(())
    }

    /// Puts in a graph, empty if no quad is in it. An `Err`, which comes only where memory runs
    /// out, leaves the dataset as it was.
    pub fn declare(&mut self, name: Term) -> Result<(), AllocError>
        ensures ok { OnOk result (self.new ≡ with_graph name self.old) }
        ensures err { OnErr result (self.new ≡ self.old) }
    {
        let place = self.terms.place_of(name)?;
        self.names.push(place)?;
        Ok(())
    }

    /// Puts in all quads and graphs of another dataset. An `Err`, which comes only where memory
    /// runs out, leaves the dataset as it was.
    pub fn unite(&mut self, other: DataSet) -> Result<(), AllocError>
        ensures ok { OnOk result (self.new ≡ united self.old other) }
        ensures err { OnErr result (self.new ≡ self.old) }
    {
        let alloc = *self.quads.allocator();
        let (quads, names) = parts_in(alloc, &mut self.terms, other)?;
        append_both(
            &mut self.quads,
            &mut self.names,
            quads.as_slice(),
            names.as_slice(),
        )?;
        Ok(())
    }

    /// The same, where several threads look for the terms that both have.
    pub fn unite_by<T: Threads + Sync>(&mut self, rt: &T, other: DataSet) -> Result<(), AllocError>
        ensures ok { OnOk result (self.new ≡ united self.old other) }
        ensures err { OnErr result (self.new ≡ self.old) }
    {
        let alloc = *self.quads.allocator();
        let (quads, names) = parts_in_by(rt, alloc, &mut self.terms, other)?;
        append_both(
            &mut self.quads,
            &mut self.names,
            quads.as_slice(),
            names.as_slice(),
        )?;
        Ok(())
    }

    /// Its terms, and its quads and graph names by places among them.
    pub fn parts(&self) -> Parts<'_>
        ensures parts { dataset_at result.terms.now result.quads.now result.names.now ≡ self.now }
        ensures within { AreWithin result.terms.now result.quads.now result.names.now }
        ensures once { AreApart result.terms.now }
        ensures dataset { IsDataset term_order self.now }
    {
        Parts {
            terms: self.terms.as_slice(),
            quads: self.quads.as_slice(),
            names: self.names.as_slice(),
        }
    }
    /// The same, taken out of it, so that no term is copied. An `Err` comes only where memory runs
    /// out.
    pub fn into_parts(self, alloc: Global) -> Result<OwnedParts, AllocError>
        ensures parts { IfOk result (λ parts. dataset_at parts.terms.items parts.quads.items
            parts.names.items ≡ self) }
        ensures within { IfOk result (λ parts. AreWithin parts.terms.items parts.quads.items
            parts.names.items) }
        ensures dataset { IsDataset term_order self }
    {
        let terms = self.terms.into_list(alloc)?;
        Ok(OwnedParts {
            terms,
            quads: self.quads,
            names: self.names,
        })
    }
}
