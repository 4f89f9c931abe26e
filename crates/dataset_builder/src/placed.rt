//! Datasets whose terms have places, and the IRIs that were found by their texts.
ghost use Rattle.std.specs.Prelude.{◌≡◌, true, [], All, IfOk, OnOk, OnErr};
ghost use Rattle.std.specs.Option.{option_map};
ghost use Rattle.terms.specs.declared.term.Term.TheVariants as the_term;
ghost use Rattle.terms.specs.DataSet.{with_quad, with_graph};
ghost use Rattle.terms.specs.Placed.{term_at, quad_at, is_within, is_name_within, is_quad_within, GoesOn};
ghost use Rattle.dataset_builder.specs.Known.{IsKnown};

use crate::known_iris::{Guess, Guesses, KnownIris, NO_GUESS, guesses_of, hash_of};
use datasets::Quad;
use iris::IriCow;
use std::alloc::{AllocError, Global};
use std::marker::Model;
use terms::{DataSet, Term, TermCow, TermForm, TermTable, push_both};

/// A dataset whose terms come from a text, and the IRIs that were found by their texts. Contracts
/// see the dataset.
#[derive(Drop)]
pub(crate) struct PlacedDataset<'a> {
    alloc: Global,
    terms: TermTable,
    known: KnownIris<'a>,
    quads: Vec<Quad<u32>>,
    names: Vec<u32>,
}

impl<'a> Model for PlacedDataset<'a> {
    ghost use Rattle.datasets.specs.Dataset.{Dataset};
    ghost use Rattle.terms.specs.declared.term.Term.{Term};
    ghost use Rattle.terms.specs.Placed.{dataset_at};
    ghost use Rattle.dataset_builder.specs.Known.{IsPlaced};

    ghost Value = { Dataset Term };

    ghost view = { λ d. dataset_at d.terms d.quads.items d.names.items };

    ghost invariant = { λ d. IsPlaced d.terms d.known d.quads.items d.names.items };
}

/// The place of an IRI.
fn place_of_iri<'a>(
    alloc: Global,
    terms: &mut TermTable,
    known: &mut KnownIris<'a>,
    iri: IriCow<'a>,
    guess: Guess,
) -> Result<u32, AllocError>
    requires { All (IsKnown terms.old) known.old }
    ensures term { IfOk result (λ place. term_at terms.new place ≡ the_term.Iri iri.entry) }
    ensures within { IfOk result (λ place. is_within terms.new place ≡ true) }
    ensures kept { GoesOn terms.old terms.new }
    ensures known { All (IsKnown terms.new) known.new }
{
    let Some(text) = iri.borrowed() else {
        return terms.place_of(Term::Iri(iri.into_iri(alloc)?));
    };
    if let Some(found) = known.guessed(text, guess) {
        return Ok(found.place);
    }
    let hash = hash_of(text);
    if let Some(found) = known.find(text, hash) {
        return Ok(found.place);
    }
    let place = terms.place_of(Term::Iri(iri.into_iri(alloc)?))?;
    known.put(alloc, text, hash, place)?;
    Ok(place)
}

/// The place of a term.
fn place_of<'a>(
    alloc: Global,
    terms: &mut TermTable,
    known: &mut KnownIris<'a>,
    term: TermCow<'a>,
    guess: Guess,
) -> Result<u32, AllocError>
    requires { All (IsKnown terms.old) known.old }
    ensures term { IfOk result (λ place. term_at terms.new place ≡ term.entry) }
    ensures within { IfOk result (λ place. is_within terms.new place ≡ true) }
    ensures kept { GoesOn terms.old terms.new }
    ensures known { All (IsKnown terms.new) known.new }
{
    match term.into_form() {
        TermForm::Iri(iri) => place_of_iri(alloc, terms, known, iri, guess),
        TermForm::Other(term) => terms.place_of(Box::into_inner(term)),
    }
}

/// The place of a graph's name.
fn place_of_name<'a>(
    alloc: Global,
    terms: &mut TermTable,
    known: &mut KnownIris<'a>,
    name: Option<TermCow<'a>>,
) -> Result<Option<u32>, AllocError>
    requires { All (IsKnown terms.old) known.old }
    ensures name { IfOk result (λ n. option_map (term_at terms.new) n ≡ name.entry) }
    ensures within { IfOk result (λ n. is_name_within terms.new n ≡ true) }
    ensures kept { GoesOn terms.old terms.new }
    ensures known { All (IsKnown terms.new) known.new }
{
    match name {
        Some(name) => Ok(Some(place_of(alloc, terms, known, name, NO_GUESS)?)),
        None => Ok(None),
    }
}

/// The places of a quad's terms.
fn places_of_quad<'a>(
    alloc: Global,
    terms: &mut TermTable,
    known: &mut KnownIris<'a>,
    quad: Quad<TermCow<'a>>,
    guesses: Guesses,
) -> Result<Quad<u32>, AllocError>
    requires { All (IsKnown terms.old) known.old }
    ensures quad { IfOk result (λ q. quad_at terms.new q ≡ quad.entry) }
    ensures within { IfOk result (λ q. is_quad_within terms.new q ≡ true) }
    ensures kept { GoesOn terms.old terms.new }
    ensures known { All (IsKnown terms.new) known.new }
{
    let subject = place_of(alloc, terms, known, quad.subject, guesses.subject)?;
    let predicate = place_of(alloc, terms, known, quad.predicate, NO_GUESS)?;
    let object = place_of(alloc, terms, known, quad.object, guesses.object)?;
    let graph = place_of_name(alloc, terms, known, quad.graph)?;
    Ok(Quad {
        subject,
        predicate,
        object,
        graph,
    })
}

impl<'a> PlacedDataset<'a> {
    /// No quad and no name. It takes no memory.
    pub(crate) fn new(alloc: Global) -> PlacedDataset<'a>
        ensures { result ≡ record { quads = []; names = [] } }
    {
        PlacedDataset {
            alloc,
            terms: TermTable::new(alloc),
            known: KnownIris::new(alloc),
            quads: Vec::new(alloc),
            names: Vec::new(alloc),
        }
    }

    /// Puts in a quad, and the name of its graph. An `Err`, which comes only where memory runs out,
    /// leaves the dataset as it was.
    pub(crate) fn add(
        &mut self,
        quad: Quad<TermCow<'a>>,
        guesses: Guesses,
    ) -> Result<(), AllocError>
        ensures ok { OnOk result (self.new ≡ with_quad quad.entry self.old) }
        ensures err { OnErr result (self.new ≡ self.old) }
    {
        let quad = places_of_quad(self.alloc, &mut self.terms, &mut self.known, quad, guesses)?;
        push_both(&mut self.quads, &mut self.names, quad)?;
        Ok(())
    }

    /// Puts in a graph, empty if no quad is in it. An `Err`, which comes only where memory runs
    /// out, leaves the dataset as it was.
    pub(crate) fn declare(&mut self, name: TermCow<'a>) -> Result<(), AllocError>
        ensures ok { OnOk result (self.new ≡ with_graph name.entry self.old) }
        ensures err { OnErr result (self.new ≡ self.old) }
    {
        let place = place_of(self.alloc, &mut self.terms, &mut self.known, name, NO_GUESS)?;
        self.names.push(place)?;
        Ok(())
    }

    /// The dataset. It takes no memory.
    pub(crate) fn into_dataset(self) -> DataSet
        ensures { result ≡ self.entry }
    {
        DataSet::from_parts(self.terms, self.quads, self.names)
    }

    /// Where the subjects and the objects of these quads may be found.
    pub(crate) fn guesses_of(
        &self,
        quads: &[Quad<TermCow<'a>>],
    ) -> Result<Vec<Guesses>, AllocError> {
        guesses_of(self.alloc, &self.known, quads)
    }
}
