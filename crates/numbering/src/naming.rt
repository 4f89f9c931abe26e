//! Datasets of numbers at terms again.
ghost use Rattle.std.specs.Prelude.{◌≡◌, ◌++◌, ◌∷◌, [], true, OnOk, IfOk, List, map};
ghost use Rattle.std.specs.List.{list_all};
ghost use Rattle.std.specs.Option.{option_map};
ghost use Rattle.datasets.specs.declared.id.Id.{Id};
ghost use Rattle.datasets.specs.declared.quad.Quad.{Quad};
ghost use Rattle.datasets.specs.Dataset.{IsDataset};
ghost use Rattle.dict.specs.Dictionary.{term_of, is_known};
ghost use Rattle.quad_lists.specs.Part.{quads_of_part};
ghost use Rattle.quad_sets.specs.Pieces.{quads_in_pieces};
ghost use Rattle.terms.specs.declared.term.Term.{Term as OneTerm};
ghost use Rattle.terms.specs.Term.{term_order};
ghost use Rattle.terms.specs.Placed.{term_at, quad_at, is_within, is_name_within, is_quad_within, GoesOn};
ghost use Rattle.meaning_laws.specs.Renaming.{renamed, renamed_quad, dataset_known, quad_known, option_known};
ghost use Rattle.numbering.specs.Tables.{StandFor, StandsForMore, NamesStandFor, places_of};

use datasets::Quad;
use dict::{Dict, Id};
use quad_lists::{KnownQuad, Part, QuadList};
use reads::CompactView;
use std::alloc::{AllocError, Global};
use terms::laws::terms_keep_places;
use terms::{DataSet, Term, TermTable};

/// The place of a number's term in a table that goes on from a dictionary's terms, so that a known
/// number is its term's place. A made node is put in.
fn place_of(table: &mut TermTable, id: Id) -> Result<u32, AllocError>
    requires { is_known table.old id ≡ true }
    ensures term { IfOk result (λ place. term_at table.new place ≡ term_of table.old id) }
    ensures within { IfOk result (λ place. is_within table.new place ≡ true) }
    ensures kept { GoesOn table.old table.new }
{
    match id {
        Id::Known(number) => Ok(number),
        Id::Made {
            request,
            op,
            label,
            rank,
        } => table.place_of(Term::Made {
            request,
            op,
            label,
            rank,
        }),
    }
}

fn place_name(table: &mut TermTable, name: Option<Id>) -> Result<Option<u32>, AllocError>
    requires { option_known (is_known table.old) name ≡ true }
    ensures name { IfOk result (λ place. option_map (term_at table.new) place
        ≡ option_map (term_of table.old) name) }
    ensures within { IfOk result (λ place. is_name_within table.new place ≡ true) }
    ensures kept { GoesOn table.old table.new }
{
    match name {
        Some(id) => Ok(Some(place_of(table, id)?)),
        None => Ok(None),
    }
}

fn place_quad(table: &mut TermTable, quad: &Quad<Id>) -> Result<Quad<u32>, AllocError>
    requires { quad_known (is_known table.old) quad.now ≡ true }
    ensures quad { IfOk result (λ q. quad_at table.new q
        ≡ renamed_quad (term_of table.old) quad.now) }
    ensures within { IfOk result (λ q. is_quad_within table.new q ≡ true) }
    ensures kept { GoesOn table.old table.new }
{
    terms_keep_places();
    let subject = place_of(table, quad.subject)?;
    let predicate = place_of(table, quad.predicate)?;
    let object = place_of(table, quad.object)?;
    let graph = place_name(table, quad.graph)?;
    Ok(Quad {
        subject,
        predicate,
        object,
        graph,
    })
}

/// Adds the places of a quad's terms.
fn push_quad(
    table: &mut TermTable,
    list: &mut Vec<Quad<u32>>,
    quad: &Quad<Id>,
) -> Result<(), AllocError>
    requires { quad_known (is_known table.old) quad.now ≡ true }
    ensures kept { OnOk result (GoesOn table.old table.new) }
    ensures stands { OnOk result ((dict : List OneTerm) (done : List (Quad Id))
        → GoesOn dict table.old → quad_known (is_known dict) quad.now ≡ true
        → StandFor dict table.old list.old.items done
        → StandFor dict table.new list.new.items (done ++ quad.now ∷ [])) }
{
    terms_keep_places();
    let placed = place_quad(table, quad)?;
    list.push(placed)?;
    Ok(())
}

/// Adds the places of the terms of quads, one after another.
fn push_each(
    table: &mut TermTable,
    list: &mut Vec<Quad<u32>>,
    quads: &[Quad<Id>],
) -> Result<(), AllocError>
    requires { list_all (quad_known (is_known table.old)) quads.now ≡ true }
    ensures kept { OnOk result (GoesOn table.old table.new) }
    ensures stands { OnOk result
        (StandsForMore table.old list.old.items table.new list.new.items quads.now) }
{
    terms_keep_places();
    for quad in quads {
        push_quad(table, list, quad)?;
    }
    Ok(())
}

/// The places of the terms of a quad of known terms: their numbers.
fn place_known(quad: &KnownQuad) -> Quad<u32>
    ensures { result ≡ places_of quad.now }
{
    Quad {
        subject: quad.subject,
        predicate: quad.predicate,
        object: quad.object,
        graph: quad.graph,
    }
}

fn push_known(list: &mut Vec<Quad<u32>>, quads: &[KnownQuad]) -> Result<(), AllocError>
    ensures { OnOk result (list.new.items ≡ list.old.items ++ map places_of quads.now) }
{
    for quad in quads {
        list.push(place_known(quad))?;
    }
    Ok(())
}

/// Adds the places of quads' terms. No term is looked at where all are known.
fn push_quads(
    table: &mut TermTable,
    list: &mut Vec<Quad<u32>>,
    quads: Part<'_>,
) -> Result<(), AllocError>
    requires { list_all (quad_known (is_known table.old)) (quads_of_part quads) ≡ true }
    ensures kept { OnOk result (GoesOn table.old table.new) }
    ensures stands { OnOk result (StandsForMore table.old list.old.items table.new list.new.items
        (quads_of_part quads.entry)) }
{
    terms_keep_places();
    match quads {
        Part::Narrow(known) => push_known(list, known),
        Part::Wide(quads) => push_each(table, list, quads),
    }
}

/// The places of the terms of quads that lie in pieces, one behind another.
fn place_quads(
    alloc: Global,
    table: &mut TermTable,
    pieces: &[QuadList],
) -> Result<Vec<Quad<u32>>, AllocError>
    requires { list_all (quad_known (is_known table.old)) (quads_in_pieces pieces.now) ≡ true }
    ensures kept { IfOk result (λ list. GoesOn table.old table.new) }
    ensures stands { IfOk result (λ list. StandFor table.old table.new list.items
        (quads_in_pieces pieces.now)) }
{
    terms_keep_places();
    let mut list = Vec::new(alloc);
    list.reserve(quads_of(pieces))?;
    for piece in pieces {
        push_quads(table, &mut list, piece.lent())?;
    }
    Ok(list)
}

/// How many quads lie in pieces.
fn quads_of(pieces: &[QuadList]) -> usize {
    let mut count = 0usize;
    for piece in pieces {
        count = count.saturating_add(piece.len());
    }
    count
}

/// Adds the place of a name.
fn push_name(table: &mut TermTable, list: &mut Vec<u32>, name: Id) -> Result<(), AllocError>
    requires { is_known table.old name ≡ true }
    ensures kept { OnOk result (GoesOn table.old table.new) }
    ensures stands { OnOk result ((dict : List OneTerm) (done : List Id)
        → GoesOn dict table.old → is_known dict name ≡ true
        → NamesStandFor dict table.old list.old.items done
        → NamesStandFor dict table.new list.new.items (done ++ name ∷ [])) }
{
    terms_keep_places();
    let placed = place_of(table, name)?;
    list.push(placed)?;
    Ok(())
}

/// The places of names.
fn place_names(alloc: Global, table: &mut TermTable, names: &[Id]) -> Result<Vec<u32>, AllocError>
    requires { list_all (is_known table.old) names.now ≡ true }
    ensures kept { IfOk result (λ list. GoesOn table.old table.new) }
    ensures stands { IfOk result (λ list. NamesStandFor table.old table.new list.items names.now) }
{
    terms_keep_places();
    let mut list = Vec::new(alloc);
    for name in names {
        push_name(table, &mut list, *name)?;
    }
    Ok(list)
}

/// The dataset of terms that a dataset of numbers stands for: each term once, taken out of the
/// dictionary, and no term made again for a quad. An error comes only where memory runs out.
pub fn named(alloc: Global, terms: Dict, view: CompactView) -> Result<DataSet, AllocError>
    requires known { dataset_known (is_known terms) view ≡ true }
    requires dataset { IsDataset term_order (renamed (term_of terms) view) }
    ensures { IfOk result (λ d. d ≡ renamed (term_of terms) view) }
{
    terms_keep_places();
    let mut table = TermTable::from_list(terms.into_terms());
    let (quads, names) = view.into_parts();
    let quads = place_quads(alloc, &mut table, quads.as_slice())?;
    let names = place_names(alloc, &mut table, names.as_slice())?;
    Ok(DataSet::from_parts(table, quads, names))
}
