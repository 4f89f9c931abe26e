//! The base of a block.
ghost use Rattle.std.specs.Prelude.{◌≡◌, ◌++◌, true, map, filter, IfOk};
ghost use Rattle.std.specs.List.{list_all};
ghost use Rattle.sets.specs.Sets.{set_of};
ghost use Rattle.terms.specs.Term.{term_order};
ghost use Rattle.dict.specs.Dictionary.{IsDictionary, is_written, is_known, term_of};
ghost use Rattle.reads.specs.Reads.{IsDataset};
ghost use Rattle.store.specs.Base.{IsBaseOf};
ghost use Rattle.store.specs.Held.{is_held};

use crate::hands::Hands;
use crate::numbers::{distinct, name_numbers};
use canonical_nquads::tag;
use datasets::{Id, Quad, Read};
use dict::Dict;
use dict::laws::is_renaming;
use quad_lists::{Arrangement, KnownQuad};
use reads::{Answered, IndexedView, Source, Stop};
use std::alloc::{AllocError, Global};
use std::marker::Model;
use terms::{DataSet, Term};

/// A base: the dictionary of its terms and of others, its dataset at their numbers, and the tag
/// that made nodes are written with.
#[derive(Drop)]
pub struct Base {
    alloc: Global,
    terms: Dict,
    dataset: IndexedView,
    tag: u32,
}

impl Model for Base {
    ghost use Rattle.store.specs.Base.{Base as Viewed};

    ghost Value = { Viewed };

    ghost view = { λ b. record { terms = b.terms; dataset = b.dataset; tag = b.tag } };

    ghost use Rattle.reads.specs.Reads.{IsDataset};

    ghost invariant = { λ b. IsDataset b.dataset };
}

// The dictionary of these terms and of more, the numbers of both lists, and room for so many quads.
fn numbered_both<H: Hands>(
    hands: &H,
    alloc: Global,
    mut terms: Vec<Term>,
    mut more: Vec<Term>,
    quads: usize,
) -> Result<(Dict, Vec<Id>, Vec<Id>, Vec<KnownQuad>), AllocError>
    requires { H.Ready }
    ensures terms { IfOk result (λ r. r.0 ≡ set_of term_order
        (filter is_written (terms.items ++ more.items))) }
    ensures form { IfOk result (λ r. IsDictionary r.0) }
    ensures renamed { IfOk result (λ r. map (term_of r.0) r.1.items ≡ terms.items) }
    ensures known { IfOk result (λ r. list_all (is_known r.0) r.1.items ≡ true) }
    ensures more_renamed { IfOk result (λ r. map (term_of r.0) r.2.items ≡ more.items) }
    ensures more_known { IfOk result (λ r. list_all (is_known r.0) r.2.items ≡ true) }
{
    let count = terms.len();
    terms.append(&mut more)?;
    let (dict, mut ids, room) = hands.numbered(alloc, terms, quads)?;
    let others = ids.split_off(count)?;
    Ok((dict, ids, others, room))
}

impl Base {
    /// The base of a dataset, with the dictionary of its terms and of more, none of which is
    /// copied, its quads in these orders beside SPOG, and the numbers of those that are more.
    /// Numbers come of the sort that puts the terms in order, and who sorts changes nothing in the
    /// answer. An error comes only where memory runs out.
    pub fn new<H: Hands>(
        hands: &H,
        alloc: Global,
        dataset: DataSet,
        more: Vec<Term>,
        orders: &[Arrangement],
    ) -> Result<(Base, Vec<Id>), AllocError>
        requires { H.Ready }
        ensures base { IfOk result (λ r. IsBaseOf dataset r.0) }
        ensures held { IfOk result (λ r. list_all (is_held r.0.terms) more.items ≡ true) }
        ensures renamed { IfOk result (λ r. map (term_of r.0.terms) r.1.items ≡ more.items) }
        ensures known { IfOk result (λ r. list_all (is_known r.0.terms) r.1.items ≡ true) }
    {
        is_renaming();
        let tag = tag(alloc, &dataset)?;
        let parts = dataset.into_parts(alloc)?;
        let count = parts.quads.len();
        let (terms, ids, others, room) = numbered_both(hands, alloc, parts.terms, more, count)?;
        let quads = hands.placed(alloc, ids.as_slice(), parts.quads.as_slice(), room)?;
        hands.let_go(parts.quads);
        let places = distinct(parts.names);
        let names = name_numbers(alloc, ids.as_slice(), places.as_slice())?;
        let indexed = hands.indexed(alloc, quads, names, orders)?;
        let base = Base {
            alloc,
            terms,
            dataset: indexed,
            tag,
        };
        Ok((base, others))
    }

    /// Its dictionary.
    pub fn terms(&self) -> &Dict
        ensures { result.now ≡ self.now.terms }
    {
        &self.terms
    }

    /// Its dictionary, taken out of it. All else is let go.
    pub fn into_terms(self) -> Dict
        ensures { result ≡ self.terms }
    {
        self.terms
    }

    /// Its dictionary and its dataset, by themselves.
    pub fn apart(self) -> (Dict, IndexedView)
        ensures terms { result.0 ≡ self.terms }
        ensures dataset { result.1 ≡ self.dataset }
    {
        (self.terms, self.dataset)
    }

    /// Its dataset.
    pub fn dataset(&self) -> &IndexedView
        ensures value { result.now ≡ self.now.dataset }
        ensures dataset { IsDataset result.now }
    {
        &self.dataset
    }

    /// Its tag.
    pub fn tag(&self) -> u32
        ensures { result ≡ self.now.tag }
    {
        self.tag
    }
}

/// It answers what a read says of its dataset. It waits for nobody, and stops for want of memory
/// alone, which it doesn't need to say whether a name is there.
impl<'a> Source for &'a Base {
    ghost use Rattle.std.specs.Prelude.{◌≡◌};
    ghost use Rattle.reads.specs.Tells.{TellsNames};

    ghost asks = { λ base read told base'. (base'.now ≡ base.now) × TellsNames base.now.dataset read told };

    fn ask(&mut self, read: &Read<Id>) -> Result<Answered, Stop> {
        let base: &Base = self;
        Ok(base.dataset.answer(base.alloc, read)?)
    }
}
