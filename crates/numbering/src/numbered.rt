//! Bases and blocks at numbers of terms.
ghost use Rattle.std.specs.Prelude.{◌≡◌, true, Ok, IfOk};
ghost use Rattle.std.specs.List.{list_all};
ghost use Rattle.meaning_laws.specs.Renaming.{request_known};
ghost use Rattle.rules.specs.Terms.{terms_of};
ghost use Rattle.numbering.specs.Gathered.{HasTerms};
ghost use Rattle.numbering.specs.Numbered.{IsNumbered};
ghost use Rattle.store.specs.Base.{IsBaseOf};
ghost use Rattle.store.specs.Held.{is_held};

use crate::gathered::distinct;
use crate::lookup::slots_for;
use crate::orders::orders_for;
use crate::requests::{number_part, number_requests_by};
use datasets::Id;
use dict::Dict;
use meaning::Request;
use rules::Block;
use std::alloc::{AllocError, Global};
use std::thread::Threads;
use store::{Alone, Base, Hands, Together};
use terms::{DataSet, Term};

/// So many requests are worth a thread that numbers them.
const WORTH_A_THREAD: usize = 64;

/// A base and a block at numbers of terms, by the base's dictionary.
#[derive(Drop)]
pub struct Numbered {
    pub base: Base,
    pub block: Vec<Request<Id>>,
}

/// The terms of a block's accepted requests, each once.
fn terms_of(alloc: Global, block: &Block) -> Result<Vec<Term>, AllocError>
    ensures { IfOk result (λ terms. HasTerms terms.items (terms_of block.now)) }
{
    let found = block.terms(alloc)?;
    distinct(alloc, found.as_slice())
}

/// The same terms again, in the same memory.
fn copies_of(alloc: Global, terms: &[Term]) -> Result<Vec<Term>, AllocError>
    ensures { IfOk result (λ copies. copies.items ≡ terms.now) }
{
    let mut copies = Vec::with_capacity(alloc, terms.len())?;
    for term in terms {
        copies.push(term.copied(alloc)?)?;
    }
    Ok(copies)
}

/// A base, the terms of a block, which are in its dictionary, and their numbers.
#[derive(Drop)]
struct Based {
    base: Base,
    asked: Vec<Term>,
    ids: Vec<Id>,
}

impl Based {
    /// The base of a dataset and the terms of a block's accepted requests. The base's terms have
    /// their numbers from the sort that makes the dictionary, into which they go, and the base is
    /// kept in the orders that the block can use.
    fn new<H: Hands>(
        hands: &H,
        alloc: Global,
        dataset: DataSet,
        block: &Block,
    ) -> Result<Based, AllocError>
        requires { H.Ready }
        ensures base { IfOk result (λ b. IsBaseOf dataset b.base) }
        ensures held { IfOk result (λ b. list_all (request_known (is_held b.base.terms)) block.now
            ≡ true) }
    {
        let orders = orders_for(alloc, block)?;
        let terms = terms_of(alloc, block)?;
        let asked = copies_of(alloc, terms.as_slice())?;
        let (base, ids) = Base::new(hands, alloc, dataset, terms, &orders)?;
        Ok(Based { base, asked, ids })
    }

    /// Slots that lead to the block's terms.
    fn slots(&self, alloc: Global) -> Result<Vec<u32>, AllocError> {
        slots_for(alloc, self.asked.as_slice(), self.ids.as_slice())
    }

    /// The base with these requests, and all else let go.
    fn with(self, block: Result<Vec<Request<Id>>, AllocError>) -> Result<Numbered, AllocError>
        ensures { IfOk result (λ n. (n.base ≡ self.base) × (block ≡ Ok n.block)) }
    {
        let Based { base, asked, ids } = self;
        drop(asked);
        drop(ids);
        match block {
            Ok(block) => Ok(Numbered { base, block }),
            Err(error) => {
                drop(base);
                Err(error)
            }
        }
    }
}

/// A base and a block at numbers, by the dictionary of the terms of the base and of the block's
/// accepted requests. An error comes only where memory runs out.
pub fn number(alloc: Global, dataset: DataSet, block: Block) -> Result<Numbered, AllocError>
    ensures { IfOk result (λ n. IsNumbered dataset block n.base n.block.items) }
{
    let based = Based::new(&Alone, alloc, dataset, &block)?;
    let slots = based.slots(alloc)?;
    let terms = based.base.terms();
    let numbered = number_part(alloc, terms, slots.as_slice(), block.into_vec());
    based.with(numbered)
}

/// The same, put in order by several threads, and the requests numbered by so many, where there are
/// enough of them.
pub fn number_by<T: Threads + Sync>(
    rt: &T,
    alloc: Global,
    dataset: DataSet,
    block: Block,
    threads: usize,
) -> Result<Numbered, AllocError>
    ensures { IfOk result (λ n. IsNumbered dataset block n.base n.block.items) }
{
    let based = Based::new(&Together::new(rt), alloc, dataset, &block)?;
    let slots = based.slots(alloc)?;
    let (terms, requests) = (based.base.terms(), block.into_vec());
    let threads = threads.min(requests.len() / WORTH_A_THREAD + 1);
    let numbered = number_requests_by(rt, alloc, terms, slots.as_slice(), requests, threads);
    based.with(numbered)
}
