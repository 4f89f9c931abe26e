//! Reads with their answers, where a long answer needn't be kept: it is found again in the base,
//! with the changes that made it.
ghost use Rattle.std.specs.Prelude.{◌≡◌, ◌↔◌, IsTrue, None, IfOk};
ghost use Rattle.reads.specs.Reads.{says, told_quads};
ghost use Rattle.version_overlay.specs.WholeNote.{listed as the_listed, IsLong};
ghost use Rattle.version_overlay.specs.Settled.{changed_by};

use crate::along::answer_after;
use datasets::{Id, Read};
use delta::Delta;
use reads::{Answered, IndexedView};
use sets::Items;
use std::alloc::{AllocError, Global};
use std::marker::Model;

/// With fewer quads or names an answer takes no more memory than what it is found again by.
const WORTH_FORGETTING: usize = 64;

/// A read with its answer, which is kept or can be found again. To a contract it is the read with
/// the answer.
#[derive(Drop)]
pub struct WholeNote<'a> {
    read: Read<Id>,
    answer: Option<Answered>,
    // What the answer is found again by.
    base: &'a IndexedView,
    // Nothing where the answer is to be kept.
    changes: Option<Items<Delta>>,
}

impl<'a> Model for WholeNote<'a> {
    ghost use Rattle.reads.specs.declared.note.Note.{Note as Noted};
    ghost use Rattle.version_overlay.specs.WholeNote.{answer_in, CanForget};

    ghost Value = { Noted };

    ghost view = { λ n. record { read = n.read; answer = answer_in n.read n.base.now n.changes n.answer } };

    ghost invariant = { λ n. CanForget n.read n.base.now n.changes n.answer };
}

/// Whether an answer is so long that it isn't worth its memory: whether it has 64 quads or names.
#[tactic(auto, using(crate::proofs::Lengths::quads_long))]
pub fn is_long(answer: &Answered) -> bool
    ensures { IsTrue result ↔ IsLong answer.now }
{
    match answer.quads() {
        Some(quads) => WORTH_FORGETTING <= quads.len(),
        None => has_long_names(answer),
    }
}

// The same, where the answer isn't to a scan.
#[tactic(auto, using(crate::proofs::Lengths::names_long, crate::proofs::Lengths::none_long))]
fn has_long_names(answer: &Answered) -> bool
    requires { told_quads answer.now ≡ None }
    ensures { IsTrue result ↔ IsLong answer.now }
{
    match answer.names() {
        Some(names) => WORTH_FORGETTING <= names.len(),
        None => false,
    }
}

impl<'a> WholeNote<'a> {
    /// A read with its answer, which is kept.
    pub fn kept(base: &'a IndexedView, read: &Read<Id>, answer: Answered) -> WholeNote<'a>
        ensures { result ≡ record { read = read.now; answer = answer } }
    {
        WholeNote {
            read: *read,
            answer: Some(answer),
            base,
            changes: None,
        }
    }

    /// A read with its answer, which may be forgotten: the read says it of the base after these
    /// changes.
    pub fn lean(
        base: &'a IndexedView,
        read: &Read<Id>,
        answer: Answered,
        changes: Vec<Delta>,
    ) -> WholeNote<'a>
        requires { answer ≡ says read.now (changed_by changes.items base.now) }
        ensures { result ≡ record { read = read.now; answer = answer } }
    {
        WholeNote {
            read: *read,
            answer: Some(answer),
            base,
            changes: Some(Items::from_vec(changes)),
        }
    }

    /// The read.
    pub fn read(&self) -> &Read<Id>
        ensures { result.now ≡ self.now.read }
    {
        &self.read
    }

    /// The answer, shared where it is kept. An error comes only where memory runs out.
    pub fn answer(&self, alloc: Global) -> Result<Answered, AllocError>
        ensures { IfOk result (λ answer. answer ≡ self.now.answer) }
    {
        match &self.answer {
            Some(answer) => answer.copied(alloc),
            None => answer_after(alloc, self.base, listed(&self.changes), &self.read),
        }
    }

    /// The answer is no longer kept, if it can be found again.
    pub fn forget(&mut self)
        ensures { self.new ≡ self.old }
    {
        if self.changes.is_some() {
            self.answer = None;
        }
    }
}

// The changes, where there are any.
fn listed(changes: &Option<Items<Delta>>) -> &[Delta]
    ensures { result.now ≡ the_listed changes.now }
{
    match changes {
        Some(changes) => changes.as_slice(),
        None => &[],
    }
}
