//! Answers to reads.
ghost use Rattle.std.specs.Prelude.{◌≡◌, ◌↔◌, IsTrue, IsOk, IfOk, option_copied};
ghost use Rattle.datasets.specs.Dataset.{Quads, Is, Names};
ghost use Rattle.reads.specs.Kept.{told_by, IsTruth};
ghost use Rattle.reads.specs.Reads.{told_quads, told_names, told_is};
ghost use Rattle.reads.specs.Same.{answer_eq};

use crate::same::{same_bool, same_names, same_quads};
use datasets::Id;
use quad_lists::QuadList;
use std::alloc::{AllocError, Global};
use std::marker::Model;
use std::sync::Arc;

/// What an answer to a read tells, its quads in little memory where all are of known terms.
#[derive(Drop)]
pub enum KeptAnswer {
    /// The quads that a scan found.
    Quads(QuadList),
    /// Whether the one graph name that was asked for is there.
    Is(bool),
    /// All graph names.
    Names(Vec<Id>),
}

// A list has several owners. A truth value needs no memory of its own.
#[derive(Drop)]
enum Form {
    Quads(Arc<QuadList, Global>),
    Is(bool),
    Names(Arc<Vec<Id>, Global>),
}

/// An answer to a read, whose list is shared and not copied. Contracts see what it tells.
#[derive(Drop)]
pub struct Answered {
    form: Form,
}

impl Model for Answered {
    ghost use Rattle.datasets.specs.Dataset.{Told};
    ghost use Rattle.datasets.specs.declared.id.Id.{Id};
    ghost use Rattle.reads.specs.Kept.{answer_of};

    ghost Value = { Told Id };

    ghost view = { λ a. answer_of a.form };
}

impl Answered {
    /// This answer. A truth value takes no memory.
    pub fn new(alloc: Global, answer: KeptAnswer) -> Result<Answered, AllocError>
        ensures same { IfOk result (λ shared. shared ≡ told_by answer) }
        ensures truth { IsTruth answer → IsOk result }
    {
        let form = match answer {
            KeptAnswer::Quads(quads) => Form::Quads(Arc::new(alloc, quads)?),
            KeptAnswer::Is(so) => Form::Is(so),
            KeptAnswer::Names(names) => Form::Names(Arc::new(alloc, names)?),
        };
        Ok(Answered { form })
    }

    /// The quads, if it is the answer to a scan.
    pub fn quads(&self) -> Option<&QuadList>
        ensures { option_copied result ≡ told_quads self.now }
    {
        match &self.form {
            Form::Quads(quads) => Some(&**quads),
            _ => None,
        }
    }

    /// Whether the graph name is there, if it is the answer to a question for one name.
    pub fn is(&self) -> Option<bool>
        ensures { result ≡ told_is self.now }
    {
        match &self.form {
            Form::Is(so) => Some(*so),
            _ => None,
        }
    }

    /// The graph names, if it is the answer to the question for all.
    pub fn names(&self) -> Option<&[Id]>
        ensures { option_copied result ≡ told_names self.now }
    {
        match &self.form {
            Form::Names(names) => Some(names.as_slice()),
            _ => None,
        }
    }

    /// The same answer again, for one owner more. It takes no memory, and fails only where there
    /// are too many owners.
    pub fn copied(&self, _alloc: Global) -> Result<Self, AllocError>
        ensures { IfOk result (λ copy. copy ≡ self.now) }
    {
        let form = match &self.form {
            Form::Quads(quads) => Form::Quads(Arc::try_clone(quads)?),
            Form::Is(so) => Form::Is(*so),
            Form::Names(names) => Form::Names(Arc::try_clone(names)?),
        };
        Ok(Answered { form })
    }

    // The test, as the definition has it.
    fn equals(&self, other: &Answered) -> bool
        ensures { result ≡ answer_eq self.now other.now }
    {
        match (&self.form, &other.form) {
            (Form::Quads(x), Form::Quads(y)) => same_quads(x, y),
            (Form::Is(x), Form::Is(y)) => same_bool(*x, *y),
            (Form::Names(x), Form::Names(y)) => same_names(x, y),
            _ => false,
        }
    }

    /// Whether two answers tell the same.
    pub fn is_same(&self, other: &Answered) -> bool
        ensures value { result ≡ answer_eq self.now other.now }
        ensures exact { IsTrue result ↔ (self.now ≡ other.now) }
    {
        self.equals(other)
    }
}
