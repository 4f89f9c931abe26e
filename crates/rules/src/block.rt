//! Blocks of requests.
ghost use Rattle.std.specs.Prelude.{◌≡◌, IfOk, length};
ghost use Rattle.rules.specs.Terms.{terms_of};

use crate::block_terms::add_requests;
use crate::lent::TermRef;
use crate::request::Checked;
use sets::Items;
use std::alloc::{AllocError, Global};
use std::marker::Model;

/// The requests of a block, in order. Contracts see them as a list.
#[derive(Drop)]
pub struct Block {
    requests: Items<Checked>,
}

impl Model for Block {
    ghost use Rattle.std.specs.Coded.{codes};
    ghost use Rattle.std.specs.Prelude.{List, Result};
    ghost use Rattle.algebra.specs.Codes.{plan_code};
    ghost use Rattle.terms.specs.declared.term.Term.{Term};
    ghost use Rattle.algebra.specs.declared.update.Operation.{Operation};
    ghost use Rattle.meaning.specs.declared.reply.Refusal.{Refusal};

    ghost Value = { List (Result (List (Operation Term)) Refusal) };

    ghost coded = { Prim.hlevel (codes, plan_code {K = Term} (Prim.hlevel codes)) };

    ghost view = { λ b. b.requests };
}

impl Block {
    /// The block of these requests. It takes no memory.
    pub fn new(requests: Items<Checked>) -> Block
        ensures { result ≡ requests }
    {
        Block { requests }
    }

    /// How many requests it has.
    pub fn len(&self) -> usize
        ensures { result ≡ length self.now }
    {
        self.requests.len()
    }

    /// Its requests.
    pub fn as_slice(&self) -> &[Checked]
        ensures { result.now ≡ self.now }
    {
        self.requests.as_slice()
    }

    /// Its requests, to be taken one by one. It takes no memory.
    pub fn into_vec(self) -> Vec<Checked>
        ensures { result.items ≡ self }
    {
        self.requests.into_vec()
    }

    /// All terms of its accepted requests, in order, where they lie. An error comes only where a
    /// growth was refused.
    pub fn terms(&self, alloc: Global) -> Result<Vec<TermRef<'_>>, AllocError>
        ensures { IfOk result (λ terms. terms.items ≡ terms_of self.now) }
    {
        let mut found = Vec::new(alloc);
        add_requests(&mut found, self.requests.as_slice())?;
        Ok(found)
    }
}
