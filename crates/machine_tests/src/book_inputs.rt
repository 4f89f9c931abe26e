//! What the shared book of a walk is about.
ghost use Rattle.std.specs.Prelude.{◌≡◌, IfOk};
ghost use Rattle.book.specs.Run.{HasAllTerms};
ghost use Rattle.machine_tests.specs.Terms.{IsKnownToAll};

use datasets::Id;
use dict::Dict;
use meaning::Request;
use numbering::Numbered;
use reads::{IndexedView, View};
use std::alloc::{AllocError, Global};
use std::marker::Model;

/// The terms that are numbered, the dataset before the first request, and the requests.
#[derive(Drop)]
pub struct Topic<'a> {
    pub terms: &'a Dict,
    pub base: &'a IndexedView,
    pub block: &'a [Request<Id>],
}

impl<'a> Model for Topic<'a> {
    ghost use Rattle.std.specs.Coded.{codes};
    ghost use Rattle.algebra.specs.Codes.{plan_code};
    ghost use Rattle.datasets.specs.declared.id.Id.{Id as Number};
    ghost use Rattle.shared.specs.declared.kept.Subject.{Subject};
    ghost use Rattle.book.specs.Run.{HasAllTerms};

    ghost Value = { Subject };

    ghost coded = { Prim.hlevel (codes, plan_code {K = Number} (Prim.hlevel codes)) };

    ghost view = { λ t. record { terms = t.terms.now; base = t.base.now; block = t.block.now } };

    ghost invariant = { λ t. HasAllTerms t.terms.now t.base.now t.block.now };
}

/// A base of no quads.
pub fn nothing(alloc: Global) -> Result<IndexedView, AllocError>
    ensures { IfOk result (λ base. IsKnownToAll base) }
{
    IndexedView::new(alloc, View::new(alloc), &[])
}

/// A numbered block over a base of its own.
pub fn topic_of<'a>(numbered: &'a Numbered, base: &'a IndexedView) -> Topic<'a>
    requires { HasAllTerms numbered.now.base.terms base.now numbered.now.block.items }
    ensures { result.base ≡ base.now }
{
    Topic {
        terms: numbered.base.terms(),
        base,
        block: &numbered.block,
    }
}
