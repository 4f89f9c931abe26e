//! What one worker knows of a shared book.
ghost use Rattle.std.specs.Prelude.{◌≡◌, All, IfOk};
ghost use Rattle.block_machine.specs.Scans.{questions_of};
ghost use Rattle.shared.specs.Calls.{Viewed};

use crate::kept::Kept;
use block_machine::{Event, scans_of};
use blocklock::IntoPass;
use reads::{IndexedView, Scanned};
use std::alloc::{AllocError, Global};
use std::marker::Model;

/// What one worker knows of a shared book: its base, and the history that it has seen. It makes the
/// worker's calls.
#[derive(Drop)]
pub struct Pass<'a> {
    pub(crate) inner: blocklock::Pass<Kept<'a>>,
    pub(crate) base: &'a IndexedView,
}

impl<'a> Model for Pass<'a> {
    ghost use Rattle.std.specs.Coded.{codes};
    ghost use Rattle.std.specs.Prelude.{◌≡◌};
    ghost use Rattle.algebra.specs.Codes.{plan_code};
    ghost use Rattle.datasets.specs.declared.id.Id.{Id as Number};
    ghost use Rattle.shared.specs.Calls.{Viewed};

    ghost Value = { Viewed };

    ghost coded = { Prim.hlevel (codes, plan_code {K = Number} (Prim.hlevel codes)) };

    ghost view = { λ p. p.inner };

    ghost invariant = { λ p. p.base.now ≡ p.inner.subject.base };
}

impl<'a> Pass<'a> {
    /// The worker whose calls are made with it.
    pub fn worker(&self) -> u32
        ensures { result ≡ self.now.worker }
    {
        self.inner.worker()
    }

    // What an event's reads say of the base.
    pub(crate) fn scans(&self, alloc: Global, event: &Event) -> Result<Vec<Scanned<'a>>, AllocError>
        ensures { IfOk result (λ scans. scans.items ≡ questions_of self.now.subject.base event.now) }
    {
        scans_of(alloc, self.base, event)
    }
}

impl<'a> IntoPass<Kept<'a>> for Pass<'a> {
    ghost pass_of = { λ p. p };

    fn into_pass(self) -> blocklock::Pass<Kept<'a>> {
        self.inner
    }
}

// The passes of a book with this base.
pub(crate) fn with_base<'a>(
    alloc: Global,
    base: &'a IndexedView,
    inner: Vec<blocklock::Pass<Kept<'a>>>,
) -> Result<Vec<Pass<'a>>, AllocError>
    requires { All (λ (p : Viewed). p.subject.base ≡ base.now) inner.items }
    ensures { IfOk result (λ passes. passes.items ≡ inner.entry.items) }
{
    let mut left = inner;
    let mut passes = Vec::with_capacity(alloc, left.len())?;
    // The last one comes first.
    while let Some(inner) = left.pop() {
        passes.push(Pass { inner, base })?;
    }
    passes.reverse();
    Ok(passes)
}
