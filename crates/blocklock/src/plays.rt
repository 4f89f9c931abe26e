// The rule of the table, and the kinds of step.
ghost use Rattle.std.specs.Prelude.{length};
ghost use Rattle.blocklock.specs.Rule.{Kept, first_view, took, gave, rest_of, one_of, joined, spent};

use crate::journaled::Journaled;
use crate::view::View;
use atomic_table::{Join, Play, Split, TableRule};
use std::boxed::Box;
use std::marker::PhantomData;
use std::snapshot::Snapshot;

pub(crate) type Slot<B> = Option<Box<B>>;

// What a seat of a book's table knows.
pub(crate) type ViewOf<B> = View<<B as Journaled>::Subject, <B as Journaled>::Entry>;

pub(crate) struct Rule;

// What a table is told when it is made: the book that is put in, and how many workers have passes.
#[derive(Drop)]
pub(crate) struct Key<B> {
    pub(crate) book: Snapshot<B>,
    pub(crate) seats: u32,
}

impl<B: Journaled> TableRule<Slot<B>, ViewOf<B>, Key<B>> for Rule {
    ghost holds = { λ key. Kept B.worker_of (λ b. B.history b.value) (B.history key.book.value).subject key.seats (length (B.history key.book.value).journal) };

    ghost first = { λ key. first_view key.seats (B.history key.book.value) };
}

// To try to take the word.
pub(crate) struct Take;

impl<B: Journaled> Play<Slot<B>, ViewOf<B>> for Take {
    ghost then = { took B.worker_of (λ b. B.history b.value) };
}

// To give it back.
pub(crate) struct Give;

impl<B: Journaled> Play<Slot<B>, ViewOf<B>> for Give {
    ghost then = { gave (λ b. B.history b.value) };
}

// A seat that stands for several workers gives the first of them away.
pub(crate) struct One;

impl<S, E> Split<View<S, E>> for One {
    ghost left = { rest_of };

    ghost right = { one_of };
}

// The seat that holds the book takes in another.
pub(crate) struct TakeIn<B> {
    of: PhantomData<B>,
}

impl<B: Journaled> Join<ViewOf<B>> for TakeIn<B> {
    ghost both = { joined };

    ghost spent = { spent B.any_subject };
}
