//! A book as its lock sees it.
ghost use Rattle.std.specs.Prelude.{◌≡◌, []};
ghost use Rattle.book.specs.Run.{state_of};
ghost use Rattle.shared.specs.Calls.{history_of, run_of, owner};

use block_machine::Entry;
use blocklock::Journaled;
use book::Book;
use datasets::Id;
use dict::Dict;
use meaning::Request;
use reads::View;
use sets::Items;

/// What a book is about: the terms that are numbered, the dataset before the first request, and the
/// requests.
#[derive(Drop)]
pub struct Subject {
    pub terms: Dict,
    pub base: View,
    pub block: Items<Request<Id>>,
}

/// A book that lies in a lock.
#[derive(Drop)]
pub struct Kept<'a> {
    pub book: Book<'a>,
}

impl<'a> Journaled for Kept<'a> {
    type Subject = Subject;

    type Entry = Entry;

    ghost history = { λ k. history_of k.book };

    ghost any_subject = { record { terms = []; base = record { quads = []; names = [] }; block = [] } };

    ghost worker_of = { owner };

    ghost front_of = { λ h. (state_of (run_of h.subject h.journal)).front };

    fn front(&self) -> usize {
        self.book.front()
    }
}
