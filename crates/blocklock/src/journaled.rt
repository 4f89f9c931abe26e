ghost use Rattle.std.specs.Prelude.{◌≡◌, ℕ};
ghost use Rattle.blocklock.specs.History.{History};

/// What a lock keeps: a book, which is about something and has a journal.
pub trait Journaled: Drop {
    /// What it is about. It stays as it is.
    type Subject;
    /// An entry of the journal.
    type Entry;

    // What it is about, and its journal.
    ghost history: { Self → History Self.Subject Self.Entry };
    // Something that a book may be about. A seat that stands for nobody has it.
    ghost any_subject: { Self.Subject };
    // The worker whose entry it is.
    ghost worker_of: { Self.Entry → ℕ };
    // How many requests are committed after a journal.
    ghost front_of: { History Self.Subject Self.Entry → ℕ };

    /// How many requests are committed.
    fn front(&self) -> usize
        ensures { result ≡ front_of (history self.now) };
}
