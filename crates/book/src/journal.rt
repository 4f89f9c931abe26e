//! The entries of a book's journal, in blocks.
ghost use Rattle.std.specs.Prelude.{◌≡◌, ◌+◌, ◌^◌, ◌<◌, [], ◌∷◌, ◌++◌, length, slice_get, Some, OnOk};

use crate::packed_entry::PackedEntry;
use std::alloc::{AllocError, Global};
use std::marker::Model;
use std::mem::replace;

// How many entries a block has.
const BLOCK: usize = 4096;

// How many blocks there are at most. No machine has memory for so many.
const MOST_BLOCKS: usize = 1 << 50;

/// Entries of a journal, in order. They stand in blocks, so that growth copies no entry: what is
/// written stays where it is.
#[derive(Drop)]
pub struct Journal {
    // Each has as many entries as a block has.
    full: Vec<Vec<PackedEntry>>,
    // The block that is written.
    last: Vec<PackedEntry>,
}

impl Model for Journal {
    ghost use Rattle.book.specs.Entries.{Entries};

    ghost Value = { Entries };

    ghost use Rattle.book.specs.Journal.{entries_of, IsInBlocks};

    ghost view = { entries_of };

    ghost invariant = { IsInBlocks };
}

impl Journal {
    /// A journal with no entry. It takes no memory yet.
    pub(crate) fn new(alloc: Global) -> Journal
        ensures { result.entries ≡ [] }
    {
        Journal {
            full: Vec::new(alloc),
            last: Vec::new(alloc),
        }
    }

    /// How many entries there are.
    pub fn len(&self) -> usize
        ensures len { result ≡ length self.now.entries }
        ensures few { result < 2 ^ 63 }
    {
        self.full.len() * BLOCK + self.last.len()
    }

    /// The entry at a place, from 0.
    pub fn entry(&self, place: usize) -> &PackedEntry
        requires { place < length self.now.entries }
        ensures { slice_get self.now.entries place ≡ Some result.now }
    {
        match self.full.get(place / BLOCK) {
            Some(block) => &block[place % BLOCK],
            None => &self.last[place % BLOCK],
        }
    }

    /// Makes room for an entry more. An error comes only where memory runs out.
    pub(crate) fn reserve(&mut self, alloc: Global) -> Result<(), AllocError>
        ensures entries { self.new.entries ≡ self.old.entries }
        ensures room { OnOk result (0 < self.new.room) }
        ensures few { OnOk result (length self.new.entries + 1 < 2 ^ 63) }
    {
        let len = self.last.len();
        if len < BLOCK {
            return self.last.reserve_exact(BLOCK - len);
        }
        if self.full.len() == MOST_BLOCKS {
            return Err(AllocError);
        }
        self.full.reserve(1)?;
        let next = Vec::with_capacity(alloc, BLOCK)?;
        match self.full.push(replace(&mut self.last, next)) {
            Ok(()) => Ok(()),
            Err(_) => unreachable!(),
        }
    }

    /// Puts an entry behind the others, for which there is room.
    pub(crate) fn push(&mut self, entry: PackedEntry)
        requires { 0 < self.old.room }
        ensures { self.new.entries ≡ self.old.entries ++ entry ∷ [] }
    {
        match self.last.push(entry) {
            Ok(()) => (),
            Err(_) => unreachable!(),
        }
    }
}
