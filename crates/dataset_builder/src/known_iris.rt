//! IRIs of a text that have a place already, found by their texts.
ghost use Rattle.std.specs.Prelude.{◌≡◌, ◌++◌, ◌∷◌, [], IfSome, OnOk, OnErr};
ghost use Rattle.std.specs.List.{Contains};

use datasets::Quad;
use std::alloc::{AllocError, Global};
use std::hash::{FoldHasher, Hasher};
use std::marker::Model;
use terms::TermCow;

/// How many slots an IRI may stand in.
const REACH: usize = 16;

/// The slots of the first IRIs.
const FEWEST_SLOTS: usize = 1024;

/// What stands in a slot that has no IRI.
const EMPTY: u32 = u32::MAX;

/// An IRI's text, and the place of the IRI.
#[derive(Clone, Copy, Drop)]
pub(crate) struct KnownIri<'a> {
    pub(crate) text: &'a str,
    pub(crate) place: u32,
    hash: u32,
}

/// IRIs with their places, and slots that lead to them by the hashes of their texts. Contracts see
/// the list alone: what is found is told by its text, so nothing has to be known of the slots. One
/// that is not found is only slower to place.
#[derive(Drop)]
pub(crate) struct KnownIris<'a> {
    list: Vec<KnownIri<'a>>,
    slots: Vec<u32>,
}

impl<'a> Model for KnownIris<'a> {
    ghost use Rattle.std.specs.Prelude.{List};
    ghost use Rattle.dataset_builder.specs.declared.known_iris.KnownIri.{KnownIri};

    ghost Value = { List KnownIri };

    ghost view = { λ k. k.list.items };
}

/// Which IRI a term may be: an entry of the list. Nothing is known of a guess.
#[derive(Clone, Copy, Drop)]
pub(crate) struct Guess {
    hash: u32,
    entry: u32,
}

/// Guesses of a quad's subject and object. Its predicate and graph are few, and found soon.
#[derive(Clone, Copy, Drop)]
pub(crate) struct Guesses {
    pub(crate) subject: Guess,
    pub(crate) object: Guess,
}

/// No guess.
pub(crate) const NO_GUESS: Guess = Guess {
    hash: 0,
    entry: EMPTY,
};

/// No guesses.
pub(crate) const NO_GUESSES: Guesses = Guesses {
    subject: NO_GUESS,
    object: NO_GUESS,
};

/// The hash of a text.
pub(crate) fn hash_of(text: &str) -> u32 {
    let mut hasher = FoldHasher::default();
    hasher.write(text.as_bytes());
    let hash = hasher.finish();
    ((hash ^ (hash >> 32)) & 0xFFFF_FFFF) as u32
}

// A guess that has the hash alone.
fn first_guess(term: &TermCow<'_>) -> Guess {
    match term.borrowed_iri() {
        Some(text) => Guess {
            hash: hash_of(text),
            entry: EMPTY,
        },
        None => NO_GUESS,
    }
}

/// Guesses for these quads. They are made in turns of all quads, since a table of many IRIs lies in
/// slow memory, and what is asked for together comes together.
pub(crate) fn guesses_of(
    alloc: Global,
    known: &KnownIris<'_>,
    quads: &[Quad<TermCow<'_>>],
) -> Result<Vec<Guesses>, AllocError> {
    let mut guesses = Vec::new(alloc);
    guesses.reserve(quads.len())?;
    for quad in quads {
        guesses.push(Guesses {
            subject: first_guess(&quad.subject),
            object: first_guess(&quad.object),
        })?;
    }
    for guess in guesses.iter_mut() {
        guess.subject.entry = known.entry_of(guess.subject.hash);
        guess.object.entry = known.entry_of(guess.object.hash);
    }
    for (guess, quad) in guesses.iter_mut().zip(quads.iter()) {
        guess.subject.entry = known.likely(guess.subject.entry, &quad.subject);
        guess.object.entry = known.likely(guess.object.entry, &quad.object);
    }
    Ok(guesses)
}

// The last byte of a text.
fn last_of(text: &str) -> Option<u8> {
    text.as_bytes().last().copied()
}

// The slot so many steps behind the one that a hash leads to.
fn slot_at(slots: &[u32], hash: u32, step: usize) -> usize {
    (hash as usize).wrapping_add(step) & slots.len().saturating_sub(1)
}

// Leads a hash to an entry, in the place of another one where the slots within reach are taken.
fn put_slot(slots: &mut [u32], hash: u32, entry: u32) {
    for step in 0..REACH {
        let at = slot_at(slots, hash, step);
        if let Some(slot) = slots.get_mut(at) {
            if *slot == EMPTY {
                *slot = entry;
                return;
            }
        }
    }
    let at = slot_at(slots, hash, 0);
    if let Some(slot) = slots.get_mut(at) {
        *slot = entry;
    }
}

impl<'a> KnownIris<'a> {
    /// No IRI. It takes no memory.
    pub(crate) fn new(alloc: Global) -> KnownIris<'a>
        ensures { result ≡ [] }
    {
        KnownIris {
            list: Vec::new(alloc),
            slots: Vec::new(alloc),
        }
    }

    // The entry that has this hash, if one is found.
    fn entry_of(&self, hash: u32) -> u32 {
        for step in 0..REACH {
            let Some(entry) = self.slots.get(slot_at(self.slots.as_slice(), hash, step)) else {
                return EMPTY;
            };
            let Some(iri) = self.list.get(*entry as usize) else {
                return EMPTY;
            };
            if iri.hash == hash {
                return *entry;
            }
        }
        EMPTY
    }

    // The entry, if its text ends as that of the term does.
    fn likely(&self, entry: u32, term: &TermCow<'_>) -> u32 {
        match (self.list.get(entry as usize), term.borrowed_iri()) {
            (Some(iri), Some(text)) if last_of(iri.text) == last_of(text) => entry,
            _ => EMPTY,
        }
    }

    /// The IRI with this text, if the guess is right.
    pub(crate) fn guessed(&self, text: &str, guess: Guess) -> Option<KnownIri<'a>>
        ensures known { IfSome result (λ iri. Contains self.now iri) }
        ensures text { IfSome result (λ iri. iri.text.now ≡ text.now) }
    {
        let iri = self.list.get(guess.entry as usize)?;
        if iri.text == text {
            return Some(*iri);
        }
        None
    }

    /// The IRI with this text, whose hash this is, if it is found.
    pub(crate) fn find(&self, text: &str, hash: u32) -> Option<KnownIri<'a>>
        ensures known { IfSome result (λ iri. Contains self.now iri) }
        ensures text { IfSome result (λ iri. iri.text.now ≡ text.now) }
    {
        for step in 0..REACH {
            let entry = *self.slots.get(slot_at(self.slots.as_slice(), hash, step))?;
            let iri = self.list.get(entry as usize)?;
            if iri.hash == hash && iri.text == text {
                return Some(*iri);
            }
        }
        None
    }

    // Makes room for one more slot, so that no more than half of them are taken.
    fn grow(&mut self, alloc: Global) -> Result<(), AllocError>
        ensures { self.new ≡ self.old }
    {
        if self.list.len() < self.slots.len() / 2 {
            return Ok(());
        }
        let count = self.slots.len().saturating_mul(2).max(FEWEST_SLOTS);
        let mut slots = vec![in alloc; EMPTY; count]?;
        let mut entry = 0u32;
        for iri in &self.list {
            put_slot(slots.as_mut_slice(), iri.hash, entry);
            entry = entry.saturating_add(1);
        }
        self.slots = slots;
        Ok(())
    }

    /// Puts in an IRI whose text has this hash. An `Err` comes only where memory runs out.
    pub(crate) fn put(
        &mut self,
        alloc: Global,
        text: &'a str,
        hash: u32,
        place: u32,
    ) -> Result<(), AllocError>
        ensures ok { OnOk result (self.new ≡ self.old
            ++ record { text = text.entry; place = place; hash = hash } ∷ []) }
        ensures err { OnErr result (self.new ≡ self.old) }
    {
        self.grow(alloc)?;
        let entry = u32::try_from(self.list.len()).unwrap_or(EMPTY);
        self.list.push(KnownIri { text, place, hash })?;
        put_slot(self.slots.as_mut_slice(), hash, entry);
        Ok(())
    }
}
