//! IRIs that are written whole.
ghost use Rattle.std.specs.Prelude.{◌≡◌, IfOk, Some};
ghost use Rattle.iris.specs.Iri.{IsIri};

use crate::key::Key;
use iris::Iri;
use std::alloc::{AllocError, Global};
use std::collections::BTreeMap;
use std::marker::Model;

/// IRIs by their texts, so that each is made once. Which they are is no one's business: contracts
/// see nothing of it.
#[derive(Drop)]
pub(crate) struct WholeIris<'a> {
    made: BTreeMap<Key<'a>, Iri>,
}

impl<'a> Model for WholeIris<'a> {
    ghost use Rattle.names.specs.Made.{AreThemselves};

    ghost Value = { Unit {0} };

    ghost view = { λ _. tt };

    ghost invariant = { λ w. AreThemselves w.made };
}

impl<'a> WholeIris<'a> {
    /// No IRI.
    pub(crate) fn new(alloc: Global) -> WholeIris<'a> {
        WholeIris {
            made: BTreeMap::new(alloc),
        }
    }

    /// Keeps the IRI that a text is.
    #[tactic(auto, using(crate::proofs::MadeLaws::whole_more))]
    pub(crate) fn keep(&mut self, alloc: Global, text: &'a str) -> Result<(), AllocError>
        requires { IsIri text.now }
    {
        if self.made.contains_key(&Key::new(text.as_bytes())) {
            return Ok(());
        }
        if let Some(iri) = Iri::check(alloc, text)? {
            self.made.insert(Key::new(text.as_bytes()), iri)?;
        }
        Ok(())
    }

    /// The IRI that a text is. It is made where it isn't kept.
    pub(crate) fn iri(&self, alloc: Global, text: &'a str) -> Result<Option<Iri>, AllocError>
        requires { IsIri text.now }
        ensures { IfOk result (λ found. found ≡ Some text.now) }
    {
        match self.made.get(&Key::new(text.as_bytes())) {
            Some(iri) => Ok(Some(iri.copied(alloc)?)),
            None => Iri::check(alloc, text),
        }
    }
}
