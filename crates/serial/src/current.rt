//! A dataset that goes on from a base by changes, without a copy of the base.
ghost use Rattle.std.specs.Prelude.{◌≡◌, IfOk, OnOk, OnErr};
ghost use Rattle.reads.specs.Reads.{says, applied};

use datasets::{Id, Read};
use delta::Delta;
use reads::{Answered, CompactView, IndexedView, Scanned, Source, Stop};
use std::alloc::{AllocError, Global};
use std::marker::Model;
use version_overlay::Settled;

/// A base with changes of it, one after another. Contracts see the dataset that they make.
#[derive(Drop)]
pub(crate) struct Current<'a> {
    base: &'a IndexedView,
    changes: Settled,
}

impl<'a> Model for Current<'a> {
    ghost use Rattle.reads.specs.Reads.{View as Dataset};
    ghost use Rattle.version_overlay.specs.Settled.{changed_by};

    ghost Value = { Dataset };

    ghost view = { λ c. changed_by c.changes c.base.now };
}

impl<'a> Current<'a> {
    /// The base, before any change. An error comes only where memory runs out.
    #[tactic(auto, unfolding(version_overlay::specs::Settled::changed_by))]
    pub(crate) fn new(alloc: Global, base: &'a IndexedView) -> Result<Current<'a>, AllocError>
        ensures { IfOk result (λ current. current ≡ base.now) }
    {
        let orders = base.orders(alloc)?;
        let changes = Settled::new(alloc, orders.as_slice())?;
        Ok(Current { base, changes })
    }

    /// What the read says of the dataset.
    pub(crate) fn answer(&self, alloc: Global, read: &Read<Id>) -> Result<Answered, AllocError>
        ensures { IfOk result (λ answer. answer ≡ says read.now self.now) }
    {
        let scanned = Scanned::new(alloc, self.base, read)?;
        match self.changes.part(alloc, &scanned)? {
            Some(part) => part.answer(alloc, read),
            None => scanned.answer(alloc),
        }
    }

    /// The dataset goes on by one change. After want of memory it is as before.
    pub(crate) fn push(&mut self, alloc: Global, change: &Delta) -> Result<(), AllocError>
        ensures ok { OnOk result (self.new ≡ applied change.now self.old) }
        ensures err { OnErr result (self.new ≡ self.old) }
    {
        self.changes.push(alloc, change)?;
        self.changes.put_in_order(alloc);
        Ok(())
    }

    /// The dataset, by itself. An error comes only where memory runs out.
    pub(crate) fn into_dataset(self, alloc: Global) -> Result<CompactView, AllocError>
        ensures { IfOk result (λ dataset. dataset ≡ self.entry) }
    {
        self.changes.into_applied(alloc, self.base)
    }
}

/// The current dataset as what answers the reads of a request. It stops for want of memory alone.
#[derive(Drop)]
pub(crate) struct Reader<'s, 'a> {
    pub(crate) alloc: Global,
    pub(crate) current: &'s Current<'a>,
}

impl<'s, 'a> Source for Reader<'s, 'a> {
    ghost use Rattle.std.specs.Prelude.{◌≡◌};
    ghost use Rattle.reads.specs.Tells.{Tells};

    ghost asks = { λ reader read told reader'. (reader'.current.now ≡ reader.current.now) × Tells reader.current.now read told };

    fn ask(&mut self, read: &Read<Id>) -> Result<Answered, Stop> {
        Ok(self.current.answer(self.alloc, read)?)
    }
}
