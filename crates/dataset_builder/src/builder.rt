//! Datasets that are built of the terms of a text.
ghost use Rattle.std.specs.Prelude.{◌≡◌, [], IfOk, OnOk};
ghost use Rattle.terms.specs.DataSet.{with_quad, with_graph};
ghost use Rattle.dataset_builder.specs.Builder.{with_quads};

use crate::known_iris::NO_GUESSES;
use crate::placed::PlacedDataset;
use datasets::Quad;
use std::alloc::{AllocError, Global};
use std::marker::Model;
use std::mem::replace;
use terms::{DataSet, TermCow};

/// How many quads are placed together.
const TOGETHER: usize = 64;

/// A dataset that is built of the terms of a text. An IRI that came before is found again by its
/// text, without memory of its own. Contracts see the dataset.
#[derive(Drop)]
pub struct DatasetBuilder<'a> {
    alloc: Global,
    placed: PlacedDataset<'a>,
    // Quads whose terms have no place yet.
    waiting: Vec<Quad<TermCow<'a>>>,
}

impl<'a> Model for DatasetBuilder<'a> {
    ghost use Rattle.datasets.specs.Dataset.{Dataset};
    ghost use Rattle.terms.specs.declared.term.Term.{Term};
    ghost use Rattle.dataset_builder.specs.Builder.{with_quads};

    ghost Value = { Dataset Term };

    ghost view = { λ b. with_quads b.placed b.waiting.items };
}

/// Puts in these quads.
fn add_all<'a>(
    placed: &mut PlacedDataset<'a>,
    quads: Vec<Quad<TermCow<'a>>>,
) -> Result<(), AllocError>
    ensures { OnOk result (placed.new ≡ with_quads placed.old quads.entry.items) }
{
    let guesses = placed.guesses_of(quads.as_slice())?;
    let mut place = 0usize;
    for quad in quads {
        let guess = guesses.get(place).copied().unwrap_or(NO_GUESSES);
        placed.add(quad, guess)?;
        place = place.saturating_add(1);
    }
    Ok(())
}

impl<'a> DatasetBuilder<'a> {
    /// No quad and no name. It takes no memory.
    pub fn new(alloc: Global) -> DatasetBuilder<'a>
        ensures { result ≡ record { quads = []; names = [] } }
    {
        DatasetBuilder {
            alloc,
            placed: PlacedDataset::new(alloc),
            waiting: Vec::new(alloc),
        }
    }

    /// Puts in a quad, and the name of its graph. An `Err` comes only where memory runs out; what
    /// the builder holds then is not said, so a caller drops it.
    pub fn add(&mut self, quad: Quad<TermCow<'a>>) -> Result<(), AllocError>
        ensures { OnOk result (self.new ≡ with_quad quad.entry self.old) }
    {
        self.waiting.push(quad)?;
        if self.waiting.len() >= TOGETHER {
            let mut waiting = Vec::new(self.alloc);
            waiting.reserve(TOGETHER)?;
            add_all(&mut self.placed, replace(&mut self.waiting, waiting))?;
        }
        Ok(())
    }

    /// Puts in a graph, empty if no quad is in it. An `Err` comes only where memory runs out; what
    /// the builder holds then is not said, so a caller drops it.
    pub fn declare(&mut self, name: TermCow<'a>) -> Result<(), AllocError>
        ensures { OnOk result (self.new ≡ with_graph name.entry self.old) }
    {
        let waiting = replace(&mut self.waiting, Vec::new(self.alloc));
        add_all(&mut self.placed, waiting)?;
        self.placed.declare(name)
    }

    /// The dataset. An `Err` comes only where memory runs out.
    pub fn into_dataset(self) -> Result<DataSet, AllocError>
        ensures { IfOk result (λ dataset. dataset ≡ self.entry) }
    {
        let DatasetBuilder {
            mut placed,
            waiting,
            ..
        } = self;
        add_all(&mut placed, waiting)?;
        Ok(placed.into_dataset())
    }
}
