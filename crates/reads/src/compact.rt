//! Datasets at numbers of terms, in little memory.
ghost use Rattle.std.specs.Prelude.{◌≡◌, IfOk};
ghost use Rattle.datasets.specs.Id.{id_order};
ghost use Rattle.change_laws.specs.Laws.{IsRising};
ghost use Rattle.quad_sets.specs.Pieces.{quads_in_pieces};

use crate::view::View;
use datasets::Id;
use quad_lists::QuadList;
use quad_sets::QuadSet;
use std::alloc::{AllocError, Global};
use std::marker::Model;

/// A dataset that is read through once, as the one that a block leaves. Its quads lie in pieces,
/// one behind another, as several threads make them. Contracts see the dataset.
#[derive(Drop)]
pub struct CompactView {
    quads: Vec<QuadList>,
    names: Vec<Id>,
}

impl Model for CompactView {
    ghost use Rattle.datasets.specs.Dataset.{Dataset};
    ghost use Rattle.datasets.specs.declared.id.Id.{Id};
    ghost use Rattle.datasets.specs.Id.{id_order};
    ghost use Rattle.change_laws.specs.Laws.{IsRising};
    ghost use Rattle.quad_sets.specs.Pieces.{quads_in_pieces};

    ghost Value = { Dataset Id };

    ghost view = { λ d. record { quads = quads_in_pieces d.quads.items; names = d.names.items } };

    ghost invariant = { λ d. IsRising id_order
        (record { quads = quads_in_pieces d.quads.items; names = d.names.items }) };
}

impl CompactView {
    /// A set of quads, in pieces one behind another, and a set of graph names. It takes no memory.
    pub fn from_pieces(quads: Vec<QuadList>, names: Vec<Id>) -> CompactView
        requires { IsRising id_order
            (record { quads = quads_in_pieces quads.items; names = names.items }) }
        ensures { result ≡ record { quads = quads_in_pieces quads.items; names = names.items } }
    {
        CompactView { quads, names }
    }

    /// These sets of quads and of graph names. An error comes only where memory runs out.
    pub fn from_sets(
        alloc: Global,
        quads: QuadSet,
        names: Vec<Id>,
    ) -> Result<CompactView, AllocError>
        requires { IsRising id_order (record { quads = quads; names = names.items }) }
        ensures { IfOk result (λ d. d ≡ record { quads = quads; names = names.items }) }
    {
        let mut pieces = Vec::new(alloc);
        pieces.push(quads.into_list())?;
        Ok(CompactView {
            quads: pieces,
            names,
        })
    }

    /// The same dataset. An error comes only where memory runs out.
    pub fn from_view(alloc: Global, view: View) -> Result<CompactView, AllocError>
        ensures { IfOk result (λ compact. compact ≡ view) }
    {
        view.rises();
        let (quads, names) = view.into_parts();
        CompactView::from_sets(alloc, quads, names)
    }

    /// Its quads, in pieces one behind another, and its graph names, by themselves.
    pub fn into_parts(self) -> (Vec<QuadList>, Vec<Id>)
        ensures quads { quads_in_pieces result.0.items ≡ self.quads }
        ensures names { result.1.items ≡ self.names }
    {
        (self.quads, self.names)
    }

    /// Its quads, in pieces one behind another.
    pub fn quads(&self) -> &[QuadList]
        ensures { quads_in_pieces result.now ≡ self.now.quads }
    {
        self.quads.as_slice()
    }
}
