//! The reader.
ghost use Rattle.std.specs.Prelude.{◌≡◌, ◌+◌, ◌<◌, ◌^◌, IfOk, IsErrOf, IfErr, MatchOption, ℕ, OnOk, OnErr, Some, None, Ok, length};
ghost use Rattle.datasets.specs.Dataset.{Dataset};
ghost use Rattle.terms.specs.declared.term.Term.{Term};
ghost use Rattle.nquads_lines.specs.Lines.{lines};
ghost use Rattle.nquads.specs.Spelled.{Spells, IsFirstBad};
ghost use Rattle.nquads_lines.specs.Reading.{line_of};
ghost use Rattle.nquads.specs.Whole.{Faults, Reads, ReadsText, read_from, no_quads, keep};

use crate::fault::BaseFault;
use dataset_builder::DatasetBuilder;
use datasets::Quad;
use nquads_lines::laws::lines_are_read;
use nquads_lines::{Line, Stop, first_line, line_of};
use std::alloc::{AllocError, Global};
use terms::laws::lists_grow_as_datasets;
use terms::{DataSet, Term, TermCow};

/// Puts what a line says into the dataset.
fn keep<'a>(dataset: &mut DatasetBuilder<'a>, said: Line<'a>) -> Result<(), AllocError>
    ensures ok { OnOk result (dataset.new ≡ keep dataset.old said.entry) }
{
    match said {
        Line::Nothing => Ok(()),
        Line::Graph(name) => dataset.declare(name),
        Line::Statement(quad) => dataset.add(quad),
    }
}

/// What a line says, which has this number.
pub fn read_line(alloc: Global, line: &[u8], number: usize) -> Result<Line<'_>, BaseFault>
    ensures ok { IfOk result (λ said. line_of line.now ≡ Some said) }
    ensures bad { IfErr result (λ e. Faults e number (line_of line.now)) }
{
    match line_of(alloc, line) {
        Ok(said) => Ok(said),
        Err(Stop::Memory) => Err(BaseFault::OutOfMemory),
        Err(Stop::Bad) => Err(BaseFault::BadLine(number)),
    }
}

/// A quad of terms that have memory of their own.
fn owned_quad(alloc: Global, quad: Quad<TermCow<'_>>) -> Result<Quad<Term>, AllocError>
    ensures { IfOk result (λ owned. owned ≡ quad.entry) }
{
    let subject = quad.subject.into_term(alloc)?;
    let predicate = quad.predicate.into_term(alloc)?;
    let object = quad.object.into_term(alloc)?;
    let graph = match quad.graph {
        Some(name) => Some(name.into_term(alloc)?),
        None => None,
    };
    Ok(Quad {
        subject,
        predicate,
        object,
        graph,
    })
}

/// Puts what a line says into a dataset that outlives the text. An `Err` leaves it as it was.
fn keep_owned(alloc: Global, dataset: &mut DataSet, said: Line<'_>) -> Result<(), AllocError>
    ensures ok { OnOk result (dataset.new ≡ keep dataset.old said.entry) }
    ensures err { OnErr result (dataset.new ≡ dataset.old) }
{
    match said {
        Line::Nothing => Ok(()),
        Line::Graph(name) => dataset.declare(name.into_term(alloc)?),
        Line::Statement(quad) => dataset.add(owned_quad(alloc, quad)?),
    }
}

/// Reads a line, which has this number, and puts what it says into a dataset. An `Err` leaves it as
/// it was.
pub fn add_line(
    alloc: Global,
    dataset: &mut DataSet,
    line: &[u8],
    number: usize,
) -> Result<(), BaseFault>
    ensures ok { OnOk result (MatchOption (line_of line.now) ⊥
        (λ said. dataset.new ≡ keep dataset.old said)) }
    ensures bad { IfErr result (λ e. Faults e number (line_of line.now)) }
    ensures same { OnErr result (dataset.new ≡ dataset.old) }
{
    let said = match read_line(alloc, line, number) {
        Ok(said) => said,
        Err(fault) => return Err(fault),
    };
    match keep_owned(alloc, dataset, said) {
        Ok(()) => Ok(()),
        Err(_) => Err(BaseFault::OutOfMemory),
    }
}

/// A text that was read: what it spells, and how many of its lines have an end.
#[derive(Drop)]
pub struct ReadText {
    pub dataset: DataSet,
    pub ends: usize,
}

/// The dataset of a text's lines, and how many they are.
pub fn read_counted(alloc: Global, bytes: &[u8]) -> Result<ReadText, BaseFault>
    ensures read { ReadsText result (read_from no_quads 0 (lines bytes.now)) }
    ensures ends { IfOk result (λ text. text.ends + 1 ≡ length (lines bytes.now)) }
{
    let mut dataset = DatasetBuilder::new(alloc);
    let mut number = 0;
    let mut rest = Some(bytes);
    while let Some(text) = rest {
        let (line, after) = first_line(text);
        number += 1;
        keep(&mut dataset, read_line(alloc, line, number)?)?;
        rest = after;
    }
    Ok(ReadText {
        dataset: dataset.into_dataset()?,
        ends: number - 1,
    })
}

pub fn read_lines(alloc: Global, bytes: &[u8]) -> Result<DataSet, BaseFault>
    ensures { Reads result (read_from no_quads 0 (lines bytes.now)) }
{
    let text = read_counted(alloc, bytes)?;
    Ok(text.dataset)
}

/// The dataset that the bytes spell.
pub fn read_bytes(alloc: Global, bytes: &[u8]) -> Result<DataSet, BaseFault>
    ensures spelled { IfOk result (λ d. Spells bytes.now d) }
    // What is spelled is read, unless memory runs out.
    ensures only { (d : Dataset Term) → Spells bytes.now d → Reads result (Ok d) }
    // The first line that says nothing a line may say.
    ensures bad { (n : ℕ) → IsErrOf result (BaseFault.BadLine n) → IsFirstBad bytes.now n }
{
    lines_are_read();
    lists_grow_as_datasets();
    read_lines(alloc, bytes)
}
