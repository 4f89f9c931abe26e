//! What a line says, read from left to right.
ghost use Rattle.std.specs.Prelude.{◌≡◌, ◌≤◌, length, drop, nat_eq, true, false, MatchOption};
ghost use Rattle.std.specs.List.{prefix_len, starts_with};
ghost use Rattle.iris.specs.Runs.{rest_of};
ghost use Rattle.nquads_lines.specs.Line.{is_blank, graph_mark};
ghost use Rattle.nquads_lines.specs.Reading.{Gives, ends, graph_at, statement_at, is_empty, declared_at, line_of};

use crate::escapes::after;
use crate::forms::{begins_with, object_cow_at, subject_at};
use crate::quoted::iri_at;
use crate::stop::{Line, Stop};
use datasets::Quad;
use iris::laws::run_by_length;
use iris::text_of;
use std::alloc::Global;
use terms::TermCow;

fn is_blank(b: u8) -> bool
    ensures { result ≡ is_blank b }
{
    b == b' ' || b == b'\t'
}

fn blank_len(text: &[u8]) -> usize
    ensures within { result ≤ length text.now }
    ensures run { result ≡ prefix_len is_blank text.now }
{
    text.iter().take_while(|b| is_blank(**b)).count()
}

/// What follows the blanks at the front of a text.
#[tactic(auto, using(crate::proofs::CutLaws::blank_cut))]
fn skip_blanks(text: &str) -> &str
    ensures { result.now ≡ rest_of is_blank text.now }
{
    run_by_length();
    let (_, rest) = text.split_at(blank_len(text.as_bytes()));
    rest
}

/// Whether nothing more than blanks and a comment stands in a text.
#[tactic(auto, unfolding(crate::specs::Reading::ends))]
fn ends(text: &str) -> bool
    ensures { result ≡ ends text.now }
{
    match skip_blanks(text).as_bytes() {
        [] => true,
        [first, ..] => *first == b'#',
    }
}

/// The graph of a statement, if it names one, and what follows it and its blanks.
#[tactic(auto, unfolding(crate::specs::Reading::graph_at))]
fn graph_at(alloc: Global, text: &str) -> Result<(Option<TermCow<'_>>, &str), Stop>
    ensures { Gives (λ x. (x.0, x.1.now)) result (graph_at text.now) }
{
    if !begins_with(text, b'<') {
        return Ok((None, text));
    }
    let (name, rest) = iri_at(alloc, text)?;
    Ok((Some(TermCow::iri(name)), skip_blanks(rest)))
}

#[tactic(auto, unfolding(crate::specs::Reading::statement_at))]
fn statement_at(alloc: Global, line: &str) -> Result<Line<'_>, Stop>
    ensures { Gives (λ x. x) result (statement_at line.now) }
{
    let (subject, rest) = subject_at(alloc, skip_blanks(line))?;
    let (predicate, rest) = iri_at(alloc, skip_blanks(rest))?;
    let (object, rest) = object_cow_at(alloc, skip_blanks(rest))?;
    let (graph, rest) = graph_at(alloc, skip_blanks(rest))?;
    match after(rest, b'.') {
        Some(rest) if ends(rest) => Ok(Line::Statement(Quad {
            subject,
            predicate: TermCow::iri(predicate),
            object,
            graph,
        })),
        _ => Err(Stop::Bad),
    }
}

fn is_empty(text: &str) -> bool
    ensures { result ≡ is_empty text.now }
{
    match text.as_bytes() {
        [] => true,
        [_, ..] => false,
    }
}

/// The graph that is declared by what follows the mark of a graph line.
#[tactic(auto, unfolding(crate::specs::Reading::declared_at))]
fn declared_at(alloc: Global, text: &str) -> Result<Line<'_>, Stop>
    ensures { Gives (λ x. x) result (declared_at text.now) }
{
    let (name, rest) = iri_at(alloc, text)?;
    if !is_empty(skip_blanks(rest)) {
        return Err(Stop::Bad);
    }
    Ok(Line::Graph(TermCow::iri(name)))
}

/// What follows the mark of a graph line, if a line begins with it.
#[tactic(auto, using(crate::proofs::CutLaws::mark_cut))]
fn after_mark(line: &str) -> Option<&str>
    ensures { MatchOption result (starts_with nat_eq line.now graph_mark ≡ false)
        (λ rest. (starts_with nat_eq line.now graph_mark ≡ true)
        × (rest.now ≡ drop (length graph_mark) line.now)) }
{
    if !line.as_bytes().starts_with(b"#@graph ") {
        return None;
    }
    let (_, rest) = line.split_at(8);
    Some(rest)
}

/// What a line says (RDF 1.1 N-Quads, productions 1 and 2, and graph lines). `Bad` where it says
/// nothing that a line may say, `Memory` where memory runs out.
#[tactic(auto, unfolding(crate::specs::Reading::line_of))]
pub fn line_of(alloc: Global, line: &[u8]) -> Result<Line<'_>, Stop>
    ensures { Gives (λ x. x) result (line_of line.now) }
{
    let Some(line) = text_of(line) else {
        return Err(Stop::Bad);
    };
    if let Some(text) = after_mark(line) {
        return declared_at(alloc, text);
    }
    if ends(line) {
        return Ok(Line::Nothing);
    }
    statement_at(alloc, line)
}
