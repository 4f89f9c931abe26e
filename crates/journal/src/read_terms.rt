//! The terms of a line.
ghost use Rattle.std.specs.Prelude.{◌≡◌, ◌≤◌, ℕ, List, length, drop, false, IfOk, nat_eq, codes};
ghost use Rattle.std.specs.List.{prefix_len, starts_with};
ghost use Rattle.iris.specs.Iri.{is_digit};
ghost use Rattle.iris.specs.Runs.{run_of, rest_of};
ghost use Rattle.terms.specs.declared.term.Term.TheVariants as term;
ghost use Rattle.nquads_lines.specs.Reading.{Gives};
ghost use Rattle.canonical_nquads.specs.Tag.{has_mark};
ghost use Rattle.nquads_laws.specs.WellFormed.{IsTerm};
ghost use Rattle.journal.specs.Lines.{IsHeld, IsPlace, IsGraphPlace, IsRead};
ghost use Rattle.journal.specs.ReadTerms.{part_at, made_of, unlabelled, term_at, place_at, graph_at, scan_at, read_at};

use crate::words::{first_word, is_digit, number_below};
use datasets::{GraphPlace, QuadPattern, Read};
use iris::laws::run_by_length;
use nquads_lines::{Stop, object_at};
use std::alloc::Global;
use terms::{Blank, Term};

/// The length of the number at the front.
fn digits_len(text: &[u8]) -> usize
    ensures within { result ≤ length text.now }
    ensures run { result ≡ prefix_len is_digit text.now }
{
    text.iter().take_while(|b| is_digit(**b)).count()
}

/// The number at the front of a label, and what follows the letter behind it.
#[tactic(auto, unfolding(crate::specs::ReadTerms::part_at))]
fn part_at(text: &[u8]) -> Result<(u32, &[u8]), Stop>
    ensures { Gives (λ x. (x.0, x.1.now)) result (part_at text.now) }
{
    run_by_length();
    let (digits, rest) = text.split_at(digits_len(text));
    let number = number_below(1 << 32, digits)? as u32;
    match rest {
        [] => Ok((number, rest)),
        [_, after @ ..] => Ok((number, after)),
    }
}

/// The made node of a label, by what follows its mark.
#[tactic(auto, unfolding(crate::specs::ReadTerms::made_of))]
fn made_of(text: &[u8]) -> Result<Term, Stop>
    ensures read { Gives (λ x. x) result (made_of text.now) }
    ensures unmarked { IfOk result (λ t. (mark : List ℕ) → has_mark mark t ≡ false) }
{
    let (request, rest) = part_at(text)?;
    let (op, rest) = part_at(rest)?;
    let (label, rest) = part_at(rest)?;
    let (rank, _) = part_at(rest)?;
    Ok(Term::Made {
        request,
        op,
        label,
        rank,
    })
}

/// The term of a blank node's label, which is a made node where the label has the mark of made
/// nodes.
fn unlabelled_blank(mark: &[u8], blank: Blank) -> Result<Term, Stop>
    ensures read { Gives (λ x. x) result (unlabelled mark.now (term.Blank blank)) }
    ensures unmarked { IfOk result (λ t. has_mark mark.now t ≡ false) }
{
    let label = blank.as_str().as_bytes();
    if label.starts_with(mark) {
        return made_of(&label[mark.len()..]);
    }
    Ok(Term::Blank(blank))
}

/// The made node of a label with the mark of made nodes; every other term stays.
fn unlabelled(mark: &[u8], term: Term) -> Result<Term, Stop>
    ensures read { Gives (λ x. x) result (unlabelled mark.now term) }
    ensures unmarked { IfOk result (λ t. has_mark mark.now t ≡ false) }
{
    match term {
        Term::Blank(blank) => unlabelled_blank(mark, blank),
        term => Ok(term),
    }
}

/// A term is of its form.
fn has_form(term: &Term)
    ensures { IsTerm term.now }
{
    match term {
        Term::Iri(iri) => {
            let _text = iri.as_str();
        }
        Term::Literal(literal) => {
            let _lexical = literal.lexical();
        }
        Term::Blank(blank) => {
            let _label = blank.as_str();
        }
        Term::Made {
            request,
            op,
            label,
            rank,
        } => {
            let _numbers = (*request, *op, *label, *rank);
        }
    }
}

/// The term at the front of a text, and what follows the space behind it.
#[tactic(auto, unfolding(crate::specs::ReadTerms::term_at))]
fn term_at<'a>(alloc: Global, mark: &[u8], text: &'a str) -> Result<(Term, &'a str), Stop>
    ensures read { Gives (λ x. (x.0, x.1.now)) result (term_at mark.now text.entry.now) }
    ensures form { IfOk result (λ x. IsHeld mark.now x.0) }
{
    let (term, rest) = object_at(alloc, text)?;
    let term = unlabelled(mark, term)?;
    has_form(&term);
    let (_, rest) = first_word(rest);
    Ok((term, rest))
}

/// The place of a scan at the front of a text, and what follows the space behind it.
#[tactic(auto, unfolding(crate::specs::ReadTerms::place_at))]
fn place_at<'a>(alloc: Global, mark: &[u8], text: &'a str) -> Result<(Option<Term>, &'a str), Stop>
    ensures read { Gives (λ x. (x.0, x.1.now)) result (place_at mark.now text.entry.now) }
    ensures form { IfOk result (λ x. IsPlace mark.now x.0) }
{
    if text.as_bytes().starts_with(b"-") {
        let (_, rest) = first_word(text);
        return Ok((None, rest));
    }
    let (term, rest) = term_at(alloc, mark, text)?;
    Ok((Some(term), rest))
}

/// The graph place of a scan at the front of a text, and what follows the space behind it.
#[tactic(auto, unfolding(crate::specs::ReadTerms::graph_at))]
fn graph_at<'a>(
    alloc: Global,
    mark: &[u8],
    text: &'a str,
) -> Result<(GraphPlace<Term>, &'a str), Stop>
    ensures read { Gives (λ x. (x.0, x.1.now)) result (graph_at mark.now text.entry.now) }
    ensures form { IfOk result (λ x. IsGraphPlace mark.now x.0) }
{
    if text.as_bytes().starts_with(b"-") {
        let (_, rest) = first_word(text);
        return Ok((GraphPlace::Any, rest));
    }
    if text.as_bytes().starts_with(b"default") {
        let (_, rest) = first_word(text);
        return Ok((GraphPlace::Only(None), rest));
    }
    let (term, rest) = term_at(alloc, mark, text)?;
    Ok((GraphPlace::Only(Some(term)), rest))
}

/// The pattern of a scan, and what follows the space behind it.
#[tactic(auto, unfolding(crate::specs::ReadTerms::scan_at))]
fn scan_at<'a>(alloc: Global, mark: &[u8], text: &'a str) -> Result<(Read<Term>, &'a str), Stop>
    ensures read { Gives (λ x. (x.0, x.1.now)) result (scan_at mark.now text.entry.now) }
    ensures form { IfOk result (λ x. IsRead mark.now x.0) }
{
    let (subject, rest) = place_at(alloc, mark, text)?;
    let (predicate, rest) = place_at(alloc, mark, rest)?;
    let (object, rest) = place_at(alloc, mark, rest)?;
    let (graph, rest) = graph_at(alloc, mark, rest)?;
    let pattern = QuadPattern {
        subject,
        predicate,
        object,
        graph,
    };
    Ok((Read::Scan(pattern), rest))
}

/// What a worker read, and what follows the space behind it.
#[tactic(auto, unfolding(crate::specs::ReadTerms::read_at))]
pub fn read_at<'a>(alloc: Global, mark: &[u8], text: &'a str) -> Result<(Read<Term>, &'a str), Stop>
    ensures read { Gives (λ x. (x.0, x.1.now)) result (read_at mark.now text.entry.now) }
    ensures form { IfOk result (λ x. IsRead mark.now x.0) }
{
    let (word, rest) = first_word(text);
    if word == "scan" {
        return scan_at(alloc, mark, rest);
    }
    if word == "is" {
        let (term, rest) = term_at(alloc, mark, rest)?;
        return Ok((Read::GraphIs(term), rest));
    }
    if word == "graphs" {
        return Ok((Read::Graphs, rest));
    }
    Err(Stop::Bad)
}
