//! The text of a journal.
ghost use Rattle.std.specs.Prelude.{◌≡◌, ◌≤◌, ◌++◌, ◌∷◌, [], length, codes, IfOk, OnOk};
ghost use Rattle.std.specs.List.{flat_map};
ghost use Rattle.std.specs.Fmt.{decimal};
ghost use Rattle.terms.specs.Canonical.{term_text};
ghost use Rattle.journal.specs.Text.{padded, worker_word, request_word, place_word, graph_word, read_words, event_words, reply_words, spaced, line_body, line_text, journal_text};

use crate::lines::{Event, Line, Reply};
use datasets::{GraphPlace, QuadPattern, Read};
use std::alloc::{AllocError, Global};
use terms::{Term, canonical};

/// The first line of a journal.
pub const FIRST_LINE: &[u8] = b"sparql-block journal 1\n";

/// Adds a number, with those zeros in front for which its digits leave room.
fn push_padded(text: &mut Vec<u8>, zeros: &[u8], number: u64) -> Result<(), AllocError>
    ensures { OnOk result (text.new.items ≡ text.old.items ++ padded zeros.now number) }
{
    let digits = number.to_string(*text.allocator())?;
    text.extend_from_slice(&zeros[digits.len().min(zeros.len())..])?;
    text.extend_from_slice(digits.as_bytes())
}

/// Adds a word behind a space.
fn push_word(text: &mut Vec<u8>, word: &[u8]) -> Result<(), AllocError>
    ensures { OnOk result (text.new.items ≡ text.old.items ++ spaced word.now) }
{
    text.extend_from_slice(b" ")?;
    text.extend_from_slice(word)
}

fn push_number(text: &mut Vec<u8>, number: u64) -> Result<(), AllocError>
    ensures { OnOk result (text.new.items ≡ text.old.items ++ spaced (decimal number)) }
{
    let digits = number.to_string(*text.allocator())?;
    push_word(text, digits.as_bytes())
}

fn push_request(text: &mut Vec<u8>, request: usize) -> Result<(), AllocError>
    ensures { OnOk result (text.new.items ≡ text.old.items ++ spaced (request_word request)) }
{
    text.extend_from_slice(b" ")?;
    push_padded(text, b"0000", request as u64)
}

fn push_term(alloc: Global, text: &mut Vec<u8>, term: &Term, tag: u32) -> Result<(), AllocError>
    ensures { OnOk result (text.new.items ≡ text.old.items ++ spaced (term_text tag term.now)) }
{
    text.extend_from_slice(b" ")?;
    canonical(alloc, term, tag, text)
}

fn push_place(
    alloc: Global,
    text: &mut Vec<u8>,
    place: &Option<Term>,
    tag: u32,
) -> Result<(), AllocError>
    ensures { OnOk result (text.new.items ≡ text.old.items ++ spaced (place_word tag place.now)) }
{
    match place {
        None => push_word(text, b"-"),
        Some(term) => push_term(alloc, text, term, tag),
    }
}

fn push_graph(
    alloc: Global,
    text: &mut Vec<u8>,
    graph: &GraphPlace<Term>,
    tag: u32,
) -> Result<(), AllocError>
    ensures { OnOk result (text.new.items ≡ text.old.items ++ spaced (graph_word tag graph.now)) }
{
    match graph {
        GraphPlace::Any => push_word(text, b"-"),
        GraphPlace::Only(None) => push_word(text, b"default"),
        GraphPlace::Only(Some(name)) => push_term(alloc, text, name, tag),
    }
}

fn push_scan(
    alloc: Global,
    text: &mut Vec<u8>,
    pattern: &QuadPattern<Term>,
    tag: u32,
) -> Result<(), AllocError>
    ensures { OnOk result (text.new.items ≡ text.old.items
        ++ flat_map spaced (read_words tag (Read.Scan pattern.now))) }
{
    push_word(text, b"scan")?;
    push_place(alloc, text, &pattern.subject, tag)?;
    push_place(alloc, text, &pattern.predicate, tag)?;
    push_place(alloc, text, &pattern.object, tag)?;
    push_graph(alloc, text, &pattern.graph, tag)
}

fn push_read(
    alloc: Global,
    text: &mut Vec<u8>,
    read: &Read<Term>,
    tag: u32,
) -> Result<(), AllocError>
    ensures { OnOk result (text.new.items ≡ text.old.items
        ++ flat_map spaced (read_words tag read.now)) }
{
    match read {
        Read::Scan(pattern) => push_scan(alloc, text, pattern, tag),
        Read::GraphIs(name) => {
            push_word(text, b"is")?;
            push_term(alloc, text, name, tag)
        }
        Read::Graphs => push_word(text, b"graphs"),
    }
}

/// Adds the word of an event and its request.
fn push_verb(text: &mut Vec<u8>, verb: &[u8], request: usize) -> Result<(), AllocError>
    ensures { OnOk result (text.new.items ≡ text.old.items
        ++ flat_map spaced (verb.now ∷ request_word request ∷ [])) }
{
    push_word(text, verb)?;
    push_request(text, request)
}

/// The same, and the incarnation.
fn push_numbered(
    text: &mut Vec<u8>,
    verb: &[u8],
    request: usize,
    incarnation: u64,
) -> Result<(), AllocError>
    ensures { OnOk result (text.new.items ≡ text.old.items
        ++ flat_map spaced (verb.now ∷ request_word request ∷ decimal incarnation ∷ [])) }
{
    push_verb(text, verb, request)?;
    push_number(text, incarnation)
}

fn push_event(alloc: Global, text: &mut Vec<u8>, event: &Event, tag: u32) -> Result<(), AllocError>
    ensures { OnOk result (text.new.items ≡ text.old.items
        ++ flat_map spaced (event_words tag event.now)) }
{
    match event {
        Event::Take(request) => push_verb(text, b"take", *request),
        Event::Read(request, incarnation, read) => {
            push_numbered(text, b"read", *request, *incarnation)?;
            push_read(alloc, text, read, tag)
        }
        Event::Publish(request, incarnation) => {
            push_numbered(text, b"publish", *request, *incarnation)
        }
        Event::Begin(request, incarnation) => push_numbered(text, b"begin", *request, *incarnation),
        Event::Check(request, incarnation) => push_numbered(text, b"check", *request, *incarnation),
        Event::Commit(request) => push_verb(text, b"commit", *request),
        Event::GiveUp(request, incarnation) => {
            push_numbered(text, b"giveup", *request, *incarnation)
        }
    }
}

fn push_reply(text: &mut Vec<u8>, reply: Reply) -> Result<(), AllocError>
    ensures { OnOk result (text.new.items ≡ text.old.items ++ flat_map spaced (reply_words reply)) }
{
    match reply {
        Reply::Taken(incarnation) => {
            push_word(text, b"taken")?;
            push_number(text, incarnation)
        }
        Reply::Answered(count) => {
            push_word(text, b"answer")?;
            push_number(text, count)
        }
        Reply::Blocked(request) => push_verb(text, b"blocked", request),
        Reply::Published => push_word(text, b"published"),
        Reply::Begun => push_word(text, b"begun"),
        Reply::Passed => push_word(text, b"passed"),
        Reply::Aborted => push_word(text, b"aborted"),
        Reply::Committed => push_word(text, b"committed"),
        Reply::Given => push_word(text, b"given"),
        Reply::Stale => push_word(text, b"stale"),
        Reply::NotYours => push_word(text, b"not-yours"),
        Reply::NotYet => push_word(text, b"not-yet"),
    }
}

/// Adds the text of a line, without its end.
pub fn push_body(alloc: Global, text: &mut Vec<u8>, line: &Line, tag: u32) -> Result<(), AllocError>
    ensures { OnOk result (text.new.items ≡ text.old.items ++ line_body tag line.now) }
{
    push_padded(text, b"00", u64::from(line.worker))?;
    push_event(alloc, text, &line.event, tag)?;
    push_word(text, b">")?;
    push_reply(text, line.reply)
}

/// The text of a journal with these lines, and with the base's tag in the labels of made nodes. An
/// `Err` comes only where memory runs out.
pub fn write_lines(alloc: Global, lines: &[Line], tag: u32) -> Result<Vec<u8>, AllocError>
    ensures { IfOk result (λ text. text.items ≡ journal_text tag lines.now) }
{
    let mut text = Vec::new(alloc);
    text.extend_from_slice(FIRST_LINE)?;
    for line in lines {
        push_body(alloc, &mut text, line, tag)?;
        text.extend_from_slice(b"\n")?;
    }
    Ok(text)
}
