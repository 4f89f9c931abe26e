//! The text of lines that come in their order, made in pieces by several threads.
ghost use Rattle.std.specs.Prelude.{◌≡◌, ◌≤◌, ◌<◌, ◌++◌, ◌∷◌, [], ℕ, List, true, not, map, filter, nat_eq, IfOk, IfSome};
ghost use Rattle.std.specs.List.{flat_map, list_all};
ghost use Rattle.std.specs.HashSet.{contains};
ghost use Rattle.std.specs.Thread.{IsSync};
ghost use Rattle.sets.specs.Sets.{set_of};
ghost use Rattle.terms.specs.Term.{text_cmp};
ghost use Rattle.terms.specs.Placed.{is_within, is_quad_within};
ghost use Rattle.canonical_nquads.specs.Canonical.{ended, text_of_pieces};
ghost use Rattle.canonical_nquads.specs.Placed.{quad_text_at, graph_line_at};
ghost use Rattle.canonical_nquads.specs.Rising.{IsRising, IsRisingInPieces};

use crate::canonical::push_quad;
use crate::rising::{Rising, is_above, push_graphs, push_quads};
use crate::text_line::TextLine;
use datasets::Quad;
use radix::place_for_last;
use std::alloc::{AllocError, Global};
use std::collections::HashSet;
use std::thread::{Threads, join};

/// Of so many quads one tells how long their lines are.
const SAMPLED: usize = 64;

/// The most room that is asked for before it is needed.
const MOST_ROOM: usize = 1_073_741_824;

/// How many pieces there are for each of several threads, so that none waits for long for the last.
pub(crate) const PIECES: usize = 2;

/// Into how many pieces a text is parted among so many threads.
pub(crate) fn pieces_for(threads: usize) -> usize {
    if threads <= 1 {
        return 1;
    }
    threads.saturating_mul(PIECES)
}

/// A text in pieces, one behind another, whose lines rise, as far as it is made, and its last line.
#[derive(Drop)]
pub(crate) struct RisingInPieces {
    pub(crate) pieces: Vec<Vec<u8>>,
    pub(crate) last: Vec<u8>,
}

/// A text as one piece.
pub(crate) fn as_piece(alloc: Global, made: Rising) -> Result<RisingInPieces, AllocError>
    ensures { IfOk result (λ whole. (lines : List (List ℕ)) → IsRising lines made
        → IsRisingInPieces lines whole) }
{
    let mut pieces = Vec::new(alloc);
    pieces.push(made.text)?;
    Ok(RisingInPieces {
        pieces,
        last: made.last,
    })
}

/// A text and another behind it that begins with this line, if the line is above the first text's
/// last. No byte of theirs is moved.
fn behind(
    low: RisingInPieces,
    high: RisingInPieces,
    line: &[u8],
) -> Result<Option<RisingInPieces>, AllocError>
    ensures { IfOk result (λ found. IfSome found
        (λ made. (lines others : List (List ℕ)) → IsRisingInPieces lines low
        → IsRisingInPieces (line.now ∷ others) high
        → IsRisingInPieces (lines ++ line.now ∷ others) made)) }
{
    if !is_above(low.last.as_slice(), line) {
        return Ok(None);
    }
    let (mut pieces, mut rest) = (low.pieces, high.pieces);
    pieces.append(&mut rest)?;
    Ok(Some(RisingInPieces {
        pieces,
        last: high.last,
    }))
}

/// A text and the text of the lines of these quads behind it, if they rise on.
pub(crate) fn behind_quads(
    alloc: Global,
    low: RisingInPieces,
    high: RisingInPieces,
    texts: &[TextLine],
    quads: &[Quad<u32>],
) -> Result<Option<RisingInPieces>, AllocError>
    requires { list_all (is_quad_within texts.now) quads.now ≡ true }
    ensures { IfOk result (λ found. IfSome found
        (λ made. (lines : List (List ℕ)) → IsRisingInPieces lines low
        → IsRisingInPieces (map (quad_text_at texts.now) quads.now) high
        → IsRisingInPieces (lines ++ map (quad_text_at texts.now) quads.now) made)) }
{
    let Some(first) = quads.first() else {
        return Ok(Some(low));
    };
    let mut line = Vec::new(alloc);
    push_quad(&mut line, texts, first)?;
    let made = behind(low, high, line.as_slice())?;
    Ok(made)
}

/// How many bytes the texts of a quad's terms have.
fn bytes_of(texts: &[TextLine], quad: &Quad<u32>) -> usize {
    let places = [
        Some(quad.subject),
        Some(quad.predicate),
        Some(quad.object),
        quad.graph,
    ];
    let mut bytes = 8usize;
    for place in places {
        if let Some(text) = place.and_then(|place| texts.get(place as usize)) {
            bytes = bytes.saturating_add(text.as_slice().len());
        }
    }
    bytes
}

/// About how many bytes the lines of these quads have, from some of them.
fn room_for(texts: &[TextLine], quads: &[Quad<u32>]) -> usize {
    let mut bytes = 0usize;
    for quad in quads.iter().step_by(SAMPLED) {
        bytes = bytes.saturating_add(bytes_of(texts, quad));
    }
    bytes.saturating_mul(SAMPLED).min(MOST_ROOM)
}

/// No lines, and room for so many bytes where memory has it. A text that has room is not copied
/// when it grows.
fn begun(alloc: Global, room: usize) -> Rising
    ensures { IsRising [] result }
{
    let mut text = Vec::new(alloc);
    let _ = text.reserve(room);
    Rising {
        text,
        last: Vec::new(alloc),
    }
}

/// The text of the lines of these quads, if they rise, as one piece.
fn rising_piece(
    alloc: Global,
    texts: &[TextLine],
    quads: &[Quad<u32>],
) -> Result<Option<RisingInPieces>, AllocError>
    requires { list_all (is_quad_within texts.now) quads.now ≡ true }
    ensures { IfOk result (λ found. IfSome found
        (IsRisingInPieces (map (quad_text_at texts.now) quads.now))) }
{
    let mut made = begun(alloc, room_for(texts, quads));
    let mut line = Vec::new(alloc);
    let rises = push_quads(&mut made, &mut line, texts, quads)?;
    if !rises {
        return Ok(None);
    }
    let whole = as_piece(alloc, made)?;
    Ok(Some(whole))
}

/// The text of the lines of these quads, made by so many threads, if they rise, each piece where
/// its thread made it. The thread that calls makes all others: of those that new ones make, two
/// often share a processor at first.
pub(crate) fn rising_quads<T: Threads + Sync>(
    rt: &T,
    alloc: Global,
    texts: &[TextLine],
    quads: &[Quad<u32>],
    threads: usize,
) -> Result<Option<RisingInPieces>, AllocError>
    requires { list_all (is_quad_within texts.now) quads.now ≡ true }
    ensures { IfOk result (λ found. IfSome found
        (IsRisingInPieces (map (quad_text_at texts.now) quads.now))) }
{
    if threads <= 1 {
        return rising_piece(alloc, texts, quads);
    }
    let (first, rest) = quads.split_at(place_for_last(quads.len(), threads));
    let others = threads - 1;
    let (high, low) = join(
        rt,
        || -> Result<Option<RisingInPieces>, AllocError>
            requires { IsSync T.row × (list_all (is_quad_within texts.now) rest.now ≡ true) }
            ensures { IfOk result (λ found. IfSome found
                (IsRisingInPieces (map (quad_text_at texts.entry.now) rest.entry.now))) }
        { rising_quads(rt, alloc, texts, rest, 1) },
        || -> Result<Option<RisingInPieces>, AllocError>
            requires { IsSync T.row × (list_all (is_quad_within texts.now) first.now ≡ true) }
            ensures { IfOk result (λ found. IfSome found
                (IsRisingInPieces (map (quad_text_at texts.entry.now) first.entry.now))) }
        { rising_quads(rt, alloc, texts, first, others) },
    );
    match (low?, high?) {
        (Some(low), Some(high)) => behind_quads(alloc, low, high, texts, rest),
        _ => Ok(None),
    }
}
