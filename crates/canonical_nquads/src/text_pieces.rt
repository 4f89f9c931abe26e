//! The text of a dataset in pieces, made by several threads.
ghost use Rattle.std.specs.Prelude.{◌≡◌, ◌++◌, ℕ, List, true, not, map, filter, nat_eq, IfOk, IfSome};
ghost use Rattle.std.specs.List.{flat_map, list_all};
ghost use Rattle.std.specs.HashSet.{contains};
ghost use Rattle.sets.specs.Sets.{set_of};
ghost use Rattle.terms.specs.Term.{text_cmp};
ghost use Rattle.terms.specs.Placed.{is_within, is_quad_within};
ghost use Rattle.canonical_nquads.specs.Canonical.{ended, text_of_pieces};
ghost use Rattle.canonical_nquads.specs.Placed.{quad_text_at, graph_line_at};
ghost use Rattle.canonical_nquads.specs.Rising.{IsRisingInPieces, StandBehind};

use crate::rising::{Rising, push_graphs};
use crate::rising_pieces::{RisingInPieces, as_piece, behind_quads, pieces_for, rising_quads};
use crate::text_line::TextLine;
use crate::text_order::stand_by;
use crate::text_parts::behind_by_ranks;
use datasets::Quad;
use std::alloc::{AllocError, Global};
use std::collections::HashSet;
use std::thread::Threads;

/// The lines of the graphs that have no quad, if each is above the one before it.
fn graph_lines(
    alloc: Global,
    texts: &[TextLine],
    names: &[u32],
    full: &HashSet<u32>,
) -> Result<Option<RisingInPieces>, AllocError>
    requires { list_all (is_within texts.now) names.now ≡ true }
    ensures { IfOk result (λ found. IfSome found (IsRisingInPieces (map (graph_line_at texts.now)
        (filter (λ name. not (contains nat_eq full.now name)) names.now)))) }
{
    let mut made = Rising {
        text: Vec::new(alloc),
        last: Vec::new(alloc),
    };
    let mut line = Vec::new(alloc);
    let graphs_rise = push_graphs(&mut made, &mut line, texts, names, full)?;
    if !graphs_rise {
        return Ok(None);
    }
    let whole = as_piece(alloc, made)?;
    Ok(Some(whole))
}

/// A text, and behind it the lines of quads as they stand, made by so many threads, if each line is
/// above the one before it.
fn behind_as_they_stand<T: Threads + Sync>(
    rt: &T,
    alloc: Global,
    front: RisingInPieces,
    texts: &[TextLine],
    quads: &[Quad<u32>],
    threads: usize,
) -> Result<Option<RisingInPieces>, AllocError>
    requires { list_all (is_quad_within texts.now) quads.now ≡ true }
    ensures { IfOk result (λ found. IfSome found (λ made. (lines : List (List ℕ))
        → IsRisingInPieces lines front → StandBehind texts.now quads.now lines made)) }
{
    match rising_quads(rt, alloc, texts, quads, pieces_for(threads))? {
        Some(made) => behind_quads(alloc, front, made, texts, quads),
        None => Ok(None),
    }
}

/// The same, of quads that are put in order first where they do not stand so by the ranks of their
/// terms' texts.
fn behind_in_order<T: Threads + Sync>(
    rt: &T,
    alloc: Global,
    front: RisingInPieces,
    texts: &[TextLine],
    ranks: &[u32],
    quads: &[Quad<u32>],
    threads: usize,
) -> Result<Option<RisingInPieces>, AllocError>
    requires { list_all (is_quad_within texts.now) quads.now ≡ true }
    ensures { IfOk result (λ found. IfSome found (λ made. (lines : List (List ℕ))
        → IsRisingInPieces lines front → StandBehind texts.now quads.now lines made)) }
{
    if stand_by(rt, ranks, quads) {
        return behind_as_they_stand(rt, alloc, front, texts, quads, threads);
    }
    behind_by_ranks(rt, alloc, front, texts, ranks, quads)
}

/// The lines of the graphs that have no quad and those of the quads, made by so many threads, if
/// each is above the one before it once they are in the order of these ranks, in pieces that stand
/// one behind another.
pub(crate) fn rising_pieces_by<T: Threads + Sync>(
    rt: &T,
    alloc: Global,
    texts: &[TextLine],
    ranks: &[u32],
    quads: &[Quad<u32>],
    names: &[u32],
    full: &HashSet<u32>,
    threads: usize,
) -> Result<Option<Vec<Vec<u8>>>, AllocError>
    requires quads { list_all (is_quad_within texts.now) quads.now ≡ true }
    requires names { list_all (is_within texts.now) names.now ≡ true }
    ensures { IfOk result (λ found. IfSome found
        (λ pieces. text_of_pieces pieces.items ≡ flat_map ended
        (set_of text_cmp (map (quad_text_at texts.now) quads.now
        ++ map (graph_line_at texts.now)
        (filter (λ name. not (contains nat_eq full.now name)) names.now))))) }
{
    let Some(front) = graph_lines(alloc, texts, names, full)? else {
        return Ok(None);
    };
    match behind_in_order(rt, alloc, front, texts, ranks, quads, threads)? {
        Some(whole) => Ok(Some(whole.pieces)),
        None => Ok(None),
    }
}
