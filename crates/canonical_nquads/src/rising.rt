//! The text of lines that come in their order.
ghost use Rattle.std.specs.Prelude.{◌≡◌, ◌++◌, ◌∷◌, [], ℕ, List, true, not, map, filter, nat_eq, IfOk, IfSome, OnOk};
ghost use Rattle.std.specs.List.{flat_map, list_all};
ghost use Rattle.std.specs.Ordering.{is_lt};
ghost use Rattle.std.specs.HashSet.{contains};
ghost use Rattle.sets.specs.Sets.{set_of};
ghost use Rattle.terms.specs.Term.{text_cmp};
ghost use Rattle.terms.specs.Placed.{is_within, is_quad_within};
ghost use Rattle.canonical_nquads.specs.Canonical.{ended};
ghost use Rattle.canonical_nquads.specs.Placed.{quad_text_at, graph_line_at};
ghost use Rattle.canonical_nquads.specs.Rising.{IsRising};

use crate::canonical::{push_graph_line, push_quad};
use crate::text_line::TextLine;
use datasets::Quad;
use std::alloc::{AllocError, Global};
use std::collections::HashSet;
use std::mem::swap;

/// A text whose lines rise, as far as it is made, and its last line.
#[derive(Drop)]
pub(crate) struct Rising {
    pub(crate) text: Vec<u8>,
    pub(crate) last: Vec<u8>,
}

/// Whether a line is above another.
pub(crate) fn is_above(last: &[u8], line: &[u8]) -> bool
    ensures { result ≡ is_lt (text_cmp last.now line.now) }
{
    last.cmp(&line).is_lt()
}

/// Adds a line, if it is above the last, and says whether it is. The line's memory is then the last
/// one's.
fn push_line(made: &mut Rising, line: &mut Vec<u8>) -> Result<bool, AllocError>
    ensures { IfOk result (λ rises. rises ≡ true → (lines : List (List ℕ)) → IsRising lines made.old
        → IsRising (lines ++ line.old.items ∷ []) made.new) }
{
    if !is_above(made.last.as_slice(), line.as_slice()) {
        return Ok(false);
    }
    made.text.extend_from_slice(line.as_slice())?;
    made.text.extend_from_slice(b"\n")?;
    swap(&mut made.last, line);
    Ok(true)
}

/// Adds the line of a quad, if it is above the last, and says whether it is.
fn push_one_quad(
    made: &mut Rising,
    line: &mut Vec<u8>,
    texts: &[TextLine],
    quad: &Quad<u32>,
) -> Result<bool, AllocError>
    requires { is_quad_within texts.now quad.now ≡ true }
    ensures { IfOk result (λ rises. rises ≡ true → (lines : List (List ℕ)) → IsRising lines made.old
        → IsRising (lines ++ quad_text_at texts.now quad.now ∷ []) made.new) }
{
    line.clear();
    push_quad(line, texts, quad)?;
    let rises = push_line(made, line)?;
    Ok(rises)
}

/// Adds the line that declares a graph, if it is above the last, and says whether it is.
fn push_one_graph(
    made: &mut Rising,
    line: &mut Vec<u8>,
    texts: &[TextLine],
    name: u32,
) -> Result<bool, AllocError>
    requires { is_within texts.now name ≡ true }
    ensures { IfOk result (λ rises. rises ≡ true → (lines : List (List ℕ)) → IsRising lines made.old
        → IsRising (lines ++ graph_line_at texts.now name ∷ []) made.new) }
{
    line.clear();
    push_graph_line(line, texts, name)?;
    let rises = push_line(made, line)?;
    Ok(rises)
}

/// Adds the lines of the quads, if they rise, and says whether they do.
pub(crate) fn push_quads(
    made: &mut Rising,
    line: &mut Vec<u8>,
    texts: &[TextLine],
    quads: &[Quad<u32>],
) -> Result<bool, AllocError>
    requires { list_all (is_quad_within texts.now) quads.now ≡ true }
    ensures { IfOk result (λ rises. rises ≡ true → (lines : List (List ℕ)) → IsRising lines made.old
        → IsRising (lines ++ map (quad_text_at texts.now) quads.now) made.new) }
{
    for quad in quads {
        let rises = push_one_quad(made, line, texts, quad)?;
        if !rises {
            return Ok(false);
        }
    }
    Ok(true)
}

/// Adds the lines of the graphs that have no quad, if they rise, and says whether they do.
pub(crate) fn push_graphs(
    made: &mut Rising,
    line: &mut Vec<u8>,
    texts: &[TextLine],
    names: &[u32],
    full: &HashSet<u32>,
) -> Result<bool, AllocError>
    requires { list_all (is_within texts.now) names.now ≡ true }
    ensures { IfOk result (λ rises. rises ≡ true → (lines : List (List ℕ)) → IsRising lines made.old
        → IsRising (lines ++ map (graph_line_at texts.now)
        (filter (λ name. not (contains nat_eq full.now name)) names.now)) made.new) }
{
    for name in names {
        if full.contains(name) {
            continue;
        }
        let rises = push_one_graph(made, line, texts, *name)?;
        if !rises {
            return Ok(false);
        }
    }
    Ok(true)
}

/// The lines of the graphs that have no quad and those of the quads, one after another, if each is
/// above the one before it.
pub(crate) fn rising_text(
    alloc: Global,
    texts: &[TextLine],
    quads: &[Quad<u32>],
    names: &[u32],
    full: &HashSet<u32>,
) -> Result<Option<Vec<u8>>, AllocError>
    requires quads { list_all (is_quad_within texts.now) quads.now ≡ true }
    requires names { list_all (is_within texts.now) names.now ≡ true }
    ensures { IfOk result (λ found. IfSome found
        (λ text. text.items ≡ flat_map ended
        (set_of text_cmp (map (quad_text_at texts.now) quads.now
        ++ map (graph_line_at texts.now)
        (filter (λ name. not (contains nat_eq full.now name)) names.now))))) }
{
    let mut made = Rising {
        text: Vec::new(alloc),
        last: Vec::new(alloc),
    };
    let mut line = Vec::new(alloc);
    let graphs_rise = push_graphs(&mut made, &mut line, texts, names, full)?;
    if !graphs_rise {
        return Ok(None);
    }
    let quads_rise = push_quads(&mut made, &mut line, texts, quads)?;
    if !quads_rise {
        return Ok(None);
    }
    Ok(Some(made.text))
}
