//! The canonical text of a dataset.
ghost use Rattle.std.specs.Prelude.{◌≡◌, ◌++◌, ◌||◌, ℕ, true, false, not, map, filter, nat_eq, slice_index_or, IfOk, OnOk};
ghost use Rattle.std.specs.List.{flat_map, list_any, list_all};
ghost use Rattle.std.specs.HashSet.{contains};
ghost use Rattle.std.specs.Thread.{IsSync};
ghost use Rattle.sets.specs.Sets.{set_of as set_of_lines};
ghost use Rattle.terms.specs.Term.{text_cmp};
ghost use Rattle.terms.specs.Canonical.{term_text};
ghost use Rattle.terms.specs.Placed.{is_within, is_name_within, is_quad_within};
ghost use Rattle.canonical_nquads.specs.Canonical.{ended, text_of_pieces, canonical as canonical_of};
ghost use Rattle.canonical_nquads.specs.Placed.{text_at, graph_text_at, quad_text_at, graph_line_at, is_name_at, is_in_at, IsTextOf};

use crate::rising::rising_text;
use crate::text_line::TextLine;
use crate::text_order::{in_order_or, names_by_text, quads_by_text, ranks_by};
use crate::text_pieces::rising_pieces_by;
use datasets::Quad;
use rayon::prelude::*;
use sets::set_of;
use std::alloc::{AllocError, Global};
use std::collections::HashSet;
use std::thread::{Threads, join, spawn};
use terms::laws::{quads_name_their_graphs, sets_pass_alike};
use terms::{DataSet, Term, term_text};

/// The text of a term.
fn text_line(alloc: Global, term: &Term, tag: u32) -> Result<TextLine, AllocError>
    ensures { IsTextOf tag term.now result }
{
    Ok(TextLine::new(term_text(alloc, term, tag)?))
}

/// The texts of terms, each made once.
fn texts_of(alloc: Global, terms: &[Term], tag: u32) -> Result<Vec<TextLine>, AllocError>
    ensures { IfOk result (λ texts. texts.items ≡ map (term_text tag) terms.now) }
{
    let mut texts = Vec::new(alloc);
    for term in terms {
        texts.push(text_line(alloc, term, tag)?)?;
    }
    Ok(texts)
}

/// The same, made by several threads.
fn texts_of_by<T: Threads + Sync>(
    rt: &T,
    alloc: Global,
    terms: &[Term],
    tag: u32,
) -> Result<Vec<TextLine>, AllocError>
    ensures { IfOk result (λ texts. texts.items ≡ map (term_text tag) terms.now) }
{
    let texts: Result<Vec<TextLine>, AllocError> = terms
        .par_iter()
        .map(
            |term: &Term| -> Result<TextLine, AllocError>
                ensures { IsTextOf tag term.now result }
            { text_line(alloc, term, tag) },
        )
        .collect(rt, alloc)?;
    texts
}

/// Adds the text of the term at a place.
fn push_term(bytes: &mut Vec<u8>, texts: &[TextLine], place: u32) -> Result<(), AllocError>
    requires { is_within texts.now place ≡ true }
    ensures { OnOk result (bytes.new.items ≡ bytes.old.items ++ text_at texts.now place) }
{
    bytes.extend_from_slice(texts[place as usize].as_slice())
}

/// Adds the place of the graph in a quad's line.
fn push_graph(bytes: &mut Vec<u8>, texts: &[TextLine], graph: Option<u32>) -> Result<(), AllocError>
    requires { is_name_within texts.now graph ≡ true }
    ensures { OnOk result (bytes.new.items ≡ bytes.old.items ++ graph_text_at texts.now graph) }
{
    match graph {
        None => Ok(()),
        Some(name) => {
            bytes.extend_from_slice(b" ")?;
            push_term(bytes, texts, name)
        }
    }
}

/// Adds the line of a quad.
pub(crate) fn push_quad(
    bytes: &mut Vec<u8>,
    texts: &[TextLine],
    quad: &Quad<u32>,
) -> Result<(), AllocError>
    requires { is_quad_within texts.now quad.now ≡ true }
    ensures { OnOk result (bytes.new.items ≡ bytes.old.items ++ quad_text_at texts.now quad.now) }
{
    push_term(bytes, texts, quad.subject)?;
    bytes.extend_from_slice(b" ")?;
    push_term(bytes, texts, quad.predicate)?;
    bytes.extend_from_slice(b" ")?;
    push_term(bytes, texts, quad.object)?;
    push_graph(bytes, texts, quad.graph)?;
    bytes.extend_from_slice(b" .")?;
    Ok(())
}

/// The line of a quad.
fn quad_line(alloc: Global, texts: &[TextLine], quad: &Quad<u32>) -> Result<TextLine, AllocError>
    requires { is_quad_within texts.now quad.now ≡ true }
    ensures { IfOk result (λ line. line ≡ quad_text_at texts.now quad.now) }
{
    let mut bytes = Vec::new(alloc);
    push_quad(&mut bytes, texts, quad)?;
    Ok(TextLine::new(bytes))
}

fn quad_lines(
    alloc: Global,
    texts: &[TextLine],
    quads: &[Quad<u32>],
) -> Result<Vec<TextLine>, AllocError>
    requires { list_all (is_quad_within texts.now) quads.now ≡ true }
    ensures { IfOk result (λ lines. lines.items ≡ map (quad_text_at texts.now) quads.now) }
{
    let mut lines = Vec::new(alloc);
    lines.reserve(quads.len())?;
    for quad in quads {
        lines.push(quad_line(alloc, texts, quad)?)?;
    }
    Ok(lines)
}

/// Adds the line that declares a graph.
pub(crate) fn push_graph_line(
    bytes: &mut Vec<u8>,
    texts: &[TextLine],
    name: u32,
) -> Result<(), AllocError>
    requires { is_within texts.now name ≡ true }
    ensures { OnOk result (bytes.new.items ≡ bytes.old.items ++ graph_line_at texts.now name) }
{
    bytes.extend_from_slice(b"#@graph ")?;
    push_term(bytes, texts, name)
}

/// The line that declares a graph.
fn graph_line(alloc: Global, texts: &[TextLine], name: u32) -> Result<TextLine, AllocError>
    requires { is_within texts.now name ≡ true }
    ensures { IfOk result (λ line. line ≡ graph_line_at texts.now name) }
{
    let mut bytes = Vec::new(alloc);
    push_graph_line(&mut bytes, texts, name)?;
    Ok(TextLine::new(bytes))
}

/// Puts in the name of a quad's graph, unless it is known to be in.
fn add_graph(
    graphs: &mut HashSet<u32>,
    known: &mut [bool],
    graph: Option<u32>,
) -> Result<(), AllocError>
    requires { (k : ℕ) → slice_index_or known.old k false ≡ true
        → contains nat_eq graphs.old k ≡ true }
    ensures graphs { OnOk result ((name : ℕ) → contains nat_eq graphs.new name
        ≡ (is_name_at name graph || contains nat_eq graphs.old name)) }
    ensures known { OnOk result ((k : ℕ) → slice_index_or known.new k false ≡ true
        → contains nat_eq graphs.new k ≡ true) }
{
    let Some(name) = graph else {
        return Ok(());
    };
    let place = name as usize;
    if place < known.len() {
        if known[place] {
            return Ok(());
        }
        known[place] = true;
    }
    graphs.insert(name)?;
    Ok(())
}

/// The names of the graphs that have a quad. So many places are looked up in a list, and the others
/// among the names.
fn full_graphs(
    alloc: Global,
    quads: &[Quad<u32>],
    places: usize,
) -> Result<HashSet<u32>, AllocError>
    ensures { IfOk result (λ graphs. (name : ℕ)
        → contains nat_eq graphs name ≡ list_any (is_in_at name) quads.now) }
{
    let mut known = vec![in alloc; false; places]?;
    let mut graphs = HashSet::new(alloc);
    for quad in quads {
        add_graph(&mut graphs, known.as_mut_slice(), quad.graph)?;
    }
    Ok(graphs)
}

/// The texts of terms and the names of the graphs that have a quad, made side by side.
fn texts_and_full_by<T: Threads + Sync>(
    rt: &T,
    alloc: Global,
    terms: &[Term],
    quads: &[Quad<u32>],
    tag: u32,
) -> Result<(Vec<TextLine>, HashSet<u32>), AllocError>
    ensures texts { IfOk result (λ r. r.0.items ≡ map (term_text tag) terms.now) }
    ensures full { IfOk result (λ r. (name : ℕ)
        → contains nat_eq r.1 name ≡ list_any (is_in_at name) quads.now) }
{
    let (texts, full) = join(
        rt,
        || -> Result<Vec<TextLine>, AllocError>
            requires { IsSync T.row }
            ensures { IfOk result (λ texts. texts.items ≡ map (term_text tag) terms.entry.now) }
        { texts_of_by(rt, alloc, terms, tag) },
        || -> Result<HashSet<u32>, AllocError>
            ensures { IfOk result (λ graphs. (name : ℕ)
                → contains nat_eq graphs name ≡ list_any (is_in_at name) quads.entry.now) }
        { full_graphs(alloc, quads, terms.len()) },
    );
    Ok((texts?, full?))
}

/// Adds the lines of the graphs that have no quad.
fn push_graph_lines(
    alloc: Global,
    lines: &mut Vec<TextLine>,
    texts: &[TextLine],
    names: &[u32],
    full: &HashSet<u32>,
) -> Result<(), AllocError>
    requires { list_all (is_within texts.now) names.now ≡ true }
    ensures { OnOk result (lines.new.items ≡ lines.old.items
        ++ map (graph_line_at texts.now)
        (filter (λ name. not (contains nat_eq full.now name)) names.now)) }
{
    for name in names {
        if !full.contains(name) {
            lines.push(graph_line(alloc, texts, *name)?)?;
        }
    }
    Ok(())
}

/// The lines one after another, each ended by LF.
fn joined(alloc: Global, lines: &[TextLine]) -> Result<Vec<u8>, AllocError>
    ensures { IfOk result (λ text. text.items ≡ flat_map ended lines.now) }
{
    let mut text = Vec::new(alloc);
    for line in lines {
        text.extend_from_slice(line.as_slice())?;
        text.extend_from_slice(b"\n")?;
    }
    Ok(text)
}

/// The text of the lines of these quads and graphs, put in order.
fn sorted_text(
    alloc: Global,
    texts: &[TextLine],
    quads: &[Quad<u32>],
    names: &[u32],
    full: &HashSet<u32>,
) -> Result<Vec<u8>, AllocError>
    requires quads { list_all (is_quad_within texts.now) quads.now ≡ true }
    requires names { list_all (is_within texts.now) names.now ≡ true }
    ensures { IfOk result (λ text. text.items
        ≡ flat_map ended (set_of_lines text_cmp
        (map (quad_text_at texts.now) quads.now
        ++ map (graph_line_at texts.now)
        (filter (λ name. not (contains nat_eq full.now name)) names.now)))) }
{
    let mut lines = quad_lines(alloc, texts, quads)?;
    push_graph_lines(alloc, &mut lines, texts, names, full)?;
    joined(alloc, set_of(lines).as_slice())
}

/// The text of the lines of these quads and graphs. Lines in the order of their terms' texts rise,
/// so they needn't be kept and put in order.
fn text_of_lines(
    alloc: Global,
    texts: &[TextLine],
    quads: &[Quad<u32>],
    names: &[u32],
    full: &HashSet<u32>,
) -> Result<Vec<u8>, AllocError>
    requires quads { list_all (is_quad_within texts.now) quads.now ≡ true }
    requires names { list_all (is_within texts.now) names.now ≡ true }
    ensures { IfOk result (λ text. text.items
        ≡ flat_map ended (set_of_lines text_cmp
        (map (quad_text_at texts.now) quads.now
        ++ map (graph_line_at texts.now)
        (filter (λ name. not (contains nat_eq full.now name)) names.now)))) }
{
    let sorted = quads_by_text(alloc, texts, quads)?;
    let quads_in_order = in_order_or(&sorted, quads);
    let names_in_order = names_by_text(alloc, texts, names)?;
    match rising_text(alloc, texts, quads_in_order, &names_in_order, full)? {
        Some(text) => Ok(text),
        None => sorted_text(alloc, texts, quads, names, full),
    }
}

/// A text as one piece.
fn in_one_piece(alloc: Global, text: Vec<u8>) -> Result<Vec<Vec<u8>>, AllocError>
    ensures { IfOk result (λ pieces. text_of_pieces pieces.items ≡ text.items) }
{
    let mut pieces = Vec::new(alloc);
    pieces.push(text)?;
    Ok(pieces)
}

/// The same text, its lines made by so many threads, in pieces that stand one behind another.
fn pieces_of_lines_by<T: Threads + Sync>(
    rt: &T,
    alloc: Global,
    texts: &[TextLine],
    quads: &[Quad<u32>],
    names: &[u32],
    full: &HashSet<u32>,
    threads: usize,
) -> Result<Vec<Vec<u8>>, AllocError>
    requires quads { list_all (is_quad_within texts.now) quads.now ≡ true }
    requires names { list_all (is_within texts.now) names.now ≡ true }
    ensures { IfOk result (λ pieces. text_of_pieces pieces.items
        ≡ flat_map ended (set_of_lines text_cmp
        (map (quad_text_at texts.now) quads.now
        ++ map (graph_line_at texts.now)
        (filter (λ name. not (contains nat_eq full.now name)) names.now)))) }
{
    let ranks = ranks_by(rt, alloc, texts)?;
    let names_in_order = names_by_text(alloc, texts, names)?;
    let found = rising_pieces_by(
        rt,
        alloc,
        texts,
        ranks.as_slice(),
        quads,
        &names_in_order,
        full,
        threads,
    )?;
    if let Some(pieces) = found {
        return Ok(pieces);
    }
    let text = sorted_text(alloc, texts, quads, names, full)?;
    in_one_piece(alloc, text)
}

/// The canonical text of a dataset, where `tag` is in the labels of made nodes. It fails only where
/// memory runs out.
pub fn canonical_text(alloc: Global, dataset: &DataSet, tag: u32) -> Result<Vec<u8>, AllocError>
    ensures { IfOk result (λ text. text.items ≡ canonical_of dataset.now tag) }
{
    sets_pass_alike();
    quads_name_their_graphs();
    let parts = dataset.parts();
    let texts = texts_of(alloc, parts.terms, tag)?;
    let full = full_graphs(alloc, parts.quads, parts.terms.len())?;
    let text = text_of_lines(alloc, texts.as_slice(), parts.quads, parts.names, &full)?;
    Ok(text)
}

/// The same text, in pieces that stand one behind another.
pub fn canonical_pieces(
    alloc: Global,
    dataset: &DataSet,
    tag: u32,
) -> Result<Vec<Vec<u8>>, AllocError>
    ensures { IfOk result (λ pieces. text_of_pieces pieces.items ≡ canonical_of dataset.now tag) }
{
    let text = canonical_text(alloc, dataset, tag)?;
    in_one_piece(alloc, text)
}

/// The same pieces, made by so many threads, where they can be had. Of quads that do not stand in
/// the order of their texts each of four parts is put in order, and its lines are made, by a thread
/// of its own. No piece is moved once it is made.
pub fn canonical_pieces_by<T: Threads + Sync>(
    rt: &T,
    alloc: Global,
    dataset: &DataSet,
    tag: u32,
    threads: usize,
) -> Result<Vec<Vec<u8>>, AllocError>
    ensures { IfOk result (λ pieces. text_of_pieces pieces.items ≡ canonical_of dataset.now tag) }
{
    sets_pass_alike();
    quads_name_their_graphs();
    if threads <= 1 {
        return canonical_pieces(alloc, dataset, tag);
    }
    let parts = dataset.parts();
    let (texts, full) = texts_and_full_by(rt, alloc, parts.terms, parts.quads, tag)?;
    let pieces = pieces_of_lines_by(
        rt,
        alloc,
        texts.as_slice(),
        parts.quads,
        parts.names,
        &full,
        threads,
    )?;
    // A thread of its own drops the texts, so that nobody waits until they are dropped.
    let _ = spawn(rt, move || drop(texts));
    Ok(pieces)
}
