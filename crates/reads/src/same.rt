//! Tests for equal lists and reads.
ghost use Rattle.std.specs.Prelude.{◌≡◌, ◌↔◌, IsTrue};
ghost use Rattle.std.specs.Ordering.{eq_by_cmp};
ghost use Rattle.datasets.specs.Id.{id_order};
ghost use Rattle.datasets.specs.Dataset.{same_graph};
ghost use Rattle.reads.specs.Same.{list_eq, bool_eq, quads_eq, names_eq, graph_place_eq, pattern_eq, read_eq};

use datasets::{GraphPlace, Id, QuadPattern, Read};
use quad_lists::QuadList;

fn same_lists<T: Ord>(left: &[T], right: &[T]) -> bool
    ensures { result ≡ list_eq (eq_by_cmp T.cmp) left.now right.now }
{
    left == right
}

fn same_name(a: &Id, b: &Id) -> bool
    ensures { result ≡ eq_by_cmp id_order a.now b.now }
{
    a.cmp(b).is_eq()
}

fn same_place(a: Option<Id>, b: Option<Id>) -> bool
    ensures { result ≡ same_graph id_order a b }
{
    a == b
}

/// Whether both are true or both false.
pub fn same_bool(a: bool, b: bool) -> bool
    ensures { result ≡ bool_eq a b }
{
    if a { b } else { !b }
}

/// Whether two lists of quads are the same.
pub fn same_quads(a: &QuadList, b: &QuadList) -> bool
    ensures { result ≡ quads_eq a.now b.now }
{
    a.is_same(b)
}

/// Whether two lists of names are the same.
pub fn same_names(a: &[Id], b: &[Id]) -> bool
    ensures { result ≡ names_eq a.now b.now }
{
    same_lists(a, b)
}

fn same_graph_places(a: GraphPlace<Id>, b: GraphPlace<Id>) -> bool
    ensures { result ≡ graph_place_eq a b }
{
    match (a, b) {
        (GraphPlace::Any, GraphPlace::Any) => true,
        (GraphPlace::Only(x), GraphPlace::Only(y)) => same_place(x, y),
        _ => false,
    }
}

fn same_patterns(a: &QuadPattern<Id>, b: &QuadPattern<Id>) -> bool
    ensures { result ≡ pattern_eq a.now b.now }
{
    same_place(a.subject, b.subject)
        && same_place(a.predicate, b.predicate)
        && same_place(a.object, b.object)
        && same_graph_places(a.graph, b.graph)
}

// The test, as the definition has it.
fn equal_reads(a: &Read<Id>, b: &Read<Id>) -> bool
    ensures { result ≡ read_eq a.now b.now }
{
    match (a, b) {
        (Read::Scan(x), Read::Scan(y)) => same_patterns(x, y),
        (Read::GraphIs(x), Read::GraphIs(y)) => same_name(x, y),
        (Read::Graphs, Read::Graphs) => true,
        _ => false,
    }
}

/// Whether two reads are the same.
pub fn same_reads(a: &Read<Id>, b: &Read<Id>) -> bool
    ensures value { result ≡ read_eq a.now b.now }
    ensures exact { IsTrue result ↔ (a.now ≡ b.now) }
{
    equal_reads(a, b)
}
