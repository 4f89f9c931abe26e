//! Operations of a request (SPARQL 1.1 Update, section 3).

use crate::plan::Pattern;
use crate::template::QuadTemplate;
use sets::Items;

/// DELETE and INSERT with their WHERE (SPARQL 1.1 Update, 3.1.3). INSERT DATA and DELETE DATA have
/// the empty group as WHERE, and DELETE WHERE has its quads as pattern and template.
#[derive(Drop)]
pub struct Modify<T> {
    /// How many variables WHERE has. They are numbered from 0 in the byte order of their names.
    pub width: u32,
    /// The graph that WHERE begins in: that of WITH, or the default graph.
    pub active: Option<T>,
    pub pattern: Pattern<T>,
    pub delete: Items<QuadTemplate<T>>,
    pub insert: Items<QuadTemplate<T>>,
}

/// What DROP and CLEAR name (SPARQL 1.1 Update, 3.1.4 and 3.2.2).
#[derive(Drop)]
pub enum Target<T> {
    Graph(T),
    Default,
    Named,
    All,
}

/// What is done with two graphs (SPARQL 1.1 Update, 3.2.3 to 3.2.5).
#[derive(Clone, Copy, Debug, Drop, PartialEq, Eq)]
pub enum Transfer {
    Copy,
    Move,
    Add,
}

/// An operation on whole graphs (SPARQL 1.1 Update, 3.2). No graph is the default graph.
#[derive(Drop)]
pub enum GraphOperation<T> {
    Create(T),
    Drop(Target<T>),
    Clear(Target<T>),
    Transfer {
        how: Transfer,
        from: Option<T>,
        to: Option<T>,
    },
}

/// An operation of a request. With SILENT an operation on graphs that would fail changes nothing.
#[derive(Drop)]
pub enum Operation<T> {
    Modify(Modify<T>),
    Graphs {
        silent: bool,
        operation: GraphOperation<T>,
    },
}
