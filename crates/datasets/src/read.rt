//! What a run may ask of a dataset, and what it is told.

use crate::quad::Quad;

/// The graph place of a scan: any graph, or one of them, where `None` is the default graph.
#[derive(Clone, Copy, PartialEq, Eq, Debug)]
pub enum GraphPlace<T> {
    Any,
    Only(Option<T>),
}

/// The quads that a scan asks for: a place with no term is free.
#[derive(Clone, Copy, PartialEq, Eq, Debug)]
pub struct QuadPattern<T> {
    pub subject: Option<T>,
    pub predicate: Option<T>,
    pub object: Option<T>,
    pub graph: GraphPlace<T>,
}

/// A question to a dataset: the quads of a pattern, whether it has a graph name, or all its graph
/// names.
#[derive(Clone, Copy, PartialEq, Eq, Debug)]
pub enum Read<T> {
    Scan(QuadPattern<T>),
    GraphIs(T),
    Graphs,
}

/// An answer to a question.
#[derive(Drop)]
pub enum Answer<T> {
    Quads(Vec<Quad<T>>),
    Is(bool),
    Names(Vec<T>),
}
