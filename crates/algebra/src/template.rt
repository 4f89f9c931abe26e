//! Templates.

/// A place of a template: a term, a variable by its number, or a blank node label by its number.
/// Variables are numbered as in patterns, labels from 0 by first appearance in the operation.
#[derive(Clone, Copy, Drop)]
pub enum Slot<T> {
    Term(T),
    Variable(u32),
    Label(u32),
}

/// A quad of a template (SPARQL 1.1 Update, section 4.2). With no graph it is of the default graph.
#[derive(Clone, Copy, Drop)]
pub struct QuadTemplate<T> {
    pub subject: Slot<T>,
    pub predicate: Slot<T>,
    pub object: Slot<T>,
    pub graph: Option<Slot<T>>,
}
