//! Triple patterns.

/// A place of a triple pattern: a term, or a variable by its number. Variables are numbered from 0
/// in the byte order of their names.
#[derive(Clone, Copy, Drop)]
pub enum Place<T> {
    Term(T),
    Variable(u32),
}

/// A triple pattern (SPARQL 1.1 Query, section 18.1.5).
#[derive(Clone, Copy, Drop)]
pub struct TriplePattern<T> {
    pub subject: Place<T>,
    pub predicate: Place<T>,
    pub object: Place<T>,
}
