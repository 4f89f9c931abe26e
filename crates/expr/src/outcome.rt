//! Values of expressions, wherever their texts lie.

use terms::Term;

/// The value of an expression (SPARQL 1.1 Query, 17.2): an error, a term of the dictionary, a node
/// that a request made, or a term that was computed.
#[derive(Drop)]
pub enum Outcome<'a> {
    Error,
    Known(&'a Term),
    Made {
        request: u32,
        op: u32,
        label: u32,
        rank: u32,
    },
    /// A literal of xsd:boolean.
    Truth(bool),
    /// A literal of xsd:integer, in its shortest form.
    Integer(i64),
    /// A literal of xsd:string.
    Text(&'a str),
    /// A literal of xsd:string whose text lies nowhere else.
    OwnText(String),
    Iri(&'a str),
}
