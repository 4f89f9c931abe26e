//! The trees of requests, with the parts that the grammar names.
//!
//! Stands on `lexer`, `algebra` (on what DROP, CLEAR, COPY, MOVE and ADD are about) and `sets`. A
//! tree is pure data in every contract: texts are their bytes and lists are lists, so `≡` of two
//! trees says that they are the same tree. Expressions and the elements of a group refer to
//! themselves: contracts see them as the trees of `specs/`.
#![tactic(auto)]

mod expression;
mod group;
mod tree;

pub use expression::{Expression, Level, One, Operator, Two};
pub use group::{Element, Group};
pub use tree::{
    Block, Literal, Name, Node, Operation, Place, Property, SameSubject, Step, Syntax, Triple,
};
