//! Replies to requests.

/// Why an operation failed.
#[derive(Clone, Copy, Debug, Drop, PartialEq, Eq)]
pub enum Cause {
    GraphExists,
    GraphMissing,
    TooManySolutions,
}

/// Why a request was refused: the first of these that holds anywhere in it.
#[derive(Clone, Copy, Debug, Drop, PartialEq, Eq)]
pub enum Refusal {
    /// The text has no reading in the grammar.
    Syntax,
    /// A prefixed name has a prefix that is not declared before it.
    Prefix,
    /// A variable stands in INSERT DATA or DELETE DATA.
    VariableInData,
    /// A blank node stands in DELETE DATA, a DELETE template or DELETE WHERE.
    BlankInDelete,
    /// Two INSERT DATA operations share a blank node label.
    LabelReused,
    /// The text has more than 2^20 bytes, or the request more than 256 operations.
    Limit,
}

/// The reply to a request.
#[derive(Clone, Copy, Debug, Drop, PartialEq, Eq)]
pub enum Reply {
    /// How many quads are new, and how many are gone.
    Done { added: u64, removed: u64 },
    /// The failing operation, counted from 1, and why it failed.
    Failed { operation: u64, cause: Cause },
    Refused(Refusal),
}
