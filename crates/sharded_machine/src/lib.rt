//! Histories of the machine in sixteen shards, in which a read or a check finds each part that it
//! touches after a beginning of its own. Definitions and laws, and no code: nothing runs so yet.
//! Stands on `block_machine` and `shards`, whose lemmas in proofs/ it cites: of the one those about
//! one step (Theorem, Invariant, Known, Statuses, Bounds, Ready, Archive), of the other FoundParts.
//!
//! The contract used above: by `laws::sharded_front_is_serial`, after any such history the front is
//! that of the requests one after another.
#![tactic(auto)]

pub mod laws;
