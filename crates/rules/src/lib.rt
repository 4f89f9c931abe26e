//! What requests are: updates, or why they are refused; and how a block is cut into requests.
//!
//! Stands on `grammar`, `nodes`, `faults`, `translation` and `meaning`. Used above: `split`, or by
//! several threads `split_by`, gives the requests of a block, each the one request that its text
//! is, and `verdicts` whether each is refused.
#![tactic(auto)]

mod block;
mod block_terms;
mod cut;
mod fault;
pub mod laws;
mod lent;
mod long;
mod request;
mod splitting;

pub use block::Block;
pub use fault::BlockFault;
pub use lent::TermRef;
pub use request::{Checked, Update, Verdict};
pub use splitting::{split, split_by, verdicts};
