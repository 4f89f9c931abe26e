//! Statuses of requests, the refusals of events that a status does not allow, and stamps that are
//! not late.
ghost use Rattle.std.specs.Prelude.{◌≡◌, IfSome, IfNone};
ghost use Rattle.incarnations.specs.Statuses.{execution_refusal, executed_refusal, is_closed as closed, is_executed as executed, stands_after, IsPlain};

use crate::state::{Reply, Status};

/// The refusal of an event of this incarnation of a request that this worker executes, if there is
/// one.
pub fn refused_execution(status: Option<Status>, incarnation: u64, worker: u32) -> Option<Reply>
    ensures refusal { result ≡ execution_refusal status incarnation worker }
    ensures plain { IfSome result IsPlain }
    ensures none { IfNone result (status ≡ Some (Status.Executing incarnation worker)) }
{
    match status {
        Some(Status::Executing(n, by)) => {
            if n != incarnation {
                Some(Reply::Stale)
            } else if by != worker {
                Some(Reply::NotYours)
            } else {
                None
            }
        }
        _ => Some(Reply::Stale),
    }
}

/// The refusal of an event of this incarnation of an executed request, if there is one.
pub fn refused_executed(status: Option<Status>, incarnation: u64) -> Option<Reply>
    ensures refusal { result ≡ executed_refusal status incarnation }
    ensures plain { IfSome result IsPlain }
    ensures none { IfNone result (status ≡ Some (Status.Executed incarnation)) }
{
    match status {
        Some(Status::Executed(n)) => {
            if n != incarnation {
                Some(Reply::Stale)
            } else {
                None
            }
        }
        _ => Some(Reply::Stale),
    }
}

/// Whether a request is committed, or is none of the block.
pub fn is_closed(status: Option<Status>) -> bool
    ensures { result ≡ closed status }
{
    matches!(status, None | Some(Status::Committed(_)))
}

/// Whether a request is executed and not committed.
pub fn is_executed(status: Option<Status>) -> bool
    ensures { IfSome status (λ it. result ≡ executed it) }
{
    matches!(status, Some(Status::Executed(_)))
}

/// Whether a stamp stands, and no change is later.
pub fn is_after(stamp: Option<u64>, latest: u64) -> bool
    ensures { result ≡ stands_after stamp latest }
{
    match stamp {
        None => false,
        Some(moment) => latest <= moment,
    }
}
