//! What replies tell the run that a pass answers.
ghost use Rattle.std.specs.Prelude.{◌≡◌};
ghost use Rattle.shared.specs.Asks.{told_by};

use block_machine::Reply;
use reads::{Answered, Stop};

/// What a reply to a read tells the run that asked: the answer, that it waits for a lower request,
/// or that it is out of date.
pub fn told(reply: Reply) -> Result<Answered, Stop>
    ensures { result ≡ told_by reply }
{
    match reply {
        Reply::Answered(answer) => Ok(answer),
        Reply::Blocked(place) => Err(Stop::Blocked(place)),
        _ => Err(Stop::Stale),
    }
}
