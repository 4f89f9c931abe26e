//! The lines that tell the replies to requests, and the verdicts on them.
ghost use Rattle.std.specs.Prelude.{◌≡◌, ◌++◌, ◌∷◌, [], IfOk, OnOk, string_bytes};
ghost use Rattle.command_line.specs.Replies.{cause_word as the_cause_word, refusal_word as the_refusal_word, reply_line, reply_lines, verdict_line, verdict_lines};

use meaning::{Cause, Refusal, Reply};
use std::alloc::{AllocError, Global};

fn cause_word(cause: Cause) -> &'static str
    ensures { result.now ≡ the_cause_word cause }
{
    match cause {
        Cause::GraphExists => "graph-exists",
        Cause::GraphMissing => "graph-missing",
        Cause::TooManySolutions => "too-many-solutions",
    }
}

fn refusal_word(refusal: Refusal) -> &'static str
    ensures { result.now ≡ the_refusal_word refusal }
{
    match refusal {
        Refusal::Syntax => "syntax",
        Refusal::Prefix => "prefix",
        Refusal::VariableInData => "variable-in-data",
        Refusal::BlankInDelete => "blank-in-delete",
        Refusal::LabelReused => "label-reused",
        Refusal::Limit => "limit",
    }
}

/// Adds the line of the request at a place of the block, with its LF.
fn push_reply(text: &mut String, place: usize, reply: Reply) -> Result<(), AllocError>
    ensures { OnOk result (string_bytes text.new
        ≡ string_bytes text.old ++ (reply_line place reply ++ 10 ∷ [])) }
{
    match reply {
        Reply::Done { added, removed } => writeln!(text, "{place} ok +{added} -{removed}"),
        Reply::Failed { operation, cause } => {
            writeln!(text, "{place} failed {operation} {}", cause_word(cause))
        }
        Reply::Refused(refusal) => writeln!(text, "{place} refused {}", refusal_word(refusal)),
    }
}

/// The lines of a block's replies in their order, the requests counted from 0, each ended by LF. It
/// fails only where memory runs out.
pub fn replies_text(alloc: Global, replies: &[Reply]) -> Result<String, AllocError>
    ensures { IfOk result (λ text. string_bytes text ≡ reply_lines replies.now) }
{
    let mut text = String::new(alloc);
    for place in 0..replies.len() {
        push_reply(&mut text, place, replies[place])?;
    }
    Ok(text)
}

/// Adds the line of the verdict on the request at a place of the block, with its LF.
fn push_verdict(text: &mut String, place: usize, verdict: Option<Refusal>) -> Result<(), AllocError>
    ensures { OnOk result (string_bytes text.new
        ≡ string_bytes text.old ++ (verdict_line place verdict ++ 10 ∷ [])) }
{
    match verdict {
        None => writeln!(text, "{place} accepted"),
        Some(refusal) => writeln!(text, "{place} refused {}", refusal_word(refusal)),
    }
}

/// The lines of the verdicts on a block's requests in their order, the requests counted from 0,
/// each ended by LF: nothing where the request is accepted, and else why it is refused. It fails
/// only where memory runs out.
pub fn verdicts_text(alloc: Global, verdicts: &[Option<Refusal>]) -> Result<String, AllocError>
    ensures { IfOk result (λ text. string_bytes text ≡ verdict_lines verdicts.now) }
{
    let mut text = String::new(alloc);
    for place in 0..verdicts.len() {
        push_verdict(&mut text, place, verdicts[place])?;
    }
    Ok(text)
}
