//! What a line says.
ghost use Rattle.std.specs.Prelude.{◌≡◌, ℕ, List, false, IfOk, IfSome, IsErrOf, MatchOption, None, Some};
ghost use Rattle.std.specs.Str.{is_utf8};
ghost use Rattle.nquads_lines.specs.Reading.{Gives};
ghost use Rattle.journal.specs.Lines.{IsRequest, IsCount, IsEvent, IsReply, IsLine};
ghost use Rattle.journal.specs.Reading.{event_of, numbered_event_of, read_event_at, numbered_event_at, event_at, reply_of, numbered_reply_of, reply_at, body_at, line_of};

use crate::lines::{Event, Line, Reply};
use crate::read_terms::read_at;
use crate::words::{first_word, number_of, request_of, worker_of};
use nquads_lines::Stop;
use std::alloc::Global;

/// An event of a request alone, by its word.
fn event_of(verb: &str, request: usize) -> Option<Event>
    requires { IsRequest request }
    ensures read { MatchOption result (event_of verb.now request ≡ None)
        (λ e. event_of verb.now request ≡ Some e) }
    ensures form { IfSome result (λ e. (mark : List ℕ) → IsEvent mark e) }
{
    if verb == "take" {
        return Some(Event::Take(request));
    }
    if verb == "commit" {
        return Some(Event::Commit(request));
    }
    None
}

/// An event of a request and its incarnation, by its word.
fn numbered_event_of(verb: &str, request: usize, incarnation: u64) -> Option<Event>
    requires { IsRequest request }
    ensures read { MatchOption result (numbered_event_of verb.now request incarnation ≡ None)
        (λ e. numbered_event_of verb.now request incarnation ≡ Some e) }
    ensures form { IfSome result (λ e. (mark : List ℕ) → IsEvent mark e) }
{
    if verb == "publish" {
        return Some(Event::Publish(request, incarnation));
    }
    if verb == "begin" {
        return Some(Event::Begin(request, incarnation));
    }
    if verb == "check" {
        return Some(Event::Check(request, incarnation));
    }
    if verb == "giveup" {
        return Some(Event::GiveUp(request, incarnation));
    }
    None
}

/// The event of this request by its word, where a number comes next, and what follows the space
/// behind it.
fn numbered_event_at<'a>(
    alloc: Global,
    mark: &[u8],
    verb: &str,
    request: usize,
    text: &'a str,
) -> Result<(Event, &'a str), Stop>
    requires { IsRequest request }
    ensures read { Gives (λ x. (x.0, x.1.now)) result
        (numbered_event_at mark.now verb.now request text.entry.now) }
    ensures form { IfOk result (λ x. IsEvent mark.now x.0) }
{
    let (digits, rest) = first_word(text);
    let incarnation = number_of(digits.as_bytes())?;
    if let Some(event) = numbered_event_of(verb, request, incarnation) {
        return Ok((event, rest));
    }
    let (read, rest) = read_at(alloc, mark, rest)?;
    Ok((Event::Read(request, incarnation, read), rest))
}

/// The event at the front of a text, and what follows the space behind it.
#[tactic(auto, unfolding(crate::specs::Reading::event_at))]
fn event_at<'a>(alloc: Global, mark: &[u8], text: &'a str) -> Result<(Event, &'a str), Stop>
    ensures read { Gives (λ x. (x.0, x.1.now)) result (event_at mark.now text.entry.now) }
    ensures form { IfOk result (λ x. IsEvent mark.now x.0) }
{
    let (verb, rest) = first_word(text);
    let (digits, rest) = first_word(rest);
    let request = request_of(digits)?;
    if let Some(event) = event_of(verb, request) {
        return Ok((event, rest));
    }
    numbered_event_at(alloc, mark, verb, request, rest)
}

/// A reply of one word.
fn reply_of(text: &str) -> Option<Reply>
    ensures read { MatchOption result (reply_of text.now ≡ None) (λ r. reply_of text.now ≡ Some r) }
    ensures form { IfSome result (λ r. IsReply r) }
{
    match text {
        "published" => Some(Reply::Published),
        "begun" => Some(Reply::Begun),
        "passed" => Some(Reply::Passed),
        "aborted" => Some(Reply::Aborted),
        "committed" => Some(Reply::Committed),
        "given" => Some(Reply::Given),
        "stale" => Some(Reply::Stale),
        "not-yours" => Some(Reply::NotYours),
        "not-yet" => Some(Reply::NotYet),
        _ => None,
    }
}

/// A reply with a number.
fn numbered_reply_of(word: &str, digits: &str) -> Result<Reply, Stop>
    ensures read { Gives (λ x. x) result (numbered_reply_of word.now digits.now) }
    ensures form { IfOk result (λ r. IsReply r) }
{
    if word == "taken" {
        return Ok(Reply::Taken(number_of(digits.as_bytes())?));
    }
    if word == "answer" {
        return Ok(Reply::Answered(number_of(digits.as_bytes())?));
    }
    if word == "blocked" {
        return Ok(Reply::Blocked(request_of(digits)?));
    }
    Err(Stop::Bad)
}

/// The reply that a text may be.
#[tactic(auto, unfolding(crate::specs::Reading::reply_at))]
fn reply_at(text: &str) -> Result<Reply, Stop>
    ensures read { Gives (λ x. x) result (reply_at text.now) }
    ensures form { IfOk result (λ r. IsReply r) }
{
    if let Some(reply) = reply_of(text) {
        return Ok(reply);
    }
    let (word, rest) = first_word(text);
    let (digits, _) = first_word(rest);
    numbered_reply_of(word, digits)
}

#[tactic(auto, unfolding(crate::specs::Reading::body_at))]
fn body_at(alloc: Global, mark: &[u8], text: &str) -> Result<Line, Stop>
    ensures read { Gives (λ x. x) result (body_at mark.now text.now) }
    ensures form { IfOk result (λ l. IsLine mark.now l) }
{
    let (worker, rest) = first_word(text);
    let worker = worker_of(worker)?;
    let (event, rest) = event_at(alloc, mark, rest)?;
    let (_, rest) = first_word(rest);
    let reply = reply_at(rest)?;
    Ok(Line {
        worker,
        event,
        reply,
    })
}

/// The one line that these bytes may be the text of. What is no UTF-8 is none, and never want of
/// memory.
#[tactic(auto, using(iris::proofs::TextLaws::text_laws), unfolding(crate::specs::Reading::line_of))]
pub fn line_of(alloc: Global, mark: &[u8], bytes: &[u8]) -> Result<Line, Stop>
    ensures read { Gives (λ x. x) result (line_of mark.now bytes.now) }
    ensures form { IfOk result (λ l. IsLine mark.now l) }
    ensures encoded { is_utf8 bytes.now ≡ false → IsErrOf result Stop.Bad }
{
    match str::from_utf8(bytes) {
        Ok(text) => body_at(alloc, mark, text),
        Err(_) => Err(Stop::Bad),
    }
}
