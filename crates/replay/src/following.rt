//! One line of a journal as the next event of a book.
ghost use Rattle.std.specs.Prelude.{◌≡◌, ◌≢◌, ◌<◌, ◌^◌, length, Some, true, false, IfOk, IfSome, IfNone};
ghost use Rattle.update.specs.Asked.{AreShort};
ghost use Rattle.journal.specs.declared.lines.Event.TheVariants as told;
ghost use Rattle.replay.specs.Replays.{NoneIsLawful, IsUnlawful};
ghost use Rattle.replay.specs.Following.{whole_event, tells_pass as is_pass, Follows, GoesOnBy};

use crate::lookup::find_read;
use crate::notes::execute_again;
use crate::printing::line_reply;
use block_machine::{Event, Reply};
use book::Book;
use datasets::Read;
use journal::{Event as LineEvent, Line, Reply as LineReply};
use std::alloc::{AllocError, Global};
use terms::Term;

// The event of a line that tells all of it.
fn step(alloc: Global, book: &mut Book<'_>, line: &Line, event: Event) -> Result<Reply, AllocError>
    requires { whole_event line.now.event ≡ Some event }
    ensures { IfOk result (λ reply. Follows book.old line.now reply book.new) }
{
    book.step(alloc, line.worker, &event)
}

// A read. Nothing where the dictionary lacks one of its terms.
fn read(
    alloc: Global,
    book: &mut Book<'_>,
    line: &Line,
    i: usize,
    n: u64,
    read: &Read<Term>,
) -> Result<Option<Reply>, AllocError>
    requires { line.now.event ≡ told.Read i n read.now }
    ensures some { IfOk result (λ found. IfSome found
        (λ reply. Follows book.old line.now reply book.new)) }
    ensures none { IfOk result (λ found. IfNone found (NoneIsLawful book.old line.now)) }
{
    let Some(read) = find_read(book.terms(), read) else {
        return Ok(None);
    };
    let reply = book.step(alloc, line.worker, &Event::Read(i, n, read))?;
    Ok(Some(reply))
}

// A publication: of the run that the notes give again, if they give one.
fn publish(
    alloc: Global,
    book: &mut Book<'_>,
    line: &Line,
    i: usize,
    n: u64,
) -> Result<Reply, AllocError>
    requires size { length book.old.block < 2 ^ 32 }
    requires short { AreShort book.old.block }
    requires event { line.now.event ≡ told.Publish i n }
    requires reply { line.now.reply ≡ LineReply.Published }
    ensures { IfOk result (λ reply. Follows book.old line.now reply book.new) }
{
    let finished = execute_again(alloc, book, i)?;
    book.step(alloc, line.worker, &Event::Publish(i, n, finished))
}

// A publication that is refused: it needs no run.
fn refuse(
    alloc: Global,
    book: &mut Book<'_>,
    line: &Line,
    i: usize,
    n: u64,
) -> Result<Reply, AllocError>
    requires event { line.now.event ≡ told.Publish i n }
    requires reply { line.now.reply ≢ LineReply.Published }
    ensures { IfOk result (λ reply. Follows book.old line.now reply book.new) }
{
    book.step(alloc, line.worker, &Event::Publish(i, n, None))
}

fn tells_pass(reply: LineReply) -> bool
    ensures { result ≡ is_pass reply }
{
    matches!(reply, LineReply::Passed)
}

// A check, with the reply that the line says where more than one is lawful.
fn check(
    alloc: Global,
    book: &mut Book<'_>,
    line: &Line,
    i: usize,
    n: u64,
) -> Result<Reply, AllocError>
    requires { line.now.event ≡ told.Check i n }
    ensures { IfOk result (λ reply. Follows book.old line.now reply book.new) }
{
    let passed = tells_pass(line.reply);
    book.check_as(alloc, line.worker, i, n, passed)
}

// The event of a line, with its reply. Nothing where no entry of the line is lawful.
fn follow(alloc: Global, book: &mut Book<'_>, line: &Line) -> Result<Option<Reply>, AllocError>
    requires size { length book.old.block < 2 ^ 32 }
    requires short { AreShort book.old.block }
    ensures some { IfOk result (λ found. IfSome found
        (λ reply. Follows book.old line.now reply book.new)) }
    ensures none { IfOk result (λ found. IfNone found (NoneIsLawful book.old line.now)) }
{
    let reply = match &line.event {
        LineEvent::Read(i, n, asked) => return read(alloc, book, line, *i, *n, asked),
        LineEvent::Publish(i, n) => match line.reply {
            LineReply::Published => publish(alloc, book, line, *i, *n)?,
            _ => refuse(alloc, book, line, *i, *n)?,
        },
        LineEvent::Check(i, n) => check(alloc, book, line, *i, *n)?,
        LineEvent::Take(i) => step(alloc, book, line, Event::Take(*i))?,
        LineEvent::Begin(i, n) => step(alloc, book, line, Event::Begin(*i, *n))?,
        LineEvent::Commit(i) => step(alloc, book, line, Event::Commit(*i))?,
        LineEvent::GiveUp(i, n) => step(alloc, book, line, Event::GiveUp(*i, *n))?,
    };
    Ok(Some(reply))
}

/// Plays a line into a book. It answers whether the book goes on by an entry of the line; else no
/// entry of the line is lawful, or the notes are not those of a run that it says is published. Then
/// the book is to be given up.
pub fn follow_line(alloc: Global, book: &mut Book<'_>, line: &Line) -> Result<bool, AllocError>
    requires size { length book.old.block < 2 ^ 32 }
    requires short { AreShort book.old.block }
    ensures yes { IfOk result (λ goes. goes ≡ true → GoesOnBy book.old line.now book.new) }
    ensures no { IfOk result (λ goes. goes ≡ false → IsUnlawful book.old line.now) }
{
    match follow(alloc, book, line)? {
        Some(reply) => Ok(line_reply(&reply) == line.reply),
        None => Ok(false),
    }
}
