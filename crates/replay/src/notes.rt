//! A run that is made again, from what it noted.
ghost use Rattle.std.specs.Prelude.{◌≡◌, ◌<◌, ◌^◌, ◌++◌, List, length, IfOk, IfSome, IfNone, OnErr};
ghost use Rattle.datasets.specs.Id.{id_order};
ghost use Rattle.dict.specs.Dictionary.{is_known, numbers};
ghost use Rattle.asking.specs.Goes.{Stops};
ghost use Rattle.asking.specs.Near.{is_near_request};
ghost use Rattle.meaning.specs.Run.{answer_of};
ghost use Rattle.delta.specs.Sound.{IsSoundFor};
ghost use Rattle.update.specs.Asked.{AreShort, IsShort, operations_of};
ghost use Rattle.replay.specs.Following.{IsSoundAt};
ghost use Rattle.replay.specs.Noted.{AsksNext, AsksForOther, BeginsWith};
ghost use Rattle.replay.specs.Replays.{notes_at, HasOtherNotes};

use block_machine::Noted;
use book::Book;
use datasets::{Id, Read};
use delta::Finished;
use dict::Dict;
use meaning::Request;
use reads::same::same_reads;
use reads::{Answered, Source, Stop};
use std::alloc::{AllocError, Global};
use std::marker::Model;
use update::execute;

// What answers the reads of a run: its notes, in their order. Asked for anything else it stops.
#[derive(Drop)]
struct Answering<'n, 'a> {
    alloc: Global,
    left: &'n [Noted<'a>],
    // Whether it was asked for anything else.
    is_off: bool,
}

impl<'n, 'a> Model for Answering<'n, 'a> {
    ghost use Rattle.std.specs.Prelude.{map};
    ghost use Rattle.std.specs.Coded.{codes};
    ghost use Rattle.incarnations.specs.Kept.{kept_note_of};
    ghost use Rattle.replay.specs.Noted.{Answerer};

    ghost Value = { Answerer };

    ghost view = { λ a. record { left = map kept_note_of a.left.now; is_off = a.is_off } };
}

impl<'n, 'a> Source for Answering<'n, 'a> {
    ghost use Rattle.replay.specs.Noted.{AsksNext};

    ghost asks = { AsksNext };

    fn ask(&mut self, read: &Read<Id>) -> Result<Answered, Stop> {
        match self.left {
            [noted, left @ ..] if same_reads(&noted.note.read(), read) => {
                self.left = left;
                Ok(noted.note.answer(self.alloc)?)
            }
            _ => {
                self.is_off = true;
                Err(Stop::Stale)
            }
        }
    }
}

// The finished run of a request at a place, by what answers its reads, or nothing where it asks for
// something else.
fn run_again(
    alloc: Global,
    terms: &Dict,
    place: u32,
    request: &Request<Id>,
    answering: &mut Answering<'_, '_>,
) -> Result<Option<Finished>, AllocError>
    requires { IsShort request.now }
    ensures sound { IfOk result (λ found. IfSome found (λ run. IsSoundFor (is_known terms.now)
        (answer_of (numbers terms.now) place request.now) run)) }
    ensures notes { IfOk result (λ found. IfSome found
        (λ run. BeginsWith answering.old.left run.transcript)) }
    ensures none { IfOk result (λ found. IfNone found
        (AsksForOther request.now answering.old.left)) }
    ensures memory { OnErr result (Stops AsksNext
        (is_near_request id_order (operations_of request.now)) answering.old answering.new
        Stop.Memory) }
{
    match execute(alloc, terms, place, request, answering) {
        Ok(execution) => Ok(Some(execution.into_finished())),
        Err(Stop::Memory) => Err(AllocError),
        Err(Stop::Blocked(_)) => Ok(None),
        Err(Stop::Stale) => Ok(None),
    }
}

/// The finished run of the request at place `i` of the block, from what the request has noted, or
/// nothing where a run asks for something else, or there is no such request.
pub fn execute_again(
    alloc: Global,
    book: &Book<'_>,
    i: usize,
) -> Result<Option<Finished>, AllocError>
    requires size { length book.now.block < 2 ^ 32 }
    requires short { AreShort book.now.block }
    ensures sound { IfOk result (λ found. IfSome found (IsSoundAt book.now i)) }
    ensures notes { IfOk result (λ found. IfSome found
        (λ run. BeginsWith (notes_at book.now i) run.transcript)) }
    ensures none { IfOk result (λ found. IfNone found (HasOtherNotes book.now i)) }
{
    let Some(request) = book.block().get(i) else {
        return Ok(None);
    };
    let mut answering = Answering {
        alloc,
        left: book.notes(i),
        is_off: false,
    };
    run_again(alloc, book.terms(), i as u32, request, &mut answering)
}
