//! Calls that never wait, of one worker alone.
ghost use Rattle.std.specs.Prelude.{◌≡◌, ◌<◌, ◌^◌, Some, slice_get, IfSome};
ghost use Rattle.update.specs.Asked.{IsShort};
ghost use Rattle.shared.specs.Calls.{IsSoundAt};
ghost use Rattle.shared.specs.Duty.{IsPassFor};

use crate::book_inputs::Topic;
use crate::lines::{Told, told_by};
use crate::numbered_blocks::request_at;
use block_machine::Reply;
use datasets::Read;
use delta::Finished;
use dict::Id;
use meaning::Request;
use reads::{Answered, Source, Stop};
use shared::{Pass, Refused, SharedBlock};
use std::alloc::Global;
use std::marker::Model;
use update::execute;

// What answers the reads of incarnation 0 of a request by calls that never wait.
#[derive(Drop)]
struct Asking<'s, 'a> {
    alloc: Global,
    shared: &'s SharedBlock<'a>,
    pass: Pass<'a>,
    place: usize,
}

impl<'s, 'a> Model for Asking<'s, 'a> {
    ghost use Rattle.std.specs.Coded.{codes};
    ghost use Rattle.algebra.specs.Codes.{plan_code};
    ghost use Rattle.datasets.specs.declared.id.Id.{Id as Number};
    ghost use Rattle.std.specs.Prelude.{◌≡◌};
    ghost use Rattle.shared.specs.Calls.{Viewed};

    ghost Value = { Viewed };

    ghost coded = { Prim.hlevel (codes, plan_code {K = Number} (Prim.hlevel codes)) };

    ghost view = { λ a. a.pass };

    ghost invariant = { λ a. a.pass.table ≡ a.shared.now };
}

impl<'s, 'a> Source for Asking<'s, 'a> {
    ghost use Rattle.machine_tests.specs.Seeing.{Sees};

    ghost asks = { λ before read told after. Sees before after };

    fn ask(&mut self, read: &Read<Id>) -> Result<Answered, Stop> {
        match self
            .shared
            .try_read(self.alloc, &mut self.pass, self.place, 0, read)
        {
            Ok(Reply::Answered(answer)) => Ok(answer),
            Ok(_) | Err(Refused::Busy) => Err(Stop::Stale),
            Err(Refused::OutOfMemory) => Err(Stop::Memory),
        }
    }
}

impl<'s, 'a> Asking<'s, 'a> {
    // The pass again.
    fn into_pass(self) -> Pass<'a>
        ensures { result ≡ self.entry }
    {
        self.pass
    }
}

/// The pass that answered the reads of a run of the request, and the run, if it came to its end.
pub fn executed<'a>(
    alloc: Global,
    shared: &SharedBlock<'a>,
    topic: &Topic<'a>,
    pass: Pass<'a>,
    place: usize,
    request: &Request<Id>,
) -> (Pass<'a>, Option<Finished>)
    requires pass { IsPassFor (record { table = shared.now; subject = topic.now }) pass }
    requires place { place < 2 ^ 32 }
    requires is { slice_get topic.now.block place ≡ Some request.now }
    requires short { IsShort request.now }
    ensures pass { IsPassFor (record { table = shared.now; subject = topic.now }) result.0 }
    ensures sound { IfSome result.1 (λ run. IsSoundAt topic.now place run) }
{
    let mut asking = Asking {
        alloc,
        shared,
        pass,
        place,
    };
    let execution = execute(alloc, topic.terms, place as u32, request, &mut asking);
    let pass = asking.into_pass();
    match execution {
        Ok(execution) => (pass, Some(execution.into_finished())),
        Err(_) => (pass, None),
    }
}

// What the publication of a run is told, or nothing where it made no event.
fn told_of<'a>(
    alloc: Global,
    shared: &SharedBlock<'a>,
    topic: &Topic<'a>,
    pass: &mut Pass<'a>,
    turn: (usize, u64),
    run: &Finished,
) -> Option<Told>
    requires pass { IsPassFor (record { table = shared.now; subject = topic.now }) pass.old }
    requires sound { IsSoundAt topic.now turn.0 run.now }
    ensures { IsPassFor (record { table = shared.now; subject = topic.now }) pass.new }
{
    let _terms = topic.terms;
    let (place, incarnation) = turn;
    match shared.try_publish(alloc, pass, place, incarnation, run) {
        Ok(reply) => Some(told_by(&reply)),
        Err(_) => None,
    }
}

/// The pass that has run the request, whose reads are those of incarnation 0, and published the run
/// as that of each of these incarnations, if it was told so.
pub fn published_as<'a>(
    alloc: Global,
    shared: &SharedBlock<'a>,
    topic: &Topic<'a>,
    pass: Pass<'a>,
    place: usize,
    calls: &[(u64, Told)],
) -> Option<Pass<'a>>
    requires { IsPassFor (record { table = shared.now; subject = topic.now }) pass }
    ensures { IfSome result (IsPassFor (record { table = shared.now; subject = topic.now })) }
{
    let Some(request) = request_at(topic.block, place) else {
        return None;
    };
    let (mut pass, run) = executed(alloc, shared, topic, pass, place, request);
    let Some(run) = run else {
        return None;
    };
    for (incarnation, told) in calls {
        let turn = (place, *incarnation);
        if told_of(alloc, shared, topic, &mut pass, turn, &run) != Some(*told) {
            return None;
        }
    }
    Some(pass)
}

/// The pass that has run incarnation 0 of the request and published the run, if it did.
pub fn published<'a>(
    alloc: Global,
    shared: &SharedBlock<'a>,
    topic: &Topic<'a>,
    pass: Pass<'a>,
    place: usize,
) -> Option<Pass<'a>>
    requires { IsPassFor (record { table = shared.now; subject = topic.now }) pass }
    ensures { IfSome result (IsPassFor (record { table = shared.now; subject = topic.now })) }
{
    published_as(alloc, shared, topic, pass, place, &[(0, Told::Published)])
}
