//! A request over a source whose answers lie: what its run makes of them, and what it keeps.
use crate::numbered_blocks::{numbered, request_at};
use datasets::{Quad, Read};
use dict::Id;
use meaning::Reply;
use numbering::Numbered;
use quad_lists::QuadList;
use reads::{Answered, KeptAnswer, Note, Source, Stop};
use std::alloc::Global;
use std::test::Fail;
use update::execute;

// The numbers of <e:o>, <e:p>, <e:q> and <e:s>, and one that no term has.
const O: Id = Id::Known(0);

const P: Id = Id::Known(1);

const Q: Id = Id::Known(2);

const S: Id = Id::Known(3);

const UNKNOWN: Id = Id::Known(4);

fn quad(subject: Id, predicate: Id, object: Id, graph: Option<Id>) -> Quad<Id> {
    Quad {
        subject,
        predicate,
        object,
        graph,
    }
}

// A source that answers each scan with the same quads, and each other read with a truth value.
#[derive(Drop)]
struct Parrot<'a> {
    alloc: Global,
    quads: &'a [Quad<Id>],
}

impl Source for Parrot<'_> {
    ghost asks = { λ before read told after. Unit {0} };

    fn ask(&mut self, read: &Read<Id>) -> Result<Answered, Stop> {
        let answer = match read {
            Read::Scan(_) => {
                let quads = Vec::from_slice(self.alloc, self.quads)?;
                KeptAnswer::Quads(QuadList::of_wide(quads))
            }
            _ => KeptAnswer::Is(true),
        };
        Ok(Answered::new(self.alloc, answer)?)
    }
}

// How many quads a note keeps.
fn quads_of(note: &Note) -> usize {
    match note.answer.quads() {
        Some(quads) => quads.len(),
        None => 0,
    }
}

// The reply of the only request over a source that answers so, and whether each note keeps all quads.
fn reply_on(alloc: Global, numbered: &Numbered, quads: &[Quad<Id>]) -> Result<(Reply, bool), Stop> {
    let mut source = Parrot { alloc, quads };
    let Some(request) = request_at(numbered.block.as_slice(), 0) else {
        return Err(Stop::Stale);
    };
    let run = execute(alloc, numbered.base.terms(), 0, request, &mut source)?.into_finished();
    let count = quads.len();
    let are_whole = run
        .transcript
        .as_slice()
        .iter()
        .all(|note| quads_of(note) == count);
    Ok((run.reply, are_whole))
}

const BASE: &str = "<e:s> <e:p> <e:o> .\n";

const REQUEST: &str = "INSERT { ?s <e:q> ?o } WHERE { ?s <e:p> ?o }";

// Whether the request adds so many quads over these, and its notes keep them as they came.
fn adds(alloc: Global, quads: &[Quad<Id>], added: u64) -> Result<bool, Fail> {
    let numbered = numbered(alloc, BASE, REQUEST)?;
    let found = reply_on(alloc, &numbered, quads);
    drop(numbered);
    let (reply, are_whole) = found?;
    Ok(are_whole && reply == Reply::Done { added, removed: 0 })
}

#[test]
fn what_does_not_match_is_left_out(rt: HostRuntime) -> Result<(), Fail> {
    assert!(rt; adds(rt.alloc(), &[quad(S, P, O, None)], 1)?);
    assert!(rt; adds(rt.alloc(), &[quad(S, P, O, Some(S))], 0)?);
    assert!(rt; adds(rt.alloc(), &[quad(S, P, O, None), quad(S, S, O, None)], 1)?);
    Ok(())
}

#[test]
fn an_unknown_term_is_left_out(rt: HostRuntime) -> Result<(), Fail> {
    assert!(rt; adds(rt.alloc(), &[quad(S, P, UNKNOWN, None)], 0)?);
    assert!(rt;
        adds(
            rt.alloc(),
            &[quad(UNKNOWN, P, O, None), quad(S, P, O, None)],
            1
        )?
    );
    Ok(())
}

// The quad that the request makes is there already in each answer, though twice and out of order.
#[test]
fn copies_and_order_count_for_nothing(rt: HostRuntime) -> Result<(), Fail> {
    let made = quad(S, Q, O, None);
    assert!(rt; adds(rt.alloc(), &[made, quad(S, P, O, None), made], 0)?);
    assert!(rt;
        adds(
            rt.alloc(),
            &[
                quad(S, P, O, None),
                quad(O, P, O, None),
                quad(S, P, O, None)
            ],
            2
        )?
    );
    Ok(())
}
