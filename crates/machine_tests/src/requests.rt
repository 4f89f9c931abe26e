//! Requests over a base, and over a source whose answers are of the wrong kind.
use crate::numbered_blocks::{numbered, request_at, tell, tell_quads};
use asking::ask_all;
use datasets::Read;
use delta::{Delta, Finished};
use dict::{Dict, Id};
use meaning::{Cause, Refusal, Reply, Request};
use numbering::Numbered;
use quad_lists::QuadList;
use reads::{Answered, KeptAnswer, Note, Source, Stop};
use std::alloc::{AllocError, Global};
use std::test::Fail;
use update::execute;

// It answers anything but what was asked for, until it stops.
#[derive(Drop)]
struct Liar {
    alloc: Global,
    left: usize,
}

impl Source for Liar {
    ghost asks = { λ before read told after. Unit {0} };

    fn ask(&mut self, read: &Read<Id>) -> Result<Answered, Stop> {
        if self.left == 0 {
            return Err(Stop::Blocked(3));
        }
        self.left -= 1;
        match read {
            Read::Scan(_) => Ok(Answered::new(self.alloc, KeptAnswer::Is(true))?),
            _ => {
                let none = QuadList::new(self.alloc);
                Ok(Answered::new(self.alloc, KeptAnswer::Quads(none))?)
            }
        }
    }
}

// Runs the only request of a block as the one at place 7.
fn run<S: Source>(
    alloc: Global,
    terms: &Dict,
    block: &[Request<Id>],
    source: &mut S,
) -> Result<Finished, Stop> {
    let Some(request) = request_at(block, 0) else {
        return Err(Stop::Stale);
    };
    Ok(execute(alloc, terms, 7, request, source)?.into_finished())
}

// A line for each name.
fn tell_names(
    alloc: Global,
    terms: &Dict,
    sign: u8,
    names: &[Id],
    text: &mut Vec<u8>,
) -> Result<(), AllocError> {
    for name in names {
        tell(alloc, terms, sign, &[*name], text)?;
    }
    Ok(())
}

// A line for each quad and for each name that comes or goes.
fn tell_delta(
    alloc: Global,
    terms: &Dict,
    delta: &Delta,
    text: &mut Vec<u8>,
) -> Result<(), AllocError> {
    tell_quads(alloc, terms, b'+', &delta.present().quads(alloc)?, text)?;
    tell_quads(alloc, terms, b'-', &delta.absent().quads(alloc)?, text)?;
    tell_names(alloc, terms, b'#', delta.there(), text)?;
    tell_names(alloc, terms, b'~', delta.gone(), text)
}

fn told(alloc: Global, terms: &Dict, delta: &Delta) -> Result<Vec<u8>, AllocError> {
    let mut text = Vec::new(alloc);
    tell_delta(alloc, terms, delta, &mut text)?;
    Ok(text)
}

/// A request, and what its run over a base comes to.
struct Row {
    base: &'static str,
    request: &'static str,
    reply: Reply,
    reads: usize,
    delta: &'static str,
}

const BASE: &str = "<x:a> <x:p> <x:b> .\n<x:a> <x:p> <x:c> .\n";

// A quad in the default graph, one in the graph c, and an empty graph b.
const GRAPHS: &str = "<x:a> <x:p> <x:b> .\n<x:a> <x:p> <x:c> <x:c> .\n#@graph <x:b>\n";

const ROWS: [Row; 16] = [
    // New nodes are numbered by the rank of their solution.
    Row {
        base: BASE,
        request: "DELETE { ?s <x:p> ?o } INSERT { ?s <x:q> ?o ; <x:q> _:l } WHERE { ?s <x:p> ?o }",
        reply: Reply::Done {
            added: 4,
            removed: 2,
        },
        reads: 5,
        delta: "+ <x:a> <x:q> <x:b>\n+ <x:a> <x:q> <x:c>\n\
            + <x:a> <x:q> _:m1r7o0l0s0\n+ <x:a> <x:q> _:m1r7o0l0s1\n\
            - <x:a> <x:p> <x:b>\n- <x:a> <x:p> <x:c>\n",
    },
    // Each operation reads what those before it left.
    Row {
        base: BASE,
        request: MANY,
        reply: Reply::Done {
            added: 6,
            removed: 2,
        },
        reads: 7,
        delta: "+ <x:a> <x:q> <x:b>\n+ <x:a> <x:q> <x:c>\n\
            + <x:a> <x:q> _:m1r7o1l0s0\n+ <x:a> <x:q> _:m1r7o1l0s1\n\
            + <x:b> <x:q> <x:c>\n+ <x:b> <x:q> _:m1r7o1l0s2\n\
            - <x:a> <x:p> <x:b>\n- <x:a> <x:p> <x:c>\n",
    },
    // What comes back is no change.
    Row {
        base: BASE,
        request: "DELETE DATA { <x:a> <x:p> <x:b> } ; INSERT DATA { <x:a> <x:p> <x:b> }",
        reply: Reply::Done {
            added: 0,
            removed: 0,
        },
        reads: 1,
        delta: "",
    },
    // Graphs come with their quads.
    Row {
        base: BASE,
        request: "INSERT DATA { GRAPH <x:c> { <x:a> <x:p> <x:a> } }",
        reply: Reply::Done {
            added: 1,
            removed: 0,
        },
        reads: 2,
        delta: "+ <x:a> <x:p> <x:a> <x:c>\n# <x:c>\n",
    },
    // CLEAR keeps the names of graphs, DROP takes them away.
    Row {
        base: GRAPHS,
        request: "CLEAR ALL",
        reply: Reply::Done {
            added: 0,
            removed: 2,
        },
        reads: 1,
        delta: "- <x:a> <x:p> <x:b>\n- <x:a> <x:p> <x:c> <x:c>\n",
    },
    Row {
        base: GRAPHS,
        request: "DROP NAMED",
        reply: Reply::Done {
            added: 0,
            removed: 1,
        },
        reads: 2,
        delta: "- <x:a> <x:p> <x:c> <x:c>\n~ <x:b>\n~ <x:c>\n",
    },
    // What goes and comes back is no change, of names either.
    Row {
        base: GRAPHS,
        request: "DROP GRAPH <x:b> ; CREATE GRAPH <x:b>",
        reply: Reply::Done {
            added: 0,
            removed: 0,
        },
        reads: 4,
        delta: "",
    },
    Row {
        base: GRAPHS,
        request: "CREATE GRAPH <x:b>",
        reply: Reply::Failed {
            operation: 1,
            cause: Cause::GraphExists,
        },
        reads: 1,
        delta: "",
    },
    Row {
        base: GRAPHS,
        request: "CREATE GRAPH <x:d>",
        reply: Reply::Done {
            added: 0,
            removed: 0,
        },
        reads: 2,
        delta: "# <x:d>\n",
    },
    // The graph that quads go to is there afterwards, whatever it got.
    Row {
        base: GRAPHS,
        request: "ADD <x:b> TO <x:d>",
        reply: Reply::Done {
            added: 0,
            removed: 0,
        },
        reads: 3,
        delta: "# <x:d>\n",
    },
    Row {
        base: GRAPHS,
        request: "COPY DEFAULT TO <x:c>",
        reply: Reply::Done {
            added: 1,
            removed: 1,
        },
        reads: 3,
        delta: "+ <x:a> <x:p> <x:b> <x:c>\n- <x:a> <x:p> <x:c> <x:c>\n",
    },
    Row {
        base: GRAPHS,
        request: "MOVE <x:c> TO <x:b>",
        reply: Reply::Done {
            added: 1,
            removed: 1,
        },
        reads: 5,
        delta: "+ <x:a> <x:p> <x:c> <x:b>\n- <x:a> <x:p> <x:c> <x:c>\n~ <x:c>\n",
    },
    // From a graph that is not there, and from one to itself.
    Row {
        base: GRAPHS,
        request: "MOVE <x:d> TO <x:c>",
        reply: Reply::Failed {
            operation: 1,
            cause: Cause::GraphMissing,
        },
        reads: 1,
        delta: "",
    },
    Row {
        base: GRAPHS,
        request: "MOVE SILENT <x:d> TO <x:c>",
        reply: Reply::Done {
            added: 0,
            removed: 0,
        },
        reads: 1,
        delta: "",
    },
    Row {
        base: GRAPHS,
        request: "MOVE <x:d> TO <x:d>",
        reply: Reply::Done {
            added: 0,
            removed: 0,
        },
        reads: 0,
        delta: "",
    },
    // An operation that fails undoes those before it.
    Row {
        base: GRAPHS,
        request: "DROP ALL ; CLEAR GRAPH <x:c>",
        reply: Reply::Failed {
            operation: 2,
            cause: Cause::GraphMissing,
        },
        reads: 3,
        delta: "",
    },
];

const MANY: &str = "INSERT DATA { <x:b> <x:p> <x:c> } ; \
    DELETE { ?s <x:p> ?o } INSERT { ?s <x:q> ?o ; <x:q> _:l } WHERE { ?s <x:p> ?o }";

// Whether a run has the reply, as many reads and the delta of a row.
fn is_told(alloc: Global, terms: &Dict, run: &Finished, row: &Row) -> Result<bool, AllocError> {
    Ok(
        run.reply == row.reply
            && run.transcript.len() == row.reads
            && told(alloc, terms, &run.delta)?.as_slice() == row.delta.as_bytes(),
    )
}

// Whether the run of a row's request over its base comes to what the row says.
fn is_run(alloc: Global, numbered: &Numbered, row: &Row) -> Result<bool, Stop> {
    let terms = numbered.base.terms();
    let run = run(alloc, terms, numbered.block.as_slice(), &mut &numbered.base)?;
    let is_told = is_told(alloc, terms, &run, row);
    drop(run);
    Ok(is_told?)
}

fn comes_out(alloc: Global, row: &Row) -> Result<bool, Fail> {
    let numbered = numbered(alloc, row.base, row.request)?;
    let is_run = is_run(alloc, &numbered, row);
    drop(numbered);
    Ok(is_run?)
}

#[test]
fn over_a_base(rt: HostRuntime) -> Result<(), Fail> {
    for row in &ROWS {
        assert!(rt; comes_out(rt.alloc(), row)?, "{}", row.request);
    }
    Ok(())
}

// What the run of the only request is told where the source answers so many reads, and each of them
// wrongly; and how many reads it made.
fn told_on_lies(alloc: Global, numbered: &Numbered, left: usize) -> Result<(Reply, usize), Stop> {
    let mut liar = Liar { alloc, left };
    let terms = numbered.base.terms();
    let run = run(alloc, terms, numbered.block.as_slice(), &mut liar)?;
    Ok((run.reply, run.transcript.len()))
}

const TWO: Reply = Reply::Done {
    added: 2,
    removed: 0,
};

#[test]
fn answers_of_the_wrong_kind(rt: HostRuntime) -> Result<(), Fail> {
    let many = numbered(rt.alloc(), BASE, MANY)?;
    let through = told_on_lies(rt.alloc(), &many, 100);
    let stopped = told_on_lies(rt.alloc(), &many, 2);
    drop(many);
    assert!(rt; through == Ok((TWO, 3)));
    assert!(rt; stopped == Err(Stop::Blocked(3)));
    Ok(())
}

#[test]
fn refused_requests_ask_nothing(rt: HostRuntime) -> Result<(), Fail> {
    let none = numbered(rt.alloc(), BASE, "INSERT")?;
    let refused = told_on_lies(rt.alloc(), &none, 0);
    drop(none);
    assert!(rt; refused == Ok((Reply::Refused(Refusal::Syntax), 0)));
    Ok(())
}

// What is asked of a source that answers two reads, each of them wrongly, and its notes.
fn asked_of_liar(alloc: Global, reads: &[Read<Id>]) -> (Result<(), Stop>, Vec<Note>) {
    let mut liar = Liar { alloc, left: 2 };
    let mut notes = Vec::new(alloc);
    let asked = ask_all(reads, &mut liar, &mut notes);
    (asked, notes)
}

const GRAPH: Read<Id> = Read::GraphIs(Id::Known(3));

// Whether two reads are noted in order.
fn are_in_order(alloc: Global) -> bool {
    let (asked, notes) = asked_of_liar(alloc, &[Read::Graphs, GRAPH]);
    asked == Ok(())
        && matches!(notes.as_slice(), [first, second] if first.read == Read::Graphs && second.read == GRAPH)
}

// Whether the third of three reads is not answered, and the two before it are noted with no quads.
fn are_two_noted(alloc: Global) -> bool {
    let (asked, notes) = asked_of_liar(alloc, &[GRAPH, Read::Graphs, GRAPH]);
    asked == Err(Stop::Blocked(3))
        && notes.len() == 2
        && notes.as_slice().iter().all(
            |note| matches!(note.answer.quads(), Some(quads) if quads.is_empty()),
        )
}

#[test]
fn many_reads_are_noted_in_order(rt: HostRuntime) {
    assert!(rt; are_in_order(rt.alloc()));
    assert!(rt; are_two_noted(rt.alloc()));
}
