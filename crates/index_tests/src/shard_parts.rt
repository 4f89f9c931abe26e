//! Changes that are cut by shards, and answers that are made of parts, beside plain filters.
use crate::quads::quad_of;
use datasets::{GraphPlace, Id, Quad, QuadPattern, Read};
use delta::Delta;
use quad_sets::QuadSet;
use reads::{Answered, KeptAnswer};
use shards::{SHARDS, cut, merge, shard_of, touched};
use std::alloc::{AllocError, Global};

// Quads from one number on and before another, of predicates 0 to 39.
fn quads_of(alloc: Global, first: usize, past: usize) -> Result<Vec<Quad<Id>>, AllocError> {
    let mut quads = Vec::new(alloc);
    for i in first..past {
        let mut quad = quad_of(i);
        quad.predicate = Id::Known((i % 40) as u32);
        quads.push(quad)?;
    }
    Ok(quads)
}

fn set_between(alloc: Global, first: usize, past: usize) -> Result<QuadSet, AllocError> {
    QuadSet::of_quads(alloc, quads_of(alloc, first, past)?)
}

// Whether a quad's predicate has this number modulo sixteen.
fn is_of_shard(quad: &Quad<Id>, shard: u32) -> bool {
    match quad.predicate {
        Id::Known(number) => number % 16 == shard,
        Id::Made { .. } => shard == 0,
    }
}

// The quads of a shard, by a plain look at each.
fn filtered(alloc: Global, quads: &[Quad<Id>], shard: u32) -> Result<Vec<Quad<Id>>, AllocError> {
    let mut found = Vec::new(alloc);
    for quad in quads {
        if is_of_shard(quad, shard) {
            found.push(*quad)?;
        }
    }
    Ok(found)
}

// A change that has quads of all shards present, some of three absent, and one graph name gone.
fn change_of(alloc: Global) -> Result<Delta, AllocError> {
    let mut gone = Vec::new(alloc);
    gone.push(Id::Known(7))?;
    let present = quads_of(alloc, 0, 200)?;
    let absent = quads_of(alloc, 202, 205)?;
    Delta::from_parts(alloc, present, absent, Vec::new(alloc), gone)
}

// Whether what the change says in a shard is what a filter leaves of it.
fn is_cut(alloc: Global, change: &Delta, shard: u32) -> Result<bool, AllocError> {
    let part = cut(alloc, change, shard)?;
    let present = filtered(alloc, &change.present().quads(alloc)?, shard)?;
    let absent = filtered(alloc, &change.absent().quads(alloc)?, shard)?;
    let gone = if shard == 0 { change.gone().len() } else { 0 };
    Ok(
        part.present().quads(alloc)?.as_slice() == present.as_slice()
            && part.absent().quads(alloc)?.as_slice() == absent.as_slice()
            && part.there().is_empty()
            && part.gone().len() == gone,
    )
}

#[test]
fn a_change_is_cut_by_its_predicates(rt: HostRuntime) -> Result<(), AllocError> {
    let alloc = rt.alloc();
    let change = change_of(alloc)?;
    for shard in 0..SHARDS {
        assert!(rt; is_cut(alloc, &change, shard)?);
    }
    assert!(rt; touched(&change) == 0xffff);
    Ok(())
}

// A change of one quad, whose predicate has a number.
fn change_of_one(alloc: Global, predicate: u32) -> Result<Delta, AllocError> {
    let mut quad = quad_of(0);
    quad.predicate = Id::Known(predicate);
    let mut present = Vec::new(alloc);
    present.push(quad)?;
    let none = Vec::new(alloc);
    Delta::from_parts(alloc, present, none, Vec::new(alloc), Vec::new(alloc))
}

#[test]
fn a_change_touches_the_shards_of_its_quads(rt: HostRuntime) -> Result<(), AllocError> {
    let alloc = rt.alloc();
    assert!(rt; touched(&change_of_one(alloc, 17)?) == 2);
    assert!(rt; touched(&change_of_one(alloc, 31)?) == 0x8000);
    assert!(rt; shard_of(&Id::Known(33)) == 1);
    Ok(())
}

// The part of a scan's answer in each shard.
fn parts_of(alloc: Global, quads: &[Quad<Id>]) -> Result<Vec<Answered>, AllocError> {
    let mut parts = Vec::new(alloc);
    for shard in 0..SHARDS {
        let set = QuadSet::of_quads(alloc, filtered(alloc, quads, shard)?)?;
        parts.push(Answered::new(alloc, KeptAnswer::Quads(set.into_list()))?)?;
    }
    Ok(parts)
}

#[test]
fn an_answer_is_made_of_its_parts(rt: HostRuntime) -> Result<(), AllocError> {
    let alloc = rt.alloc();
    let all = Read::Scan(QuadPattern {
        subject: None,
        predicate: None,
        object: None,
        graph: GraphPlace::Any,
    });
    let set = set_between(alloc, 0, 200)?;
    let parts = parts_of(alloc, &set.as_slice().quads(alloc)?)?;
    let whole = merge(alloc, &all, &parts)?;
    let wanted = Answered::new(alloc, KeptAnswer::Quads(set.into_list()))?;
    assert!(rt; whole.is_same(&wanted));
    Ok(())
}

// The answer to a question for one name that is made of two parts.
fn made_of(alloc: Global, first: bool, second: bool) -> Result<Option<bool>, AllocError> {
    let mut parts = Vec::new(alloc);
    parts.push(Answered::new(alloc, KeptAnswer::Is(first))?)?;
    parts.push(Answered::new(alloc, KeptAnswer::Is(second))?)?;
    Ok(merge(alloc, &Read::GraphIs(Id::Known(3)), &parts)?.is())
}

#[test]
fn a_name_is_there_if_a_part_says_so(rt: HostRuntime) -> Result<(), AllocError> {
    let alloc = rt.alloc();
    assert!(rt; made_of(alloc, false, true)? == Some(true));
    assert!(rt; made_of(alloc, false, false)? == Some(false));
    Ok(())
}
