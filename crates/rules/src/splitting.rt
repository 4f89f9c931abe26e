//! The requests of a block of bytes.
ghost use Rattle.std.specs.Prelude.{◌≡◌, ◌≤◌, ◌^◌, IfOk, length};
ghost use Rattle.rules.specs.Requests.{whole_lines, texts_of, requests, AreChecked, AreJudged, IsBlockText, IsSplit, AreVerdicts};
ghost use Rattle.rules.specs.Cuts.{AreCut};
ghost use Rattle.rules.specs.Refusal.{IsChecked};

use crate::block::Block;
use crate::cut::{after_separator, text_count, text_len};
use crate::fault::BlockFault;
use crate::request::{Checked, Verdict, checked, judged};
use meaning::Refusal;
use rayon::prelude::*;
use sets::Items;
use std::alloc::{AllocError, Global};
use std::thread::Threads;

/// How many bytes a block has at most.
const MOST_BYTES: usize = 1 << 28;

/// How many requests a block has at most.
const MOST_REQUESTS: usize = 4096;

fn request_count(bytes: &[u8]) -> usize
    requires { length bytes.now ≤ 2 ^ 28 }
    ensures { result ≡ length (requests bytes.now) }
{
    if bytes.is_empty() {
        0
    } else {
        text_count(bytes)
    }
}

/// The requests of a text that isn't empty.
fn checked_texts(alloc: Global, text: &str) -> Result<Items<Checked>, AllocError>
    ensures { IfOk result (AreChecked (texts_of (whole_lines text.now))) }
{
    let mut found = Items::new(alloc);
    let mut rest = text;
    let mut goes_on = true;
    while goes_on {
        let (request, after) = rest.split_at(text_len(rest.as_bytes()));
        found.push(checked(alloc, request)?)?;
        goes_on = !after.is_empty();
        rest = after_separator(after);
    }
    Ok(found)
}

/// The requests of a text that isn't empty, still to be checked.
fn cut_texts(alloc: Global, text: &str) -> Result<Vec<&str>, AllocError>
    ensures { IfOk result (λ found. AreCut (texts_of (whole_lines text.now)) found.items) }
{
    let mut found = Vec::new(alloc);
    let mut rest = text;
    let mut goes_on = true;
    while goes_on {
        let (request, after) = rest.split_at(text_len(rest.as_bytes()));
        found.push(request)?;
        goes_on = !after.is_empty();
        rest = after_separator(after);
    }
    Ok(found)
}

/// The same requests as `checked_texts` gives, checked by about so many threads.
fn checked_texts_by<T: Threads + Sync>(
    rt: &T,
    alloc: Global,
    text: &str,
    threads: usize,
) -> Result<Items<Checked>, AllocError>
    ensures { IfOk result (AreChecked (texts_of (whole_lines text.now))) }
{
    let texts = cut_texts(alloc, text)?;
    let found: Result<Vec<Checked>, AllocError> = texts
        .as_slice()
        .par_iter()
        .with_min_len(texts.len() / threads.max(1))
        .map(
            |text: &&str| -> Result<Checked, AllocError>
                ensures { IfOk result (IsChecked text.now.now) }
            { checked(alloc, *text) },
        )
        .collect(rt, alloc)?;
    Ok(Items::from_vec(found?))
}

fn checked_requests(alloc: Global, text: &str) -> Result<Items<Checked>, AllocError>
    ensures { IfOk result (AreChecked (requests text.now)) }
{
    if text.is_empty() {
        Ok(Items::new(alloc))
    } else {
        checked_texts(alloc, text)
    }
}

fn checked_requests_by<T: Threads + Sync>(
    rt: &T,
    alloc: Global,
    text: &str,
    threads: usize,
) -> Result<Items<Checked>, AllocError>
    ensures { IfOk result (AreChecked (requests text.now)) }
{
    if threads <= 1 || text.is_empty() {
        checked_requests(alloc, text)
    } else {
        checked_texts_by(rt, alloc, text, threads)
    }
}

/// Whether the requests of a text that isn't empty are refused.
fn judged_texts(alloc: Global, text: &str) -> Result<Items<Verdict>, AllocError>
    ensures { IfOk result (AreJudged (texts_of (whole_lines text.now))) }
{
    let mut found = Items::new(alloc);
    let mut rest = text;
    let mut goes_on = true;
    while goes_on {
        let (request, after) = rest.split_at(text_len(rest.as_bytes()));
        found.push(judged(alloc, request)?)?;
        goes_on = !after.is_empty();
        rest = after_separator(after);
    }
    Ok(found)
}

fn judged_requests(alloc: Global, text: &str) -> Result<Items<Verdict>, AllocError>
    ensures { IfOk result (AreJudged (requests text.now)) }
{
    if text.is_empty() {
        Ok(Items::new(alloc))
    } else {
        judged_texts(alloc, text)
    }
}

/// The text of a block's bytes, where it isn't too long and has not too many requests.
fn text_of(bytes: &[u8]) -> Result<&str, BlockFault>
    ensures { IsBlockText bytes.now result }
{
    if bytes.len() > MOST_BYTES {
        return Err(BlockFault::TooLong);
    }
    if request_count(bytes) > MOST_REQUESTS {
        return Err(BlockFault::TooManyRequests);
    }
    match str::from_utf8(bytes) {
        Ok(text) => Ok(text),
        Err(_) => Err(BlockFault::BadUtf8),
    }
}

/// The requests of a block: of each its update, or why it is refused. The block is cut at each line
/// that is exactly four dashes and an LF: n such lines give n + 1 requests, and no bytes give none.
/// The fault is the first of `TooLong`, `TooManyRequests` and `BadUtf8` that holds; `OutOfMemory`
/// comes only where a growth was refused, or where a request has 2^32 variables or labels.
#[tactic(auto, using(crate::proofs::CutLaws::splits))]
pub fn split(alloc: Global, bytes: &[u8]) -> Result<Block, BlockFault>
    ensures { IsSplit bytes.now result }
{
    let text = text_of(bytes)?;
    Ok(Block::new(checked_requests(alloc, text)?))
}

/// The same, checked by about so many threads, where they can be had.
#[tactic(auto, using(crate::proofs::CutLaws::splits))]
pub fn split_by<T: Threads + Sync>(
    rt: &T,
    alloc: Global,
    bytes: &[u8],
    threads: usize,
) -> Result<Block, BlockFault>
    ensures { IsSplit bytes.now result }
{
    let text = text_of(bytes)?;
    Ok(Block::new(checked_requests_by(rt, alloc, text, threads)?))
}

/// The verdicts on the requests of a block, in order. Faults come as for `split`.
#[tactic(auto, using(crate::proofs::CutLaws::splits))]
pub fn verdicts(alloc: Global, bytes: &[u8]) -> Result<Items<Verdict>, BlockFault>
    ensures { AreVerdicts bytes.now result }
{
    let text = text_of(bytes)?;
    Ok(judged_requests(alloc, text)?)
}
