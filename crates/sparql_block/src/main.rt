//! The program `sparql-block`: the command line, the files, and what is told.
#![tactic(auto)]

ghost use Rattle.std.specs.Prelude.{◌≡◌, ◌≤◌, IfOk};
ghost use Rattle.command_line.specs.CommandLine.{HasWorkers};

use cli::{
    Fault, InFile, Job, LineFault, Message, Open, OutFile, check_engine, read_job, replay_engine,
    run_engine, run_with_journal_engine, serial_engine,
};
use devices::Watched;
use std::process::ExitCode;
use std::rt::{Env, Files};
use std::sync::Wait;
use std::thread::Threads;
use std::{env, io};

/// The words of the command line. Where they don't come as text, the line is wrong.
fn words(rt: &(impl Env + AllocGlobal)) -> Result<Vec<String>, LineFault> {
    let args = match env::args(rt) {
        Ok(args) => args,
        Err(error) if error.kind() == io::ErrorKind::OutOfMemory => return Err(LineFault::Memory),
        Err(_) => {
            let text = String::from_str(rt.alloc(), "error: the arguments are no text")?;
            return Err(LineFault::Wrong(Message::new(text)));
        }
    };
    match args.collect(rt.alloc()) {
        Ok(words) => Ok(words),
        Err(_) => Err(LineFault::Memory),
    }
}

/// A file that is made when it is first written.
fn out_file<'a, R: Files + AllocGlobal>(
    rt: &'a R,
    path: &'a str,
) -> Result<Watched<OutFile<'a, R>>, Fault>
    ensures { IfOk result (λ file. file.failures ≡ 0) }
{
    match OutFile::new(rt.alloc(), rt, path) {
        Ok(file) => Ok(Watched::new(file)),
        Err(_) => Err(Fault::Memory),
    }
}

/// Runs a block on a base: the dataset goes to a file, the reply lines to standard output. Workers
/// are from 1 to 64.
fn run<R: Threads + Wait + Sync + Files + Print + AllocGlobal>(
    rt: &R,
    base: &str,
    block: &str,
    out: &str,
    workers: u32,
) -> Result<(), Fault>
    requires some { 1 ≤ workers }
    requires most { workers ≤ 64 }
{
    let mut base = Watched::new(InFile::new(rt, base));
    let mut block = Watched::new(InFile::new(rt, block));
    let mut dataset = out_file(rt, out)?;
    let mut replies = Watched::new(io::writer(rt));
    run_engine(
        rt,
        rt.alloc(),
        &mut base,
        &mut block,
        &mut dataset,
        &mut replies,
        workers,
    )
}

/// The same, and the journal of the run goes to a file too.
fn run_with_journal<R: Threads + Wait + Sync + Files + Print + AllocGlobal>(
    rt: &R,
    base: &str,
    block: &str,
    out: &str,
    journal: &str,
    workers: u32,
) -> Result<(), Fault>
    requires some { 1 ≤ workers }
    requires most { workers ≤ 64 }
{
    let mut base = Watched::new(InFile::new(rt, base));
    let mut block = Watched::new(InFile::new(rt, block));
    let mut dataset = out_file(rt, out)?;
    let mut replies = Watched::new(io::writer(rt));
    let mut journal = out_file(rt, journal)?;
    run_with_journal_engine(
        rt,
        rt.alloc(),
        &mut base,
        &mut block,
        &mut dataset,
        &mut replies,
        &mut journal,
        workers,
        &Open,
    )
}

/// Replays a journal: the dataset goes to a file, the reply lines to standard output.
fn replay<R: Files + Print + AllocGlobal>(
    rt: &R,
    base: &str,
    block: &str,
    journal: &str,
    out: &str,
) -> Result<(), Fault> {
    let mut base = Watched::new(InFile::new(rt, base));
    let mut block = Watched::new(InFile::new(rt, block));
    let mut journal = Watched::new(InFile::new(rt, journal));
    let mut dataset = out_file(rt, out)?;
    let mut replies = Watched::new(io::writer(rt));
    replay_engine(
        rt.alloc(),
        &mut base,
        &mut block,
        &mut journal,
        &mut dataset,
        &mut replies,
    )
}

/// Runs a block on a base, one request after another: the dataset goes to a file, the reply lines
/// to standard output.
fn serial<R: Files + Print + AllocGlobal>(
    rt: &R,
    base: &str,
    block: &str,
    out: &str,
) -> Result<(), Fault> {
    let mut base = Watched::new(InFile::new(rt, base));
    let mut block = Watched::new(InFile::new(rt, block));
    let mut dataset = out_file(rt, out)?;
    let mut replies = Watched::new(io::writer(rt));
    serial_engine(
        rt.alloc(),
        &mut base,
        &mut block,
        &mut dataset,
        &mut replies,
    )
}

/// Checks a block: the lines of the verdicts go to standard output.
fn check<R: Files + Print + AllocGlobal>(rt: &R, block: &str) -> Result<(), Fault> {
    let mut block = Watched::new(InFile::new(rt, block));
    let mut replies = Watched::new(io::writer(rt));
    check_engine(rt.alloc(), &mut block, &mut replies)
}

/// Does a job.
fn done<R: Threads + Wait + Sync + Files + Print + AllocGlobal>(
    rt: &R,
    job: &Job,
) -> Result<(), Fault>
    requires workers { HasWorkers job.now }
{
    match job {
        Job::Run {
            base,
            block,
            out,
            workers,
            journal: None,
        } => run(rt, base.as_str(), block.as_str(), out.as_str(), *workers),
        Job::Run {
            base,
            block,
            out,
            workers,
            journal: Some(journal),
        } => run_with_journal(
            rt,
            base.as_str(),
            block.as_str(),
            out.as_str(),
            journal.as_str(),
            *workers,
        ),
        Job::Replay {
            base,
            block,
            journal,
            out,
        } => replay(
            rt,
            base.as_str(),
            block.as_str(),
            journal.as_str(),
            out.as_str(),
        ),
        Job::Serial { base, block, out } => serial(rt, base.as_str(), block.as_str(), out.as_str()),
        Job::Check { block } => check(rt, block.as_str()),
    }
}

/// Reads the command line and does its job.
fn answer<R: Threads + Wait + Sync + Files + Print + AllocGlobal + Env>(
    rt: &R,
) -> Result<(), Fault> {
    let words = match words(rt) {
        Ok(words) => words,
        Err(fault) => return Err(Fault::Line(fault)),
    };
    match read_job(rt.alloc(), words.as_slice()) {
        Ok(job) => done(rt, &job),
        Err(fault) => Err(Fault::Line(fault)),
    }
}

fn main(rt: HostRuntime) -> ExitCode {
    let Err(fault) = answer(&rt) else {
        return ExitCode::SUCCESS;
    };
    let status = fault.status();
    let _ = if status == 0 {
        println!(&rt; "{fault}")
    } else {
        eprintln!(&rt; "{fault}")
    };
    ExitCode::from(status)
}
