//! Command lines and the jobs that they ask for, and the lines that are told of replies, verdicts
//! and faults.
use command_line::{
    Fault, File, Job, LineFault, Message, read_job, replies_text, told, verdicts_text,
};
use meaning::{Cause, Refusal, Reply};
use std::alloc::{AllocError, Global};

fn words_of(alloc: Global, line: &str) -> Result<Vec<String>, AllocError> {
    let mut words = Vec::new(alloc);
    for word in line.split(' ') {
        words.push(String::from_str(alloc, word)?)?;
    }
    Ok(words)
}

/// A job's fields, one a word.
fn told_job(alloc: Global, job: &Job) -> Result<String, AllocError> {
    match job {
        Job::Run {
            base,
            block,
            out,
            workers,
            journal: None,
        } => format!(in alloc; "{base} {block} {out} {workers}"),
        Job::Run {
            base,
            block,
            out,
            workers,
            journal: Some(journal),
        } => format!(in alloc; "{base} {block} {out} {workers} {journal}"),
        Job::Serial { base, block, out } => format!(in alloc; "serial {base} {block} {out}"),
        Job::Replay {
            base,
            block,
            journal,
            out,
        } => format!(in alloc; "replay {base} {block} {journal} {out}"),
        Job::Check { block } => format!(in alloc; "check {block}"),
    }
}

/// What the words come to: a job, or the exit status.
fn tell(alloc: Global, line: &str) -> Result<String, AllocError> {
    let words = words_of(alloc, line)?;
    match read_job(alloc, words.as_slice()) {
        Ok(job) => told_job(alloc, &job),
        Err(fault) => format!(in alloc; "{}", Fault::Line(fault).status()),
    }
}

/// Command lines, and what each comes to.
const COMMANDS: [(&str, &str); 34] = [
    ("x run a b c", "a b c 4"),
    ("x run a b c --workers 64", "a b c 64"),
    ("x run --workers=1 a b c", "a b c 1"),
    ("x run a b c --workers 0", "2"),
    ("x run a b c --workers 65", "2"),
    ("x run a b c --workers x", "2"),
    ("x run a b c --workers", "2"),
    ("x run a b c --journal d", "a b c 4 d"),
    ("x run --journal=d a b c --workers 2", "a b c 2 d"),
    ("x run a b c --journal", "2"),
    ("x replay a b c d", "replay a b c d"),
    ("x replay a b c", "2"),
    ("x run a b c --shards 2", "2"),
    ("x run a b c d", "2"),
    ("x run a b", "2"),
    ("x serial a b c", "serial a b c"),
    ("x serial a b c --workers 1", "2"),
    ("x serial a b", "2"),
    ("x serial --help", "0"),
    ("x check b", "check b"),
    ("x check run", "check run"),
    ("x check", "2"),
    ("x check a b", "2"),
    ("x check b --workers 1", "2"),
    ("x check --workers 1", "2"),
    ("x check b --journal never", "2"),
    ("x run check b", "2"),
    ("x walk a b c", "2"),
    ("x checks b", "2"),
    ("x help", "2"),
    ("x", "2"),
    ("x --help", "0"),
    ("x run --help", "0"),
    ("x check --help", "0"),
];

#[test]
fn command_lines(rt: HostRuntime) -> Result<(), AllocError> {
    for (line, want) in &COMMANDS {
        assert!(rt; tell(rt.alloc(), line)?.as_str() == *want, "{line}");
    }
    Ok(())
}

const DONE: Reply = Reply::Done {
    added: 12,
    removed: 3,
};

const FAILED: Reply = Reply::Failed {
    operation: 2,
    cause: Cause::GraphExists,
};

#[test]
fn lines_of_replies(rt: HostRuntime) -> Result<(), AllocError> {
    let replies = [DONE, FAILED, Reply::Refused(Refusal::VariableInData)];
    let text = replies_text(rt.alloc(), replies.as_slice())?;
    assert!(rt;
        text.as_str() == "0 ok +12 -3\n1 failed 2 graph-exists\n2 refused variable-in-data\n"
    );
    Ok(())
}

#[test]
fn lines_of_verdicts(rt: HostRuntime) -> Result<(), AllocError> {
    let verdicts = [None, Some(Refusal::Limit)];
    let text = verdicts_text(rt.alloc(), verdicts.as_slice())?;
    assert!(rt; text.as_str() == "0 accepted\n1 refused limit\n");
    Ok(())
}

fn is_told(alloc: Global, fault: &Fault, status: u8, line: &str) -> Result<bool, AllocError> {
    let (found, text) = told(alloc, fault)?;
    Ok(found == status && text.as_str() == line)
}

/// The fault of words that make no command.
fn wrong_words(alloc: Global) -> Result<Fault, AllocError> {
    let message = Message::new(String::from_str(alloc, "no such command")?);
    Ok(Fault::Line(LineFault::Wrong(message)))
}

#[test]
fn lines_of_faults(rt: HostRuntime) -> Result<(), AllocError> {
    let alloc = rt.alloc();
    assert!(rt; is_told(alloc, &Fault::BadLine(17), 3, "base: bad line 17")?);
    let no_block = Fault::CannotRead(File::Block);
    assert!(rt; is_told(alloc, &no_block, 6, "file: cannot read block")?);
    assert!(rt; is_told(alloc, &wrong_words(alloc)?, 2, "no such command")?);
    Ok(())
}
