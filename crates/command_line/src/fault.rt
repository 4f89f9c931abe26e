//! Why the program ends without an answer, and what it tells then.
ghost use Rattle.std.specs.Prelude.{◌≡◌, IfOk, string_bytes};
ghost use Rattle.command_line.specs.Faults.{status_of, line_of};

use std::alloc::{AllocError, Global};
use std::fmt;
use std::marker::Model;
use thiserror::Error;

/// A file of the command line.
#[derive(Clone, Copy, Debug, Drop, PartialEq, Eq)]
pub enum File {
    /// The dataset that the run begins with.
    Base,
    /// The requests.
    Block,
    /// The events of a run.
    Journal,
    /// The dataset that the run ends with, and the replies.
    Answer,
}

/// A text for the person at the command line, of one or more lines and without the last LF.
/// Contracts see its bytes.
#[derive(Debug, Drop)]
pub struct Message {
    text: String,
}

impl Model for Message {
    ghost use Rattle.std.specs.Prelude.{List, ℕ, string_bytes};

    ghost Value = { List ℕ };

    ghost view = { λ a. string_bytes a.text };
}

impl Message {
    /// The message with this text. It takes no memory.
    pub fn new(text: String) -> Message
        ensures { result ≡ string_bytes text }
    {
        Message { text }
    }

    pub fn as_str(&self) -> &str
        ensures { result.now ≡ self.now }
    {
        self.text.as_str()
    }
}

/// Why a command line gives no job.
// Its texts and those of `Fault` are written by hand: what the derive writes has no contract, and
// `told` says exactly what is told.
#[derive(Debug, Drop, Error)]
pub enum LineFault {
    /// Memory ran out.
    Memory,
    /// It asks for help: the help.
    Help(Message),
    /// It is wrong: what is wrong with it, and the usage.
    Wrong(Message),
}

/// Why the program ends without an answer.
#[derive(Debug, Drop, Error)]
pub enum Fault {
    /// The command line gives no job.
    Line(LineFault),
    /// The first bad line of the base, counted from 1.
    BadLine(usize),
    /// The base has more than 2^30 bytes.
    BaseTooLong,
    /// The block has more than 2^28 bytes.
    BlockTooLong,
    /// The block has more requests than a run takes.
    TooManyRequests,
    /// The block is not UTF-8.
    BadUtf8,
    /// Memory ran out.
    Memory,
    /// The first bad entry of the journal, counted from 1, and 0 where its first line is bad.
    BadEntry(u64),
    /// The first entry of the journal that is not lawful, counted from 1.
    Illegal(u64),
    /// The file could not be read.
    CannotRead(File),
    /// The file could not be written.
    CannotWrite(File),
}

impl fmt::Display for File {
    ghost use Rattle.std.specs.Prelude.{Some};
    ghost use Rattle.command_line.specs.Faults.{file_word};

    ghost output = { λ f. Some (file_word f) };

    fn fmt<W: fmt::Write>(&self, f: &mut fmt::Formatter<W>) -> fmt::Result {
        match self {
            File::Base => f.write_str("base"),
            File::Block => f.write_str("block"),
            File::Journal => f.write_str("journal"),
            File::Answer => f.write_str("answer"),
        }
    }
}

impl fmt::Display for LineFault {
    ghost use Rattle.std.specs.Prelude.{Some};
    ghost use Rattle.command_line.specs.Faults.{line_of_line};

    ghost output = { λ f. Some (line_of_line f) };

    fn fmt<W: fmt::Write>(&self, f: &mut fmt::Formatter<W>) -> fmt::Result {
        match self {
            LineFault::Memory => f.write_str("out of memory"),
            LineFault::Help(message) | LineFault::Wrong(message) => f.write_str(message.as_str()),
        }
    }
}

/// The line that tells the fault, without its LF.
impl fmt::Display for Fault {
    ghost use Rattle.std.specs.Prelude.{Some};
    ghost use Rattle.command_line.specs.Faults.{line_of};

    ghost output = { λ f. Some (line_of f) };

    fn fmt<W: fmt::Write>(&self, f: &mut fmt::Formatter<W>) -> fmt::Result {
        match self {
            Fault::Line(fault) => write!(f, "{fault}"),
            Fault::BadLine(line) => write!(f, "base: bad line {line}"),
            Fault::BaseTooLong => f.write_str("base: too long"),
            Fault::BlockTooLong => f.write_str("block: too long"),
            Fault::TooManyRequests => f.write_str("block: too many requests"),
            Fault::BadUtf8 => f.write_str("block: not UTF-8"),
            Fault::Memory => f.write_str("out of memory"),
            Fault::BadEntry(entry) => write!(f, "journal: bad entry {entry}"),
            Fault::Illegal(entry) => write!(f, "journal: entry {entry} is not lawful"),
            Fault::CannotRead(file) => write!(f, "file: cannot read {file}"),
            Fault::CannotWrite(file) => write!(f, "file: cannot write {file}"),
        }
    }
}

impl Fault {
    /// The exit status of the process.
    pub fn status(&self) -> u8
        ensures { result ≡ status_of self.now }
    {
        match self {
            Fault::Line(LineFault::Help(_)) => 0,
            Fault::Line(LineFault::Wrong(_)) => 2,
            Fault::BadLine(_) | Fault::BaseTooLong => 3,
            Fault::BlockTooLong | Fault::TooManyRequests | Fault::BadUtf8 => 4,
            Fault::Line(LineFault::Memory) | Fault::Memory => 5,
            Fault::CannotRead(_) | Fault::CannotWrite(_) => 6,
            Fault::BadEntry(_) | Fault::Illegal(_) => 7,
        }
    }
}

/// The exit status, and the line that tells the fault, without its LF. Where memory runs out
/// `status` and the fault's `Display` still tell both.
pub fn told(alloc: Global, fault: &Fault) -> Result<(u8, String), AllocError>
    ensures status { IfOk result (λ r. r.0 ≡ status_of fault.now) }
    ensures line { IfOk result (λ r. string_bytes r.1 ≡ line_of fault.now) }
{
    Ok((fault.status(), fault.to_string(alloc)?))
}
