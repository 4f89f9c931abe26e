//! The command line and the job that it asks for.
ghost use Rattle.std.specs.Prelude.{◌≡◌, codes, false, map, option_map, IfOk, IsErrOf, string_bytes};
ghost use Rattle.clap.specs.declared.builder.command.Command.TheViews.{out-Command as fields_of};
ghost use Rattle.clap.specs.Words.{app_of, kind_of, new_app, rule_of, with_rule};
ghost use Rattle.command_line.specs.CommandLine.{IsAnswer, IsToldAs, words_of, words_in, file_rule, journal_rule, workers_option_rule, workers_rule, check_app, replay_app, run_app, serial_app, app_of_block, bare_program, program_of_runs, program as the_program};

use crate::fault::{LineFault, Message};
use crate::words::{JobWords, Mistake, words_of};
use clap::error::ErrorKind;
use clap::{Arg, Command, value_parser};
use std::alloc::{AllocError, Global};

const BLOCK_HELP: &str = "The block, requests that lines ---- part";

const OUT_HELP: &str = "The file that the dataset is written to";

/// What the program is asked to do.
#[derive(Debug, Drop)]
pub enum Job {
    /// Runs the block on the base, and writes the dataset that it ends with.
    Run {
        /// The path of the base.
        base: String,
        /// The path of the block.
        block: String,
        /// The path that the dataset is written to.
        out: String,
        /// How many workers run the block, from 1 to 64.
        workers: u32,
        /// The path that the journal of the run is written to, where one is asked for.
        journal: Option<String>,
    },
    /// Runs the block on the base, one request after another by one thread, and writes the dataset
    /// that it ends with.
    Serial {
        /// The path of the base.
        base: String,
        /// The path of the block.
        block: String,
        /// The path that the dataset is written to.
        out: String,
    },
    /// Replays a journal of a run of the block on the base, and writes the dataset that its
    /// committed requests end with.
    Replay {
        /// The path of the base.
        base: String,
        /// The path of the block.
        block: String,
        /// The path of the journal.
        journal: String,
        /// The path that the dataset is written to.
        out: String,
    },
    /// Tells of each request of the block whether it is accepted, or why it is refused.
    Check {
        /// The path of the block.
        block: String,
    },
}

impl From<AllocError> for LineFault {
    ghost use Rattle.command_line.specs.declared.fault.LineFault.TheVariants.{Memory};

    ghost from_gives = { λ _ e. e ≡ Memory };

    fn from(_e: AllocError) -> LineFault {
        LineFault::Memory
    }
}

/// A file that must be named.
fn file_argument<'a>(alloc: Global, id: &'a str, help: &'a str) -> Arg<'a>
    ensures rule { rule_of result ≡ file_rule id.entry.now }
    ensures local { result.global ≡ false }
{
    Arg::new(alloc, id).required(true).help(help)
}

/// A number behind `--workers`.
fn workers_option<'a>(alloc: Global) -> Arg<'a>
    ensures rule { rule_of result ≡ workers_option_rule }
    ensures local { result.global ≡ false }
{
    Arg::new(alloc, "workers")
        .long("workers")
        .value_parser(value_parser!(u32))
}

fn workers_argument<'a>(alloc: Global) -> Arg<'a>
    ensures rule { rule_of result ≡ workers_rule }
    ensures local { result.global ≡ false }
{
    workers_option(alloc)
        .value_name("N")
        .default_value("4")
        .help("How many workers run the block, from 1 to 64")
}

/// A file behind `--journal`.
fn journal_argument<'a>(alloc: Global) -> Arg<'a>
    ensures rule { rule_of result ≡ journal_rule }
    ensures local { result.global ≡ false }
{
    Arg::new(alloc, "journal")
        .long("journal")
        .value_name("FILE")
        .help("The file that the journal of the run is written to")
}

/// The command with one more file that must be named.
fn with_file<'a>(
    alloc: Global,
    command: Command<'a>,
    id: &'a str,
    help: &'a str,
) -> Result<Command<'a>, AllocError>
    requires local { (fields_of command).has_globals ≡ false }
    ensures app { IfOk result (λ c. app_of c ≡ with_rule (app_of command.entry)
        (file_rule id.entry.now)) }
    ensures local { IfOk result (λ c. (fields_of c).has_globals ≡ false) }
{
    command.arg(file_argument(alloc, id, help))
}

/// A command with no argument yet.
fn bare_command<'a>(alloc: Global, name: &'a str, about: &'a str) -> Command<'a>
    ensures app { app_of result ≡ new_app name.entry.now }
    ensures local { (fields_of result).has_globals ≡ false }
{
    Command::new(alloc, name).about(about)
}

/// A command of a base and a block.
fn command_of_block<'a>(
    alloc: Global,
    name: &'a str,
    about: &'a str,
) -> Result<Command<'a>, AllocError>
    ensures app { IfOk result (λ c. app_of c ≡ app_of_block name.entry.now) }
    ensures local { IfOk result (λ c. (fields_of c).has_globals ≡ false) }
{
    let command = bare_command(alloc, name, about);
    let command = with_file(alloc, command, "BASE", "The base, a file of N-Quads")?;
    with_file(alloc, command, "BLOCK", BLOCK_HELP)
}

fn run_command<'a>(alloc: Global) -> Result<Command<'a>, AllocError>
    ensures app { IfOk result (λ c. app_of c ≡ run_app) }
    ensures local { IfOk result (λ c. (fields_of c).has_globals ≡ false) }
{
    let about = "Runs a block of SPARQL updates on a base of N-Quads";
    let command = command_of_block(alloc, "run", about)?;
    with_file(alloc, command, "OUT", OUT_HELP)?
        .arg(workers_argument(alloc))?
        .arg(journal_argument(alloc))
}

fn serial_command<'a>(alloc: Global) -> Result<Command<'a>, AllocError>
    ensures app { IfOk result (λ c. app_of c ≡ serial_app) }
    ensures local { IfOk result (λ c. (fields_of c).has_globals ≡ false) }
{
    let about = "Runs a block of SPARQL updates on a base of N-Quads, one request after another";
    let command = command_of_block(alloc, "serial", about)?;
    with_file(alloc, command, "OUT", OUT_HELP)
}

fn replay_command<'a>(alloc: Global) -> Result<Command<'a>, AllocError>
    ensures app { IfOk result (λ c. app_of c ≡ replay_app) }
    ensures local { IfOk result (λ c. (fields_of c).has_globals ≡ false) }
{
    let command = command_of_block(alloc, "replay", "Replays the journal of a run")?;
    let command = with_file(alloc, command, "JOURNAL", "The journal of the run")?;
    with_file(alloc, command, "OUT", OUT_HELP)
}

fn check_command<'a>(alloc: Global) -> Result<Command<'a>, AllocError>
    ensures app { IfOk result (λ c. app_of c ≡ check_app) }
    ensures local { IfOk result (λ c. (fields_of c).has_globals ≡ false) }
{
    let about = "Tells of each request of a block whether it is accepted";
    let command = bare_command(alloc, "check", about);
    with_file(alloc, command, "BLOCK", BLOCK_HELP)
}

/// The program with no subcommand yet.
fn bare_program<'a>(alloc: Global) -> Command<'a>
    ensures app { app_of result ≡ bare_program }
    ensures local { (fields_of result).has_globals ≡ false }
{
    Command::new(alloc, "sparql-block")
        .about("Runs ordered blocks of SPARQL 1.1 updates")
        .subcommand_required(true)
        .disable_help_subcommand(true)
}

/// The program with the commands that run a block.
fn program_of_runs<'a>(alloc: Global) -> Result<Command<'a>, AllocError>
    ensures app { IfOk result (λ c. app_of c ≡ program_of_runs) }
    ensures local { IfOk result (λ c. (fields_of c).has_globals ≡ false) }
{
    bare_program(alloc)
        .subcommand(run_command(alloc)?)?
        .subcommand(serial_command(alloc)?)
}

fn program<'a>(alloc: Global) -> Result<Command<'a>, AllocError>
    ensures { IfOk result (λ c. app_of c ≡ the_program) }
{
    program_of_runs(alloc)?
        .subcommand(replay_command(alloc)?)?
        .subcommand(check_command(alloc)?)
}

/// What a command line's error tells. An `Err` comes where a growth was refused, here or to `clap`.
fn line_fault(alloc: Global, error: &clap::Error) -> Result<LineFault, AllocError>
    ensures { IfOk result (IsToldAs (kind_of error.now)) }
{
    if error.kind() == ErrorKind::OutOfMemory {
        return Err(AllocError);
    }
    let text = error.to_string(alloc)?;
    let message = Message::new(String::from_str(alloc, text.trim_end())?);
    Ok(match error.kind() {
        ErrorKind::DisplayHelp => LineFault::Help(message),
        _ => LineFault::Wrong(message),
    })
}

/// What a mistake tells.
fn mistake_fault(alloc: Global, mistake: Mistake) -> Result<LineFault, AllocError>
    ensures { IfOk result (IsToldAs ErrorKind.InvalidValue) }
{
    let text = String::from_str(alloc, mistake.text())?;
    Ok(LineFault::Wrong(Message::new(text)))
}

/// A file that need not be named, in memory of its own.
fn path_of(alloc: Global, path: Option<&str>) -> Result<Option<String>, AllocError>
    ensures { IfOk result (λ copy. option_map string_bytes copy
        ≡ option_map (λ text. text.now) path.entry) }
{
    match path {
        Some(path) => Ok(Some(String::from_str(alloc, path)?)),
        None => Ok(None),
    }
}

/// The job of these words, in memory of its own.
fn job_of(alloc: Global, words: JobWords<'_>) -> Result<Job, AllocError>
    ensures { IfOk result (λ job. words_of job ≡ words_in words.entry) }
{
    Ok(match words {
        JobWords::Run {
            base,
            block,
            out,
            workers,
            journal,
        } => Job::Run {
            base: String::from_str(alloc, base)?,
            block: String::from_str(alloc, block)?,
            out: String::from_str(alloc, out)?,
            workers,
            journal: path_of(alloc, journal)?,
        },
        JobWords::Serial { base, block, out } => Job::Serial {
            base: String::from_str(alloc, base)?,
            block: String::from_str(alloc, block)?,
            out: String::from_str(alloc, out)?,
        },
        JobWords::Replay {
            base,
            block,
            journal,
            out,
        } => Job::Replay {
            base: String::from_str(alloc, base)?,
            block: String::from_str(alloc, block)?,
            journal: String::from_str(alloc, journal)?,
            out: String::from_str(alloc, out)?,
        },
        JobWords::Check { block } => Job::Check {
            block: String::from_str(alloc, block)?,
        },
    })
}

/// What a command line comes to. An `Err` comes only where a growth was refused, and `Memory` is
/// none of its answers.
fn answer(alloc: Global, words: &[String]) -> Result<Result<Job, LineFault>, AllocError>
    ensures answer { IfOk result (IsAnswer (map string_bytes words.now)) }
    ensures memory { IfOk result (λ answer. IsErrOf answer LineFault.Memory → ⊥) }
{
    let matches = match program(alloc)?.try_get_matches_from(words) {
        Ok(matches) => matches,
        Err(error) => return Ok(Err(line_fault(alloc, &error)?)),
    };
    match words_of(&matches) {
        Ok(words) => Ok(Ok(job_of(alloc, words)?)),
        Err(mistake) => Ok(Err(mistake_fault(alloc, mistake)?)),
    }
}

/// Reads a command line, whose first word is the program's name. The workers of a run are from 1 to
/// 64. `Help` comes where the words ask for help, `Wrong` where they are no command line of the
/// program, and `Memory` where memory runs out.
pub fn read_job(alloc: Global, words: &[String]) -> Result<Job, LineFault>
    ensures { IsAnswer (map string_bytes words.now) result }
{
    answer(alloc, words)?
}
