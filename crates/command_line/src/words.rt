//! What a command line comes to, before memory is taken for its job.
ghost use Rattle.std.specs.Prelude.{◌≡◌, codes, option_map};
ghost use Rattle.clap.specs.Words.{first_of, found_of, one_of, rows_of, subcommand_rows_of};
ghost use Rattle.command_line.specs.CommandLine.{IsCommandAnswer, IsFileAnswer, IsMatchAnswer, IsWorkersAnswer};

use clap::ArgMatches;

/// The most workers that a run may have.
const MAX_WORKERS: u32 = 64;

/// Why a command line without other faults gives no job.
#[derive(Clone, Copy)]
pub(crate) enum Mistake {
    /// No command is named.
    NoCommand,
    /// There is no command of this name.
    OtherCommand,
    /// A file is not named.
    NoFile,
    /// The workers are no number from 1 to 64.
    Workers,
}

impl Mistake {
    /// What is wrong, in words.
    pub(crate) fn text(self) -> &'static str {
        match self {
            Mistake::NoCommand => "error: a command is missing",
            Mistake::OtherCommand => "error: there is no such command",
            Mistake::NoFile => "error: a file is missing",
            Mistake::Workers => "error: --workers takes a number from 1 to 64",
        }
    }
}

/// The words that a job is made of, where they are in the command line.
#[derive(Clone, Copy)]
pub(crate) enum JobWords<'a> {
    Run {
        base: &'a str,
        block: &'a str,
        out: &'a str,
        workers: u32,
        journal: Option<&'a str>,
    },
    Serial {
        base: &'a str,
        block: &'a str,
        out: &'a str,
    },
    Replay {
        base: &'a str,
        block: &'a str,
        journal: &'a str,
        out: &'a str,
    },
    Check {
        block: &'a str,
    },
}

/// A file that must be named.
#[tactic(auto, using(crate::proofs::JobLaws::word_is))]
fn file_named<'a>(command: &ArgMatches<'a>, id: &str) -> Result<&'a str, Mistake>
    ensures { IsFileAnswer (first_of id.now (rows_of (found_of command.now))) result }
{
    match command.get_str(id) {
        Some(path) => Ok(path),
        None => Err(Mistake::NoFile),
    }
}

/// The file behind `--journal`, if it is there.
#[tactic(auto, using(crate::proofs::JobLaws::word_is))]
fn journal_named<'a>(run: &ArgMatches<'a>) -> Option<&'a str>
    ensures { option_map (λ path. path.now) result
        ≡ first_of (codes "journal") (rows_of (found_of run.now)) }
{
    run.get_str("journal")
}

fn worker_count(run: &ArgMatches<'_>) -> Result<u32, Mistake>
    ensures { IsWorkersAnswer (one_of (codes "workers") (rows_of (found_of run.now))) result }
{
    // 0 is no number of workers.
    let workers = run.get_one::<u32>("workers").unwrap_or(0);
    if workers < 1 || MAX_WORKERS < workers {
        return Err(Mistake::Workers);
    }
    Ok(workers)
}

/// The words of the command `run`.
#[tactic(auto, using(crate::proofs::JobLaws::base_fails, crate::proofs::JobLaws::block_fails, crate::proofs::JobLaws::out_fails, crate::proofs::JobLaws::workers_fail))]
fn run_words<'a>(run: &ArgMatches<'a>) -> Result<JobWords<'a>, Mistake>
    ensures { IsCommandAnswer (codes "run") (rows_of (found_of run.now)) result }
{
    Ok(JobWords::Run {
        base: file_named(run, "BASE")?,
        block: file_named(run, "BLOCK")?,
        out: file_named(run, "OUT")?,
        workers: worker_count(run)?,
        journal: journal_named(run),
    })
}

/// The words of the command `serial`.
#[tactic(auto, using(crate::proofs::JobLaws::serial_base_fails, crate::proofs::JobLaws::serial_block_fails, crate::proofs::JobLaws::serial_out_fails))]
fn serial_words<'a>(serial: &ArgMatches<'a>) -> Result<JobWords<'a>, Mistake>
    ensures { IsCommandAnswer (codes "serial") (rows_of (found_of serial.now)) result }
{
    Ok(JobWords::Serial {
        base: file_named(serial, "BASE")?,
        block: file_named(serial, "BLOCK")?,
        out: file_named(serial, "OUT")?,
    })
}

/// The words of the command `replay`.
#[tactic(auto, using(crate::proofs::JobLaws::replay_base_fails, crate::proofs::JobLaws::replay_block_fails, crate::proofs::JobLaws::replay_journal_fails, crate::proofs::JobLaws::replay_out_fails))]
fn replay_words<'a>(replay: &ArgMatches<'a>) -> Result<JobWords<'a>, Mistake>
    ensures { IsCommandAnswer (codes "replay") (rows_of (found_of replay.now)) result }
{
    Ok(JobWords::Replay {
        base: file_named(replay, "BASE")?,
        block: file_named(replay, "BLOCK")?,
        journal: file_named(replay, "JOURNAL")?,
        out: file_named(replay, "OUT")?,
    })
}

/// The words of the command `check`.
#[tactic(auto, using(crate::proofs::JobLaws::checked_block_fails))]
fn check_words<'a>(check: &ArgMatches<'a>) -> Result<JobWords<'a>, Mistake>
    ensures { IsCommandAnswer (codes "check") (rows_of (found_of check.now)) result }
{
    Ok(JobWords::Check {
        block: file_named(check, "BLOCK")?,
    })
}

/// The words of the command of this name.
#[tactic(auto, using(crate::proofs::JobLaws::no_command))]
fn command_words<'a>(name: &str, command: &ArgMatches<'a>) -> Result<JobWords<'a>, Mistake>
    ensures { IsCommandAnswer name.now (rows_of (found_of command.now)) result }
{
    match name {
        "run" => run_words(command),
        "serial" => serial_words(command),
        "replay" => replay_words(command),
        "check" => check_words(command),
        _ => Err(Mistake::OtherCommand),
    }
}

/// The words of the command that a command line names.
pub(crate) fn words_of<'a>(matches: &ArgMatches<'a>) -> Result<JobWords<'a>, Mistake>
    ensures { IsMatchAnswer (subcommand_rows_of matches.now) result }
{
    match matches.subcommand() {
        Some((name, command)) => command_words(name, command),
        None => Err(Mistake::NoCommand),
    }
}
