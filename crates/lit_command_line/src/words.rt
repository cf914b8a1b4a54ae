//! The words of the command line.

ghost use Rattle.std.specs.Prelude.{◌≡◌, [], false, map, is_some, IfOk, IfErr, codes};
ghost use Rattle.clap.specs.Words.{HasKind, app_of, found_of, kind_of, rows_of, rule_of};
ghost use Rattle.lit_command_line.specs.Internal.Command.{IsCommand, ReadsNumber};
ghost use Rattle.lit_command_line.specs.Words.{bare_flag, faults_of, is_excluded, is_quick as quick_of, jslit_command};
ghost use Rattle.lit_command_line.specs.Words.{names_report, number_flag, valued_flag, IsAsked};
ghost use Rattle.lit_command_line.specs.Words.{file_argument as file_rule};

use crate::command_line::Line;
use crate::version::VERSION;
use clap::error::ErrorKind;
use clap::{Arg, ArgAction, ArgMatches, Command, Error, value_parser};
use lit_desk::MOST_SEATS;
use lit_options::Options;
use lit_paths::CHOICE_LIMIT;
use std::alloc::{AllocError, Global};
use std::convert::AsStr;

/// The options where the words give none (decision 67).
const USUAL: Options = Options {
    workers: 1,
    cut: 4_096,
    quick: false,
};

/// What follows the list of flags in the help.
const AFTER: &str = "\
Exit status:
  0  a report, or the outcome of a schedule, was printed
  1  the text, its test or the schedule is refused: the reason is printed on standard output
  2  a fault of the command line
  3  out of memory
  4  the input or the output failed

Example:
  jslit --workers 4 litmus/mp.lit";

/// The flag for the number of workers.
fn workers_flag<'a>(alloc: Global) -> Arg<'a>
    ensures reads { ReadsNumber result (codes "workers") 1 MOST_SEATS }
    ensures ungrouped { result.groups.items ≡ [] }
    ensures local { result.global ≡ false }
    ensures rule { rule_of result ≡ number_flag (codes "workers") MOST_SEATS }
{
    Arg::new(alloc, "workers")
        .long("workers")
        .value_name("N")
        .action(ArgAction::Set)
        .value_parser(value_parser!(usize).range(1..=MOST_SEATS as i64))
        .help("How many workers search, 1 to 16 [default: 1]")
}

/// The flag for the cutting.
fn cut_flag<'a>(alloc: Global) -> Arg<'a>
    ensures reads { ReadsNumber result (codes "cut") 1 CHOICE_LIMIT }
    ensures ungrouped { result.groups.items ≡ [] }
    ensures local { result.global ≡ false }
    ensures rule { rule_of result ≡ number_flag (codes "cut") CHOICE_LIMIT }
{
    Arg::new(alloc, "cut")
        .long("cut")
        .value_name("N")
        .action(ArgAction::Set)
        .value_parser(value_parser!(u64).range(1..=CHOICE_LIMIT as i64))
        .help("The fewest choices in a piece of the work, 1 to 281474976710656 [default: 4096]")
}

/// The flag for the quick report.
fn quick_flag<'a>(alloc: Global) -> Arg<'a>
    ensures id { result.id.now ≡ codes "quick" }
    ensures ungrouped { result.groups.items ≡ [] }
    ensures local { result.global ≡ false }
    ensures rule { rule_of result ≡ bare_flag (codes "quick") }
{
    Arg::new(alloc, "quick")
        .long("quick")
        .action(ArgAction::SetTrue)
        .help("Report only the first choice that meets the condition and the first that does not")
}

/// The flag for a schedule.
fn schedule_flag<'a>(alloc: Global) -> Arg<'a>
    ensures id { result.id.now ≡ codes "schedule" }
    ensures ungrouped { result.groups.items ≡ [] }
    ensures local { result.global ≡ false }
    ensures rule { rule_of result ≡ valued_flag (codes "schedule") }
{
    Arg::new(alloc, "schedule")
        .long("schedule")
        .value_name("TEXT")
        .action(ArgAction::Set)
        .help(
            "Carry the test out in turns, by the names of agents, such as A,B,A, and print its outcome",
        )
}

/// The file that holds the text.
fn file_argument<'a>(alloc: Global) -> Arg<'a>
    ensures id { result.id.now ≡ codes "file" }
    ensures ungrouped { result.groups.items ≡ [] }
    ensures local { result.global ≡ false }
    ensures rule { rule_of result ≡ file_rule }
{
    Arg::new(alloc, "file")
        .value_name("FILE")
        .action(ArgAction::Set)
        .help("The litmus text [default: standard input]")
}

/// The command `jslit`.
fn command<'a>(alloc: Global) -> Result<Command<'a>, AllocError>
    ensures numbers { IfOk result IsCommand }
    ensures whole { IfOk result (λ command. app_of command ≡ jslit_command) }
{
    let bare = Command::new(alloc, "jslit")
        .version(VERSION)
        .about("Prints every outcome that the memory model of ECMAScript allows a litmus test")
        .after_help(AFTER)
        .bin_name("jslit")?;
    let with_workers = bare.arg(workers_flag(alloc))?;
    let with_cut = with_workers.arg(cut_flag(alloc))?;
    let with_quick = with_cut.arg(quick_flag(alloc))?;
    let with_schedule = with_quick.arg(schedule_flag(alloc))?;
    let whole = with_schedule.arg(file_argument(alloc))?;
    Ok(whole)
}

/// Whether the words ask for the quick report.
fn is_quick(matches: &ArgMatches<'_>) -> bool
    ensures { result ≡ quick_of (rows_of (found_of matches.now)) }
{
    matches.get_str("quick") == Some("true")
}

/// The message on the first flag of a report that stands with a schedule.
fn report_flag(matches: &ArgMatches<'_>) -> Option<&'static str>
    ensures { is_some result ≡ names_report (rows_of (found_of matches.now)) }
{
    if matches.get_str("workers").is_some() {
        Some("the argument '--schedule <TEXT>' cannot be used with '--workers <N>'")
    } else if matches.get_str("cut").is_some() {
        Some("the argument '--schedule <TEXT>' cannot be used with '--cut <N>'")
    } else if is_quick(matches) {
        Some("the argument '--schedule <TEXT>' cannot be used with '--quick'")
    } else {
        None
    }
}

/// The message where a schedule stands with a flag of a report (decision 70).
fn exclusion(matches: &ArgMatches<'_>) -> Option<&'static str>
    ensures { is_some result ≡ is_excluded (rows_of (found_of matches.now)) }
{
    if matches.get_str("schedule").is_some() {
        report_flag(matches)
    } else {
        None
    }
}

/// What the words ask for: the program's name, its flags and at most one file. It refuses a number of workers or choices
/// that is not within the limits, a schedule with a flag of a report, and, as `clap` does it, a word that is no flag.
pub fn line<'a, S: AsStr>(alloc: Global, words: &'a [S]) -> Result<Line<'a>, Error>
    ensures asked { IfOk result (IsAsked (map S.text words.entry.now)) }
    ensures refused { IfErr result (HasKind (faults_of (map S.text words.entry.now))) }
{
    let mut command = command(alloc)?;
    let matches = command.try_get_matches_from_mut(words)?;
    if let Some(text) = exclusion(&matches) {
        return Err(command.error(ErrorKind::ArgumentConflict, text)?);
    }
    let workers = matches.get_one("workers").unwrap_or(USUAL.workers);
    let cut = matches.get_one("cut").unwrap_or(USUAL.cut);
    let options = Options {
        workers,
        cut,
        quick: is_quick(&matches),
    };
    Ok(Line {
        options,
        schedule: matches.get_str("schedule"),
        file: matches.get_str("file"),
    })
}
