//! The words of the command line.

use clap::error::ErrorKind;
use clap::{Arg, ArgAction, ArgMatches, Command, Error, value_parser};
use jslit::VERSION;
use lit_paths::CHOICE_LIMIT;
use lit_reason::{Asked, Class, MOST, MOST_LIMIT, Question, are_words};
use std::alloc::{AllocError, Global};
use std::convert::AsStr;

/// What the words ask for.
#[derive(Clone, Copy, Debug, PartialEq, Eq)]
pub(crate) struct CommandLine<'a> {
    pub asked: Asked<'a>,
    /// The file that holds the text; standard input where there is none.
    pub file: Option<&'a str>,
}

/// What follows the list of flags in the help.
const AFTER: &str = "\
Exit status:
  0  an explanation was printed
  1  the text or its test is refused: the reason is printed on standard output
  2  a fault of the command line
  3  out of memory
  4  the input or the output failed

Example:
  jslit-why litmus/sb.lit";

/// A flag that takes no value.
fn flag<'a>(alloc: Global, name: &'a str, help: &'a str) -> Arg<'a> {
    Arg::new(alloc, name)
        .long(name)
        .action(ArgAction::SetTrue)
        .help(help)
}

/// The flag for the number of attempts.
fn most_flag<'a>(alloc: Global) -> Arg<'a> {
    Arg::new(alloc, "most")
        .long("most")
        .value_name("N")
        .action(ArgAction::Set)
        .value_parser(value_parser!(usize).range(1..=MOST_LIMIT as i64))
        .help("How many attempts are looked at, 1 to 1000000 [default: 1000]")
}

/// The flag for a choice.
fn choice_flag<'a>(alloc: Global) -> Arg<'a> {
    Arg::new(alloc, "choice")
        .long("choice")
        .value_name("N")
        .action(ArgAction::Set)
        .value_parser(value_parser!(u64).range(0..=CHOICE_LIMIT as i64))
        .help("Ask for the choice with this number, from 0, valid or not")
}

/// The flag for sources.
fn from_flag<'a>(alloc: Global) -> Arg<'a> {
    Arg::new(alloc, "from")
        .long("from")
        .value_name("WORDS")
        .action(ArgAction::Set)
        .help("Ask for the choice with these sources, as in 'A.1=init[0] B.0=A.0,A.0 A.r0=0'")
}

/// The flag for another condition.
fn condition_flag<'a>(alloc: Global) -> Arg<'a> {
    Arg::new(alloc, "condition")
        .long("condition")
        .value_name("COND")
        .action(ArgAction::Set)
        .help("Ask about this condition in place of the text's, as in 'A.r0 == 0 && B.r0 == 0'")
}

/// The message where the words ask for several things.
fn exclusion(matches: &ArgMatches<'_>) -> Option<&'static str> {
    let unmet = matches.get_str("unmet") == Some("true");
    let race = matches.get_str("race") == Some("true");
    let choice = matches.get_str("choice").is_some();
    let from = matches.get_str("from").is_some();
    match (unmet, race, choice, from) {
        (true, true, _, _) => Some("the argument '--unmet' cannot be used with '--race'"),
        (true, _, true, _) => Some("the argument '--unmet' cannot be used with '--choice <N>'"),
        (true, _, _, true) => Some("the argument '--unmet' cannot be used with '--from <WORDS>'"),
        (_, true, true, _) => Some("the argument '--race' cannot be used with '--choice <N>'"),
        (_, true, _, true) => Some("the argument '--race' cannot be used with '--from <WORDS>'"),
        (_, _, true, true) => Some(
            "the argument '--choice <N>' cannot be used with '--from <WORDS>'",
        ),
        _ => None,
    }
}

/// The command `jslit-why`.
fn command<'a>(alloc: Global) -> Result<Command<'a>, AllocError> {
    let bare = Command::new(alloc, "jslit-why")
        .version(VERSION)
        .about(
            "Says why no valid execution of a litmus test meets its condition, and where a data race is",
        )
        .after_help(AFTER)
        .bin_name("jslit-why")?;
    let with_unmet = bare.arg(flag(
        alloc,
        "unmet",
        "Ask for an outcome that does not meet the condition",
    ))?;
    let with_race = with_unmet.arg(flag(
        alloc,
        "race",
        "Ask for the first data race, in place of an outcome",
    ))?;
    let with_most = with_race.arg(most_flag(alloc))?;
    let with_choice = with_most.arg(choice_flag(alloc))?;
    let with_from = with_choice.arg(from_flag(alloc))?;
    let with_condition = with_from.arg(condition_flag(alloc))?;
    let with_json = with_condition.arg(flag(alloc, "json", "Answer with a line of JSON"))?;
    let whole = with_json.arg(
        Arg::new(alloc, "file")
            .value_name("FILE")
            .action(ArgAction::Set)
            .help("The litmus text [default: standard input]"),
    )?;
    Ok(whole)
}

/// The question that the words ask.
fn question_of<'a>(matches: &ArgMatches<'a>) -> Question<'a> {
    if let Some(words) = matches.get_str("from") {
        Question::OfSources(words)
    } else if let Some(choice) = matches.get_one("choice") {
        Question::OfChoice(choice)
    } else if matches.get_str("race") == Some("true") {
        Question::Race
    } else if matches.get_str("unmet") == Some("true") {
        Question::InClass(Class::Unmet)
    } else {
        Question::InClass(Class::Met)
    }
}

/// What the words ask for: the program's name, its flags and at most one file.
pub(crate) fn line<'a, S: AsStr>(alloc: Global, words: &'a [S]) -> Result<CommandLine<'a>, Error> {
    let mut command = command(alloc)?;
    let matches = command.try_get_matches_from_mut(words)?;
    if let Some(text) = exclusion(&matches) {
        return Err(command.error(ErrorKind::ArgumentConflict, text)?);
    }
    if !matches.get_str("from").is_none_or(are_words) {
        let text =
            "the argument '--from <WORDS>' has words of the form EVENT=SOURCE[,SOURCE..] or AGENT.rN=VALUE";
        return Err(command.error(ErrorKind::ValueValidation, text)?);
    }
    let asked = Asked {
        question: question_of(&matches),
        condition: matches.get_str("condition"),
        most: matches.get_one("most").unwrap_or(MOST),
        json: matches.get_str("json") == Some("true"),
    };
    Ok(CommandLine {
        asked,
        file: matches.get_str("file"),
    })
}
