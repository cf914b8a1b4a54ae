//! The words of the command line.

use clap::{Arg, ArgAction, Command, Error};
use lit_command_line::VERSION;
use std::alloc::{AllocError, Global};
use std::convert::AsStr;

/// What follows the list of flags in the help.
const AFTER: &str = "\
Exit status:
  0  the text spells a test: the JSON says what it says
  1  the text or its test is refused: the JSON says why
  2  a fault of the command line
  3  out of memory
  4  the input or the output failed

Example:
  jslit-text litmus/sb.lit";

/// The command `jslit-text`.
fn command<'a>(alloc: Global) -> Result<Command<'a>, AllocError> {
    let bare = Command::new(alloc, "jslit-text")
        .version(VERSION)
        .about(
            "Says as a line of JSON what a litmus text says: its statements, its condition, its first fault",
        )
        .after_help(AFTER)
        .bin_name("jslit-text")?;
    let whole = bare.arg(
        Arg::new(alloc, "file")
            .value_name("FILE")
            .action(ArgAction::Set)
            .help("The litmus text [default: standard input]"),
    )?;
    Ok(whole)
}

/// The file that the words name; `None` for standard input.
pub(crate) fn file_of<'a, S: AsStr>(
    alloc: Global,
    words: &'a [S],
) -> Result<Option<&'a str>, Error> {
    let mut command = command(alloc)?;
    let matches = command.try_get_matches_from_mut(words)?;
    Ok(matches.get_str("file"))
}
