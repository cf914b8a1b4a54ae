//! The program jslit: the library's `program_watched` over the standard streams and the words of the command line. Where
//! standard error is a terminal, a search for a whole report that takes more than two seconds shows there how far it is.
#![tactic(auto)]

mod terminal;

use crate::terminal::Terminal;
use jslit::{Counted, Progress, no_words, program_watched, words_of};
use std::process::ExitCode;

fn main(rt: HostRuntime) -> ExitCode {
    let mut errors = rt.stderr();
    let words = match words_of(&rt) {
        Ok(words) => words,
        Err(error) => return ExitCode::from(no_words(&mut errors, &error)),
    };
    let mut input = Counted::new(rt.stdin());
    let mut output = Counted::new(rt.stdout());
    let progress = Progress::new(&rt, Terminal::new(&rt, rt.stderr()));
    let status = program_watched(
        &rt,
        rt.alloc(),
        &words,
        &mut input,
        &mut output,
        &mut errors,
        &progress,
    );
    ExitCode::from(status)
}
