//! The program jslit-text: what a litmus text says, as a line of JSON. That the line is told is proved; the help is tested.
#![tactic(auto)]

mod answer;
mod command;

use crate::answer::answer;
use crate::command::file_of;
use lit_command_line::{explain_words, no_words, words_of};
use std::process::ExitCode;

fn main(rt: HostRuntime) -> ExitCode {
    let mut errors = rt.stderr();
    let words = match words_of(&rt) {
        Ok(words) => words,
        Err(error) => return ExitCode::from(no_words(&mut errors, &error)),
    };
    let mut output = rt.stdout();
    let status = match file_of(rt.alloc(), &words) {
        Ok(path) => answer(&rt, rt.alloc(), path, rt.stdin(), &mut output, &mut errors),
        Err(error) => explain_words(&mut output, &mut errors, &error),
    };
    ExitCode::from(status)
}
