//! The program jslit-why: the words of its command line, its devices and its status. What it prints is the answer of `lit_reason`.
//! What it prints on a text is proved; what its words ask for is tested.
#![tactic(auto)]

mod command;
mod line;

use crate::command::program;
use jslit::{Counted, no_words, words_of};
use std::process::ExitCode;

fn main(rt: HostRuntime) -> ExitCode {
    let mut errors = rt.stderr();
    let words = match words_of(&rt) {
        Ok(words) => words,
        Err(error) => return ExitCode::from(no_words(&mut errors, &error)),
    };
    let mut input = Counted::new(rt.stdin());
    let mut output = Counted::new(rt.stdout());
    let status = program(
        &rt,
        rt.alloc(),
        &words,
        &mut input,
        &mut output,
        &mut errors,
    );
    ExitCode::from(status)
}
