//! The words that a program was started with, and what is printed where they are no text or ask for no run.

ghost use Rattle.std.specs.Prelude.{◌≡◌, ◌≢◌};
ghost use Rattle.std.specs.IoError.{error_kind};
ghost use Rattle.std.specs.declared.io.ErrorKind.TheVariants.{OutOfMemory};
ghost use Rattle.clap.specs.Words.{kind_of};
ghost use Rattle.lit_command_line.specs.Answered.{IsExplained};

use clap::Error;
use clap::error::ErrorKind;
use std::alloc::AllocGlobal;
use std::io::Write;
use std::rt::Env;
use std::{env, io};

/// The words that the program was started with, its name first. An error says that one isn't text in UTF-8, or that memory ran out.
pub fn words_of<R: Env + AllocGlobal>(rt: &R) -> io::Result<Vec<String>> {
    let words = env::args(rt)?.collect(rt.alloc())?;
    Ok(words)
}

/// Prints the line of memory that ran out.
fn say_out_of_memory<E: Write>(errors: &mut E) {
    let _ = writeln!(errors, "out_of_memory");
}

/// Prints what `clap` answers to words that ask for no run: the help or the version on the output, or what is wrong with them on the
/// errors. Gives the status: 0 for the help and the version, 3 where memory ran out, and else 2. Where printing it fails, the status stays
/// the same.
pub fn explain_words<W: Write, E: Write>(output: &mut W, errors: &mut E, error: &Error) -> u8
    ensures status { IsExplained (kind_of error.now) result }
    ensures unchanged { result ≢ 0 → output.new ≡ output.old }
{
    match error.kind() {
        ErrorKind::OutOfMemory => {
            say_out_of_memory(errors);
            3
        }
        ErrorKind::DisplayHelp | ErrorKind::DisplayVersion => {
            let _ = write!(output, "{error}");
            let _ = output.flush();
            0
        }
        _ => {
            let _ = write!(errors, "{error}");
            2
        }
    }
}

/// Prints why the words of the command line could not be read, and gives the status: 3 where memory ran out, and else 2,
/// for words that are not text (decision 76).
pub fn no_words<E: Write>(errors: &mut E, error: &io::Error) -> u8
    ensures memory { error_kind error.now ≡ OutOfMemory → result ≡ 3 }
    ensures other { error_kind error.now ≢ OutOfMemory → result ≡ 2 }
{
    if error.kind() == io::ErrorKind::OutOfMemory {
        say_out_of_memory(errors);
        return 3;
    }
    let _ = writeln!(
        errors,
        "error: a word of the command line is not text in UTF-8"
    );
    2
}
