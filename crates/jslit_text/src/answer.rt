//! The answer for a text, and the program's status.

ghost use Rattle.std.specs.Prelude.{◌≡◌, ◌⊎◌, ℕ, List, true, false};
ghost use Rattle.jslit_text.specs.Told.{HasTold};

use lit_command_line::VERSION;
use lit_json::text_line;
use lit_syntax::TEXT_LIMIT;
use std::alloc::Global;
use std::io::{Read, Write};
use std::rt::Files;
use std::{fs, io};

/// Prints what the text says that stands in this file, or on the input. Gives the status: 0 for a test, 1 for a text or test that
/// is refused, 3 where memory ran out, 4 for an input or output that failed.
pub(crate) fn answer<T: Files, R: Read + Drop, W: Write, E: Write>(
    rt: &T,
    alloc: Global,
    path: Option<&str>,
    input: R,
    output: &mut W,
    errors: &mut E,
) -> u8
    ensures told { result ≡ 0 → (text : List ℕ) × HasTold text true (W.contents output.old) (W.contents output.new) }
    ensures refused { result ≡ 1 → (text : List ℕ) × HasTold text false (W.contents output.old) (W.contents output.new) }
{
    let text = match path {
        None => read_text(alloc, input),
        Some(path) => match fs::open(rt, path) {
            Ok(file) => read_text(alloc, file),
            Err(error) => Err(error),
        },
    };
    match text {
        Ok(text) => answer_text(alloc, &text, output, errors),
        Err(error) => refuse(errors, &error),
    }
}

/// The bytes of the input, up to one more than a text may have.
fn read_text<R: Read + Drop>(alloc: Global, input: R) -> io::Result<Vec<u8>> {
    let mut text = Vec::new(alloc);
    input.take(TEXT_LIMIT as u64 + 1).read_to_end(&mut text)?;
    Ok(text)
}

/// Prints what a text says. Gives the status.
fn answer_text<W: Write, E: Write>(alloc: Global, text: &[u8], output: &mut W, errors: &mut E) -> u8
    ensures told { result ≡ 0 → HasTold text.now true (W.contents output.old) (W.contents output.new) }
    ensures refused { result ≡ 1 → HasTold text.now false (W.contents output.old) (W.contents output.new) }
{
    let Ok(told) = text_line(alloc, VERSION, text) else {
        return say(errors, "out_of_memory", 3);
    };
    if output.write_all(&told.line).is_err() || output.flush().is_err() {
        return say(errors, "output_failed", 4);
    }
    if told.is_test { 0 } else { 1 }
}

/// Prints the line of a fault of the input. Gives the status.
fn refuse<E: Write>(errors: &mut E, error: &io::Error) -> u8
    ensures { (result ≡ 3) ⊎ (result ≡ 4) }
{
    if error.kind() == io::ErrorKind::OutOfMemory {
        say(errors, "out_of_memory", 3)
    } else {
        say(errors, "input_failed", 4)
    }
}

/// Prints a line on standard error, and gives this status.
fn say<E: Write>(errors: &mut E, said: &str, status: u8) -> u8
    ensures { result ≡ status }
{
    let _ = writeln!(errors, "{said}");
    status
}
