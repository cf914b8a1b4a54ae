//! The program: what it prints, and its status.

ghost use Rattle.std.specs.Prelude.{◌≡◌, ◌⊎◌, ◌<◌, ◌^◌, ◌-◌, IsFalse, IsTrue, true};
ghost use Rattle.std.specs.Io.KnownBytes.{Appends};
ghost use Rattle.jslit.specs.Answer.{IsStatus};
ghost use Rattle.jslit.specs.Devices.{OfInputText};
ghost use Rattle.jslit_why.specs.Printed.{HasBegun, HasExplained, HasRefused};
ghost use Rattle.lit_report.specs.Counted.{device_of, failures_of};
ghost use Rattle.lit_report.specs.Writing.{AppendsBeginning};
ghost use Rattle.lit_reason.specs.Explained.{HasOtherCondition};

use crate::line::line;
use jslit::{Counted, RunFault, explain_words, read_text, say, write_bytes};
use lit_reason::{Asked, ReasonFault, explain};
use std::alloc::Global;
use std::convert::AsStr;
use std::fs;
use std::io::{Read, Write};
use std::rt::Files;

/// Does what the words ask for. Gives the status: 0 for an explanation, 1 for a choice that there is none of and for a text or test that
/// is refused, 2 for a fault of the words, 3 where memory ran out, 4 for an input or output that failed.
pub(crate) fn program<T: Files, S: AsStr, R: Read, W: Write, E: Write>(
    rt: &T,
    alloc: Global,
    words: &[S],
    input: &mut Counted<R>,
    output: &mut Counted<W>,
    errors: &mut E,
) -> u8
    requires input { failures_of input.old < 2 ^ 64 - 1 }
    requires output { failures_of output.old < 2 ^ 64 - 1 }
    ensures status { IsStatus result }
    ensures words { result ≡ 2 → output.new ≡ output.old }
    ensures memory { result ≡ 3 → output.new ≡ output.old }
{
    let line = match line(alloc, words) {
        Ok(line) => line,
        Err(error) => return explain_words(output, errors, &error),
    };
    let Some(path) = line.file else {
        return answer(alloc, input, output, errors, &line.asked);
    };
    match fs::open(rt, path) {
        Ok(file) => {
            let mut opened = Counted::new(file);
            answer(alloc, &mut opened, output, errors, &line.asked)
        }
        Err(_) => say(output, errors, RunFault::InputFailed),
    }
}

/// Prints the answer to what is asked about the litmus text of the input, or why there is none. Gives the status.
fn answer<R: Read, W: Write, E: Write>(
    alloc: Global,
    input: &mut Counted<R>,
    output: &mut Counted<W>,
    errors: &mut E,
    asked: &Asked<'_>,
) -> u8
    requires input { failures_of input.old < 2 ^ 64 - 1 }
    requires output { failures_of output.old < 2 ^ 64 - 1 }
    ensures status { IsStatus result }
    ensures answered { result ≡ 0 → OfInputText (R.remaining (device_of input.old))
        (λ text. HasExplained W.contents text asked.now true output.old output.new) }
    ensures refused { result ≡ 1 → OfInputText (R.remaining (device_of input.old))
        (λ text. HasRefused W.contents text asked.now output.old output.new) }
    ensures other { result ≡ 2 → OfInputText (R.remaining (device_of input.old)) (λ text. HasOtherCondition text asked.now)
        × (output.new ≡ output.old) }
    ensures memory { result ≡ 3 → output.new ≡ output.old }
    ensures begun { result ≡ 4 → (output.new ≡ output.old) ⊎ OfInputText (R.remaining (device_of input.old))
        (λ text. HasBegun W.contents text asked.now output.old output.new) }
{
    match read_text(alloc, input) {
        Ok(text) => answer_text(alloc, &text, output, errors, asked),
        Err(fault) => say(output, errors, fault),
    }
}

/// Writes bytes, and flushes. Gives whether neither failed.
fn put<W: Write>(output: &mut Counted<W>, bytes: &[u8]) -> bool
    ensures written { IsTrue result → Appends (W.contents (device_of output.old)) (W.contents (device_of output.new)) bytes.now }
    ensures begun { IsFalse result → AppendsBeginning (W.contents (device_of output.old)) (W.contents (device_of output.new)) bytes.now }
{
    write_bytes(output, bytes).is_ok() && output.flush().is_ok()
}

/// Prints the answer to what is asked about a text, or why there is none. Gives the status.
fn answer_text<W: Write, E: Write>(
    alloc: Global,
    text: &[u8],
    output: &mut Counted<W>,
    errors: &mut E,
    asked: &Asked<'_>,
) -> u8
    requires { failures_of output.old < 2 ^ 64 - 1 }
    ensures status { IsStatus result }
    ensures answered { result ≡ 0 → HasExplained W.contents text.now asked.now true output.old output.new }
    ensures refused { result ≡ 1 → HasRefused W.contents text.now asked.now output.old output.new }
    ensures other { result ≡ 2 → HasOtherCondition text.now asked.now × (output.new ≡ output.old) }
    ensures memory { result ≡ 3 → output.new ≡ output.old }
    ensures begun { result ≡ 4 → HasBegun W.contents text.now asked.now output.old output.new }
{
    match explain(alloc, text, asked) {
        Ok(answer) => {
            if !put(output, &answer.text) {
                return say(output, errors, RunFault::OutputFailed);
            }
            if answer.found { 0 } else { 1 }
        }
        Err(ReasonFault::Condition) => {
            let _ = errors.write_all(CONDITION_REFUSED.as_bytes());
            2
        }
        Err(ReasonFault::Read(fault)) => say(output, errors, RunFault::Read(fault)),
        Err(ReasonFault::Plan(fault)) => say(output, errors, RunFault::Plan(fault)),
        Err(ReasonFault::OutOfMemory) => say(output, errors, RunFault::OutOfMemory),
    }
}

/// What is said where the condition of the words is none of the test.
const CONDITION_REFUSED: &str =
    "error: invalid value for '--condition <COND>': it is no condition of this test\n";
