//! The program: what it prints, and its status.

ghost use Rattle.std.specs.Prelude.{◌≡◌, ◌≢◌, ◌⊎◌, ◌<◌, ◌^◌, ◌-◌, map, option_map, IfErr, OnOk};
ghost use Rattle.std.specs.Io.KnownBytes.{Keeps};
ghost use Rattle.jslit.specs.Answer.{IsAnswerOn, IsCheckStatus, IsFaultOn, IsStatus, status_of};
ghost use Rattle.lit_report.specs.Counted.{device_of, failures_of};
ghost use Rattle.jslit.specs.InterleavingAnswer.{IsInterleavingOn, IsScheduleFaultOn};
ghost use Rattle.jslit.specs.ProgramAnswer.{HasAnswered, IsAnswerBy, IsFaultBy};
ghost use Rattle.jslit.specs.RunAnswer.{HasSaid, HasServed};
ghost use Rattle.jslit.specs.Internal.Saying.{IsFaultSaid};

use crate::engine::workers::passes;
use crate::engine::{run_alone, run_watched};
use crate::fault::RunFault;
use crate::interleaving::run_schedule;
use crate::watch::Watch;
use lit_command_line::{Line, explain_words, line};
use lit_options::Options;
use lit_report::{Counted, write_plan_fault, write_read_fault, write_unknown_agent};
use lit_share::OpenGate;
use std::alloc::Global;
use std::convert::AsStr;
use std::fs;
use std::io::{Read, Write};
use std::rt::Files;
use std::thread::Threads;

/// Does what the words ask for: checks the litmus text of the file that they name, or else of the input, carries it out
/// in the turns that they name, or prints the help or the version. Gives the status: 0 for what was asked for, 1 for a text, test or
/// schedule that is refused, 2 for a fault of the words, 3 where memory ran out, 4 for an input or output that failed.
pub fn program<'a, T: Threads + Sync + Files, S: AsStr, R: Read, W: Write, E: Write>(
    rt: &T,
    alloc: Global,
    words: &'a [S],
    input: &mut Counted<R>,
    output: &mut Counted<W>,
    errors: &mut E,
) -> u8
    requires input { failures_of input.old < 2 ^ 64 - 1 }
    requires output { failures_of output.old < 2 ^ 64 - 1 }
    ensures status { IsStatus result }
    ensures words { result ≡ 2 → output.new ≡ output.old }
    ensures memory { result ≡ 3 → output.new ≡ output.old }
    ensures answered { HasAnswered R.remaining W.contents (map S.text words.now) result input.old input.new output.old output.new }
{
    program_watched(rt, alloc, words, input, output, errors, &OpenGate)
}

/// This is `program`, with a watch that follows the run, if the words ask for one.
pub fn program_watched<
    'a,
    T: Threads + Sync + Files,
    S: AsStr,
    R: Read,
    W: Write,
    E: Write,
    G: Watch<Pass = ()>,
>(
    rt: &T,
    alloc: Global,
    words: &'a [S],
    input: &mut Counted<R>,
    output: &mut Counted<W>,
    errors: &mut E,
    watch: &G,
) -> u8
    requires input { failures_of input.old < 2 ^ 64 - 1 }
    requires output { failures_of output.old < 2 ^ 64 - 1 }
    ensures status { IsStatus result }
    ensures words { result ≡ 2 → output.new ≡ output.old }
    ensures memory { result ≡ 3 → output.new ≡ output.old }
    ensures answered { HasAnswered R.remaining W.contents (map S.text words.now) result input.old input.new output.old output.new }
{
    let line = match line(alloc, words) {
        Ok(line) => line,
        Err(error) => return explain_words(output, errors, &error),
    };
    let Some(path) = line.file else {
        return serve(rt, alloc, input, output, errors, &line, watch);
    };
    match fs::open(rt, path) {
        Ok(file) => {
            let mut opened = Counted::new(file);
            serve(rt, alloc, &mut opened, output, errors, &line, watch)
        }
        Err(_) => say(output, errors, RunFault::InputFailed),
    }
}

/// Prints what a line asks for of the litmus text of the input. Gives the status.
fn serve<T: Threads + Sync, R: Read, W: Write, E: Write, G: Watch<Pass = ()>>(
    rt: &T,
    alloc: Global,
    input: &mut Counted<R>,
    output: &mut Counted<W>,
    errors: &mut E,
    line: &Line<'_>,
    watch: &G,
) -> u8
    requires input { failures_of input.old < 2 ^ 64 - 1 }
    requires output { failures_of output.old < 2 ^ 64 - 1 }
    ensures status { IsCheckStatus result }
    ensures memory { result ≡ 3 → output.new ≡ output.old }
    ensures served { HasServed W.contents (R.remaining (device_of input.old)) (failures_of input.old < failures_of input.new)
        (IsAnswerBy line.now.options.quick (option_map (λ text. text.now) line.now.schedule))
        (IsFaultBy (option_map (λ text. text.now) line.now.schedule)) result output.old output.new }
{
    match line.schedule {
        Some(schedule) => check_schedule(alloc, input, output, errors, schedule.as_bytes()),
        None => check_watched(rt, alloc, input, output, errors, line.options, watch),
    }
}

/// Prints the report on the litmus text of the input, or one line that says why there is none. Gives the status:
/// 0 for a report, 1 for a text or test that is refused, 3 where memory ran out, 4 for an input or output that failed.
pub fn check<T: Threads + Sync, R: Read, W: Write, E: Write>(
    rt: &T,
    alloc: Global,
    input: &mut Counted<R>,
    output: &mut Counted<W>,
    errors: &mut E,
    options: Options,
) -> u8
    requires input { failures_of input.old < 2 ^ 64 - 1 }
    requires output { failures_of output.old < 2 ^ 64 - 1 }
    ensures status { IsCheckStatus result }
    ensures memory { result ≡ 3 → output.new ≡ output.old }
    ensures served { HasServed W.contents (R.remaining (device_of input.old)) (failures_of input.old < failures_of input.new)
        (IsAnswerOn options.quick) IsFaultOn result output.old output.new }
{
    check_watched(rt, alloc, input, output, errors, options, &OpenGate)
}

/// This is `check`, with a watch that follows the run.
pub fn check_watched<T: Threads + Sync, R: Read, W: Write, E: Write, G: Watch<Pass = ()>>(
    rt: &T,
    alloc: Global,
    input: &mut Counted<R>,
    output: &mut Counted<W>,
    errors: &mut E,
    options: Options,
    watch: &G,
) -> u8
    requires input { failures_of input.old < 2 ^ 64 - 1 }
    requires output { failures_of output.old < 2 ^ 64 - 1 }
    ensures status { IsCheckStatus result }
    ensures memory { result ≡ 3 → output.new ≡ output.old }
    ensures served { HasServed W.contents (R.remaining (device_of input.old)) (failures_of input.old < failures_of input.new)
        (IsAnswerOn options.quick) IsFaultOn result output.old output.new }
{
    let Ok(passes) = passes(alloc, options.workers) else {
        return say(output, errors, RunFault::OutOfMemory);
    };
    let ran = run_watched(rt, alloc, input, output, options, watch, passes);
    finish(output, errors, ran)
}

/// This is `check` on the thread that calls, alone: it needs no runtime, so a static library can call it.
pub fn check_alone<R: Read, W: Write, E: Write>(
    alloc: Global,
    input: &mut Counted<R>,
    output: &mut Counted<W>,
    errors: &mut E,
    quick: bool,
) -> u8
    requires input { failures_of input.old < 2 ^ 64 - 1 }
    requires output { failures_of output.old < 2 ^ 64 - 1 }
    ensures status { IsCheckStatus result }
    ensures memory { result ≡ 3 → output.new ≡ output.old }
    ensures served { HasServed W.contents (R.remaining (device_of input.old)) (failures_of input.old < failures_of input.new)
        (IsAnswerOn quick) IsFaultOn result output.old output.new }
{
    let ran = run_alone(alloc, input, output, quick);
    finish(output, errors, ran)
}

/// Prints the outcome of a schedule on the litmus text of the input, or one line that says why there is none.
/// Gives the status: 0 for the schedule's outcome, 1 for a text or schedule that is refused, 3 where memory ran out, 4 for
/// an input or output that failed.
pub fn check_schedule<R: Read, W: Write, E: Write>(
    alloc: Global,
    input: &mut Counted<R>,
    output: &mut Counted<W>,
    errors: &mut E,
    schedule: &[u8],
) -> u8
    requires input { failures_of input.old < 2 ^ 64 - 1 }
    requires output { failures_of output.old < 2 ^ 64 - 1 }
    ensures status { IsCheckStatus result }
    ensures memory { result ≡ 3 → output.new ≡ output.old }
    ensures served { HasServed W.contents (R.remaining (device_of input.old)) (failures_of input.old < failures_of input.new)
        (IsInterleavingOn schedule.now) (IsScheduleFaultOn schedule.now) result output.old output.new }
{
    let ran = run_schedule(alloc, input, output, schedule);
    finish(output, errors, ran)
}

/// Flushes what a run wrote, or prints why it wrote nothing. Gives the status.
fn finish<W: Write, E: Write>(
    output: &mut Counted<W>,
    errors: &mut E,
    ran: Result<(), RunFault>,
) -> u8
    requires { IfErr ran (λ fault. status_of fault ≡ 1 → failures_of output.old < 2 ^ 64 - 1) }
    ensures counted { OnOk ran (failures_of output.new ≡ failures_of output.old) }
    ensures flushed { OnOk ran
        (((result ≡ 0) ⊎ (result ≡ 4)) × Keeps (W.contents (device_of output.old)) (W.contents (device_of output.new))) }
    ensures said { IfErr ran (IsFaultSaid W.contents result output.old output.new) }
{
    match ran {
        Ok(()) => match output.flush() {
            Ok(()) => 0,
            Err(_) => say(output, errors, RunFault::OutputFailed),
        },
        Err(fault) => say(output, errors, fault),
    }
}

/// Prints the line of a fault, and gives the status: that of a refusal on the output, that of another fault on the errors. Where printing
/// it fails, the status stays the same.
pub fn say<W: Write, E: Write>(output: &mut Counted<W>, errors: &mut E, fault: RunFault) -> u8
    requires { status_of fault ≡ 1 → failures_of output.old < 2 ^ 64 - 1 }
    ensures status { result ≡ status_of fault }
    ensures refused { result ≡ 1 → HasSaid fault (W.contents (device_of output.old)) (W.contents (device_of output.new))
        (failures_of output.old < failures_of output.new) }
    ensures unchanged { result ≢ 1 → output.new ≡ output.old }
{
    match fault {
        RunFault::Read(fault) => {
            let _ = write_read_fault(output, fault);
            let _ = output.flush();
            1
        }
        RunFault::Plan(fault) => {
            let _ = write_plan_fault(output, fault);
            let _ = output.flush();
            1
        }
        RunFault::UnknownAgent => {
            let _ = write_unknown_agent(output);
            let _ = output.flush();
            1
        }
        RunFault::OutOfMemory => {
            let _ = writeln!(errors, "{fault}");
            3
        }
        RunFault::InputFailed | RunFault::OutputFailed => {
            let _ = writeln!(errors, "{fault}");
            4
        }
    }
}
