//! From the bytes of a litmus text to the bytes of its report.

mod alone;
mod answering;
mod cutting;
mod few_steps;
pub(crate) mod workers;

ghost use Rattle.std.specs.Prelude.{◌≡◌, ◌<◌, ◌^◌, ◌-◌, length};
ghost use Rattle.jslit.specs.Answer.{IsAnswerOn, IsFaultOn};
ghost use Rattle.lit_report.specs.Counted.{failures_of};
ghost use Rattle.jslit.specs.RunAnswer.{HasRun};

use crate::engine::alone::answer_alone;
use crate::engine::workers::{answer, passes};
use crate::fault::RunFault;
use crate::reading::read_text;
use crate::watch::Watch;
use lit_options::Options;
use lit_report::Counted;
use lit_share::OpenGate;
use std::alloc::Global;
use std::io::{Read, Write};
use std::thread::Threads;

/// Reads a litmus text, to the end of the input or to one byte more than a text may have, and writes the report on its
/// test once it is known. Neither count of failures stands at `u64::MAX` before.
///
/// Answers `RunFault::Read` with the first fault of a text that spells no test, and `RunFault::Plan` with the limit that
/// a test exceeds. `RunFault::InputFailed` and `RunFault::OutputFailed` come where a read or a write failed, and then
/// alone; `RunFault::OutOfMemory` where a growth was refused. Nothing is written but after `RunFault::OutputFailed`, which
/// leaves a beginning of the report.
pub fn run<T: Threads + Sync, R: Read, W: Write>(
    rt: &T,
    alloc: Global,
    input: &mut Counted<R>,
    output: &mut Counted<W>,
    options: Options,
) -> Result<(), RunFault>
    requires input { failures_of input.old < 2 ^ 64 - 1 }
    requires output { failures_of output.old < 2 ^ 64 - 1 }
    ensures { HasRun R.remaining W.contents (IsAnswerOn options.quick) IsFaultOn result input.old input.new output.old output.new }
{
    let passes = passes(alloc, options.workers)?;
    run_watched(rt, alloc, input, output, options, &OpenGate, passes)
}

/// This is `run` with a watch, which each worker passes on entering a piece, with a pass of its own. There are as many passes as
/// workers. Neither the watch nor the passes change the answer.
pub fn run_watched<T: Threads + Sync, R: Read, W: Write, G: Watch>(
    rt: &T,
    alloc: Global,
    input: &mut Counted<R>,
    output: &mut Counted<W>,
    options: Options,
    watch: &G,
    passes: Vec<G::Pass>,
) -> Result<(), RunFault>
    requires passes { length passes.items ≡ options.workers }
    requires input { failures_of input.old < 2 ^ 64 - 1 }
    requires output { failures_of output.old < 2 ^ 64 - 1 }
    ensures { HasRun R.remaining W.contents (IsAnswerOn options.quick) IsFaultOn result input.old input.new output.old output.new }
{
    let text = read_text(alloc, input)?;
    answer(rt, alloc, &text, output, options, watch, passes)
}

/// This is `run` on the thread that calls, alone: it needs no runtime, so a static library can call it.
pub fn run_alone<R: Read, W: Write>(
    alloc: Global,
    input: &mut Counted<R>,
    output: &mut Counted<W>,
    quick: bool,
) -> Result<(), RunFault>
    requires input { failures_of input.old < 2 ^ 64 - 1 }
    requires output { failures_of output.old < 2 ^ 64 - 1 }
    ensures { HasRun R.remaining W.contents (IsAnswerOn quick) IsFaultOn result input.old input.new output.old output.new }
{
    let text = read_text(alloc, input)?;
    answer_alone(alloc, &text, output, quick)
}
