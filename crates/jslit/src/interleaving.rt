//! From the bytes of a litmus text and of a schedule to the bytes of the schedule's outcome.

pub(crate) mod schedule;

ghost use Rattle.std.specs.Prelude.{◌≡◌, ◌≢◌, ◌<◌, ◌^◌, ◌-◌, IfErr, OnOk, OnErr, IsErrOf, length};
ghost use Rattle.lit_report.specs.Counted.{device_of, failures_of, one_more};
ghost use Rattle.jslit.specs.InterleavingAnswer.{HasInterleaved, HasInterleavedSome, IsInterleavingOn, IsScheduleFaultOn};
ghost use Rattle.jslit.specs.RunAnswer.{HasRun};
ghost use Rattle.jslit.specs.Internal.Answering.{IsOfTextOrWriting};

use crate::fault::RunFault;
use crate::interleaving::schedule::agents_of;
use crate::reading::read_text;
use lit_interleave::interleave;
use lit_read::read;
use lit_report::{Counted, write_interleaving};
use std::alloc::Global;
use std::io::{Read, Write};

/// Writes the answer for a text and a schedule. Where there is none, it writes nothing.
fn answer_schedule<W: Write>(
    alloc: Global,
    text: &[u8],
    output: &mut Counted<W>,
    schedule: &[u8],
) -> Result<(), RunFault>
    ensures answered { OnOk result
        (HasInterleaved schedule.now text.now (W.contents (device_of output.old)) (W.contents (device_of output.new))) }
    ensures not_failed { OnOk result (failures_of output.new ≡ failures_of output.old) }
    ensures begun { IsErrOf result RunFault.OutputFailed
        → HasInterleavedSome schedule.now text.now (W.contents (device_of output.old)) (W.contents (device_of output.new)) }
    ensures failed { IsErrOf result RunFault.OutputFailed → failures_of output.new ≡ one_more (failures_of output.old) }
    ensures unwritten { IfErr result (λ fault. fault ≢ RunFault.OutputFailed → output.new ≡ output.old) }
    ensures refused { IfErr result (IsScheduleFaultOn schedule.now text.now) }
    ensures of_text { IfErr result IsOfTextOrWriting }
{
    let test = read(alloc, text)?;
    let agents = agents_of(alloc, &test, schedule)?;
    let outcome = interleave(alloc, &test, &agents)?;
    write_interleaving(output, &test, &outcome)?;
    Ok(())
}

/// Reads a litmus text as `run` does, and writes the outcome of a schedule, where the agents carry out their
/// statements in these turns, each access at once, and whether it meets the condition. The schedule is the names of
/// agents, joined by commas, with no blanks; the empty text is the schedule without turns. After the last turn each
/// agent carries out what it has left, in order. Neither count of failures stands at `u64::MAX` before.
///
/// Answers `RunFault::Read` with the first fault of a text that spells no test, and else `RunFault::UnknownAgent` where a
/// member of the schedule is no agent's name. `RunFault::InputFailed` and `RunFault::OutputFailed` come where a read or a
/// write failed, and then alone; `RunFault::OutOfMemory` where a growth was refused; `RunFault::Plan` never. Nothing is
/// written but after `RunFault::OutputFailed`, which leaves a beginning of the answer.
pub fn run_schedule<R: Read, W: Write>(
    alloc: Global,
    input: &mut Counted<R>,
    output: &mut Counted<W>,
    schedule: &[u8],
) -> Result<(), RunFault>
    requires input { failures_of input.old < 2 ^ 64 - 1 }
    requires output { failures_of output.old < 2 ^ 64 - 1 }
    ensures { HasRun R.remaining W.contents (IsInterleavingOn schedule.now) (IsScheduleFaultOn schedule.now)
        result input.old input.new output.old output.new }
{
    let text = read_text(alloc, input)?;
    answer_schedule(alloc, &text, output, schedule)
}
