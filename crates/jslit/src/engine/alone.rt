//! The answer for a text, by the thread that calls alone: without a runtime.
//!
//! A trait of those who search, with workers as one and this thread as another, would make one function of both answers. But the
//! prover takes no method of a trait that hands to threads what a bound of the method's type carries, as a search by workers does.

ghost use Rattle.std.specs.Prelude.{◌≡◌, ◌≢◌, length, IfOk, IfErr, OnOk, IsErrOf};
ghost use Rattle.lit_paths.specs.Choice.{choices_of};
ghost use Rattle.lit_report.specs.Counted.{device_of, failures_of, one_more};
ghost use Rattle.lit_search.specs.Report.{IsReport, in_range};
ghost use Rattle.jslit.specs.Answer.{HasBegun, HasReported, IsFaultOn};
ghost use Rattle.jslit.specs.Internal.Answering.{HasWritten, HasWrittenSome, IsOfTextOrWriting, IsOfWriting};
ghost use Rattle.jslit.specs.Internal.Searching.{IsFirstChoice};

use crate::engine::answering::{quick_report, report};
use crate::fault::RunFault;
use lit_paths::{Plan, plan};
use lit_read::read;
use lit_report::{Alone, Counted};
use lit_search::{Class, Found, first_in, search_range};
use std::alloc::Global;
use std::io::Write;

/// The report on all choices.
fn found_alone(alloc: Global, plan: &Plan<'_>) -> Result<Found, RunFault>
    ensures reported { IfOk result (IsReport plan.now (in_range 0 (length (choices_of plan.now)))) }
    ensures fault { IfErr result (λ fault. fault ≡ RunFault.OutOfMemory) }
{
    let found = search_range(alloc, plan, 0, plan.total())?;
    Ok(found)
}

/// The first choice of a class.
fn first_alone(plan: &Plan<'_>, class: Class) -> Option<u64>
    ensures { IsFirstChoice plan.now class result }
{
    first_in(plan, class, 0, plan.total())
}

/// Writes the report that is asked for: the quick one or the whole one.
fn report_alone<W: Write>(
    alloc: Global,
    plan: &Plan<'_>,
    output: &mut Counted<W>,
    quick: bool,
) -> Result<(), RunFault>
    ensures written { OnOk result (HasWritten quick plan.now (W.contents (device_of output.old)) (W.contents (device_of output.new))) }
    ensures not_failed { OnOk result (failures_of output.new ≡ failures_of output.old) }
    ensures begun { IsErrOf result RunFault.OutputFailed
        → HasWrittenSome quick plan.now (W.contents (device_of output.old)) (W.contents (device_of output.new)) }
    ensures failed { IsErrOf result RunFault.OutputFailed → failures_of output.new ≡ one_more (failures_of output.old) }
    ensures unwritten { IsErrOf result RunFault.OutOfMemory → output.new ≡ output.old }
    ensures fault { IfErr result IsOfWriting }
{
    if quick {
        let met = first_alone(plan, Class::Met);
        let unmet = first_alone(plan, Class::Unmet);
        return quick_report(alloc, plan, output, met, unmet);
    }
    let found = found_alone(alloc, plan)?;
    report(alloc, plan, output, &found, &mut Alone)
}

/// Writes the answer for a text: the report on the test that it spells. Where there is no report, it writes nothing.
pub(crate) fn answer_alone<W: Write>(
    alloc: Global,
    text: &[u8],
    output: &mut Counted<W>,
    quick: bool,
) -> Result<(), RunFault>
    ensures reported { OnOk result
        (HasReported quick text.now (W.contents (device_of output.old)) (W.contents (device_of output.new))) }
    ensures not_failed { OnOk result (failures_of output.new ≡ failures_of output.old) }
    ensures begun { IsErrOf result RunFault.OutputFailed
        → HasBegun quick text.now (W.contents (device_of output.old)) (W.contents (device_of output.new)) }
    ensures failed { IsErrOf result RunFault.OutputFailed → failures_of output.new ≡ one_more (failures_of output.old) }
    ensures unwritten { IfErr result (λ fault. fault ≢ RunFault.OutputFailed → output.new ≡ output.old) }
    ensures refused { IfErr result (IsFaultOn text.now) }
    ensures of_text { IfErr result IsOfTextOrWriting }
{
    let test = read(alloc, text)?;
    let plan = plan(alloc, &test)?;
    report_alone(alloc, &plan, output, quick)
}
