//! The report on a test, from what a search of its choices gave.

ghost use Rattle.std.specs.Prelude.{◌≡◌, ◌≤◌, true, false, length, IfOk, IfErr, OnOk, IsErrOf};
ghost use Rattle.lit_paths.specs.Choice.{choices_of};
ghost use Rattle.lit_paths.specs.declared.limits.TheConstants.{CHOICE_LIMIT};
ghost use Rattle.lit_report.specs.Counted.{device_of, failures_of, one_more};
ghost use Rattle.lit_search.specs.Report.{IsReport, in_range};
ghost use Rattle.lit_valid.specs.declared.class.Class.TheVariants as of_class;
ghost use Rattle.jslit.specs.Internal.Answering.{HasWritten, HasWrittenSome, IsFirstFound, IsOfWriting};
ghost use Rattle.jslit.specs.Internal.Searching.{IsFirstChoice};

use crate::fault::RunFault;
use crate::laws::reports_are_complete;
use lit_paths::Plan;
use lit_report::{Counted, Printer, verdict_from, verdict_on, write_quick_report, write_report};
use lit_search::laws::choices_have_one_outcome;
use lit_search::{Class, Found, search_range};
use std::alloc::Global;
use std::io::Write;

/// Writes the report on all choices.
pub(crate) fn report<P: Printer, W: Write>(
    alloc: Global,
    plan: &Plan<'_>,
    output: &mut Counted<W>,
    found: &Found,
    printer: &mut P,
) -> Result<(), RunFault>
    requires ready { P.ready printer.old }
    requires report { IsReport plan.now (in_range 0 (length (choices_of plan.now))) found.now }
    ensures written { OnOk result (HasWritten false plan.now (W.contents (device_of output.old)) (W.contents (device_of output.new))) }
    ensures not_failed { OnOk result (failures_of output.new ≡ failures_of output.old) }
    ensures begun { IsErrOf result RunFault.OutputFailed
        → HasWrittenSome false plan.now (W.contents (device_of output.old)) (W.contents (device_of output.new)) }
    ensures failed { IsErrOf result RunFault.OutputFailed → failures_of output.new ≡ one_more (failures_of output.old) }
    ensures unwritten { IsErrOf result RunFault.OutOfMemory → output.new ≡ output.old }
    ensures fault { IfErr result IsOfWriting }
{
    let verdict = verdict_on(plan, found);
    // The law says that the report has the outcome of each valid execution.
    reports_are_complete();
    write_report(alloc, output, plan, found, verdict, printer)?;
    Ok(())
}

/// The report of the first choice of a class alone, which has the choice's outcome and order (decision 64). The class is there for the
/// contract.
fn first_found(
    alloc: Global,
    plan: &Plan<'_>,
    _class: Class,
    first: Option<u64>,
) -> Result<Option<Found>, RunFault>
    requires few { length (choices_of plan.now) ≤ CHOICE_LIMIT }
    requires first { IsFirstChoice plan.now _class first }
    ensures found { IfOk result (IsFirstFound plan.now _class) }
    ensures fault { IfErr result (λ fault. fault ≡ RunFault.OutOfMemory) }
{
    let Some(choice) = first else {
        return Ok(None);
    };
    // The law says that a choice has one outcome at most. `test` tells the prover that the test is one that a text can spell.
    choices_have_one_outcome();
    let _test = plan.test();
    let found = search_range(alloc, plan, choice, choice + 1)?;
    Ok(Some(found))
}

/// Writes the quick report on the first choice of each class, where there is one.
pub(crate) fn quick_report<W: Write>(
    alloc: Global,
    plan: &Plan<'_>,
    output: &mut Counted<W>,
    first_met: Option<u64>,
    first_unmet: Option<u64>,
) -> Result<(), RunFault>
    requires met { IsFirstChoice plan.now of_class.Met first_met }
    requires unmet { IsFirstChoice plan.now of_class.Unmet first_unmet }
    ensures written { OnOk result (HasWritten true plan.now (W.contents (device_of output.old)) (W.contents (device_of output.new))) }
    ensures not_failed { OnOk result (failures_of output.new ≡ failures_of output.old) }
    ensures begun { IsErrOf result RunFault.OutputFailed
        → HasWrittenSome true plan.now (W.contents (device_of output.old)) (W.contents (device_of output.new)) }
    ensures failed { IsErrOf result RunFault.OutputFailed → failures_of output.new ≡ one_more (failures_of output.old) }
    ensures unwritten { IsErrOf result RunFault.OutOfMemory → output.new ≡ output.old }
    ensures fault { IfErr result IsOfWriting }
{
    // Tells the prover that there are few choices.
    let _total = plan.total();
    let met = first_found(alloc, plan, Class::Met, first_met)?;
    let unmet = first_found(alloc, plan, Class::Unmet, first_unmet)?;
    let verdict = verdict_from(met.is_some(), unmet.is_some());
    write_quick_report(output, plan, &met, &unmet, verdict)?;
    Ok(())
}
