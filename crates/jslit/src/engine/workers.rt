//! The answer for a text, by workers, each on a thread of its own if there are threads, while a watch follows.

ghost use Rattle.std.specs.Prelude.{◌≡◌, ◌≢◌, length, IfOk, IfErr, OnOk, IsErrOf};
ghost use Rattle.lit_paths.specs.Choice.{choices_of};
ghost use Rattle.lit_report.specs.Counted.{device_of, failures_of, one_more};
ghost use Rattle.lit_search.specs.Report.{IsReport, in_range};
ghost use Rattle.lit_share.specs.Quick.{IsQuickAnswer};
ghost use Rattle.lit_valid.specs.declared.class.Class.TheVariants as of_class;
ghost use Rattle.jslit.specs.Answer.{HasBegun, HasReported, IsFaultOn};
ghost use Rattle.jslit.specs.Internal.Answering.{HasWritten, HasWrittenSome, IsOfTextOrWriting, IsOfWriting};
ghost use Rattle.jslit.specs.Internal.Searching.{IsFirstChoice};

use crate::engine::answering::{quick_report, report};
use crate::engine::cutting::{cut_for_outcomes, cut_of};
use crate::engine::few_steps::found_soon;
use crate::fault::RunFault;
use crate::watch::Watch;
use lit_options::Options;
use lit_paths::{Plan, plan};
use lit_read::read;
use lit_report::{Counted, Pages, pages_for};
use lit_search::{Class, Example, Found};
use lit_share::{Quick, quick, search};
use std::alloc::{AllocError, Global};
use std::io::Write;
use std::thread::Threads;

/// A pass for each worker. The passes carry nothing.
pub(crate) fn passes(alloc: Global, workers: usize) -> Result<Vec<()>, AllocError>
    ensures { IfOk result (λ passes. length passes.items ≡ workers) }
{
    let mut passes = Vec::new(alloc);
    passes.resize(workers, ())?;
    Ok(passes)
}

/// The report on all choices.
fn found_by<T: Threads + Sync, G: Watch>(
    rt: &T,
    alloc: Global,
    plan: &Plan<'_>,
    options: Options,
    watch: &G,
    passes: Vec<G::Pass>,
) -> Result<Found, RunFault>
    requires { length passes.items ≡ options.workers }
    ensures reported { IfOk result (IsReport plan.now (in_range 0 (length (choices_of plan.now)))) }
    ensures fault { IfErr result (λ fault. fault ≡ RunFault.OutOfMemory) }
{
    let cut = cut_for_outcomes(plan, options);
    let pieces = plan.total().div_ceil(cut);
    if pieces > 1
        && !watch.follows_pieces()
        && let Some(found) = found_soon(alloc, plan)
    {
        return Ok(found);
    }
    watch.begin(pieces);
    let searched = search(rt, alloc, plan, cut, watch, passes);
    watch.end();
    let found = searched?;
    Ok(found)
}

/// The first choice of each class, with its order.
fn first_by<T: Threads + Sync, G: Watch>(
    rt: &T,
    alloc: Global,
    plan: &Plan<'_>,
    options: Options,
    watch: &G,
    passes: Vec<G::Pass>,
) -> Result<Quick, RunFault>
    requires { length passes.items ≡ options.workers }
    ensures met { IfOk result (λ quick. IsQuickAnswer plan.now of_class.Met quick.met) }
    ensures unmet { IfOk result (λ quick. IsQuickAnswer plan.now of_class.Unmet quick.unmet) }
    ensures fault { IfErr result (λ fault. fault ≡ RunFault.OutOfMemory) }
{
    let cut = cut_of(plan.total(), options);
    watch.begin(plan.total().div_ceil(cut));
    let searched = quick(rt, alloc, plan, cut, watch, passes);
    watch.end();
    let first = searched?;
    Ok(first)
}

/// The choice of an example. The plan and the class are there for the contract.
fn choice_of(_plan: &Plan<'_>, _class: Class, first: &Option<Example>) -> Option<u64>
    requires { IsQuickAnswer _plan.now _class first.now }
    ensures { IsFirstChoice _plan.now _class result }
{
    match first {
        Some(example) => Some(example.choice),
        None => None,
    }
}

/// Writes the report that the options ask for: the quick one or the whole one.
fn asked_report<T: Threads + Sync, W: Write, G: Watch>(
    rt: &T,
    alloc: Global,
    plan: &Plan<'_>,
    output: &mut Counted<W>,
    options: Options,
    watch: &G,
    passes: Vec<G::Pass>,
) -> Result<(), RunFault>
    requires { length passes.items ≡ options.workers }
    ensures written { OnOk result
        (HasWritten options.quick plan.now (W.contents (device_of output.old)) (W.contents (device_of output.new))) }
    ensures not_failed { OnOk result (failures_of output.new ≡ failures_of output.old) }
    ensures begun { IsErrOf result RunFault.OutputFailed
        → HasWrittenSome options.quick plan.now (W.contents (device_of output.old)) (W.contents (device_of output.new)) }
    ensures failed { IsErrOf result RunFault.OutputFailed → failures_of output.new ≡ one_more (failures_of output.old) }
    ensures unwritten { IsErrOf result RunFault.OutOfMemory → output.new ≡ output.old }
    ensures fault { IfErr result IsOfWriting }
{
    if options.quick {
        let first = first_by(rt, alloc, plan, options, watch, passes)?;
        let met = choice_of(plan, Class::Met, &first.met);
        let unmet = choice_of(plan, Class::Unmet, &first.unmet);
        return quick_report(alloc, plan, output, met, unmet);
    }
    let found = found_by(rt, alloc, plan, options, watch, passes)?;
    let pages = pages_for(alloc, found.len(), options.workers)?;
    let mut printer = Pages { rt, pages };
    report(alloc, plan, output, &found, &mut printer)
}

/// Writes the answer for a text: the report on the test that it spells. Where there is no report, it writes nothing.
pub(crate) fn answer<T: Threads + Sync, W: Write, G: Watch>(
    rt: &T,
    alloc: Global,
    text: &[u8],
    output: &mut Counted<W>,
    options: Options,
    watch: &G,
    passes: Vec<G::Pass>,
) -> Result<(), RunFault>
    requires { length passes.items ≡ options.workers }
    ensures reported { OnOk result
        (HasReported options.quick text.now (W.contents (device_of output.old)) (W.contents (device_of output.new))) }
    ensures not_failed { OnOk result (failures_of output.new ≡ failures_of output.old) }
    ensures begun { IsErrOf result RunFault.OutputFailed
        → HasBegun options.quick text.now (W.contents (device_of output.old)) (W.contents (device_of output.new)) }
    ensures failed { IsErrOf result RunFault.OutputFailed → failures_of output.new ≡ one_more (failures_of output.old) }
    ensures unwritten { IfErr result (λ fault. fault ≢ RunFault.OutputFailed → output.new ≡ output.old) }
    ensures refused { IfErr result (IsFaultOn text.now) }
    ensures of_text { IfErr result IsOfTextOrWriting }
{
    let test = read(alloc, text)?;
    let plan = plan(alloc, &test)?;
    asked_report(rt, alloc, &plan, output, options, watch, passes)
}
