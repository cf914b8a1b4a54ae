//! Writes the text of a report, and of the outcome of a schedule, through the output buffer. What prints takes both the buffer and the
//! output (decision 58).

ghost use Rattle.std.specs.Prelude.{◌≡◌, ◌++◌, IfSome, OnOk, OnErr, length, codes};
ghost use Rattle.std.specs.Io.KnownBytes.{Appends};
ghost use Rattle.lit_paths.specs.Choice.{choices_of};
ghost use Rattle.lit_paths.specs.Outcome.{names_of};
ghost use Rattle.lit_search.specs.Report.{IsReport, in_range};
ghost use Rattle.lit_report.specs.Counted.{device_of, failures_of, one_more};
ghost use Rattle.lit_report.specs.EntryText.{line};
ghost use Rattle.lit_report.specs.Writing.{AppendsBeginning, HasPutOn};
ghost use Rattle.lit_report.specs.ReportText.{class_text, interleaving_text, quick_text, report_text, verdict_text, yes_or_no};
ghost use Rattle.lit_report.specs.Internal.FirstEntry.{IsOnlyEntry, entry_of_option};

use crate::buffer::Buffer;
use crate::counted::Counted;
use crate::entry_cache::{EntryCache, put_entry};
use crate::fault::OutputFailed;
use crate::printer::Printer;
use crate::registers::put_registers;
use crate::verdict::Verdict;
use lit_paths::{Plan, meets, written_names};
use lit_search::Found;
use lit_syntax::Test;
use std::alloc::Global;
use std::io::Write;

/// Puts the first line of a report.
fn put_head<W: Write>(buffer: &mut Buffer, output: &mut Counted<W>, test: &Test)
    ensures { HasPutOn W.contents output.old output.new buffer.old buffer.new
        (line (codes "test " ++ test.now.name)) }
{
    buffer.put(output, b"test ");
    buffer.put(output, test.name().as_bytes());
    buffer.put_byte(output, b'\n');
}

/// Puts the line of the verdict.
fn put_verdict<W: Write>(buffer: &mut Buffer, output: &mut Counted<W>, verdict: Verdict)
    ensures { HasPutOn W.contents output.old output.new buffer.old buffer.new
        (line (codes "verdict " ++ verdict_text verdict)) }
{
    buffer.put(output, b"verdict ");
    buffer.put(output, verdict.as_str().as_bytes());
    buffer.put_byte(output, b'\n');
}

/// The word `yes` or `no`.
fn word_for(answer: bool) -> &'static [u8]
    ensures { result.now ≡ yes_or_no answer }
{
    if answer { b"yes" } else { b"no" }
}

/// Puts the line that says whether some valid execution has a data race.
fn put_race<W: Write>(buffer: &mut Buffer, output: &mut Counted<W>, race: bool)
    ensures { HasPutOn W.contents output.old output.new buffer.old buffer.new
        (line (codes "data race " ++ yes_or_no race)) }
{
    buffer.put(output, b"data race ");
    buffer.put(output, word_for(race));
    buffer.put_byte(output, b'\n');
}

/// Writes a test's report. Its buffers are large, so the function is not inlined into its caller's frame.
#[inline(never)]
pub fn write_report<P: Printer, W: Write>(
    alloc: Global,
    output: &mut Counted<W>,
    plan: &Plan<'_>,
    found: &Found,
    verdict: Verdict,
    printer: &mut P,
) -> Result<(), OutputFailed>
    requires ready { P.ready printer.old }
    requires report { IsReport plan.now (in_range 0 (length (choices_of plan.now))) found.now }
    ensures written { OnOk result
        (Appends (W.contents (device_of output.old)) (W.contents (device_of output.new)) (report_text plan.now found.now verdict)) }
    ensures not_failed { OnOk result (failures_of output.new ≡ failures_of output.old) }
    ensures begun { OnErr result
        (AppendsBeginning (W.contents (device_of output.old)) (W.contents (device_of output.new))
        (report_text plan.now found.now verdict)) }
    ensures failed { OnErr result (failures_of output.new ≡ one_more (failures_of output.old)) }
{
    let mut buffer = Buffer::new();
    put_head(&mut buffer, output, plan.test());
    printer.put(alloc, &mut buffer, output, plan, found);
    buffer.put(output, b"outcomes ");
    buffer.put_number(output, found.len() as u64);
    buffer.put_byte(output, b'\n');
    put_verdict(&mut buffer, output, verdict);
    put_race(&mut buffer, output, found.race());
    buffer.finish(output)
}

/// Puts what a quick report says of a class: the outcome of its first choice with that choice's example, or that there
/// is none.
fn put_class<W: Write>(
    buffer: &mut Buffer,
    output: &mut Counted<W>,
    plan: &Plan<'_>,
    word: &[u8],
    first: &Option<Found>,
)
    requires first { IfSome first.now (IsOnlyEntry plan.now) }
    ensures { HasPutOn W.contents output.old output.new buffer.old buffer.new
        (class_text plan.now word.now (entry_of_option first.now)) }
{
    buffer.put(output, word);
    let Some(found) = first else {
        buffer.put(output, b" none\n");
        return;
    };
    buffer.put_byte(output, b' ');
    // Tells the prover that there is a combination to enter.
    let _some = plan.combinations();
    let mut combination = plan.enter(0);
    let example = found.example(0);
    put_entry(
        buffer,
        output,
        &*plan,
        &mut combination,
        found.outcome(0),
        example.choice,
        example.order.as_slice(),
        &mut EntryCache::new(),
    );
}

/// Writes a test's quick report. Takes no memory. It is not inlined, as `write_report`.
#[inline(never)]
pub fn write_quick_report<W: Write>(
    output: &mut Counted<W>,
    plan: &Plan<'_>,
    met: &Option<Found>,
    unmet: &Option<Found>,
    verdict: Verdict,
) -> Result<(), OutputFailed>
    requires met { IfSome met.now (IsOnlyEntry plan.now) }
    requires unmet { IfSome unmet.now (IsOnlyEntry plan.now) }
    ensures written { OnOk result
        (Appends (W.contents (device_of output.old)) (W.contents (device_of output.new))
        (quick_text plan.now (entry_of_option met.now) (entry_of_option unmet.now) verdict)) }
    ensures not_failed { OnOk result (failures_of output.new ≡ failures_of output.old) }
    ensures begun { OnErr result
        (AppendsBeginning (W.contents (device_of output.old)) (W.contents (device_of output.new))
        (quick_text plan.now (entry_of_option met.now) (entry_of_option unmet.now) verdict)) }
    ensures failed { OnErr result (failures_of output.new ≡ one_more (failures_of output.old)) }
{
    let mut buffer = Buffer::new();
    put_head(&mut buffer, output, plan.test());
    put_class(&mut buffer, output, plan, b"met", met);
    put_class(&mut buffer, output, plan, b"unmet", unmet);
    put_verdict(&mut buffer, output, verdict);
    buffer.finish(output)
}

/// Writes the outcome of a schedule, and whether it meets the condition. Takes no memory.
pub fn write_interleaving<W: Write>(
    output: &mut Counted<W>,
    test: &Test,
    outcome: &[u32],
) -> Result<(), OutputFailed>
    requires one_each { length outcome.now ≡ length (names_of test.now) }
    ensures written { OnOk result
        (Appends (W.contents (device_of output.old)) (W.contents (device_of output.new)) (interleaving_text test.now outcome.now)) }
    ensures not_failed { OnOk result (failures_of output.new ≡ failures_of output.old) }
    ensures begun { OnErr result
        (AppendsBeginning (W.contents (device_of output.old)) (W.contents (device_of output.new))
        (interleaving_text test.now outcome.now)) }
    ensures failed { OnErr result (failures_of output.new ≡ one_more (failures_of output.old)) }
{
    let mut buffer = Buffer::new();
    put_head(&mut buffer, output, test);
    buffer.put(output, b"interleaving");
    let names = written_names(test);
    put_registers(&mut buffer, output, test, names.as_slice(), outcome);
    buffer.put(output, b"\nmeets ");
    buffer.put(output, word_for(meets(test, outcome)));
    buffer.put(output, b"\n");
    buffer.finish(output)
}
