//! Writes the line of a refusal through the output buffer (decision 69).

ghost use Rattle.std.specs.Prelude.{◌≡◌, OnOk, OnErr};
ghost use Rattle.std.specs.Io.KnownBytes.{Appends};
ghost use Rattle.lit_report.specs.Counted.{device_of, failures_of, one_more};
ghost use Rattle.lit_report.specs.Writing.{AppendsBeginning};
ghost use Rattle.lit_report.specs.RefusalText.{plan_fault_line, read_fault_line, unknown_agent_line};

use crate::buffer::{Buffer, write_bytes};
use crate::counted::Counted;
use crate::fault::OutputFailed;
use lit_paths::PlanFault;
use lit_read::ReadFault;
use std::io::Write;

/// Writes the line on a schedule of which a member is no agent's name. Takes no memory.
pub fn write_unknown_agent<W: Write>(output: &mut Counted<W>) -> Result<(), OutputFailed>
    ensures written { OnOk result
        (Appends (W.contents (device_of output.old)) (W.contents (device_of output.new)) unknown_agent_line) }
    ensures not_failed { OnOk result (failures_of output.new ≡ failures_of output.old) }
    ensures begun { OnErr result
        (AppendsBeginning (W.contents (device_of output.old)) (W.contents (device_of output.new)) unknown_agent_line) }
    ensures failed { OnErr result (failures_of output.new ≡ one_more (failures_of output.old)) }
{
    write_bytes(output, b"refused 20 unknown_agent\n")
}

/// Writes the line on a text that spells no test. Takes no memory.
pub fn write_read_fault<W: Write>(
    output: &mut Counted<W>,
    fault: ReadFault,
) -> Result<(), OutputFailed>
    ensures written { OnOk result
        (Appends (W.contents (device_of output.old)) (W.contents (device_of output.new)) (read_fault_line fault)) }
    ensures not_failed { OnOk result (failures_of output.new ≡ failures_of output.old) }
    ensures begun { OnErr result
        (AppendsBeginning (W.contents (device_of output.old)) (W.contents (device_of output.new)) (read_fault_line fault)) }
    ensures failed { OnErr result (failures_of output.new ≡ one_more (failures_of output.old)) }
{
    let mut buffer = Buffer::new();
    buffer.put(output, b"refused ");
    buffer.put(output, fault.kind.as_str().as_bytes());
    buffer.put(output, b" line ");
    buffer.put_number(output, fault.line as u64);
    buffer.put(output, b"\n");
    buffer.finish(output)
}

/// Writes the line on a test that exceeds a limit. Takes no memory.
pub fn write_plan_fault<W: Write>(
    output: &mut Counted<W>,
    fault: PlanFault,
) -> Result<(), OutputFailed>
    ensures written { OnOk result
        (Appends (W.contents (device_of output.old)) (W.contents (device_of output.new)) (plan_fault_line fault)) }
    ensures not_failed { OnOk result (failures_of output.new ≡ failures_of output.old) }
    ensures begun { OnErr result
        (AppendsBeginning (W.contents (device_of output.old)) (W.contents (device_of output.new)) (plan_fault_line fault)) }
    ensures failed { OnErr result (failures_of output.new ≡ one_more (failures_of output.old)) }
{
    let mut buffer = Buffer::new();
    buffer.put(output, b"refused ");
    buffer.put(output, fault.as_str().as_bytes());
    buffer.put(output, b"\n");
    buffer.finish(output)
}
