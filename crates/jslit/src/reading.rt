//! The bytes of the input, up to one more than a text may have.

ghost use Rattle.std.specs.Prelude.{◌≡◌, ◌+◌, ◌-◌, ◌^◌, ◌<◌, ◌≤◌, length, vec_len, IfOk, OnOk, IfErr};
ghost use Rattle.std.specs.Io.KnownBytes.{Consumes};
ghost use Rattle.lit_report.specs.Counted.{device_of, failures_of};
ghost use Rattle.jslit.specs.Devices.{ConsumesBeginning, IsReadFailure, IsInputText};
ghost use Rattle.jslit.specs.Internal.Reading.{HasRead};

use crate::fault::RunFault;
use lit_report::Counted;
use lit_syntax::TEXT_LIMIT;
use std::alloc::Global;
use std::io::Read;

/// How many bytes are read at the most: one more than a text may have.
const READ_LIMIT: usize = TEXT_LIMIT + 1;

/// How many bytes one read asks for at the most.
const CHUNK: usize = 4_096;

/// Reads once, into this room, and appends the bytes to the text. Gives how many there were: none only at the input's end.
fn read_some<R: Read>(
    input: &mut Counted<R>,
    room: &mut [u8],
    text: &mut Vec<u8>,
) -> Result<usize, RunFault>
    requires some { 0 < length room.old }
    requires count { failures_of input.old < 2 ^ 64 - 1 }
    ensures bytes { IfOk result
        (HasRead (R.remaining (device_of input.old)) (R.remaining (device_of input.new)) text.old.items text.new.items) }
    ensures few { IfOk result (λ taken. taken ≤ length room.old) }
    ensures not_failed { OnOk result (failures_of input.new ≡ failures_of input.old) }
    ensures consumed { ConsumesBeginning (R.remaining (device_of input.old)) (R.remaining (device_of input.new)) (length room.old) }
    ensures failed { IfErr result (IsReadFailure (failures_of input.old) (failures_of input.new)) }
{
    match input.read(room) {
        Ok(taken) => match text.extend_from_slice(&room[..taken]) {
            Ok(()) => Ok(taken),
            Err(_) => Err(RunFault::OutOfMemory),
        },
        Err(_) => Err(RunFault::InputFailed),
    }
}

/// The bytes of the input, up to its end or to one more than a text may have. It reads no byte behind them. Answers
/// `RunFault::InputFailed` where a read failed, and `RunFault::OutOfMemory` where a growth was refused.
pub fn read_text<R: Read>(alloc: Global, input: &mut Counted<R>) -> Result<Vec<u8>, RunFault>
    requires { failures_of input.old < 2 ^ 64 - 1 }
    ensures text { IfOk result (λ text. IsInputText (R.remaining (device_of input.old)) text.items) }
    ensures whole { IfOk result (λ text. Consumes (R.remaining (device_of input.old)) (R.remaining (device_of input.new)) text.items) }
    ensures not_failed { OnOk result (failures_of input.new ≡ failures_of input.old) }
    ensures consumed { ConsumesBeginning (R.remaining (device_of input.old)) (R.remaining (device_of input.new)) (TEXT_LIMIT + 1) }
    ensures failed { IfErr result (IsReadFailure (failures_of input.old) (failures_of input.new)) }
{
    let mut text = Vec::new(alloc);
    let mut chunk = [0; CHUNK];
    'reading: while text.len() < READ_LIMIT {
        let room = CHUNK.min(READ_LIMIT - text.len());
        if read_some(input, &mut chunk[..room], &mut text)? == 0 {
            return Ok(text);
        }
    }
    Ok(text)
}
