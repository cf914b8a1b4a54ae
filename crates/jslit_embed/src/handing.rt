//! Handing an answer out.

ghost use Rattle.std.specs.Prelude.{◌≡◌, ◌≢◌, ◌⊎◌};
ghost use Rattle.jslit.specs.Answer.{IsCheckStatus, status_of};
ghost use Rattle.jslit.specs.Answer.{refusal_line};
ghost use Rattle.jslit_embed.specs.Handed.{HandsNothing, HandsOut, IsEmbedStatus};
ghost use Rattle.lit_report.specs.Counted.{device_of, failures_of};

use jslit::{Counted, RunFault, say};
use std::alloc::Global;
use std::io;

/// Puts an answer at the beginning of `out`, as far as it fits, and its whole length in `length`.
pub(crate) fn hand_out(answer: &[u8], out: &mut [u8], length: &mut usize)
    ensures { HandsOut answer.now out.old out.new length.new }
{
    *length = answer.len();
    let kept = answer.len().min(out.len());
    out[..kept].copy_from_slice(&answer[..kept]);
}

/// Hands out nothing, and gives this status.
pub(crate) fn hand_nothing(status: u8, length: &mut usize) -> u8
    ensures status { result ≡ status }
    ensures nothing { length.new ≡ 0 }
{
    *length = 0;
    status
}

/// Hands out what a call of `jslit` wrote to memory. Gives the call's status for that of `jslit`: writing to memory fails only where
/// memory runs out.
pub(crate) fn hand_served(
    output: Counted<Vec<u8>>,
    status: u8,
    out: &mut [u8],
    length: &mut usize,
) -> u8
    requires { IsCheckStatus status }
    ensures status { IsEmbedStatus result }
    ensures handed { result ≢ 3 → HandsOut (device_of output).items out.old out.new length.new }
    ensures same { result ≢ 3 → result ≡ status }
    ensures whole { result ≢ 3 → failures_of output ≡ 0 }
    ensures memory { result ≡ 3 → HandsNothing out.old out.new length.new }
{
    let failures = output.failures();
    let answer = output.into_inner();
    if status > 1 || failures > 0 {
        return hand_nothing(3, length);
    }
    hand_out(&answer, out, length);
    status
}

/// Hands out the line of a refusal, as `jslit` prints it. Gives the status.
pub(crate) fn hand_said(alloc: Global, fault: RunFault, out: &mut [u8], length: &mut usize) -> u8
    requires { status_of fault ≡ 1 }
    ensures status { (result ≡ 1) ⊎ (result ≡ 3) }
    ensures handed { result ≡ 1 → HandsOut (refusal_line fault) out.old out.new length.new }
    ensures memory { result ≡ 3 → HandsNothing out.old out.new length.new }
{
    let mut output = Counted::new(Vec::new(alloc));
    let status = say(&mut output, &mut io::sink(), fault);
    hand_served(output, status, out, length)
}
