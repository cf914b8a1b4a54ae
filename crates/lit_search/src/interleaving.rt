//! The outcome of a schedule, with the fault of a search.

ghost use Rattle.std.specs.Prelude.{◌≡◌, ◌<◌, All, IfOk, length};
ghost use Rattle.lit_interleave.specs.Interleaving.{interleaved};

use crate::fault::SearchFault;
use lit_syntax::Test;
use std::alloc::Global;

/// The outcome of a schedule, as `lit_interleave` finds it. Answers `SearchFault::OutOfMemory` where a growth was refused, and no other
/// fault.
pub fn interleave(alloc: Global, test: &Test, schedule: &[u8]) -> Result<Vec<u32>, SearchFault>
    requires { All (λ agent. agent < length test.now.agents) schedule.now }
    ensures { IfOk result (λ outcome. outcome.items ≡ interleaved test.now schedule.now) }
{
    let outcome = lit_interleave::interleave(alloc, test, schedule)?;
    Ok(outcome)
}
