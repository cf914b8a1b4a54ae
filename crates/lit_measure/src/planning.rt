//! Planning: making the plan of a litmus test some times.

use lit_paths::plan;
use lit_read::read;
use std::test::Fail;
use std::time::Instant;

/// How many plans are made.
const TURNS: u32 = 200;

/// Prints how many combinations the plan of a text has, and the least time that one plan took.
pub(super) fn measure(rt: &HostRuntime, text: &[u8]) -> Result<(), Fail> {
    let test = read(rt.alloc(), text)?;
    let mut least = u128::MAX;
    let mut combinations = 0;
    for _ in 0..TURNS {
        let start = Instant::now(rt)?;
        let plan = plan(rt.alloc(), &test)?;
        least = least.min(start.elapsed(rt)?.as_nanos());
        combinations = plan.combinations();
    }
    println!(rt; "{combinations} {least}")?;
    Ok(())
}
