//! Collecting: the outcomes of a litmus test, whose choices are taken in pieces, and no report of them.

ghost use Rattle.std.specs.Prelude.{◌<◌};

use lit_paths::{Plan, plan};
use lit_read::read;
use lit_search::{Collector, Found, NoHeartbeat, SearchFault};
use std::alloc::Global;
use std::test::Fail;

/// The report of all choices, taken in pieces of this many.
fn collect(alloc: Global, plan: &Plan<'_>, size: u64) -> Result<Found, SearchFault>
    requires { 0 < size }
{
    let total = plan.total();
    let mut collector = Collector::new(alloc, &*plan);
    let mut from = 0;
    while from < total {
        let end = from.saturating_add(size).min(total);
        collector.take(&NoHeartbeat, from, end)?;
        from = end;
    }
    collector.into_found()
}

/// Prints how many choices and outcomes the test of a text has, which are collected in so many pieces.
pub(super) fn measure(rt: &HostRuntime, text: &[u8], pieces: u64) -> Result<(), Fail> {
    let test = read(rt.alloc(), text)?;
    let plan = plan(rt.alloc(), &test)?;
    let size = plan
        .total()
        .checked_div(pieces)
        .unwrap_or(0)
        .saturating_add(1);
    let found = collect(rt.alloc(), &plan, size)?;
    println!(rt; "choices {} outcomes {}", plan.total(), found.len())?;
    Ok(())
}
