//! The outcomes of schedules.

use lit_paths::plan;
use lit_read::read;
use lit_search::{Found, interleave, search_range};
use lit_syntax::Test;
use lit_test_texts::{EXCHANGES, LOAD_BUFFERING, STORE_BUFFERING, VIEWED_READ};
use std::alloc::Global;
use std::process::Abort;
use std::test::Fail;

/// The outcome of a schedule of a test's agents is this one.
fn assert_shown(
    rt: &impl Abort,
    alloc: Global,
    test: &Test,
    schedule: &[u8],
    outcome: &[u32],
) -> Result<(), Fail> {
    assert!(rt;
        schedule
            .iter()
            .all(|agent| usize::from(*agent) < test.agents())
    );
    let shown = interleave(alloc, test, schedule)?;
    assert_eq!(rt; shown.as_slice(), outcome);
    Ok(())
}

/// The report of all choices of a test.
fn report_of(alloc: Global, test: &Test) -> Result<Found, Fail> {
    let plan = plan(alloc, test)?;
    Ok(search_range(alloc, &plan, 0, plan.total())?)
}

/// Whether this outcome is found.
fn is_found(found: &Found, outcome: &[u32]) -> bool {
    let mut is_found = false;
    for place in 0..found.len() {
        is_found |= found.outcome(place) == outcome;
    }
    is_found
}

/// The outcome of a schedule is this one, and stands in the report of the test.
fn assert_outcome(
    rt: &impl Abort,
    alloc: Global,
    text: &str,
    schedule: &[u8],
    outcome: &[u32],
) -> Result<(), Fail> {
    let test = read(alloc, text.as_bytes())?;
    assert_shown(rt, alloc, &test, schedule, outcome)?;
    let found = report_of(alloc, &test)?;
    assert!(rt; is_found(&found, outcome));
    Ok(())
}

#[test]
fn schedules_of_store_buffering(rt: HostRuntime) -> Result<(), Fail> {
    assert_outcome(&rt, rt.alloc(), STORE_BUFFERING, &[0, 1], &[1, 1])?;
    assert_outcome(&rt, rt.alloc(), STORE_BUFFERING, &[0, 0], &[0, 1])?;
    assert_outcome(&rt, rt.alloc(), STORE_BUFFERING, &[], &[0, 1])?;
    assert_outcome(&rt, rt.alloc(), STORE_BUFFERING, &[1, 1, 1], &[1, 0])
}

#[test]
fn schedules_of_wide_accesses(rt: HostRuntime) -> Result<(), Fail> {
    assert_outcome(&rt, rt.alloc(), VIEWED_READ, &[0, 1, 2], &[514])?;
    assert_outcome(&rt, rt.alloc(), VIEWED_READ, &[2], &[0])
}

#[test]
fn schedules_of_load_buffering(rt: HostRuntime) -> Result<(), Fail> {
    assert_outcome(&rt, rt.alloc(), LOAD_BUFFERING, &[0, 1], &[0, 0])?;
    assert_outcome(&rt, rt.alloc(), LOAD_BUFFERING, &[1, 0], &[0, 0])?;
    assert_outcome(&rt, rt.alloc(), LOAD_BUFFERING, &[], &[0, 0])
}

#[test]
fn schedules_of_exchanges(rt: HostRuntime) -> Result<(), Fail> {
    let first_alone = [0, 1, 7, 1794, 1794];
    assert_outcome(&rt, rt.alloc(), EXCHANGES, &[], &first_alone)?;
    let second_alone = [0, 1, 0, 0, 0];
    assert_outcome(&rt, rt.alloc(), EXCHANGES, &[1, 1, 1, 1], &second_alone)?;
    let second_exchanges = [0, 3, 1, 258, 33_620_740];
    assert_outcome(&rt, rt.alloc(), EXCHANGES, &[0, 1, 1, 1], &second_exchanges)
}
