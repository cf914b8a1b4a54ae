//! `lit_solve::outcomes`: what a table has afterwards.

use crate::listed::{Beats, Listed, Recorded};
use lit_paths::{BYTE_READ_LIMIT, Plan, plan};
use lit_read::read;
use lit_rel::EventSet;
use lit_solve::{Boxes, Domains, Problem, outcomes};
use lit_test_texts::STORE_BUFFERING;
use std::alloc::{AllocError, AllocGlobal, Global};
use std::process::Abort;
use std::sync::atomic::{AtomicU64, Ordering};
use std::test::Fail;

const THREE_LOADS: &str = "test loads
bytes 1
agent A
U8[0] = 1
U8[0] = 2
agent B
r0 = U8[0]
r1 = U8[0]
r2 = U8[0]
check B.r0 == 2
";

/// A word and its first byte are read. Two stores write a 1 into that byte.
const WORD_AND_BYTE: &str = "test word
bytes 2
agent A
U16[0] = 257
agent B
U8[0] = 1
agent C
r0 = U16[0]
r1 = U8[0]
r2 = U8[1]
r2 = U8[0]
check C.r0 == 1
";

/// An outcome, the number of its choice, and its least memory-order.
type Wanted<'a> = (&'a [u32], u64, &'a [u8]);

/// Records all outcomes of the first combination, which has several choices. Answers how many steps down that took.
fn record_all(
    rt: &impl Abort,
    alloc: Global,
    plan: &Plan<'_>,
    table: &mut Listed,
) -> Result<u64, AllocError> {
    // For the prover: the plan's test is one that a text can say, and has a combination 0.
    let _test = plan.test();
    let _combinations = plan.combinations();
    let problem = Problem::open(plan, 0);
    let combination = problem.combination();
    assert!(rt; combination.first() < combination.end());
    let boxes = Boxes::of_range(combination, combination.first(), combination.end());
    let beats = Beats {
        count: AtomicU64::new(0),
    };
    for i in 0..boxes.len() {
        let mut domains: Domains = [EventSet::new(); BYTE_READ_LIMIT];
        boxes.put(i, &mut domains);
        outcomes(alloc, &problem, &domains, table, &beats)?;
    }
    Ok(beats.count.load(Ordering::SeqCst))
}

/// That one of the rows is this.
fn assert_has(rt: &impl Abort, rows: &[Recorded], wanted: Wanted<'_>) {
    let (outcome, choice, order) = wanted;
    for row in rows {
        if row.outcome.as_slice() == outcome {
            assert_eq!(rt; row.choice, choice);
            assert_eq!(rt; row.order.as_slice(), order);
            return;
        }
    }
    panic!(rt; "no outcome {outcome:?}");
}

/// Both loads read 0 in no valid execution. A table that has the outcomes gets none of them again.
#[test]
fn each_outcome_is_recorded_once_with_its_least_example(rt: HostRuntime) -> Result<(), Fail> {
    let test = read(rt.alloc(), STORE_BUFFERING.as_bytes())?;
    let plan = plan(rt.alloc(), &test)?;
    let mut table = Listed::new(rt.alloc());
    for _again in 0..2 {
        record_all(&rt, rt.alloc(), &plan, &mut table)?;
        let rows = table.rows();
        assert_eq!(&rt; rows.len(), 3);
        assert_has(&rt, rows, (&[0, 1], 1, &[0, 1, 2, 3, 4, 5]));
        assert_has(&rt, rows, (&[1, 0], 2, &[0, 1, 4, 5, 2, 3]));
        assert_has(&rt, rows, (&[1, 1], 3, &[0, 1, 2, 4, 3, 5]));
    }
    Ok(())
}

/// Plain loads don't depend on each other: each of three reads 0, 1 or 2. Each of the 27 outcomes is a step down of its own.
#[test]
fn independent_loads_have_heartbeats(rt: HostRuntime) -> Result<(), Fail> {
    let test = read(rt.alloc(), THREE_LOADS.as_bytes())?;
    let plan = plan(rt.alloc(), &test)?;
    let mut table = Listed::new(rt.alloc());
    let beats = record_all(&rt, rt.alloc(), &plan, &mut table)?;
    assert_eq!(&rt; table.rows().len(), 27);
    assert_has(&rt, table.rows(), (&[2, 0, 1], 19, &[0, 1, 2, 3, 4, 5]));
    assert!(&rt; beats >= 27);
    Ok(())
}

/// Each value of the word goes with each of the two bytes. Of the sources of a value the least come into the example, and so they do of the
/// load whose register is written again.
#[test]
fn each_value_has_its_least_sources(rt: HostRuntime) -> Result<(), Fail> {
    let test = read(rt.alloc(), WORD_AND_BYTE.as_bytes())?;
    let plan = plan(rt.alloc(), &test)?;
    let mut table = Listed::new(rt.alloc());
    record_all(&rt, rt.alloc(), &plan, &mut table)?;
    let rows = table.rows();
    let order: &[u8] = &[0, 1, 2, 3, 4, 5, 6, 7];
    assert_eq!(&rt; rows.len(), 16);
    assert_has(&rt, rows, (&[0, 0, 0], 0, order));
    assert_has(&rt, rows, (&[1, 1, 0], 42, order));
    assert_has(&rt, rows, (&[256, 0, 1], 19, order));
    assert_has(&rt, rows, (&[257, 1, 1], 61, order));
    Ok(())
}
