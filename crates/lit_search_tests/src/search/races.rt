//! The mark of data races, of ranges of choices, merged and collected.

use super::{found_in, merged, take_range};
use lit_paths::{Plan, plan};
use lit_read::read;
use lit_search::Collector;
use lit_test_texts::{EQUAL_STORES, LOAD_BUFFERING, MASKED_STORE, PUBLICATION, TYPED_READ};
use std::alloc::Global;
use std::process::Abort;
use std::test::Fail;

/// A range of a test's choices is marked where one of these, which belong to valid executions with a data race, is in it.
fn assert_mark(
    rt: &impl Abort,
    alloc: Global,
    plan: &Plan<'_>,
    racing: &[u64],
    from: u64,
    to: u64,
) -> Result<(), Fail> {
    let found = found_in(rt, alloc, plan, from, to)?;
    let mut is_racing = false;
    for choice in racing {
        is_racing |= from <= *choice && *choice < to;
    }
    assert_eq!(rt; found.race(), is_racing, "from {from} to {to}");
    Ok(())
}

/// Each range of a test's choices is marked where one of these is in it.
fn assert_marks(
    rt: &impl Abort,
    alloc: Global,
    text: &str,
    total: u64,
    racing: &[u64],
) -> Result<(), Fail> {
    let test = read(alloc, text.as_bytes())?;
    let plan = plan(alloc, &test)?;
    assert_eq!(rt; plan.total(), total);
    for from in 0..=total {
        for to in from..=total {
            assert_mark(rt, alloc, &plan, racing, from, to)?;
        }
    }
    Ok(())
}

/// A store of 0 and a plain load: there is a data race only if the load reads from the store. The init event stores the same byte as the
/// store, in a range that has its choice and in one that begins behind it.
#[test]
fn masked_store(rt: HostRuntime) -> Result<(), Fail> {
    assert_marks(&rt, rt.alloc(), MASKED_STORE, 2, &[1])
}

/// Two plain stores of a byte are in a data race, whatever is read.
#[test]
fn racing_stores(rt: HostRuntime) -> Result<(), Fail> {
    assert_marks(&rt, rt.alloc(), EQUAL_STORES, 3, &[0, 1, 2])?;
    assert_marks(&rt, rt.alloc(), TYPED_READ, 9, &[0, 1, 2, 3, 4, 6, 8])
}

/// Where both agents read 0 nothing is stored. Where both read 1 each plain load reads from a plain store. In all other
/// choices some guard is false.
#[test]
fn race_on_one_combination(rt: HostRuntime) -> Result<(), Fail> {
    assert_marks(&rt, rt.alloc(), LOAD_BUFFERING, 9, &[3])
}

/// The plain load is behind the atomic load, which reads from the atomic store behind the plain store.
#[test]
fn no_race_behind_a_publication(rt: HostRuntime) -> Result<(), Fail> {
    assert_marks(&rt, rt.alloc(), PUBLICATION, 6, &[])
}

/// Two ranges of choices, and whether what is found in them is marked where it is merged.
type Merged = ((u64, u64), (u64, u64), bool);

const MASKED_STORE_MERGED: [Merged; 6] = [
    ((0, 1), (1, 2), true),
    ((1, 2), (0, 1), true),
    ((1, 2), (2, 2), true),
    ((0, 0), (1, 2), true),
    ((0, 1), (2, 2), false),
    ((0, 0), (0, 1), false),
];

fn assert_merged(rt: &impl Abort, alloc: Global, plan: &Plan<'_>, row: Merged) -> Result<(), Fail> {
    let (first, second, wanted) = row;
    let first = found_in(rt, alloc, plan, first.0, first.1)?;
    let second = found_in(rt, alloc, plan, second.0, second.1)?;
    assert_eq!(rt; merged(alloc, first, second)?.race(), wanted);
    Ok(())
}

#[test]
fn merged_marks(rt: HostRuntime) -> Result<(), Fail> {
    let test = read(rt.alloc(), MASKED_STORE.as_bytes())?;
    let plan = plan(rt.alloc(), &test)?;
    assert_eq!(rt; plan.total(), 2);
    for row in &MASKED_STORE_MERGED {
        assert_merged(&rt, rt.alloc(), &plan, *row)?;
    }
    Ok(())
}

/// Whether the choices before this one are marked where they are collected one by one.
fn is_marked_before(
    rt: &impl Abort,
    alloc: Global,
    plan: &Plan<'_>,
    end: u64,
) -> Result<bool, Fail> {
    let mut collector = Collector::new(alloc, &*plan);
    for choice in 0..end {
        take_range(rt, &mut collector, choice, choice + 1)?;
    }
    Ok(collector.into_found()?.race())
}

#[test]
fn collected_marks(rt: HostRuntime) -> Result<(), Fail> {
    let test = read(rt.alloc(), MASKED_STORE.as_bytes())?;
    let plan = plan(rt.alloc(), &test)?;
    assert_eq!(rt; plan.total(), 2);
    assert!(rt; !is_marked_before(&rt, rt.alloc(), &plan, 1)?);
    assert!(rt; is_marked_before(&rt, rt.alloc(), &plan, 2)?);
    Ok(())
}
