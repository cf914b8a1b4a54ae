//! `lit_search`: ranges of choices, and what is merged and collected from them.

use lit_paths::{Plan, plan};
use lit_read::read;
use lit_search::{Class, Collector, Found, NoHeartbeat, first_in, merge, search_range};
use lit_test_texts::{
    BOTH_EXCHANGE_FOR_ONE, EQUAL_STORES, LOAD_BUFFERING, LOAD_BUFFERING_ATOMIC, STORE_BUFFERING,
    TYPED_READ,
};
use std::alloc::{AllocError, AllocGlobal, Global};
use std::process::Abort;
use std::test::Fail;

mod interleaving;
mod races;

const OWN_STORES: &str = "test own
bytes 1
agent A
U8[0] = 1
r0 = U8[0]
agent B
U8[0] = 2
r0 = U8[0]
check A.r0 == 1 && B.r0 == 1
";

/// A choice of some valid execution, with its outcome and its least memory-order.
#[derive(Clone, Copy)]
struct Valid<'a> {
    choice: u64,
    outcome: &'a [u32],
    order: &'a [u8],
}

/// The report of a range, from all choices of valid executions: rising by outcome, those of one outcome by number.
fn reported<'a>(
    alloc: Global,
    valid: &[Valid<'a>],
    from: u64,
    to: u64,
) -> Result<Vec<Valid<'a>>, AllocError> {
    let mut report: Vec<Valid<'a>> = Vec::new(alloc);
    for one in valid {
        let is_known = report
            .last()
            .is_some_and(|last| last.outcome == one.outcome);
        if from <= one.choice && one.choice < to && !is_known {
            report.push(*one)?;
        }
    }
    Ok(report)
}

/// Whether these outcomes and examples are found, and no other.
fn are_found(found: &Found, report: &[Valid<'_>]) -> bool {
    if found.len() != report.len() {
        return false;
    }
    for place in 0..found.len() {
        let one = report[place];
        let example = found.example(place);
        let same_example = example.choice == one.choice && example.order.as_slice() == one.order;
        if found.outcome(place) != one.outcome || !same_example {
            return false;
        }
    }
    true
}

/// The report of a range of choices, which has to lie within those of the plan.
fn found_in(
    rt: &impl Abort,
    alloc: Global,
    plan: &Plan<'_>,
    from: u64,
    to: u64,
) -> Result<Found, Fail> {
    assert!(rt; from <= to && to <= plan.total());
    Ok(search_range(alloc, plan, from, to)?)
}

/// Two reports as one.
fn merged(alloc: Global, found: Found, other: Found) -> Result<Found, Fail> {
    Ok(merge(alloc, found, other)?)
}

/// Has a range of choices collected, which has to follow on those collected before and to lie within those of the plan.
fn take_range(
    rt: &impl Abort,
    collector: &mut Collector<'_>,
    from: u64,
    to: u64,
) -> Result<(), Fail> {
    assert!(rt; collector.end() <= from);
    assert!(rt; from <= to && to <= collector.total());
    Ok(collector.take(&NoHeartbeat, from, to)?)
}

/// A range of a test's choices has its report, by all choices of valid executions.
fn assert_range(
    rt: &impl Abort,
    alloc: Global,
    plan: &Plan<'_>,
    valid: &[Valid<'_>],
    from: u64,
    to: u64,
) -> Result<(), Fail> {
    let found = found_in(rt, alloc, plan, from, to)?;
    let report = reported(alloc, valid, from, to)?;
    let are_found = are_found(&found, report.as_slice());
    assert!(rt; are_found, "from {from} to {to}");
    Ok(())
}

/// Each range of a test's choices has its report.
fn assert_ranges(
    rt: &(impl Abort + AllocGlobal),
    text: &str,
    total: u64,
    valid: &[Valid<'_>],
) -> Result<(), Fail> {
    let test = read(rt.alloc(), text.as_bytes())?;
    let plan = plan(rt.alloc(), &test)?;
    assert_eq!(rt; plan.total(), total);
    for from in 0..=total {
        for to in from..=total {
            assert_range(rt, rt.alloc(), &plan, valid, from, to)?;
        }
    }
    Ok(())
}

/// A choice that is known to have a valid execution.
fn known<'a>(choice: u64, outcome: &'a [u32], order: &'a [u8]) -> Valid<'a> {
    Valid {
        choice,
        outcome,
        order,
    }
}

/// Some ranges begin and end inside a broken part. In choices 0 and 1, and in 4 and 5, A reads 0 though its guard asks for 1: [1, 5)
/// begins in the first of these parts and ends in the second.
fn assert_load_buffering(rt: &(impl Abort + AllocGlobal)) -> Result<(), Fail> {
    let valid = [
        known(8, &[0, 0], &[0, 1, 2, 3]),
        known(3, &[1, 1], &[0, 1, 2, 3, 4, 5]),
    ];
    assert_ranges(rt, LOAD_BUFFERING, 9, &valid)
}

fn assert_exchanges(rt: &(impl Abort + AllocGlobal)) -> Result<(), Fail> {
    let valid = [known(5, &[0, 1], &[0, 1, 2]), known(7, &[1, 0], &[0, 2, 1])];
    assert_ranges(rt, BOTH_EXCHANGE_FOR_ONE, 9, &valid)
}

fn assert_store_buffering(rt: &(impl Abort + AllocGlobal)) -> Result<(), Fail> {
    let valid = [
        known(1, &[0, 1], &[0, 1, 2, 3, 4, 5]),
        known(2, &[1, 0], &[0, 1, 4, 5, 2, 3]),
        known(3, &[1, 1], &[0, 1, 2, 4, 3, 5]),
    ];
    assert_ranges(rt, STORE_BUFFERING, 4, &valid)
}

/// Two stores give one value, and the range tells which of them is the example.
fn assert_equal_stores(rt: &(impl Abort + AllocGlobal)) -> Result<(), Fail> {
    let valid = [
        known(0, &[0], &[0, 1, 2, 3]),
        known(1, &[1], &[0, 1, 2, 3]),
        known(2, &[1], &[0, 1, 2, 3]),
    ];
    assert_ranges(rt, EQUAL_STORES, 3, &valid)
}

fn assert_tearing(rt: &(impl Abort + AllocGlobal)) -> Result<(), Fail> {
    let valid = [
        known(0, &[0], &[0, 1, 2, 3, 4]),
        known(3, &[1], &[0, 1, 2, 3, 4]),
        known(6, &[2], &[0, 1, 2, 3, 4]),
        known(1, &[256], &[0, 1, 2, 3, 4]),
        known(4, &[257], &[0, 1, 2, 3, 4]),
        known(2, &[512], &[0, 1, 2, 3, 4]),
        known(8, &[514], &[0, 1, 2, 3, 4]),
    ];
    assert_ranges(rt, TYPED_READ, 9, &valid)
}

/// A's own store hides what it reads in choices 0 to 2: [1, 2) lies inside a part that is broken.
fn assert_own_stores(rt: &(impl Abort + AllocGlobal)) -> Result<(), Fail> {
    let valid = [
        known(4, &[1, 1], &[0, 1, 2, 3, 4]),
        known(5, &[1, 2], &[0, 1, 2, 3, 4]),
        known(7, &[2, 1], &[0, 1, 2, 3, 4]),
        known(8, &[2, 2], &[0, 1, 2, 3, 4]),
    ];
    assert_ranges(rt, OWN_STORES, 9, &valid)
}

#[test]
fn every_range_has_its_report(rt: HostRuntime) -> Result<(), Fail> {
    assert_load_buffering(&rt)?;
    assert_exchanges(&rt)?;
    assert_store_buffering(&rt)?;
    assert_equal_stores(&rt)?;
    assert_tearing(&rt)?;
    assert_own_stores(&rt)
}

/// A class, the first number of a range and the one after its last, and the first choice of the class there.
type First = (Class, u64, u64, Option<u64>);

/// That this first choice is found. The range has to lie within the choices of the plan.
fn assert_first(rt: &impl Abort, plan: &Plan<'_>, row: First) {
    let (class, from, to, wanted) = row;
    assert!(rt; from <= to && to <= plan.total());
    assert!(rt; first_in(plan, class, from, to) == wanted);
}

/// That these first choices are found.
fn assert_firsts(
    rt: &(impl Abort + AllocGlobal),
    text: &str,
    total: u64,
    rows: &[First],
) -> Result<(), Fail> {
    let test = read(rt.alloc(), text.as_bytes())?;
    let plan = plan(rt.alloc(), &test)?;
    assert_eq!(rt; plan.total(), total);
    for row in rows {
        assert_first(rt, &plan, *row);
    }
    Ok(())
}

const LOAD_BUFFERING_FIRSTS: [First; 12] = [
    (Class::Met, 0, 9, Some(3)),
    (Class::Unmet, 0, 9, Some(8)),
    (Class::Met, 0, 3, None),
    (Class::Met, 2, 5, Some(3)),
    (Class::Unmet, 2, 5, None),
    (Class::Met, 5, 9, None),
    (Class::Unmet, 5, 9, Some(8)),
    (Class::Met, 3, 3, None),
    (Class::Unmet, 9, 9, None),
    (Class::Met, 3, 4, Some(3)),
    (Class::Unmet, 3, 4, None),
    (Class::Unmet, 8, 9, Some(8)),
];

const LOAD_BUFFERING_ATOMIC_FIRSTS: [First; 4] = [
    (Class::Met, 0, 9, None),
    (Class::Unmet, 0, 9, Some(8)),
    (Class::Met, 2, 5, None),
    (Class::Unmet, 5, 8, None),
];

#[test]
fn first_choices(rt: HostRuntime) -> Result<(), Fail> {
    assert_firsts(&rt, LOAD_BUFFERING, 9, &LOAD_BUFFERING_FIRSTS)?;
    assert_firsts(&rt, LOAD_BUFFERING_ATOMIC, 9, &LOAD_BUFFERING_ATOMIC_FIRSTS)
}

/// What is found is this outcome alone, with this example.
fn assert_only(rt: &impl Abort, found: &Found, outcome: &[u32], choice: u64) {
    assert_eq!(rt; found.len(), 1);
    assert_eq!(rt; found.outcome(0), outcome);
    assert_eq!(rt; found.example(0).choice, choice);
}

#[test]
fn collector_of_several_ranges(rt: HostRuntime) -> Result<(), Fail> {
    let test = read(rt.alloc(), LOAD_BUFFERING.as_bytes())?;
    let plan = plan(rt.alloc(), &test)?;
    assert_eq!(rt; plan.total(), 9);
    let mut collector = Collector::new(rt.alloc(), &plan);
    take_range(&rt, &mut collector, 0, 2)?;
    take_range(&rt, &mut collector, 2, 2)?;
    take_range(&rt, &mut collector, 5, 9)?;
    assert_eq!(rt; collector.end(), 9);
    let found = collector.into_found()?;
    assert_only(&rt, &found, &[0, 0], 8);
    Ok(())
}

/// The report of a range of the choices of `EQUAL_STORES`.
fn twins_in(rt: &(impl Abort + AllocGlobal), from: u64, to: u64) -> Result<Found, Fail> {
    let test = read(rt.alloc(), EQUAL_STORES.as_bytes())?;
    let plan = plan(rt.alloc(), &test)?;
    assert_eq!(rt; plan.total(), 3);
    found_in(rt, rt.alloc(), &plan, from, to)
}

/// What is found is the outcome before the twins, and theirs by the first of them.
fn assert_all_twins(rt: &impl Abort, found: &Found) {
    assert_eq!(rt; found.len(), 2);
    assert_eq!(rt; found.outcome(0), [0].as_slice());
    assert_eq!(rt; found.example(0).choice, 0);
    assert_eq!(rt; found.example(1).choice, 1);
}

#[test]
fn twins_merged(rt: HostRuntime) -> Result<(), Fail> {
    let later = twins_in(&rt, 2, 3)?;
    let earlier = twins_in(&rt, 1, 2)?;
    let found = merged(rt.alloc(), later, earlier)?;
    assert_only(&rt, &found, &[1], 1);
    let later = twins_in(&rt, 2, 3)?;
    let earlier = twins_in(&rt, 1, 2)?;
    let found = merged(rt.alloc(), earlier, later)?;
    assert_only(&rt, &found, &[1], 1);
    let first = twins_in(&rt, 0, 1)?;
    let found = merged(rt.alloc(), found, first)?;
    assert_all_twins(&rt, &found);
    Ok(())
}

/// How many outcomes a test has.
fn outcomes_of(rt: &impl AllocGlobal, text: &str) -> Result<usize, Fail> {
    let test = read(rt.alloc(), text.as_bytes())?;
    let plan = plan(rt.alloc(), &test)?;
    let found = search_range(rt.alloc(), &plan, 0, plan.total())?;
    Ok(found.len())
}

const WIDE: &str = "test wide
bytes 4
agent A
U32[0] = 1
U32[0] = 2
U32[0] = 3
agent B
r0 = U32[0]
r0 = U32[0]
r0 = U32[0]
r0 = U32[0]
r0 = U32[0]
r0 = U32[0]
check B.r0 == 0
";

#[test]
fn wide_plain_loads(rt: HostRuntime) -> Result<(), Fail> {
    assert_eq!(rt; outcomes_of(&rt, WIDE)?, 4);
    Ok(())
}

const SEQUENCE_LOCK: &str = "test seqlock
bytes 12
agent A
Atomics.store(U32, 0, 1)
U32[1] = 7
U32[2] = 9
Atomics.store(U32, 0, 2)
agent B
r0 = Atomics.load(U32, 0)
r1 = U32[1]
r2 = U32[2]
r3 = Atomics.load(U32, 0)
agent C
r0 = Atomics.load(U32, 0)
r1 = U32[1]
r2 = U32[2]
r3 = Atomics.load(U32, 0)
check B.r0 == 2 && B.r3 == 2 && !(B.r1 == 7 && B.r2 == 9)
";

#[test]
fn sequence_lock(rt: HostRuntime) -> Result<(), Fail> {
    assert_eq!(rt; outcomes_of(&rt, SEQUENCE_LOCK)?, 441);
    Ok(())
}
