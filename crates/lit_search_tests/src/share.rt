//! `lit_share`: searches and quick searches by several workers.

use lit_desk::{Class2, Desk, Totals};
use lit_paths::{Plan, plan};
use lit_read::read;
use lit_search::Found;
use lit_share::{OpenGate, Quick, hunt, quick, search, work};
use lit_test_texts::{EQUAL_STORES, INDEPENDENT_READS, LOAD_BUFFERING, STORE_BUFFERING};
use std::alloc::AllocGlobal;
use std::process::Abort;
use std::test::Fail;
use std::thread::Threads;

mod callers;
mod gates;
mod looking;
mod many_pieces;

/// The report of all choices of a plan by three workers, a choice a piece.
fn found_by_three(
    rt: &(impl Threads + Sync + AllocGlobal),
    plan: &Plan<'_>,
) -> Result<Found, Fail> {
    let passes = vec![in rt.alloc(); (), (), ()]?;
    Ok(search(rt, rt.alloc(), plan, 1, &OpenGate, passes)?)
}

/// The answer of a quick search by three workers, seven choices a piece.
fn quick_by_three(
    rt: &(impl Threads + Sync + AllocGlobal),
    plan: &Plan<'_>,
) -> Result<Quick, Fail> {
    let passes = vec![in rt.alloc(); (), (), ()]?;
    Ok(quick(rt, rt.alloc(), plan, 7, &OpenGate, passes)?)
}

#[test]
fn independent_reads_by_three_workers(rt: HostRuntime) -> Result<(), Fail> {
    let test = read(rt.alloc(), INDEPENDENT_READS.as_bytes())?;
    let plan = plan(rt.alloc(), &test)?;
    assert_eq!(rt; plan.total(), 16);
    let found = found_by_three(&rt, &plan)?;
    assert_eq!(rt; found.len(), 15);
    assert_eq!(rt; found.outcome(0), [0, 0, 0, 0].as_slice());
    let quick = quick_by_three(&rt, &plan)?;
    assert!(rt; quick.met.is_none());
    let Some(unmet) = quick.unmet else {
        panic!(rt; "an outcome does not meet the condition")
    };
    assert_eq!(rt; unmet.choice, 0);
    assert_eq!(rt; unmet.order.as_slice(), [0, 1, 4, 5, 6, 3, 7, 2].as_slice());
    Ok(())
}

/// What is found is the outcome before the twins, and theirs by the first of them.
fn assert_all_twins(rt: &impl Abort, found: &Found) {
    assert_eq!(rt; found.len(), 2);
    assert_eq!(rt; found.outcome(0), [0].as_slice());
    assert_eq!(rt; found.example(0).choice, 0);
    assert_eq!(rt; found.outcome(1), [1].as_slice());
    assert_eq!(rt; found.example(1).choice, 1);
    assert_eq!(rt; found.example(1).order.as_slice(), [0, 1, 2, 3].as_slice());
}

#[test]
fn twins_by_three_workers(rt: HostRuntime) -> Result<(), Fail> {
    let test = read(rt.alloc(), EQUAL_STORES.as_bytes())?;
    let plan = plan(rt.alloc(), &test)?;
    assert_eq!(rt; plan.total(), 3);
    let found = found_by_three(&rt, &plan)?;
    assert_all_twins(&rt, &found);
    Ok(())
}

/// What one call of `hunt` tells at a desk of its own, a choice a piece.
fn hunted(rt: &(impl Abort + AllocGlobal), plan: &Plan<'_>) -> Result<Totals, Fail> {
    let (desk, mut places) = Desk::open(rt.alloc(), plan.total().div_ceil(1), 1)?;
    let Some(place) = places.pop() else {
        panic!(rt; "the desk has a place")
    };
    let place = hunt(plan, 1, &desk, place, &OpenGate, (), 0);
    places.push(place)?;
    Ok(desk.close(places))
}

#[test]
fn one_hunt_of_load_buffering(rt: HostRuntime) -> Result<(), Fail> {
    let test = read(rt.alloc(), LOAD_BUFFERING.as_bytes())?;
    let plan = plan(rt.alloc(), &test)?;
    assert_eq!(rt; plan.total(), 9);
    let totals = hunted(&rt, &plan)?;
    assert_eq!(rt; totals.drawn, 9);
    assert_eq!(rt; totals.met, Some(3));
    assert_eq!(rt; totals.unmet, Some(8));
    Ok(())
}

/// What one call of `work` finds at a place that has drawn the first piece before, two choices a piece. The place draws no
/// more, and nothing was told there.
fn found_behind_a_draw(
    rt: &(impl Abort + AllocGlobal),
    plan: &Plan<'_>,
) -> Result<(Found, Totals), Fail> {
    let (desk, mut places) = Desk::open(rt.alloc(), plan.total().div_ceil(2), 1)?;
    let Some(mut place) = places.pop() else {
        panic!(rt; "the desk has a place")
    };
    assert_eq!(rt; desk.draw(&mut place), Some(0));
    let (mut place, found) = work(rt.alloc(), plan, 2, &desk, place, &OpenGate, (), 0);
    let found = found?;
    assert_eq!(rt; desk.draw(&mut place), None);
    assert_eq!(rt; desk.look(&mut place, Class2::Met), None);
    places.push(place)?;
    Ok((found, desk.close(places)))
}

#[test]
fn work_at_a_place_that_has_drawn(rt: HostRuntime) -> Result<(), Fail> {
    let test = read(rt.alloc(), STORE_BUFFERING.as_bytes())?;
    let plan = plan(rt.alloc(), &test)?;
    assert_eq!(rt; plan.total(), 4);
    let (found, totals) = found_behind_a_draw(&rt, &plan)?;
    assert_eq!(rt; found.len(), 2);
    assert_eq!(rt; found.example(0).choice, 2);
    assert_eq!(rt; found.example(1).choice, 3);
    assert_eq!(rt; totals.drawn, 2);
    Ok(())
}
