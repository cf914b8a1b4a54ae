//! `lit_solve`: least solutions of the boxes of a range of choices, and the numbers of choices.

use lit_paths::{BYTE_READ_LIMIT, Plan, plan};
use lit_read::read;
use lit_rel::EventSet;
use lit_solve::{Boxes, Domains, Goal, Problem, exists, least, number_of};
use lit_test_texts::STORE_BUFFERING;
use lit_valid::Class;
use std::alloc::AllocGlobal;
use std::process::Abort;
use std::test::Fail;

const LOADS_BEFORE_STORES: &str = "test lb
bytes 2
agent A
r0 = U8[0]
U8[1] = 1
agent B
r0 = U8[1]
U8[0] = 1
check A.r0 == 1 && B.r0 == 1
";

/// The sources of a completion, and its least memory-order.
type Told<'a> = (&'a [u8], &'a [u8]);

/// That these are the least solutions of the boxes that have one, in the order of the boxes, on the first combination.
fn assert_told(
    rt: &impl Abort,
    plan: &Plan<'_>,
    (from, to): (u64, u64),
    goal: Goal,
    wanted: &[Told<'_>],
) {
    // For the prover: the plan's test is one that a text can say, and has a combination 0.
    let _test = plan.test();
    let _combinations = plan.combinations();
    let problem = Problem::open(plan, 0);
    let combination = problem.combination();
    assert!(rt; from < to && from < combination.end() && combination.first() < to);
    let boxes = Boxes::of_range(combination, from, to);
    let mut told = 0;
    for i in 0..boxes.len() {
        let mut domains: Domains = [EventSet::new(); BYTE_READ_LIMIT];
        boxes.put(i, &mut domains);
        let found = least(&problem, &domains, goal);
        assert_eq!(rt;
            exists(&problem, &domains, goal),
            found.is_some(),
            "box {i}"
        );
        if let Some(one) = found {
            assert!(rt; told < wanted.len(), "box {i}");
            let (sources, order) = wanted[told];
            assert_eq!(rt; one.sources.as_slice(), sources, "box {i}");
            assert_eq!(rt; one.order.as_slice(), order, "box {i}");
            told += 1;
        }
    }
    assert_eq!(rt; told, wanted.len());
}

/// The same, for a test given as a text in canonical form.
fn assert_all(
    rt: &(impl Abort + AllocGlobal),
    text: &str,
    range: (u64, u64),
    goal: Goal,
    wanted: &[Told<'_>],
) -> Result<(), Fail> {
    let test = read(rt.alloc(), text.as_bytes())?;
    let plan = plan(rt.alloc(), &test)?;
    assert_told(rt, &plan, range, goal, wanted);
    Ok(())
}

/// That the choices of the first combination have these sources, and their numbers by them.
fn assert_numbers(rt: &impl Abort, plan: &Plan<'_>, wanted: &[&[u8]]) {
    // For the prover: the plan has a combination 0.
    let _combinations = plan.combinations();
    let combination = plan.enter(0);
    assert_eq!(rt; combination.end(), wanted.len() as u64);
    for n in combination.first()..combination.end() {
        let sources = combination.sources(n);
        assert_eq!(rt; sources.as_slice(), wanted[n as usize], "choice {n}");
        assert_eq!(rt; number_of(&combination, sources.as_slice()), n);
    }
}

/// Each agent stores to a byte of its own and loads that of the other, all sequentially consistent: one of them reads 1.
#[test]
fn atomic_store_buffering_never_reads_both_zeros(rt: HostRuntime) -> Result<(), Fail> {
    let first: &[Told<'_>] = &[(&[1, 2], &[0, 1, 2, 3, 4, 5])];
    assert_all(&rt, STORE_BUFFERING, (0, 4), Goal::Any, first)?;
    assert_all(
        &rt,
        STORE_BUFFERING,
        (0, 4),
        Goal::OfClass(Class::Unmet),
        first,
    )?;
    assert_all(&rt, STORE_BUFFERING, (0, 4), Goal::OfClass(Class::Met), &[])?;
    assert_all(&rt, STORE_BUFFERING, (0, 4), Goal::Race, &[])
}

/// Each agent loads a plain byte that the other stores to afterwards: both may read 1. A load that reads from the other's store
/// is in a data race with it.
#[test]
fn plain_loads_may_read_what_is_stored_later(rt: HostRuntime) -> Result<(), Fail> {
    let order: &[u8] = &[0, 1, 2, 3, 4, 5];
    let text = LOADS_BEFORE_STORES;
    assert_all(&rt, text, (0, 4), Goal::Any, &[(&[0, 1], order)])?;
    assert_all(
        &rt,
        text,
        (0, 4),
        Goal::OfClass(Class::Met),
        &[(&[5, 3], order)],
    )?;
    assert_all(
        &rt,
        text,
        (0, 4),
        Goal::OfClass(Class::Unmet),
        &[(&[0, 1], order)],
    )?;
    assert_all(&rt, text, (0, 4), Goal::Race, &[(&[0, 3], order)])
}

/// The choices 1 and 2 have no first source in common, so that each is a box of its own.
#[test]
fn a_range_has_the_least_of_each_of_its_boxes(rt: HostRuntime) -> Result<(), Fail> {
    let order: &[u8] = &[0, 1, 2, 3, 4, 5];
    let both: &[Told<'_>] = &[(&[0, 3], order), (&[5, 1], order)];
    assert_all(&rt, LOADS_BEFORE_STORES, (1, 3), Goal::Any, both)?;
    assert_all(
        &rt,
        LOADS_BEFORE_STORES,
        (1, 3),
        Goal::OfClass(Class::Met),
        &[],
    )
}

#[test]
fn sources_have_the_number_of_their_choice(rt: HostRuntime) -> Result<(), Fail> {
    let test = read(rt.alloc(), LOADS_BEFORE_STORES.as_bytes())?;
    let plan = plan(rt.alloc(), &test)?;
    assert_numbers(&rt, &plan, &[&[0, 1], &[0, 3], &[5, 1], &[5, 3]]);
    Ok(())
}
