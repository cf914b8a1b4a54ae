//! The guards of paths, and which reads their registers hold at the end.

use crate::planned::{entered, has_combinations, plan_of, test_of};
use lit_paths::{Combination, Path, Plan, Tested};
use lit_test_texts::{BOTH_EXCHANGE_FOR_ONE, LOAD_BUFFERING, STORE_BUFFERING};
use std::alloc::AllocGlobal;
use std::process::Abort;

/// The path of an agent in a combination, which the plan has to have.
fn path_of<'p>(rt: &impl Abort, plan: &'p Plan<'_>, combination: usize, agent: usize) -> &'p Path {
    assert!(rt; combination < plan.combinations() && agent < plan.test().agents());
    plan.path(combination, agent)
}

/// Asserts that a register holds the read at this place at the end of a path.
fn holds(rt: &impl Abort, path: &Path, register: u8, place: Option<u8>) {
    assert!(rt; register < 8 && path.last(register) == place);
}

/// Asserts that a path has this number of events and exactly these guards.
fn has_guards(rt: &impl Abort, path: &Path, events: usize, guards: &[Tested]) {
    assert_eq!(rt; path.events().len(), events);
    assert!(rt; path.tests() == guards);
}

/// Asserts that a test has this number of combinations, that the path of an agent in one of them, by the numbers of both,
/// has this number of events and exactly these guards, and that each of these registers holds the read at this place at the end.
fn assert_guards(
    rt: &(impl Abort + AllocGlobal),
    text: &str,
    combinations: usize,
    (combination, agent): (usize, usize),
    events: usize,
    guards: &[Tested],
    observed: &[(u8, Option<u8>)],
) {
    let test = test_of(rt, text.as_bytes());
    let plan = plan_of(rt, &test);
    has_combinations(rt, &plan, combinations);
    let path = path_of(rt, &plan, combination, agent);
    has_guards(rt, path, events, guards);
    for (register, place) in observed {
        holds(rt, path, *register, *place);
    }
}

/// A guard on the value read at a place.
fn of_place(place: u8, equal: bool, value: u32) -> Tested {
    Tested {
        on: Some(place),
        equal,
        value,
    }
}

#[test]
fn no_branch(rt: HostRuntime) {
    let observed = [(0, Some(1)), (1, None)];
    assert_guards(&rt, STORE_BUFFERING, 1, (0, 1), 2, &[], &observed)
}

#[test]
fn one_branch(rt: HostRuntime) {
    let observed = [(0, Some(0)), (1, None)];
    let stores = [of_place(0, true, 1)];
    assert_guards(&rt, LOAD_BUFFERING, 4, (1, 0), 2, &stores, &observed);
    let skips = [of_place(0, false, 1)];
    assert_guards(&rt, LOAD_BUFFERING, 4, (1, 1), 1, &skips, &observed)
}

#[test]
fn two_ifs_of_one_register(rt: HostRuntime) {
    let text = "test two
bytes 1
agent A
r0 = U8[0]
if r0 == 1 {
}
if r0 == 2 {
}
check A.r0 == 0
";
    let both = [of_place(0, true, 1), of_place(0, true, 2)];
    assert_guards(&rt, text, 4, (0, 0), 1, &both, &[(0, Some(0)), (1, None)]);
    let second = [of_place(0, false, 1), of_place(0, true, 2)];
    assert_guards(&rt, text, 4, (2, 0), 1, &second, &[])
}

#[test]
fn exchange_that_expects_zero(rt: HostRuntime) {
    let text = "test zero
bytes 2
agent A
r1 = U8[1]
r0 = Atomics.compareExchange(U8, 0, 0, 1)
check A.r0 == 0
";
    let observed = [(0, Some(1)), (1, Some(0))];
    assert_guards(&rt, text, 2, (0, 0), 2, &[of_place(1, true, 0)], &observed);
    assert_guards(&rt, text, 2, (1, 0), 2, &[of_place(1, false, 0)], &observed)
}

#[test]
fn one_if_twice(rt: HostRuntime) {
    let text = "test again
bytes 1
agent A
r0 = U8[0]
if r0 == 1 {
}
if r0 == 1 {
}
check A.r0 == 0
";
    let twice = [of_place(0, true, 1), of_place(0, true, 1)];
    assert_guards(&rt, text, 4, (0, 0), 1, &twice, &[])
}

#[test]
fn register_of_an_else_part(rt: HostRuntime) {
    let text = "test other
bytes 2
agent A
r0 = U8[0]
if r0 == 1 {
} else {
r1 = U8[1]
}
if r1 != 2 {
}
check A.r0 == 0
";
    let of_nothing = Tested {
        on: None,
        equal: false,
        value: 2,
    };
    let then_part = [of_place(0, true, 1), of_nothing];
    assert_guards(&rt, text, 4, (0, 0), 1, &then_part, &[(1, None)]);
    let else_part = [of_place(0, false, 1), of_place(1, true, 2)];
    assert_guards(&rt, text, 4, (3, 0), 2, &else_part, &[(1, Some(1))])
}

#[test]
fn two_exchanges(rt: HostRuntime) {
    let (text, observed) = (BOTH_EXCHANGE_FOR_ONE, [(0, Some(0))]);
    assert_guards(&rt, text, 4, (1, 0), 1, &[of_place(0, true, 0)], &observed);
    assert_guards(&rt, text, 4, (1, 1), 1, &[of_place(0, false, 0)], &observed)
}

/// Asserts that the second of two agents has one guard, and that each agent begins with the event after the ones before.
fn begins_with_one_event(rt: &impl Abort, combination: &Combination<'_>) {
    assert!(rt; combination.test().agents() == 2);
    assert!(rt; combination.path(1).tests() == [of_place(0, false, 0)].as_slice());
    assert!(rt; combination.first_event(0) == 1 && combination.first_event(1) == 2);
}

#[test]
fn paths_of_a_combination(rt: HostRuntime) {
    let test = test_of(&rt, BOTH_EXCHANGE_FOR_ONE.as_bytes());
    let plan = plan_of(&rt, &test);
    assert!(rt; plan.combinations() == 4);
    begins_with_one_event(&rt, &entered(&rt, &plan, 1));
}
