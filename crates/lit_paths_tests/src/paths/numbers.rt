//! The candidates of each byte read, and the numbers of the choices that they and a combination lead to.

use crate::planned::{entered, has_combinations, plan_of, test_of};
use lit_paths::{Combination, Plan};
use lit_test_texts::{BOTH_EXCHANGE_FOR_ONE, LOAD_BUFFERING, TYPED_READ};
use std::alloc::AllocGlobal;
use std::process::Abort;

/// The byte read of a combination at a place: its candidates, and how many choices each of them leads to.
type Expected = (usize, usize, &'static [u8], u64);

/// Asserts that the byte read at a place has these candidates, and that each of them leads to this number of choices.
fn assert_read(
    rt: &impl Abort,
    combination: &Combination<'_>,
    place: usize,
    candidates: &[u8],
    ways: u64,
) {
    assert!(rt; place < combination.byte_reads().len());
    assert!(rt; combination.candidates(place) == candidates);
    assert_eq!(rt; combination.ways_after(place), ways);
}

/// Asserts that a test has this number of combinations, and these byte reads.
fn assert_reads(
    rt: &(impl Abort + AllocGlobal),
    text: &str,
    combinations: usize,
    rows: &[Expected],
) {
    let test = test_of(rt, text.as_bytes());
    let plan = plan_of(rt, &test);
    has_combinations(rt, &plan, combinations);
    for (number, place, candidates, ways) in rows {
        let combination = entered(rt, &plan, *number);
        assert_read(rt, &combination, *place, candidates, *ways);
    }
}

const LOAD_BUFFERING_READS: [Expected; 8] = [
    (0, 0, &[0, 5], 2),
    (0, 1, &[1, 3], 1),
    (1, 0, &[0], 2),
    (1, 1, &[1, 3], 1),
    (2, 0, &[0, 4], 1),
    (2, 1, &[1], 1),
    (3, 0, &[0], 1),
    (3, 1, &[1], 1),
];

const EXCHANGES_READS: [Expected; 8] = [
    (0, 0, &[0, 2], 2),
    (0, 1, &[0, 1], 1),
    (1, 0, &[0], 2),
    (1, 1, &[0, 1], 1),
    (2, 0, &[0, 2], 1),
    (2, 1, &[0], 1),
    (3, 0, &[0], 1),
    (3, 1, &[0], 1),
];

#[test]
fn candidates_with_their_choices(rt: HostRuntime) {
    assert_reads(&rt, LOAD_BUFFERING, 4, &LOAD_BUFFERING_READS);
    assert_reads(&rt, BOTH_EXCHANGE_FOR_ONE, 4, &EXCHANGES_READS);
    let typed: [Expected; 2] = [(0, 0, &[0, 2, 3], 3), (0, 1, &[1, 2, 3], 1)];
    assert_reads(&rt, TYPED_READ, 1, &typed)
}

/// Asserts that the choices of a combination begin with this number and end before that one.
pub(super) fn has_choices(rt: &impl Abort, combination: &Combination<'_>, first: u64, end: u64) {
    assert_eq!(rt; combination.first(), first);
    assert_eq!(rt; combination.end(), end);
}

/// Asserts that a combination has this number of events, and of byte reads.
fn has_sizes(rt: &impl Abort, combination: &Combination<'_>, events: usize, reads: usize) {
    assert_eq!(rt; combination.events().len(), events);
    assert_eq!(rt; combination.byte_reads().len(), reads);
}

/// Puts a combination, by its number, in the place of another.
fn replace<'p>(
    rt: &impl Abort,
    plan: &'p Plan<'_>,
    combination: &mut Combination<'p>,
    number: usize,
) {
    assert!(rt; number < plan.combinations());
    plan.reenter(combination, number);
}

#[test]
fn load_buffering_combinations(rt: HostRuntime) {
    let test = test_of(&rt, LOAD_BUFFERING.as_bytes());
    let plan = plan_of(&rt, &test);
    has_combinations(&rt, &plan, 4);
    for (c, ends) in [(0, 4), (4, 6), (6, 8), (8, 9)].iter().enumerate() {
        has_choices(&rt, &entered(&rt, &plan, c), ends.0, ends.1);
    }
}

#[test]
fn one_combination_in_place_of_another(rt: HostRuntime) {
    let test = test_of(&rt, LOAD_BUFFERING.as_bytes());
    let plan = plan_of(&rt, &test);
    has_combinations(&rt, &plan, 4);
    let mut combination = entered(&rt, &plan, 3);
    replace(&rt, &plan, &mut combination, 0);
    has_sizes(&rt, &combination, 6, 2);
    has_choices(&rt, &combination, 0, 4);
    replace(&rt, &plan, &mut combination, 3);
    has_sizes(&rt, &combination, 4, 2);
    has_choices(&rt, &combination, 8, 9);
}
