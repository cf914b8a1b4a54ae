//! The choices of a test, by their numbers.

use crate::planned::{has_total, plan_of, test_of};
use lit_paths::Plan;
use lit_test_texts::{BOTH_EXCHANGE_FOR_ONE, LOAD_BUFFERING, STORE_BUFFERING, TYPED_READ};
use std::alloc::AllocGlobal;
use std::process::Abort;

/// A choice by its number, the combination that it is of, and its sources.
type Expected = (u64, usize, &'static [u8]);

/// Asserts that a choice is of this combination, and has these sources.
fn assert_choice(rt: &impl Abort, plan: &Plan<'_>, number: u64, combination: usize, wanted: &[u8]) {
    assert!(rt; number < plan.total());
    assert_eq!(rt; plan.combination(number), combination);
    assert!(rt; plan.sources(number).as_slice() == wanted);
}

/// Asserts that a test has this number of choices, and these among them.
fn assert_choices(rt: &(impl Abort + AllocGlobal), text: &str, total: u64, rows: &[Expected]) {
    let test = test_of(rt, text.as_bytes());
    let plan = plan_of(rt, &test);
    has_total(rt, &plan, total);
    for (number, combination, wanted) in rows {
        assert_choice(rt, &plan, *number, *combination, wanted);
    }
}

#[test]
fn choices_of_one_combination(rt: HostRuntime) {
    let rows: [Expected; 4] = [
        (0, 0, &[1, 0]),
        (1, 0, &[1, 2]),
        (2, 0, &[4, 0]),
        (3, 0, &[4, 2]),
    ];
    assert_choices(&rt, STORE_BUFFERING, 4, &rows);
    let rows: [Expected; 5] = [
        (0, 0, &[0, 1]),
        (2, 0, &[0, 3]),
        (3, 0, &[2, 1]),
        (5, 0, &[2, 3]),
        (6, 0, &[3, 1]),
    ];
    assert_choices(&rt, TYPED_READ, 9, &rows)
}

#[test]
fn choices_of_several_combinations(rt: HostRuntime) {
    let rows: [Expected; 2] = [(3, 0, &[5, 3]), (8, 3, &[0, 1])];
    assert_choices(&rt, LOAD_BUFFERING, 9, &rows);
    let rows: [Expected; 2] = [(5, 1, &[0, 1]), (7, 2, &[2, 0])];
    assert_choices(&rt, BOTH_EXCHANGE_FOR_ONE, 9, &rows)
}

#[test]
fn many_choices(rt: HostRuntime) {
    let text = "test many
bytes 1
agent A
U8[0] = 1
U8[0] = 2
U8[0] = 3
U8[0] = 4
agent B
r0 = U8[0]
r1 = U8[0]
r2 = U8[0]
r3 = U8[0]
r4 = U8[0]
r5 = U8[0]
r6 = U8[0]
r7 = U8[0]
check B.r0 == 4
";
    let last: Expected = (390_624, 0, &[4; 8]);
    assert_choices(&rt, text, 390_625, &[last])
}
