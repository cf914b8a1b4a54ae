//! The statements that make the events of a path.

use crate::nested::NESTED;
use crate::planned::{entered, plan_of, test_of};
use lit_paths::Combination;
use lit_test_texts::STORE_BUFFERING;
use std::alloc::AllocGlobal;
use std::process::Abort;

/// Asserts that these statements make the events of an agent.
fn makes(rt: &impl Abort, combination: &Combination<'_>, agent: usize, statements: &[usize]) {
    assert!(rt; agent < combination.test().agents());
    let found = combination.statements(agent);
    assert!(rt; found.as_slice() == statements);
}

/// Asserts that these statements make the events of an agent in a combination, by the numbers of both.
fn are_made(
    rt: &(impl Abort + AllocGlobal),
    text: &str,
    combination: usize,
    agent: usize,
    statements: &[usize],
) {
    let test = test_of(rt, text.as_bytes());
    let plan = plan_of(rt, &test);
    makes(rt, &entered(rt, &plan, combination), agent, statements);
}

#[test]
fn statements_without_branch(rt: HostRuntime) {
    are_made(&rt, STORE_BUFFERING, 0, 1, &[0, 1])
}

#[test]
fn statements_of_then_parts(rt: HostRuntime) {
    are_made(&rt, NESTED, 0, 0, &[0, 2, 7]);
    are_made(&rt, NESTED, 1, 0, &[0, 2, 4, 7]);
    are_made(&rt, NESTED, 3, 0, &[0, 2, 7]);
    are_made(&rt, NESTED, 4, 0, &[0, 2, 4, 7])
}

#[test]
fn statements_of_else_parts(rt: HostRuntime) {
    are_made(&rt, NESTED, 2, 0, &[0, 5, 6, 7]);
    are_made(&rt, NESTED, 5, 0, &[0, 5, 6, 7]);
    are_made(&rt, NESTED, 5, 1, &[0])
}
