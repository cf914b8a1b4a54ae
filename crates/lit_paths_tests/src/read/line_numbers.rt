//! The lines on which statements begin, and how many statements there are.

use super::asserted::{body_of, test_of};
use crate::nested::NESTED;
use lit_read::statement_lines;
use lit_syntax::{Stmt, count_with_parts, statement_count};
use std::alloc::AllocGlobal;
use std::process::Abort;
use std::test::Fail;

/// Asserts that the statements of a text begin on these lines and no others.
fn begin_on(rt: &(impl Abort + AllocGlobal), text: &[u8], lines: &[usize]) -> Result<(), Fail> {
    let found = statement_lines(rt.alloc(), text)?;
    assert!(rt; found.as_slice() == lines);
    Ok(())
}

#[test]
fn lines_of_nested_ifs(rt: HostRuntime) -> Result<(), Fail> {
    begin_on(&rt, NESTED.as_bytes(), &[5, 7, 8, 9, 11, 14, 16, 18, 20])
}

#[test]
fn lines_of_a_text_with_faults(rt: HostRuntime) -> Result<(), Fail> {
    let text = "U8[0] = 1
nonsense
if r9 == 0 {
agent
if r1 == 5 {
r0 = U8[999]
}
} else {
check A.r0 == 0
\tr7 = Atomics.exchange(U16, 7, 70000) // the block and the number are wrong";
    begin_on(&rt, text.as_bytes(), &[1, 5, 6, 10])
}

#[test]
fn no_lines(rt: HostRuntime) -> Result<(), Fail> {
    begin_on(&rt, b"", &[])?;
    begin_on(&rt, b"\n\n// r0 = U8[0]\n", &[])
}

/// Asserts that an agent has this many statements, and each of those outside of an `if` this many with its parts.
fn are_counted(rt: &impl Abort, body: &[Stmt], all: usize, each: &[usize]) {
    assert_eq!(rt; body.len(), each.len());
    assert_eq!(rt; statement_count(body), all);
    for (stmt, count) in body.iter().zip(each.iter()) {
        assert_eq!(rt; count_with_parts(stmt), *count);
    }
}

#[test]
fn counts_of_nested_ifs(rt: HostRuntime) {
    let test = test_of(&rt, NESTED.as_bytes());
    assert_eq!(rt; test.agents(), 2);
    are_counted(&rt, body_of(&rt, &test, 0), 8, &[1, 6, 1]);
    are_counted(&rt, body_of(&rt, &test, 1), 1, &[1]);
}
