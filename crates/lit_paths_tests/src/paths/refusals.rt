//! Tests that a plan refuses, and tests at the limits.

use crate::planned::{has_combinations, has_total, test_of};
use lit_paths::{ACCESS_LIMIT, CHOICE_LIMIT, COMBINATION_LIMIT, PlanFault, plan};
use std::alloc::{AllocError, AllocGlobal, Global};
use std::process::Abort;
use std::test::Fail;

/// A text with a beginning, a line repeated `count` times, and an end.
fn repeated(
    alloc: Global,
    head: &[u8],
    count: usize,
    line: &[u8],
    tail: &[u8],
) -> Result<Vec<u8>, AllocError> {
    let mut text = Vec::new(alloc);
    text.extend_from_slice(head)?;
    for _ in 0..count {
        text.extend_from_slice(line)?;
    }
    text.extend_from_slice(tail)?;
    Ok(text)
}

/// Asserts that a text's test has this number of combinations and choices, or this refusal.
fn assert_planned(
    rt: &(impl Abort + AllocGlobal),
    text: &[u8],
    wanted: Result<(usize, u64), PlanFault>,
) {
    let test = test_of(rt, text);
    match (plan(rt.alloc(), &test), wanted) {
        (Ok(plan), Ok((combinations, total))) => {
            has_combinations(rt, &plan, combinations);
            has_total(rt, &plan, total);
        }
        (Err(fault), Err(wanted)) => assert!(rt; fault == wanted),
        _ => panic!(rt; "a plan or a fault"),
    }
}

/// Each read of the four bytes has four candidates a byte, so 2^8 sources.
#[test]
fn many_choices(rt: HostRuntime) -> Result<(), Fail> {
    let alloc = rt.alloc();
    let head = b"test many
bytes 4
agent A
U32[0] = 1
U32[0] = 2
U32[0] = 3
agent B
";
    let (line, check) = (b"r0 = U32[0]\n", b"check B.r0 == 0\n");
    let reads = CHOICE_LIMIT.trailing_zeros() as usize / 8;
    let fewer = repeated(alloc, head, reads.saturating_sub(1), line, check)?;
    assert_planned(&rt, &fewer, Ok((1, CHOICE_LIMIT / 256)));
    let most = repeated(alloc, head, reads, line, check)?;
    assert_planned(&rt, &most, Ok((1, CHOICE_LIMIT)));
    for count in [reads + 1, reads + 3] {
        let more = repeated(alloc, head, count, line, check)?;
        assert_planned(&rt, &more, Err(PlanFault::TooManyChoices));
    }
    Ok(())
}

#[test]
fn many_paths(rt: HostRuntime) -> Result<(), Fail> {
    let alloc = rt.alloc();
    let head = b"test ifs
bytes 1
agent A
r0 = U8[0]
";
    let (line, check) = (b"if r0 == 0 {\n}\n", b"check A.r0 == 0\n");
    let branches = COMBINATION_LIMIT.trailing_zeros() as usize;
    let most = repeated(alloc, head, branches, line, check)?;
    assert_planned(
        &rt,
        &most,
        Ok((COMBINATION_LIMIT, COMBINATION_LIMIT as u64)),
    );
    for count in [branches + 1, 64] {
        let more = repeated(alloc, head, count, line, check)?;
        assert_planned(&rt, &more, Err(PlanFault::TooManyPaths));
    }
    Ok(())
}

#[test]
fn many_events(rt: HostRuntime) -> Result<(), Fail> {
    let alloc = rt.alloc();
    let head = b"test long
bytes 1
agent A
";
    let (line, check) = (b"r0 = U8[0]\n", b"check A.r0 == 0\n");
    for count in [ACCESS_LIMIT - 1, ACCESS_LIMIT] {
        let few = repeated(alloc, head, count, line, check)?;
        assert_planned(&rt, &few, Ok((1, 1)));
    }
    for count in [ACCESS_LIMIT + 1, 4_000] {
        let more = repeated(alloc, head, count, line, check)?;
        assert_planned(&rt, &more, Err(PlanFault::TooManyEvents));
    }
    Ok(())
}

/// With one branch too many there are too many paths; with as many loads as there may be accesses behind the first one,
/// too many events; with three stores and seven loads of all bytes there would be too many choices.
#[test]
fn first_refusal_decides(rt: HostRuntime) -> Result<(), Fail> {
    let alloc = rt.alloc();
    let start = b"test both
bytes 4
agent A
r0 = U8[0]
";
    let (line, check) = (b"r1 = U32[0]\n", b"check A.r0 == 0\n");
    let branches = COMBINATION_LIMIT.trailing_zeros() as usize + 1;
    let ifs = repeated(alloc, start, branches, b"if r0 == 0 {\n}\n", b"")?;
    let events = repeated(alloc, &ifs, ACCESS_LIMIT, line, check)?;
    assert_planned(&rt, &events, Err(PlanFault::TooManyEvents));
    let stores = repeated(alloc, &ifs, 3, b"U32[0] = 1\n", b"")?;
    let choices = repeated(alloc, &stores, 7, line, check)?;
    assert_planned(&rt, &choices, Err(PlanFault::TooManyPaths));
    Ok(())
}
