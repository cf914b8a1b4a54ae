//! Texts that are refused, each with its printed line.

use super::calls::{prints, writes};
use super::data::reports::Reported;
use lit_paths::{ACCESS_LIMIT, COMBINATION_LIMIT};
use lit_syntax::{AGENT_LIMIT, BLOCK_LIMIT, TEXT_LIMIT};
use std::alloc::AllocGlobal;
use std::process::Abort;
use std::rt::Files;
use std::test::Fail;
use std::thread::Threads;

/// In the order of the faults' numbers.
const REFUSALS: [Reported; 19] = [
    // comparison without value
    (
        "test sb
bytes 2
agent A
Atomics.store(U8, 0, 1)
r0 = Atomics.load(U8, 1)
agent B
Atomics.store(U8, 1, 1)
r0 = Atomics.load(U8, 0)
check A.r0 == 0 && B.r0 ==\x20
",
        "refused 3 syntax line 9\n",
    ),
    // second test line
    (
        "test t
test u
bytes 4
",
        "refused 4 misplaced line 2\n",
    ),
    // block line without test
    ("bytes 4\n", "refused 4 misplaced line 1\n"),
    // second block line
    (
        "test t
bytes 4
bytes 4
",
        "refused 4 misplaced line 3\n",
    ),
    // agent without block
    ("test t\nagent A\n", "refused 4 misplaced line 2\n"),
    // statement without agent
    (
        "test t
bytes 4
r0 = U8[0]
",
        "refused 4 misplaced line 3\n",
    ),
    // check without agent
    (
        "test t
bytes 4
check A.r0 == 0
",
        "refused 4 misplaced line 3\n",
    ),
    // statement after check
    (
        "test t
bytes 4
agent A
r0 = U8[0]
check A.r0 == 0
U8[0] = 1
",
        "refused 4 misplaced line 6\n",
    ),
    // second check
    (
        "test t
bytes 4
agent A
r0 = U8[0]
check A.r0 == 0
check A.r0 == 0
",
        "refused 4 misplaced line 6\n",
    ),
    // agent after check
    (
        "test t
bytes 4
agent A
r0 = U8[0]
check A.r0 == 0
agent B
",
        "refused 4 misplaced line 6\n",
    ),
    // block of no byte
    (
        "test t
bytes 0
agent A
r0 = U8[0]
check A.r0 == 0
",
        "refused 5 block_size line 2\n",
    ),
    // agent twice
    (
        "test t
bytes 4
agent A
agent A
check A.r0 == 0
",
        "refused 7 duplicate_agent line 4\n",
    ),
    // byte of 256
    (
        "test t
bytes 4
agent A
U8[0] = 256
check A.r0 == 0
",
        "refused 8 literal_range line 4\n",
    ),
    // large byte past the block
    (
        "test t
bytes 4
agent A
U8[9] = 300
check A.r0 == 0
",
        "refused 8 literal_range line 4\n",
    ),
    // compared number of 33 bits
    (
        "test t
bytes 4
agent A
r0 = U8[0]
check A.r0 == 4294967296
",
        "refused 8 literal_range line 5\n",
    ),
    // access past the block
    (
        "test t
bytes 4
agent A
U8[4] = 0
check A.r0 == 0
",
        "refused 9 out_of_block line 4\n",
    ),
    // register never written
    (
        "test t
bytes 4
agent A
r1 = U8[0]
check A.r0 == 0
",
        "refused 10 unknown_name line 5\n",
    ),
    // no check
    (
        "test sb
bytes 2
agent A
Atomics.store(U8, 0, 1)
r0 = Atomics.load(U8, 1)
agent B
Atomics.store(U8, 1, 1)
r0 = Atomics.load(U8, 0)
",
        "refused 12 missing_part line 8\n",
    ),
    // empty text
    ("", "refused 12 missing_part line 1\n"),
];

#[test]
fn run_refuses(rt: HostRuntime) -> Result<(), Fail> {
    for (text, line) in REFUSALS {
        writes(&rt, text.as_bytes(), line.as_bytes())?;
    }
    Ok(())
}

#[test]
fn program_refuses(rt: HostRuntime) -> Result<(), Fail> {
    for (text, line) in REFUSALS {
        prints(&rt, text.as_bytes(), line.as_bytes(), 1)?;
    }
    Ok(())
}

#[test]
fn one_byte_too_many(rt: HostRuntime) -> Result<(), Fail> {
    let text = Vec::from_elem(rt.alloc(), b' ', TEXT_LIMIT + 1)?;
    writes(&rt, &text, b"refused 1 too_long line 1\n")?;
    prints(&rt, &text, b"refused 1 too_long line 1\n", 1)
}

#[test]
fn byte_above_ascii(rt: HostRuntime) -> Result<(), Fail> {
    let text = b"test t
bytes 4
agent A
r0 = U8[0] //\xe9
check A.r0 == 0
";
    writes(&rt, text, b"refused 2 not_ascii line 4\n")?;
    prints(&rt, text, b"refused 2 not_ascii line 4\n", 1)
}

#[test]
fn one_agent_too_many(rt: HostRuntime) -> Result<(), Fail> {
    let alloc = rt.alloc();
    let mut text = Vec::from_slice(alloc, b"test t\nbytes 4\n")?;
    for agent in 0..AGENT_LIMIT + 1 {
        text.extend_from_slice(format!(in alloc; "agent A{agent}\n")?.as_bytes())?;
    }
    let line = AGENT_LIMIT + 3;
    let printed = format!(in alloc; "refused 6 too_many_agents line {line}\n")?;
    writes(&rt, &text, printed.as_bytes())?;
    prints(&rt, &text, printed.as_bytes(), 1)
}

#[test]
fn larger_block(rt: HostRuntime) -> Result<(), Fail> {
    let bytes = BLOCK_LIMIT + 1;
    let text = format!(in rt.alloc();
        "test t
bytes {bytes}
agent A
r0 = U8[0]
check A.r0 == 0
"
    )?;
    prints(&rt, text.as_bytes(), b"refused 5 block_size line 2\n", 1)
}

/// An element past the largest block that a text can name.
#[test]
fn past_the_largest_block(rt: HostRuntime) -> Result<(), Fail> {
    let element = BLOCK_LIMIT / 4;
    let text = format!(in rt.alloc();
        "test t
bytes {BLOCK_LIMIT}
agent A
U32[{element}] = 1
r0 = U8[0]
check A.r0 == 0
"
    )?;
    prints(&rt, text.as_bytes(), b"refused 9 out_of_block line 4\n", 1)
}

/// That a text, which repeats a line many times, is refused with this line.
fn is_refused(
    rt: &(impl Threads + Sync + Files + Abort + AllocGlobal),
    beginning: &str,
    line: &str,
    count: usize,
    printed: &str,
) -> Result<(), Fail> {
    let mut text = Vec::from_slice(rt.alloc(), beginning.as_bytes())?;
    for _ in 0..count {
        text.extend_from_slice(line.as_bytes())?;
    }
    text.extend_from_slice(b"check A.r0 == 0\n")?;
    writes(rt, &text, printed.as_bytes())?;
    prints(rt, &text, printed.as_bytes(), 1)
}

#[test]
fn too_much(rt: HostRuntime) -> Result<(), Fail> {
    let beginning = "test t
bytes 1
agent A
";
    let printed = "refused 14 too_many_events\n";
    is_refused(&rt, beginning, "r0 = U8[0]\n", ACCESS_LIMIT + 1, printed)?;
    let beginning = "test t
bytes 1
agent A
r0 = U8[0]
";
    let printed = "refused 13 too_many_paths\n";
    let branches = COMBINATION_LIMIT.trailing_zeros() as usize + 1;
    is_refused(&rt, beginning, "if r0 == 0 {\n}\n", branches, printed)?;
    let beginning = "test t
bytes 4
agent A
U32[0] = 1
U32[0] = 2
";
    let printed = "refused 15 too_many_choices\n";
    is_refused(&rt, beginning, "r0 = U32[0]\n", 10, printed)
}
