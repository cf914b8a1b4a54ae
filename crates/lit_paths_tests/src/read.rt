//! `lit_read`: texts that are tests, and texts that are refused.

use asserted::{body_of, both_of, has_body, has_head, is_comparison, test_of};
use lit_read::{ReadFault, ReadKind, read};
use lit_syntax::{AGENT_LIMIT, BLOCK_LIMIT, TEXT_LIMIT, View};
use lit_test_texts::STORE_BUFFERING;
use std::alloc::{AllocGlobal, Global};
use std::process::Abort;
use std::test::Fail;

mod asserted;
mod canonical;
mod language;
mod line_numbers;
mod long_canonical;

/// Asserts that a text is refused with this kind at this line.
fn refused(rt: &(impl Abort + AllocGlobal), text: &[u8], kind: ReadKind, line: usize) {
    match read(rt.alloc(), text) {
        Ok(_) => panic!(rt; "the text was taken"),
        Err(fault) => {
            assert!(rt; fault.line == line, "line {}", fault.line);
            assert!(rt; fault.kind == kind, "kind {}", fault.kind);
        }
    }
}

/// The small text whose fourth line is this one.
fn framed(alloc: Global, fourth: &[u8]) -> Result<Vec<u8>, Fail> {
    let mut text = Vec::from_slice(alloc, b"test t\nbytes 4\nagent A\n")?;
    text.extend_from_slice(fourth)?;
    text.extend_from_slice(b"\ncheck A.r0 == 0\n")?;
    Ok(text)
}

/// Asserts that the small text with this fourth line is refused there.
fn refused_fourth(
    rt: &(impl Abort + AllocGlobal),
    fourth: &[u8],
    kind: ReadKind,
) -> Result<(), Fail> {
    refused(rt, &framed(rt.alloc(), fourth)?, kind, 4);
    Ok(())
}

/// A small text up to its condition.
const CHECKED: &[u8] = b"test t\nbytes 1\nagent A\nr0 = U8[0]\ncheck ";

/// A text with a beginning, a piece repeated `count` times, and an end.
fn repeated(
    alloc: Global,
    front: &[u8],
    piece: &[u8],
    count: usize,
    back: &[u8],
) -> Result<Vec<u8>, Fail> {
    let mut text = Vec::from_slice(alloc, front)?;
    for _ in 0..count {
        text.extend_from_slice(piece)?;
    }
    text.extend_from_slice(back)?;
    Ok(text)
}

#[test]
fn store_buffering(rt: HostRuntime) {
    let test = test_of(&rt, STORE_BUFFERING.as_bytes());
    has_head(&rt, &test, "sb", 2, &["A", "B"]);
    let first = [
        (None, View::U8, 0, None, Some(1), true),
        (Some(0), View::U8, 1, None, None, true),
    ];
    has_body(&rt, &test, 0, &first);
    let second = [
        (None, View::U8, 1, None, Some(1), true),
        (Some(0), View::U8, 0, None, None, true),
    ];
    has_body(&rt, &test, 1, &second);
    let (first, second) = both_of(&rt, test.check());
    is_comparison(&rt, first, (0, 0, true, 0));
    is_comparison(&rt, second, (1, 0, true, 0));
}

#[test]
fn each_form(rt: HostRuntime) {
    let text = "  test _t1 // a test\r

\tbytes 16 //
agent A
//
r7=U8[15]
U8 [ 0 ] = 255
r0 = Atomics . load ( U8 , 3 )
Atomics.store(U8,4,0)
agent test
check A.r7!=4294967295";
    let test = test_of(&rt, text.as_bytes());
    has_head(&rt, &test, "_t1", 16, &["A", "test"]);
    let first = [
        (Some(7), View::U8, 15, None, None, false),
        (None, View::U8, 0, None, Some(255), false),
        (Some(0), View::U8, 3, None, None, true),
        (None, View::U8, 4, None, Some(0), true),
    ];
    has_body(&rt, &test, 0, &first);
    has_body(&rt, &test, 1, &[]);
    is_comparison(&rt, test.check(), (0, 7, false, 4294967295));
}

#[test]
fn missing_parts(rt: HostRuntime) {
    refused(&rt, b"", ReadKind::MissingPart, 1);
    refused(&rt, b"\n", ReadKind::MissingPart, 1);
    refused(&rt, b"test t\nbytes 1\n\n", ReadKind::MissingPart, 3);
    refused(
        &rt,
        b"test sb
bytes 2
agent A
Atomics.store(U8, 0, 1)
r0 = Atomics.load(U8, 1)
agent B
Atomics.store(U8, 1, 1)
r0 = Atomics.load(U8, 0)
",
        ReadKind::MissingPart,
        8,
    );
}

/// Fourth lines of the small text, why that is refused, and at which line.
const SMALL_FAULTS: [(&[u8], ReadKind, usize); 16] = [
    (b"}", ReadKind::Misplaced, 4),
    (b"U8[0] = 256", ReadKind::LiteralRange, 4),
    (b"agent A", ReadKind::DuplicateAgent, 4),
    (b"r0 = U8[0] //\xc8", ReadKind::NotAscii, 4),
    (b"U8[4] = 0", ReadKind::OutOfBlock, 4),
    (b"r0 = Atomics.load(U8, 4)", ReadKind::OutOfBlock, 4),
    (b"U8[9] = 300", ReadKind::LiteralRange, 4),
    (b"r0 = U8[00]", ReadKind::Syntax, 4),
    (b"r0 = U8[01]", ReadKind::Syntax, 4),
    (b"r8 = U8[0]", ReadKind::Syntax, 4),
    (b"r0 == U8[0]", ReadKind::Syntax, 4),
    (b"r0 = U8[0] /", ReadKind::Syntax, 4),
    (b"r0 = U8[12345678901]", ReadKind::Syntax, 4),
    (b"r0 = U8[1234567890]", ReadKind::OutOfBlock, 4),
    (b"r1 = U8[0]", ReadKind::UnknownName, 5),
    (b"agent B", ReadKind::UnknownName, 5),
];

#[test]
fn small_faults(rt: HostRuntime) -> Result<(), Fail> {
    for (fourth, kind, line) in SMALL_FAULTS {
        refused(&rt, &framed(rt.alloc(), fourth)?, kind, line);
    }
    refused(
        &rt,
        b"test sb\nbytes 2\nagent A\nAtomics.store(U8, 0, 1)\nr0 = Atomics.load(U8, 1)\nagent B\nAtomics.store(U8, 1, 1)\n\
          r0 = Atomics.load(U8, 0)\ncheck A.r0 == 0 && B.r0 == \n",
        ReadKind::Syntax,
        9,
    );
    refused(
        &rt,
        b"test t\nbytes 4\nagent A\nr0 = U8[0]\ncheck A.r0 == 4294967296 && B.r0 == 0",
        ReadKind::LiteralRange,
        5,
    );
    refused(
        &rt,
        b"test t\nbytes 4\nagent A\nr0 = U8[0]\ncheck A.r0 == 0 && B.r0 == 0",
        ReadKind::UnknownName,
        5,
    );
    Ok(())
}

#[test]
fn misplaced_forms(rt: HostRuntime) {
    let kind = ReadKind::Misplaced;
    refused(&rt, b"bytes 4\n", kind, 1);
    refused(&rt, b"test t\ntest u\n", kind, 2);
    refused(&rt, b"test t\nbytes 4\nbytes 0\n", kind, 3);
    refused(&rt, b"test t\nagent A\n", kind, 2);
    refused(&rt, b"agent A\n", kind, 1);
    refused(&rt, b"test t\nbytes 4\nr0 = U8[9]\n", kind, 3);
    refused(&rt, b"test t\nbytes 4\nU8[0] = 256\n", kind, 3);
    refused(&rt, b"test t\nbytes 4\ncheck A.r0 == 4294967296\n", kind, 3);
    refused(&rt, b"check A.r0 == 0\n", kind, 1);
    let whole = "test t\nbytes 4\nagent A\nr0 = U8[0]\ncheck A.r0 == 0\n";
    assert!(rt; read(rt.alloc(), whole.as_bytes()).is_ok());
    refused(
        &rt,
        b"test t\nbytes 4\nagent A\nr0 = U8[0]\ncheck A.r0 == 0\nr0 = U8[0]\n",
        kind,
        6,
    );
    refused(
        &rt,
        b"test t\nbytes 4\nagent A\nr0 = U8[0]\ncheck A.r0 == 0\n\n//\nagent B",
        kind,
        8,
    );
    refused(
        &rt,
        b"test t\nbytes 4\nagent A\nr0 = U8[0]\ncheck A.r0 == 0\ncheck A.r0 == 0\n",
        kind,
        6,
    );
    refused(
        &rt,
        b"test t\nbytes 4\nagent A\nr0 = U8[0]\ncheck A.r0 == 0\ntest t\n",
        kind,
        6,
    );
    refused(
        &rt,
        b"test t\nbytes 4\nagent A\nr0 = U8[0]\nbytes 0\n",
        kind,
        5,
    );
}

/// A text with a block of `bytes` bytes, of which the last is loaded.
fn with_block(alloc: Global, bytes: usize) -> Result<Vec<u8>, Fail> {
    let last = bytes.saturating_sub(1);
    let text = format!(in alloc;
        "test t\nbytes {bytes}\nagent A\nr0 = U8[{last}]\ncheck A.r0 == 0\n"
    )?;
    Ok(Vec::from_slice(alloc, text.as_bytes())?)
}

#[test]
fn sizes_of_blocks(rt: HostRuntime) -> Result<(), Fail> {
    for bytes in [1, BLOCK_LIMIT - 1, BLOCK_LIMIT] {
        let text = with_block(rt.alloc(), bytes)?;
        assert_eq!(rt; usize::from(test_of(&rt, &text).bytes()), bytes);
    }
    for bytes in [0, BLOCK_LIMIT + 1] {
        refused(&rt, &with_block(rt.alloc(), bytes)?, ReadKind::BlockSize, 2);
    }
    Ok(())
}

/// The beginning of a text with this number of agents: `A0`, `A1` and so on.
fn with_agents(alloc: Global, agents: usize) -> Result<Vec<u8>, Fail> {
    let mut text = Vec::from_slice(alloc, b"test t\nbytes 1\n")?;
    for agent in 0..agents {
        text.extend_from_slice(format!(in alloc; "agent A{agent}\n")?.as_bytes())?;
    }
    Ok(text)
}

/// Asserts that a text with this number of agents, of which the last one is asked about, is a test.
fn has_agents(rt: &(impl Abort + AllocGlobal), agents: usize) -> Result<(), Fail> {
    let last = agents.saturating_sub(1);
    let mut text = with_agents(rt.alloc(), agents)?;
    text.extend_from_slice(format!(in rt.alloc();
        "r0 = U8[0]\ncheck A{last}.r0 == 0\n"
    )?.as_bytes())?;
    assert_eq!(rt; test_of(rt, &text).agents(), agents);
    Ok(())
}

/// Asserts that a text with this number of agents, and then these bytes, is refused.
fn refused_agents(
    rt: &(impl Abort + AllocGlobal),
    agents: usize,
    back: &[u8],
    kind: ReadKind,
    line: usize,
) -> Result<(), Fail> {
    let mut text = with_agents(rt.alloc(), agents)?;
    text.extend_from_slice(back)?;
    refused(rt, &text, kind, line);
    Ok(())
}

#[test]
fn numbers_of_agents(rt: HostRuntime) -> Result<(), Fail> {
    for agents in [1, AGENT_LIMIT - 1, AGENT_LIMIT] {
        has_agents(&rt, agents)?;
    }
    let (again, kind) = (b"agent A0\n", ReadKind::TooManyAgents);
    refused_agents(&rt, AGENT_LIMIT + 1, b"", kind, AGENT_LIMIT + 3)?;
    refused_agents(&rt, AGENT_LIMIT, again, kind, AGENT_LIMIT + 3)?;
    let kind = ReadKind::DuplicateAgent;
    refused_agents(&rt, AGENT_LIMIT - 1, again, kind, AGENT_LIMIT + 2)
}

/// A text as `repeated` makes it, why it is refused, and at which line.
type Long = (
    &'static [u8],
    &'static [u8],
    usize,
    &'static [u8],
    ReadKind,
    usize,
);

const LOADED: &[u8] = b"test t\nbytes 4\nagent A\nr0 = U8[";

const NAMED: &[u8] = b"test t\nbytes 4\nagent A\nagent ";

const LONG_TEXTS: [Long; 10] = [
    (b"", b" ", TEXT_LIMIT + 1, b"", ReadKind::TooLong, 1),
    (b"", b"\xc8", TEXT_LIMIT + 1, b"", ReadKind::TooLong, 1),
    (b"", b" ", TEXT_LIMIT, b"", ReadKind::MissingPart, 1),
    (
        b"",
        b"\n",
        TEXT_LIMIT,
        b"",
        ReadKind::MissingPart,
        TEXT_LIMIT,
    ),
    (CHECKED, b"(", 65_000, b"A.r0 == 0\n", ReadKind::Syntax, 5),
    (CHECKED, b"!", 65_000, b"A.r0 == 0\n", ReadKind::TooDeep, 5),
    (
        LOADED,
        b"1",
        60_000,
        b"]\ncheck A.r0 == 0\n",
        ReadKind::Syntax,
        4,
    ),
    (
        NAMED,
        b"a",
        60_000,
        b"\ncheck A.r0 == 0\n",
        ReadKind::Syntax,
        4,
    ),
    (NAMED, b"a", 33, b"\ncheck A.r0 == 0\n", ReadKind::Syntax, 4),
    (
        NAMED,
        b"a",
        32,
        b"\ncheck A.r0 == 0\n",
        ReadKind::UnknownName,
        5,
    ),
];

#[test]
fn long_texts(rt: HostRuntime) -> Result<(), Fail> {
    for (front, piece, count, back, kind, line) in LONG_TEXTS {
        refused(
            &rt,
            &repeated(rt.alloc(), front, piece, count, back)?,
            kind,
            line,
        );
    }
    Ok(())
}

#[test]
fn many_loads(rt: HostRuntime) -> Result<(), Fail> {
    let (front, back) = (b"test t\nbytes 1\nagent A\n", b"check A.r0 == 0\n");
    let text = repeated(rt.alloc(), front, b"r0 = U8[0]\n", 4_000, back)?;
    let test = test_of(&rt, &text);
    assert_eq!(rt; test.agents(), 1);
    assert_eq!(rt; body_of(&rt, &test, 0).len(), 4_000);
    Ok(())
}

#[test]
fn printed(rt: HostRuntime) -> Result<(), Fail> {
    let fault = ReadFault {
        kind: ReadKind::OutOfBlock,
        line: 4,
    };
    assert!(rt; fault.to_string(rt.alloc())?.as_str() == "9 out_of_block line 4");
    assert!(rt; ReadKind::MissingPart.to_string(rt.alloc())?.as_str() == "12 missing_part");
    assert!(rt; ReadKind::TooDeep.to_string(rt.alloc())?.as_str() == "11 too_deep");
    let memory = ReadFault {
        kind: ReadKind::OutOfMemory,
        line: 0,
    };
    assert!(rt; memory.to_string(rt.alloc())?.as_str() == "out_of_memory line 0");
    Ok(())
}
