//! Each form of the language, and the limits.

use super::asserted::{Access, begins_with, body_of, both_of, denied, either_of, is_if, test_of};
use super::{CHECKED, framed, refused, refused_fourth, repeated};
use lit_read::{ReadKind, read};
use lit_syntax::{Cond, View};
use std::alloc::Global;
use std::process::Abort;
use std::test::Fail;

const WHOLE: &str = "test whole
bytes 16
agent A
r0 = U8[15]
r1 = U16[7]
r2 = U32[3]
U8[0] = 255
U16[0] = 65535
U32[0] = 4294967295
r3 = Atomics.load(U16, 7)
Atomics.store(U32, 3, 5)
r4 = Atomics.exchange(U8, 0, 1)
r5 = Atomics.compareExchange(U32, 1, 4294967295, 2)
r6 = DV.getUint8(15)
r7 = DV.getUint16(14, true)
r0 = DV.getUint32(12, true)
DV.setUint8(15, 1)
DV.setUint16(14, 2, true)
DV.setUint32(12, 3, true)
if r0 == 1 {
r1 = U8[0]
if r1 != 2 {
}
} else {
U8[1] = 1
r2 = U8[2]
}
if r0 == 0 {
} else {
}
check !(A.r0 == 1 && A.r1 != 2) || (A.r2 == 3 || !!A.r3 == 4) && A.r4 == 5
";

const WHOLE_ACCESSES: [Access; 16] = [
    (Some(0), View::U8, 15, None, None, false),
    (Some(1), View::U16, 7, None, None, false),
    (Some(2), View::U32, 3, None, None, false),
    (None, View::U8, 0, None, Some(255), false),
    (None, View::U16, 0, None, Some(65_535), false),
    (None, View::U32, 0, None, Some(4_294_967_295), false),
    (Some(3), View::U16, 7, None, None, true),
    (None, View::U32, 3, None, Some(5), true),
    (Some(4), View::U8, 0, None, Some(1), true),
    (Some(5), View::U32, 1, Some(4_294_967_295), Some(2), true),
    (Some(6), View::D8, 15, None, None, false),
    (Some(7), View::D16, 14, None, None, false),
    (Some(0), View::D32, 12, None, None, false),
    (None, View::D8, 15, None, Some(1), false),
    (None, View::D16, 14, None, Some(2), false),
    (None, View::D32, 12, None, Some(3), false),
];

#[test]
fn whole(rt: HostRuntime) {
    let test = test_of(&rt, WHOLE.as_bytes());
    let body = body_of(&rt, &test, 0);
    assert_eq!(rt; body.len(), 18);
    begins_with(&rt, body, &WHOLE_ACCESSES);
    is_if(&rt, &body[16], (0, true, 1), (2, 2));
    is_if(&rt, &body[17], (0, true, 0), (0, 0));
}

#[test]
fn condition(rt: HostRuntime) {
    let test = test_of(&rt, WHOLE.as_bytes());
    let (first, second) = either_of(&rt, test.check());
    both_of(&rt, denied(&rt, first));
    let (either, _) = both_of(&rt, second);
    either_of(&rt, either);
}

/// Asserts that a text is a test.
fn taken(rt: &(impl Abort + AllocGlobal), text: &[u8]) {
    assert!(rt; read(rt.alloc(), text).is_ok());
}

/// Asserts that the small text with this fourth line is a test.
fn taken_fourth(rt: &(impl Abort + AllocGlobal), fourth: &[u8]) -> Result<(), Fail> {
    taken(rt, &framed(rt.alloc(), fourth)?);
    Ok(())
}

const TAKEN: [&[u8]; 4] = [
    b"r0 = DV.getUint16(2, true)",
    b"r0 = U16[1]",
    b"if r1 == 0 {\nr0 = U8[0]\n}",
    b"if r1 == 0 {\n} else {\nr0 = U8[0]\n}",
];

const REFUSED: [(&[u8], ReadKind); 18] = [
    (b"U8[9] = 300", ReadKind::LiteralRange),
    (b"U16[9] = 65536", ReadKind::LiteralRange),
    (b"U32[1] = 4294967296", ReadKind::LiteralRange),
    (b"r0 = U32[1]", ReadKind::OutOfBlock),
    (b"r0 = U16[2]", ReadKind::OutOfBlock),
    (b"r0 = DV.getUint16(3, true)", ReadKind::OutOfBlock),
    (b"r0 = DV.getUint16(2)", ReadKind::Syntax),
    (b"r0 = DV.getUint8(0, true)", ReadKind::Syntax),
    (b"DV.setUint16(0, 1)", ReadKind::Syntax),
    (b"r0 = Atomics.load(DV, 0)", ReadKind::Syntax),
    (b"r0 = U8[0] }", ReadKind::Syntax),
    (b"} else", ReadKind::Syntax),
    (b"if r0 == 1", ReadKind::Syntax),
    (b"} else {", ReadKind::Misplaced),
    (b"if r0 == 4294967296 {", ReadKind::LiteralRange),
    (
        b"r0 = Atomics.compareExchange(U8, 0, 256, 0)",
        ReadKind::LiteralRange,
    ),
    (
        b"r0 = Atomics.compareExchange(U8, 0, 0, 256)",
        ReadKind::LiteralRange,
    ),
    (b"r0 = Atomics.exchange(U8, 4, 0)", ReadKind::OutOfBlock),
];

#[test]
fn fourth_lines(rt: HostRuntime) -> Result<(), Fail> {
    for fourth in TAKEN {
        taken_fourth(&rt, fourth)?;
    }
    for (fourth, kind) in REFUSED {
        refused_fourth(&rt, fourth, kind)?;
    }
    Ok(())
}

#[test]
fn misplaced_parts(rt: HostRuntime) {
    let kind = ReadKind::Misplaced;
    refused(&rt, b"test t\nbytes 4\nif r0 == 0 {\n", kind, 3);
    refused(
        &rt,
        b"test t\nbytes 4\nagent A\nif r0 == 0 {\n}\n}\n",
        kind,
        6,
    );
    refused(
        &rt,
        b"test t\nbytes 4\nagent A\nif r0 == 0 {\n} else {\n} else {\n",
        kind,
        6,
    );
    refused(
        &rt,
        b"test t\nbytes 4\nagent A\nif r0 == 0 {\nagent B\n",
        kind,
        5,
    );
    refused(
        &rt,
        b"test t\nbytes 4\nagent A\nr0 = U8[0]\nif r0 == 0 {\ncheck A.r0 == 0\n",
        kind,
        6,
    );
    refused(
        &rt,
        b"test t\nbytes 4\nagent A\nif r0 == 0 {\n",
        ReadKind::MissingPart,
        4,
    );
    refused(
        &rt,
        b"test t\nbytes 4\nagent A\nr0 = U8[0]\ncheck (A.r0 == 0",
        ReadKind::Syntax,
        5,
    );
}

/// A text with `count` `if` lines, one inside the other, and then these bytes.
fn nested(alloc: Global, count: usize, back: &[u8]) -> Result<Vec<u8>, Fail> {
    let front = b"test t\nbytes 1\nagent A\n";
    repeated(alloc, front, b"if r0 == 0 {\n", count, back)
}

#[test]
fn deep_ifs(rt: HostRuntime) -> Result<(), Fail> {
    let eight = nested(
        rt.alloc(),
        8,
        b"r0 = U8[0]
}
}
}
}
}
}
}
}
check A.r0 == 0
",
    )?;
    taken(&rt, &eight);
    for count in [9, 4_000] {
        refused(&rt, &nested(rt.alloc(), count, b"")?, ReadKind::TooDeep, 12);
    }
    Ok(())
}

/// A piece before the comparison and one behind it, and how many of each a condition has.
type Wrapping = (&'static [u8], &'static [u8], usize, usize);

const FEW: [Wrapping; 2] = [(b"!", b" ", 8, 0), (b"(", b")", 8, 8)];

const MANY: [(Wrapping, ReadKind); 5] = [
    ((b"!", b" ", 9, 0), ReadKind::TooDeep),
    ((b"(", b")", 9, 9), ReadKind::TooDeep),
    ((b"(", b")", 30_000, 30_000), ReadKind::TooDeep),
    ((b"(", b")", 30_000, 29_999), ReadKind::Syntax),
    ((b"(", b")", 3, 4), ReadKind::Syntax),
];

/// A small text whose condition has these many pieces before and behind the comparison.
fn wrapped(alloc: Global, wrapping: Wrapping) -> Result<Vec<u8>, Fail> {
    let (before, behind, count, closed) = wrapping;
    let front = repeated(alloc, CHECKED, before, count, b"A.r0 == 0")?;
    repeated(alloc, &front, behind, closed, b"\n")
}

#[test]
fn deep_conditions(rt: HostRuntime) -> Result<(), Fail> {
    for wrapping in FEW {
        taken(&rt, &wrapped(rt.alloc(), wrapping)?);
    }
    for (wrapping, kind) in MANY {
        refused(&rt, &wrapped(rt.alloc(), wrapping)?, kind, 5);
    }
    let unknown = repeated(rt.alloc(), CHECKED, b"!", 30_000, b"B.r0 == 0")?;
    refused(&rt, &unknown, ReadKind::UnknownName, 5);
    Ok(())
}

#[test]
fn many_comparisons(rt: HostRuntime) -> Result<(), Fail> {
    let front = b"test t\nbytes 1\nagent A\nr0 = U8[0]\ncheck A.r0==0";
    let text = repeated(rt.alloc(), front, b"&&A.r0==0", 4_999, b"")?;
    let test = test_of(&rt, &text);
    match test.check() {
        Cond::All(members) => assert_eq!(rt; members.len(), 5_000),
        _ => panic!(rt; "an all"),
    }
    Ok(())
}
