//! Texts cut short, with a byte replaced, and at a limit.

ghost use Rattle.std.specs.Prelude.{◌≤◌, length};

use super::calls::prints;
use super::data::paths::PATH_REPORTS;
use super::data::reports::{OWN_STORE, REPORTS};
use super::data::sizes::SIZE_REPORTS;
use lit_read::{ReadKind, read};
use std::alloc::{AllocGlobal, Global};
use std::process::Abort;
use std::test::Fail;

/// The lengths of the beginnings of `OWN_STORE` in which a part is missing. All others but the last two, which are
/// tests, end within a line.
const WITHOUT_A_PART: [usize; 13] = [0, 6, 7, 8, 9, 16, 17, 24, 25, 34, 35, 45, 46];

#[test]
fn beginnings(rt: HostRuntime) -> Result<(), Fail> {
    let text = OWN_STORE.0.as_bytes();
    assert_eq!(rt; text.len(), 62);
    for length in 0..63 {
        match read(rt.alloc(), &text[..length]) {
            Ok(_) => assert!(rt; length >= 61),
            Err(fault) if WITHOUT_A_PART.contains(&length) => {
                assert!(rt; fault.kind == ReadKind::MissingPart)
            }
            Err(fault) => {
                assert!(rt; fault.kind == ReadKind::Syntax);
                assert!(rt; length < 61);
            }
        }
    }
    Ok(())
}

/// How many lines end in a text.
fn ends(text: &[u8]) -> usize
    ensures { result ≤ length text.now }
{
    text.iter().filter(|byte| **byte == b'\n').count()
}

/// That a text is a test, or has a fault at one of its lines or at the line behind its last one.
fn is_answered(rt: &(impl Abort + AllocGlobal), text: &[u8]) {
    if let Err(fault) = read(rt.alloc(), text) {
        assert!(rt; fault.kind != ReadKind::OutOfMemory);
        assert!(rt; 1 <= fault.line && fault.line <= ends(text) + 1);
    }
}

/// That the beginning of a test's text is a test, or has a fault at its last line.
fn is_answered_at_its_end(rt: &(impl Abort + AllocGlobal), text: &[u8]) {
    if let Err(fault) = read(rt.alloc(), text) {
        let before = text.split_last().map_or(0, |(_, rest)| ends(rest));
        assert!(rt; fault.kind != ReadKind::OutOfMemory);
        assert_eq!(rt; fault.line, before.saturating_add(1));
    }
}

/// That a text is refused for a byte that none may have, at this line.
fn is_not_ascii(rt: &(impl Abort + AllocGlobal), text: &[u8], line: usize) {
    match read(rt.alloc(), text) {
        Ok(_) => panic!(rt; "the text was taken"),
        Err(fault) => assert!(rt; fault.kind == ReadKind::NotAscii && fault.line == line),
    }
}

/// That a text is answered when it is cut at any byte, and with any of its bytes replaced by 0, 200 and `{`.
fn is_answered_in_parts(
    rt: &(impl Abort + AllocGlobal),
    alloc: Global,
    text: &[u8],
) -> Result<(), Fail> {
    let mut other = Vec::from_slice(alloc, text)?;
    for place in 0..text.len() {
        let beginning = &text[..place];
        is_answered_at_its_end(rt, beginning);
        for byte in [0, 200] {
            other[place] = byte;
            is_not_ascii(rt, &other, ends(beginning) + 1);
        }
        other[place] = b'{';
        is_answered(rt, &other);
        other[place] = text[place];
    }
    Ok(())
}

#[test]
fn cut_at_each_byte_and_each_byte_replaced(rt: HostRuntime) -> Result<(), Fail> {
    let alloc = rt.alloc();
    for (text, _) in REPORTS {
        is_answered_in_parts(&rt, alloc, text.as_bytes())?;
    }
    for (text, _) in PATH_REPORTS {
        is_answered_in_parts(&rt, alloc, text.as_bytes())?;
    }
    for (text, _) in SIZE_REPORTS {
        is_answered_in_parts(&rt, alloc, text.as_bytes())?;
    }
    Ok(())
}

/// The fourth line of a text with a block of four bytes, and what the program prints.
const FOURTH_LINES: [(&str, &str); 6] = [
    ("U8[0] = 01", "refused 3 syntax line 4\n"),
    ("r0 = U32[1]", "refused 9 out_of_block line 4\n"),
    ("U32[1] = 4294967296", "refused 8 literal_range line 4\n"),
    ("U16[0] = 65536", "refused 8 literal_range line 4\n"),
    ("U32[0] = 4294967296", "refused 8 literal_range line 4\n"),
    ("r8 = U8[0]", "refused 3 syntax line 4\n"),
];

#[test]
fn fourth_lines(rt: HostRuntime) -> Result<(), Fail> {
    for (line, printed) in FOURTH_LINES {
        let mut text = Vec::from_slice(
            rt.alloc(),
            b"test t
bytes 4
agent A
",
        )?;
        text.extend_from_slice(line.as_bytes())?;
        text.extend_from_slice(b"\ncheck A.r0 == 0\n")?;
        prints(&rt, &text, printed.as_bytes(), 1)?;
    }
    Ok(())
}

/// A text with this name, number of bytes and fourth line, whose agent then reads byte 0.
fn text_of(alloc: Global, name: &str, bytes: &str, line: &str) -> Result<Vec<u8>, Fail> {
    let mut text = Vec::from_slice(alloc, b"test ")?;
    text.extend_from_slice(name.as_bytes())?;
    text.extend_from_slice(b"\nbytes ")?;
    text.extend_from_slice(bytes.as_bytes())?;
    text.extend_from_slice(b"\nagent A\n")?;
    text.extend_from_slice(line.as_bytes())?;
    text.extend_from_slice(
        b"
r0 = U8[0]
check A.r0 == 0
",
    )?;
    Ok(text)
}

#[test]
fn at_a_limit(rt: HostRuntime) -> Result<(), Fail> {
    let alloc = rt.alloc();
    let long = "abcdefghijklmnopqrstuvwxyzabcdef";
    for (name, bytes, line) in [
        (long, "1", ""),
        ("t", "4", "U16[0] = 65535"),
        ("t", "4", "U32[0] = 4294967295"),
    ] {
        assert!(rt; read(alloc, &text_of(alloc, name, bytes, line)?).is_ok());
    }
    let longer = "abcdefghijklmnopqrstuvwxyzabcdefg";
    prints(
        &rt,
        &text_of(alloc, longer, "1", "")?,
        b"refused 3 syntax line 1\n",
        1,
    )?;
    prints(
        &rt,
        &text_of(alloc, "t", "0", "")?,
        b"refused 5 block_size line 2\n",
        1,
    )
}

/// A text whose agent opens so many `if`s, one in the other, and whose check has so many `!`.
fn nested(alloc: Global, ifs: usize, nots: usize) -> Result<Vec<u8>, Fail> {
    let mut text = Vec::from_slice(
        alloc,
        b"test t
bytes 1
agent A
",
    )?;
    for _ in 0..ifs {
        text.extend_from_slice(b"if r0 == 0 {\n")?;
    }
    text.extend_from_slice(b"r0 = U8[0]\n")?;
    for _ in 0..ifs {
        text.extend_from_slice(b"}\n")?;
    }
    text.extend_from_slice(b"check ")?;
    for _ in 0..nots {
        text.extend_from_slice(b"!")?;
    }
    text.extend_from_slice(b"A.r0 == 0\n")?;
    Ok(text)
}

#[test]
fn levels(rt: HostRuntime) -> Result<(), Fail> {
    let alloc = rt.alloc();
    assert!(rt; read(alloc, &nested(alloc, 8, 8)?).is_ok());
    prints(
        &rt,
        &nested(alloc, 9, 0)?,
        b"refused 11 too_deep line 12\n",
        1,
    )?;
    prints(
        &rt,
        &nested(alloc, 0, 9)?,
        b"refused 11 too_deep line 5\n",
        1,
    )
}
