//! The calls that the tests make.

use jslit::{Counted, Options, program, run};
use std::alloc::AllocGlobal;
use std::process::Abort;
use std::rt::Files;
use std::test::Fail;
use std::thread::Threads;

pub(super) const ONE_WORKER: Options = Options {
    workers: 1,
    cut: 4_096,
    quick: false,
};

/// That `run` answers a text with these bytes: what it writes, or the line of its fault.
pub(super) fn writes_by(
    rt: &(impl Threads + Sync + Abort + AllocGlobal),
    text: &[u8],
    expected: &[u8],
    options: Options,
) -> Result<(), Fail> {
    let alloc = rt.alloc();
    let mut input = Counted::new(text);
    let mut output = Counted::new(Vec::new(alloc));
    let outcome = run(rt, alloc, &mut input, &mut output, options);
    let mut written = output.into_inner();
    if let Err(fault) = outcome {
        assert!(rt; written.is_empty());
        let line = format!(in alloc; "{fault}\n")?;
        written.extend_from_slice(line.as_bytes())?;
    }
    assert_eq!(rt; written.as_slice(), expected);
    Ok(())
}

/// That one worker answers a text with these bytes.
pub(super) fn writes(
    rt: &(impl Threads + Sync + Abort + AllocGlobal),
    text: &[u8],
    expected: &[u8],
) -> Result<(), Fail> {
    writes_by(rt, text, expected, ONE_WORKER)
}

/// That the program, with these words and this input, ends with this status and has printed this on each stream.
pub(super) fn answers(
    rt: &(impl Threads + Sync + Files + Abort + AllocGlobal),
    words: &[&str],
    text: &[u8],
    status: u8,
    printed: &[u8],
    said: &str,
) -> Result<(), Fail> {
    let alloc = rt.alloc();
    let mut input = Counted::new(text);
    let mut output = Counted::new(Vec::new(alloc));
    let mut errors = Vec::new(alloc);
    let given = program(rt, alloc, words, &mut input, &mut output, &mut errors);
    assert_eq!(rt; output.into_inner().as_slice(), printed);
    assert_eq!(rt; errors.as_slice(), said.as_bytes());
    assert_eq!(rt; given, status);
    Ok(())
}

/// That the program answers a text with these bytes and this status, and says nothing else.
pub(super) fn prints(
    rt: &(impl Threads + Sync + Files + Abort + AllocGlobal),
    text: &[u8],
    expected: &[u8],
    status: u8,
) -> Result<(), Fail> {
    answers(rt, &["jslit"], text, status, expected, "")
}
