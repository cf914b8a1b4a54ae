//! The program on litmus texts that stand in files, each of a name of its own.

use super::calls::answers;
use super::data::independent_reads::INDEPENDENT_READS;
use super::workers::INDEPENDENT_READS_QUICK;
use lit_test_texts::STORE_BUFFERING;
use std::alloc::AllocGlobal;
use std::fs;
use std::process::Abort;
use std::rt::Files;
use std::test::Fail;
use std::thread::Threads;

/// On the standard input while a file is named: it is not read.
const UNREAD: &[u8] = b"test unread";

/// That the program, with these words and a file that has this text, ends with this status and prints this.
fn answers_on_file(
    rt: &(impl Threads + Sync + Files + Abort + AllocGlobal),
    words: &[&str],
    name: &str,
    text: &[u8],
    status: u8,
    printed: &[u8],
) -> Result<(), Fail> {
    let mut all = Vec::new(rt.alloc());
    all.extend_from_slice(words)?;
    all.push(name)?;
    fs::write(rt, name, text)?;
    answers(rt, &all, UNREAD, status, printed, "")?;
    fs::remove_file(rt, name)?;
    Ok(())
}

#[test]
fn independent_reads_by_all_workers_and_cuts(rt: HostRuntime) -> Result<(), Fail> {
    let (text, report) = INDEPENDENT_READS;
    let (text, report) = (text.as_bytes(), report.as_bytes());
    let quick = INDEPENDENT_READS_QUICK.as_bytes();
    for workers in ["1", "3", "16"] {
        for cut in ["1", "7", "281474976710656"] {
            let words = ["jslit", "--workers", workers, "--cut", cut];
            answers_on_file(&rt, &words, "whole.lit", text, 0, report)?;
            let words = ["jslit", "--workers", workers, "--cut", cut, "--quick"];
            answers_on_file(&rt, &words, "quick.lit", text, 0, quick)?;
        }
    }
    Ok(())
}

#[test]
fn a_refused_text(rt: HostRuntime) -> Result<(), Fail> {
    let text = b"test t\nbytes 4\nagent A\nU8[0] = 256\ncheck A.r0 == 0\n";
    let line = b"refused 8 literal_range line 4\n";
    answers_on_file(&rt, &["jslit"], "refused.lit", text, 1, line)
}

#[test]
fn an_empty_text(rt: HostRuntime) -> Result<(), Fail> {
    let line = b"refused 12 missing_part line 1\n";
    answers_on_file(&rt, &["jslit"], "empty.lit", b"", 1, line)
}

/// Without its last line, and without its last digit.
#[test]
fn cut_texts(rt: HostRuntime) -> Result<(), Fail> {
    let text = STORE_BUFFERING.as_bytes();
    let line = b"refused 12 missing_part line 8\n";
    let front = text
        .len()
        .saturating_sub(b"check A.r0 == 0 && B.r0 == 0\n".len());
    answers_on_file(&rt, &["jslit"], "cut.lit", &text[..front], 1, line)?;
    let line = b"refused 3 syntax line 9\n";
    let front = text.len().saturating_sub(2);
    answers_on_file(&rt, &["jslit"], "cut_last.lit", &text[..front], 1, line)
}

#[test]
fn a_schedule(rt: HostRuntime) -> Result<(), Fail> {
    let line = b"test sb\ninterleaving A.r0=1 B.r0=1\nmeets no\n";
    let words = ["jslit", "--schedule", "A,B"];
    answers_on_file(
        &rt,
        &words,
        "schedule.lit",
        STORE_BUFFERING.as_bytes(),
        0,
        line,
    )
}
