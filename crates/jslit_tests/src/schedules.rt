//! The outcomes of schedules.

use super::calls::answers;
use jslit::{Counted, check_schedule, run_schedule};
use lit_test_texts::{EXCHANGES, LOAD_BUFFERING, STORE_BUFFERING, VIEWED_READ};
use std::alloc::AllocGlobal;
use std::process::Abort;
use std::rt::Files;
use std::test::Fail;
use std::thread::Threads;

/// A text, a schedule, and what is printed for them.
const SCHEDULES: [(&str, &str, &str); 14] = [
    (
        STORE_BUFFERING,
        "A,B",
        "test sb
interleaving A.r0=1 B.r0=1
meets no
",
    ),
    (
        STORE_BUFFERING,
        "A,A",
        "test sb
interleaving A.r0=0 B.r0=1
meets no
",
    ),
    (
        STORE_BUFFERING,
        "",
        "test sb
interleaving A.r0=0 B.r0=1
meets no
",
    ),
    (
        STORE_BUFFERING,
        "B,B,B",
        "test sb
interleaving A.r0=1 B.r0=0
meets no
",
    ),
    (
        VIEWED_READ,
        "A,B,C",
        "test teardv
interleaving C.r0=514
meets no
",
    ),
    (
        VIEWED_READ,
        "C",
        "test teardv
interleaving C.r0=0
meets no
",
    ),
    (
        LOAD_BUFFERING,
        "A,B",
        "test lb
interleaving A.r0=0 B.r0=0
meets no
",
    ),
    (
        LOAD_BUFFERING,
        "B,A",
        "test lb
interleaving A.r0=0 B.r0=0
meets no
",
    ),
    (
        LOAD_BUFFERING,
        "",
        "test lb
interleaving A.r0=0 B.r0=0
meets no
",
    ),
    (
        EXCHANGES,
        "",
        "test exchanges
interleaving A.r0=0 A.r1=1 B.r0=7 B.r1=1794 B.r2=1794
meets yes
",
    ),
    (
        EXCHANGES,
        "B,B,B,B",
        "test exchanges
interleaving A.r0=0 A.r1=1 B.r0=0 B.r1=0 B.r2=0
meets yes
",
    ),
    (
        EXCHANGES,
        "A,B,B,B",
        "test exchanges
interleaving A.r0=0 A.r1=3 B.r0=1 B.r1=258 B.r2=33620740
meets yes
",
    ),
    (STORE_BUFFERING, "A,C", "refused 20 unknown_agent\n"),
    (STORE_BUFFERING, "A,,B", "refused 20 unknown_agent\n"),
];

/// Schedules of store buffering that name no agents: empty members, blanks, and another case.
const UNKNOWN: [&str; 8] = [",", "A,", ",A", "A B", " A", "A, B", "a", "AB"];

/// That the answer for a schedule is these bytes, or the line of its fault with nothing written.
fn comes_to(
    rt: &(impl Abort + AllocGlobal),
    text: &str,
    schedule: &str,
    expected: &str,
) -> Result<(), Fail> {
    let alloc = rt.alloc();
    let mut input = Counted::new(text.as_bytes());
    let mut output = Counted::new(Vec::new(alloc));
    let outcome = run_schedule(alloc, &mut input, &mut output, schedule.as_bytes());
    let mut written = output.into_inner();
    if let Err(fault) = outcome {
        assert!(rt; written.is_empty());
        let line = format!(in alloc; "{fault}\n")?;
        written.extend_from_slice(line.as_bytes())?;
    }
    assert_eq!(rt; written.as_slice(), expected.as_bytes());
    Ok(())
}

#[test]
fn schedules(rt: HostRuntime) -> Result<(), Fail> {
    for (text, schedule, expected) in SCHEDULES {
        comes_to(&rt, text, schedule, expected)?;
    }
    for schedule in UNKNOWN {
        comes_to(&rt, STORE_BUFFERING, schedule, "refused 20 unknown_agent\n")?;
    }
    comes_to(
        &rt,
        "test sb\nbytes 0\n",
        "Z",
        "refused 5 block_size line 2\n",
    )
}

/// That the program, with these words on store buffering, ends with this status and has printed this.
fn prints(
    rt: &(impl Threads + Sync + Files + Abort + AllocGlobal),
    words: &[&str],
    status: u8,
    printed: &str,
    said: &str,
) -> Result<(), Fail> {
    answers(
        rt,
        words,
        STORE_BUFFERING.as_bytes(),
        status,
        printed.as_bytes(),
        said,
    )
}

#[test]
fn schedules_of_the_command_line(rt: HostRuntime) -> Result<(), Fail> {
    let both = "test sb
interleaving A.r0=1 B.r0=1
meets no
";
    prints(&rt, &["jslit", "--schedule", "A,B"], 0, both, "")?;
    prints(&rt, &["jslit", "--schedule=A,B"], 0, both, "")?;
    let in_order = "test sb
interleaving A.r0=0 B.r0=1
meets no
";
    prints(&rt, &["jslit", "--schedule", ""], 0, in_order, "")?;
    let unknown = "refused 20 unknown_agent\n";
    prints(&rt, &["jslit", "--schedule", "A,C"], 1, unknown, "")
}

/// A flag of a report, and what is said where a schedule stands with it.
const EXCLUDED: [(&str, &str); 3] = [
    (
        "--quick",
        "error: the argument '--schedule <TEXT>' cannot be used with '--quick'

Usage: jslit [OPTIONS] [FILE]

For more information, try '--help'.
",
    ),
    (
        "--workers=1",
        "error: the argument '--schedule <TEXT>' cannot be used with '--workers <N>'

Usage: jslit [OPTIONS] [FILE]

For more information, try '--help'.
",
    ),
    (
        "--cut=4096",
        "error: the argument '--schedule <TEXT>' cannot be used with '--cut <N>'

Usage: jslit [OPTIONS] [FILE]

For more information, try '--help'.
",
    ),
];

#[test]
fn schedules_with_flags_of_a_report(rt: HostRuntime) -> Result<(), Fail> {
    for (flag, said) in EXCLUDED {
        prints(&rt, &["jslit", "--schedule", "A,B", flag], 2, "", said)?;
    }
    Ok(())
}

#[test]
fn checked_schedule(rt: HostRuntime) -> Result<(), Fail> {
    let alloc = rt.alloc();
    let mut input = Counted::new(STORE_BUFFERING.as_bytes());
    let mut output = Counted::new(Vec::new(alloc));
    let mut errors = Vec::new(alloc);
    let status = check_schedule(alloc, &mut input, &mut output, &mut errors, b"B,B,B");
    assert_eq!(rt; status, 0);
    assert_eq!(rt;
        output.into_inner().as_slice(),
        b"test sb
interleaving A.r0=1 B.r0=0
meets no
"
            .as_slice()
    );
    assert!(rt; errors.is_empty());
    Ok(())
}
