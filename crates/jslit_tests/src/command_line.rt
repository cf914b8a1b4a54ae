//! The program with words on its command line.

use super::calls::answers;
use super::data::independent_reads::INDEPENDENT_READS;
use super::workers::INDEPENDENT_READS_QUICK;
use jslit::{Line, line, no_words};
use std::alloc::AllocGlobal;
use std::io;
use std::test::Fail;

const HELP: &str = "Prints every outcome that the memory model of ECMAScript allows a litmus test

Usage: jslit [OPTIONS] [FILE]

Arguments:
  [FILE]  The litmus text [default: standard input]

Options:
      --workers <N>      How many workers search, 1 to 16 [default: 1]
      --cut <N>          The fewest choices in a piece of the work, 1 to 281474976710656 [default: 4096]
      --quick            Report only the first choice that meets the condition and the first that does not
      --schedule <TEXT>  Carry the test out in turns, by the names of agents, such as A,B,A, and print its outcome
  -h, --help             Print help
  -V, --version          Print version

Exit status:
  0  a report, or the outcome of a schedule, was printed
  1  the text, its test or the schedule is refused: the reason is printed on standard output
  2  a fault of the command line
  3  out of memory
  4  the input or the output failed

Example:
  jslit --workers 4 litmus/mp.lit
";

/// A value for the workers, and the same for the cut, with what is said of it.
const VALUES_REFUSED: [(&str, &str, &str); 5] = [
    (
        "--workers",
        "0",
        "error: invalid value '0' for '--workers <N>': 0 is not in 1..=16

For more information, try '--help'.
",
    ),
    (
        "--workers",
        "17",
        "error: invalid value '17' for '--workers <N>': 17 is not in 1..=16

For more information, try '--help'.
",
    ),
    (
        "--workers",
        "two",
        "error: invalid value 'two' for '--workers <N>': invalid digit found in string

For more information, try '--help'.
",
    ),
    (
        "--cut",
        "0",
        "error: invalid value '0' for '--cut <N>': 0 is not in 1..=281474976710656

For more information, try '--help'.
",
    ),
    (
        "--cut",
        "281474976710657",
        "error: invalid value '281474976710657' for '--cut <N>': 281474976710657 is not in 1..=281474976710656

For more information, try '--help'.
",
    ),
];

#[test]
fn values_outside_their_limits(rt: HostRuntime) -> Result<(), Fail> {
    for (flag, value, said) in VALUES_REFUSED {
        answers(&rt, &["jslit", flag, value], b"", 2, b"", said)?;
    }
    Ok(())
}

#[test]
fn words_that_are_no_flag(rt: HostRuntime) -> Result<(), Fail> {
    let said = "error: unexpected argument '--fast' found

  tip: to pass '--fast' as a value, use '-- --fast'

Usage: jslit [OPTIONS] [FILE]

For more information, try '--help'.
";
    answers(&rt, &["jslit", "--fast"], b"", 2, b"", said)?;
    let said = "error: unexpected argument 'b.lit' found

Usage: jslit [OPTIONS] [FILE]

For more information, try '--help'.
";
    answers(&rt, &["jslit", "a.lit", "b.lit"], b"", 2, b"", said)
}

#[test]
fn help(rt: HostRuntime) -> Result<(), Fail> {
    answers(&rt, &["jslit", "--help"], b"", 0, HELP.as_bytes(), "")?;
    answers(&rt, &["jslit", "-h"], b"", 0, HELP.as_bytes(), "")
}

#[test]
fn version(rt: HostRuntime) -> Result<(), Fail> {
    let line = b"jslit 0.1.0\nrattle logic dac8208d650f15bf\n";
    answers(&rt, &["jslit", "--version"], b"", 0, line, "")?;
    answers(&rt, &["jslit", "-V", "no/such.lit"], b"", 0, line, "")
}

#[test]
fn files_that_cannot_be_read(rt: HostRuntime) -> Result<(), Fail> {
    answers(
        &rt,
        &["jslit", "no/such.lit"],
        b"",
        4,
        b"",
        "input_failed\n",
    )?;
    answers(&rt, &["jslit", "/"], b"", 4, b"", "input_failed\n")
}

#[test]
fn whole_and_quick_report(rt: HostRuntime) -> Result<(), Fail> {
    let (text, report) = INDEPENDENT_READS;
    let (text, report) = (text.as_bytes(), report.as_bytes());
    let words = ["jslit", "--workers", "3", "--cut=7"];
    answers(&rt, &words, text, 0, report, "")?;
    let words = ["jslit", "--quick", "--workers=16", "--cut", "1"];
    answers(&rt, &words, text, 0, INDEPENDENT_READS_QUICK.as_bytes(), "")?;
    let missing = b"refused 12 missing_part line 1\n";
    answers(&rt, &["jslit"], b"", 1, missing, "")
}

#[test]
fn lines(rt: HostRuntime) -> Result<(), Fail> {
    let alloc = rt.alloc();
    let given = line(alloc, &["jslit"])?;
    assert_eq!(rt; given.options.workers, 1);
    assert_eq!(rt; given.options.cut, 4_096);
    assert!(rt; !given.options.quick);
    assert!(rt; given.file.is_none());
    let words = ["jslit", "--workers", "3", "--cut", "7", "--quick", "x.lit"];
    let given: Line<'_> = line(alloc, &words)?;
    assert_eq!(rt; given.options.workers, 3);
    assert_eq!(rt; given.options.cut, 7);
    assert!(rt; given.options.quick);
    assert!(rt; given.file == Some("x.lit"));
    let words = [
        "jslit",
        "--workers=16",
        "--cut=281474976710656",
        "--",
        "--quick",
    ];
    let given = line(alloc, &words)?;
    assert_eq!(rt; given.options.workers, 16);
    assert_eq!(rt; given.options.cut, 281_474_976_710_656);
    assert!(rt; !given.options.quick);
    assert!(rt; given.file == Some("--quick"));
    Ok(())
}

#[test]
fn words_that_cannot_be_had(rt: HostRuntime) -> Result<(), Fail> {
    let alloc = rt.alloc();
    let mut errors = Vec::new(alloc);
    let status = no_words(&mut errors, &io::Error::from(io::ErrorKind::OutOfMemory));
    assert_eq!(rt; status, 3);
    assert_eq!(rt; errors.as_slice(), b"out_of_memory\n".as_slice());
    let mut errors = Vec::new(alloc);
    let status = no_words(&mut errors, &io::Error::from(io::ErrorKind::InvalidData));
    assert_eq!(rt; status, 2);
    assert_eq!(rt;
        errors.as_slice(),
        b"error: a word of the command line is not text in UTF-8\n".as_slice()
    );
    Ok(())
}
