//! Readers and writers that are slow or fail.

use super::calls::ONE_WORKER;
use super::data::reports::{OWN_STORE, UNTOUCHED_BYTE};
use jslit::{Counted, RunFault, program, run};
use std::alloc::{AllocError, AllocGlobal, Global};
use std::io;
use std::io::{Read, Write};
use std::process::Abort;
use std::rt::Files;
use std::test::Fail;
use std::thread::Threads;

/// Gives one byte a call.
#[derive(Drop)]
struct ByteByByte<'t> {
    rest: &'t [u8],
}

impl Read for ByteByByte<'_> {
    fn read(&mut self, buf: &mut [u8]) -> io::Result<usize> {
        let wanted = buf.len().min(1);
        self.rest.read(&mut buf[..wanted])
    }
}

/// Takes as many bytes as it has room for, and then nothing.
#[derive(Drop)]
struct Full {
    room: usize,
}

impl Write for Full {
    fn write(&mut self, buf: &[u8]) -> io::Result<usize> {
        let taken = buf.len().min(self.room);
        self.room -= taken;
        Ok(taken)
    }

    fn flush(&mut self) -> io::Result<()> {
        Ok(())
    }
}

/// Fails at each read.
#[derive(Drop)]
struct Broken;

impl Read for Broken {
    fn read(&mut self, _buf: &mut [u8]) -> io::Result<usize> {
        Err(io::Error::other("broken"))
    }
}

/// Takes at most so many bytes a call, saves them, and takes no more than it has room for.
#[derive(Drop)]
struct Narrow {
    taken: Vec<u8>,
    width: usize,
    room: usize,
}

impl Write for Narrow {
    fn write(&mut self, buf: &[u8]) -> io::Result<usize> {
        let taken = buf.len().min(self.width).min(self.room);
        if self.taken.extend_from_slice(&buf[..taken]).is_err() {
            return Ok(0);
        }
        self.room -= taken;
        Ok(taken)
    }

    fn flush(&mut self) -> io::Result<()> {
        Ok(())
    }
}

#[test]
fn output_ends_after_each_byte(rt: HostRuntime) -> Result<(), Fail> {
    let alloc = rt.alloc();
    let (text, report) = UNTOUCHED_BYTE;
    for room in 0..report.len() {
        let mut input = Counted::new(text.as_bytes());
        let mut output = Counted::new(Narrow {
            taken: Vec::new(alloc),
            width: 1,
            room,
        });
        let outcome = run(&rt, alloc, &mut input, &mut output, ONE_WORKER);
        assert!(rt; outcome == Err(RunFault::OutputFailed));
        assert_eq!(rt; output.failures(), 1);
        let taken = output.into_inner().taken;
        assert_eq!(rt; taken.as_slice(), &report.as_bytes()[..room]);
    }
    Ok(())
}

/// Four stores of a byte and three plain loads of it, each of which may read any of them or the first zero.
const MANY_OUTCOMES: &str = "test many
bytes 1
agent A
U8[0] = 1
U8[0] = 2
U8[0] = 3
U8[0] = 4
agent B
r0 = U8[0]
r1 = U8[0]
r2 = U8[0]
check B.r0 == 0
";

/// What is read, by its value.
const STORES: [&str; 5] = ["init[0]", "A.0", "A.1", "A.2", "A.3"];

/// The report on `MANY_OUTCOMES`.
fn many_outcomes(alloc: Global) -> Result<String, AllocError> {
    let mut report = String::new(alloc);
    report.push_str("test many\n")?;
    for first in 0..5 {
        for second in 0..5 {
            for third in 0..5 {
                write!(report, "outcome B.r0={first} B.r1={second} B.r2={third}\n")?;
                write!(report, "  from B.0 {}\n", STORES[first])?;
                write!(report, "  from B.1 {}\n", STORES[second])?;
                write!(report, "  from B.2 {}\n", STORES[third])?;
                report.push_str("  order init[0] A.0 A.1 A.2 A.3 B.0 B.1 B.2\n")?;
            }
        }
    }
    report.push_str(
        "outcomes 125
verdict sometimes
data race yes
",
    )?;
    Ok(report)
}

#[test]
fn report_longer_than_what_waits(rt: HostRuntime) -> Result<(), Fail> {
    let alloc = rt.alloc();
    let report = many_outcomes(alloc)?;
    assert!(rt; report.len() > 8_192);
    for width in [1, 1_000, 100_000] {
        let mut input = Counted::new(MANY_OUTCOMES.as_bytes());
        let mut output = Counted::new(Narrow {
            taken: Vec::new(alloc),
            width,
            room: 100_000,
        });
        let outcome = run(&rt, alloc, &mut input, &mut output, ONE_WORKER);
        assert!(rt; outcome.is_ok());
        assert_eq!(rt; output.into_inner().taken.as_slice(), report.as_bytes());
    }
    Ok(())
}

#[test]
fn byte_by_byte(rt: HostRuntime) -> Result<(), Fail> {
    let alloc = rt.alloc();
    let (text, report) = UNTOUCHED_BYTE;
    let mut input = Counted::new(ByteByByte {
        rest: text.as_bytes(),
    });
    let mut output = Counted::new(Vec::new(alloc));
    let outcome = run(&rt, alloc, &mut input, &mut output, ONE_WORKER);
    assert!(rt; outcome.is_ok());
    assert_eq!(rt; output.into_inner().as_slice(), report.as_bytes());
    Ok(())
}

#[test]
fn output_is_full(rt: HostRuntime) -> Result<(), Fail> {
    let alloc = rt.alloc();
    let text = UNTOUCHED_BYTE.0.as_bytes();
    let mut input = Counted::new(text);
    let mut output = Counted::new(Full { room: 10 });
    let outcome = run(&rt, alloc, &mut input, &mut output, ONE_WORKER);
    assert!(rt; outcome == Err(RunFault::OutputFailed));
    assert_eq!(rt; output.failures(), 1);

    let mut input = Counted::new(text);
    let mut output = Counted::new(Full { room: 10 });
    let mut errors = Vec::new(alloc);
    let status = program(&rt, alloc, &["jslit"], &mut input, &mut output, &mut errors);
    assert_eq!(rt; status, 4);
    assert_eq!(rt; errors.as_slice(), b"output_failed\n".as_slice());
    Ok(())
}

#[test]
fn refusal_on_full_output(rt: HostRuntime) -> Result<(), Fail> {
    let alloc = rt.alloc();
    let mut input = Counted::new(&b"test t\n"[..]);
    let mut output = Counted::new(Full { room: 0 });
    let mut errors = Vec::new(alloc);
    let status = program(&rt, alloc, &["jslit"], &mut input, &mut output, &mut errors);
    assert_eq!(rt; status, 1);
    assert!(rt; errors.is_empty());
    Ok(())
}

#[test]
fn input_fails(rt: HostRuntime) -> Result<(), Fail> {
    let alloc = rt.alloc();
    let mut input = Counted::new(Broken);
    let mut output = Counted::new(Vec::new(alloc));
    let outcome = run(&rt, alloc, &mut input, &mut output, ONE_WORKER);
    assert!(rt; outcome == Err(RunFault::InputFailed));
    assert_eq!(rt; input.failures(), 1);
    assert!(rt; output.into_inner().is_empty());

    let mut input = Counted::new(Broken);
    let mut output = Counted::new(Vec::new(alloc));
    let mut errors = Vec::new(alloc);
    let status = program(&rt, alloc, &["jslit"], &mut input, &mut output, &mut errors);
    assert_eq!(rt; status, 4);
    assert_eq!(rt; errors.as_slice(), b"input_failed\n".as_slice());
    assert!(rt; output.into_inner().is_empty());
    Ok(())
}

/// Saves the bytes that it takes, and counts how often it is flushed, which fails.
#[derive(Drop)]
struct Unflushed {
    taken: Vec<u8>,
    flushes: usize,
}

impl Write for Unflushed {
    fn write(&mut self, buf: &[u8]) -> io::Result<usize> {
        match self.taken.extend_from_slice(buf) {
            Ok(()) => Ok(buf.len()),
            Err(_) => Ok(0),
        }
    }

    fn flush(&mut self) -> io::Result<()> {
        self.flushes = self.flushes.saturating_add(1);
        Err(io::Error::other("unflushed"))
    }
}

/// What the program does with a text, where flushing the output fails: its status, what it printed, and how often it
/// flushed the output.
fn flushes_once(
    rt: &(impl Threads + Sync + Files + Abort + AllocGlobal),
    text: &str,
    status: u8,
    printed: &str,
    said: &str,
) -> Result<(), Fail> {
    let alloc = rt.alloc();
    let mut input = Counted::new(text.as_bytes());
    let mut output = Counted::new(Unflushed {
        taken: Vec::new(alloc),
        flushes: 0,
    });
    let mut errors = Vec::new(alloc);
    let given = program(rt, alloc, &["jslit"], &mut input, &mut output, &mut errors);
    assert_eq!(rt; given, status);
    assert_eq!(rt; errors.as_slice(), said.as_bytes());
    assert_eq!(rt; output.failures(), 0);
    let device = output.into_inner();
    assert_eq!(rt; device.taken.as_slice(), printed.as_bytes());
    assert_eq!(rt; device.flushes, 1);
    Ok(())
}

#[test]
fn flushing_fails(rt: HostRuntime) -> Result<(), Fail> {
    let (text, report) = UNTOUCHED_BYTE;
    flushes_once(&rt, text, 4, report, "output_failed\n")?;
    flushes_once(&rt, "", 1, "refused 12 missing_part line 1\n", "")
}

/// Gives or takes one byte a call, and fails at a call, or never where that is 0.
#[derive(Drop)]
struct Failing<'t> {
    rest: &'t [u8],
    taken: Vec<u8>,
    call: usize,
    fails_at: usize,
}

impl Failing<'_> {
    /// Whether the call that begins now is the one that fails.
    fn fails(&mut self) -> bool {
        self.call = self.call.saturating_add(1);
        self.call == self.fails_at
    }
}

impl Read for Failing<'_> {
    fn read(&mut self, buf: &mut [u8]) -> io::Result<usize> {
        if self.fails() {
            return Err(io::Error::other("broken"));
        }
        let wanted = buf.len().min(1);
        self.rest.read(&mut buf[..wanted])
    }
}

impl Write for Failing<'_> {
    fn write(&mut self, buf: &[u8]) -> io::Result<usize> {
        if self.fails() {
            return Err(io::Error::other("broken"));
        }
        let taken = buf.len().min(1);
        match self.taken.extend_from_slice(&buf[..taken]) {
            Ok(()) => Ok(taken),
            Err(_) => Ok(0),
        }
    }

    fn flush(&mut self) -> io::Result<()> {
        Ok(())
    }
}

/// A device that has these bytes to give, and fails at this call.
fn fails_at_call(alloc: Global, rest: &[u8], fails_at: usize) -> Failing<'_> {
    Failing {
        rest,
        taken: Vec::new(alloc),
        call: 0,
        fails_at,
    }
}

#[test]
fn input_fails_at_each_call(rt: HostRuntime) -> Result<(), Fail> {
    let alloc = rt.alloc();
    let (text, report) = OWN_STORE;
    for call in 0..64 {
        let mut input = Counted::new(fails_at_call(alloc, text.as_bytes(), call));
        let mut output = Counted::new(Vec::new(alloc));
        let outcome = run(&rt, alloc, &mut input, &mut output, ONE_WORKER);
        let written = output.into_inner();
        if call == 0 {
            assert!(rt; outcome.is_ok());
            assert_eq!(rt; input.failures(), 0);
            assert_eq!(rt; written.as_slice(), report.as_bytes());
        } else {
            assert!(rt; outcome == Err(RunFault::InputFailed));
            assert_eq!(rt; input.failures(), 1);
            assert!(rt; written.is_empty());
        }
    }
    Ok(())
}

#[test]
fn output_fails_at_each_call(rt: HostRuntime) -> Result<(), Fail> {
    let alloc = rt.alloc();
    let (text, report) = OWN_STORE;
    assert_eq!(rt; report.len(), 102);
    for call in 1..104 {
        let mut input = Counted::new(text.as_bytes());
        let mut output = Counted::new(fails_at_call(alloc, &[], call));
        let outcome = run(&rt, alloc, &mut input, &mut output, ONE_WORKER);
        let taken = call.min(103) - 1;
        if call == 103 {
            assert!(rt; outcome.is_ok());
            assert_eq!(rt; output.failures(), 0);
        } else {
            assert!(rt; outcome == Err(RunFault::OutputFailed));
            assert_eq!(rt; output.failures(), 1);
        }
        assert_eq!(rt;
            output.into_inner().taken.as_slice(),
            &report.as_bytes()[..taken]
        );
    }
    Ok(())
}
