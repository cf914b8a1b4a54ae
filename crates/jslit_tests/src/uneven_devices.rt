//! An input without an end, and devices that are interrupted at a call, or take nothing at one, and would go on after it.

use super::calls::ONE_WORKER;
use super::data::reports::OWN_STORE;
use jslit::{Counted, RunFault, run};
use lit_read::{ReadFault, ReadKind};
use lit_syntax::TEXT_LIMIT;
use std::alloc::AllocGlobal;
use std::io;
use std::io::{Read, Write};
use std::process::Abort;
use std::test::Fail;
use std::thread::Threads;

/// Blanks without an end, and how many were given.
#[derive(Drop)]
struct Endless {
    given: usize,
}

impl Read for Endless {
    fn read(&mut self, buf: &mut [u8]) -> io::Result<usize> {
        for byte in buf.iter_mut() {
            *byte = b' ';
        }
        self.given = self.given.saturating_add(buf.len());
        Ok(buf.len())
    }
}

#[test]
fn input_without_an_end(rt: HostRuntime) -> Result<(), Fail> {
    let alloc = rt.alloc();
    let mut input = Counted::new(Endless { given: 0 });
    let mut output = Counted::new(Vec::new(alloc));
    let outcome = run(&rt, alloc, &mut input, &mut output, ONE_WORKER);
    let too_long = ReadFault {
        kind: ReadKind::TooLong,
        line: 1,
    };
    assert!(rt; outcome == Err(RunFault::Read(too_long)));
    assert!(rt; output.into_inner().is_empty());
    assert_eq!(rt; input.into_inner().given, TEXT_LIMIT + 1);
    Ok(())
}

/// Gives or takes one byte a call, but none at the call with a number: that one is interrupted, or takes nothing.
#[derive(Drop)]
struct Halting<'t> {
    rest: &'t [u8],
    taken: Vec<u8>,
    calls_before: usize,
    is_interrupted: bool,
}

impl Halting<'_> {
    /// Whether the call that begins now is the one.
    fn halts(&mut self) -> bool {
        let left = self.calls_before;
        self.calls_before = left.wrapping_sub(1);
        left == 0
    }
}

impl Read for Halting<'_> {
    fn read(&mut self, buf: &mut [u8]) -> io::Result<usize> {
        if self.halts() {
            return Err(io::Error::from(io::ErrorKind::Interrupted));
        }
        let wanted = buf.len().min(1);
        self.rest.read(&mut buf[..wanted])
    }
}

impl Write for Halting<'_> {
    fn write(&mut self, buf: &[u8]) -> io::Result<usize> {
        if self.halts() {
            return if self.is_interrupted {
                Err(io::Error::from(io::ErrorKind::Interrupted))
            } else {
                Ok(0)
            };
        }
        let taken = buf.len().min(1);
        match self.taken.extend_from_slice(&buf[..taken]) {
            Ok(()) => Ok(taken),
            Err(_) => Ok(0),
        }
    }

    fn flush(&mut self) -> io::Result<()> {
        Ok(())
    }
}

/// That a run ends at the first byte that the output does not take.
fn ends_there(
    rt: &(impl Threads + Sync + Abort + AllocGlobal),
    calls_before: usize,
    is_interrupted: bool,
) {
    let (text, report) = OWN_STORE;
    let mut input = Counted::new(text.as_bytes());
    let mut output = Counted::new(Halting {
        rest: &[],
        taken: Vec::new(rt.alloc()),
        calls_before,
        is_interrupted,
    });
    let outcome = run(rt, rt.alloc(), &mut input, &mut output, ONE_WORKER);
    assert!(rt; outcome == Err(RunFault::OutputFailed));
    assert_eq!(rt; output.failures(), 1);
    let taken = output.into_inner().taken;
    assert!(rt; calls_before < report.len());
    assert_eq!(rt; taken.as_slice(), &report.as_bytes()[..calls_before]);
}

#[test]
fn output_halts_at_each_call(rt: HostRuntime) -> Result<(), Fail> {
    for calls_before in 0..102 {
        ends_there(&rt, calls_before, false);
        ends_there(&rt, calls_before, true);
    }
    Ok(())
}

#[test]
fn input_is_interrupted_at_each_call(rt: HostRuntime) -> Result<(), Fail> {
    let alloc = rt.alloc();
    for calls_before in 0..63 {
        let mut input = Counted::new(Halting {
            rest: OWN_STORE.0.as_bytes(),
            taken: Vec::new(alloc),
            calls_before,
            is_interrupted: true,
        });
        let mut output = Counted::new(Vec::new(alloc));
        let outcome = run(&rt, alloc, &mut input, &mut output, ONE_WORKER);
        assert!(rt; outcome == Err(RunFault::InputFailed));
        assert_eq!(rt; input.failures(), 1);
        assert!(rt; output.into_inner().is_empty());
    }
    Ok(())
}
