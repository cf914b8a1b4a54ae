//! What a watch sees of a run: as many workers and pieces as the run is told, each piece entered once.

use super::data::independent_reads::INDEPENDENT_READS;
use super::workers::INDEPENDENT_READS_QUICK;
use jslit::{Counted, Options, Watch, run_watched};
use lit_share::{CUT_LIMIT, Gate, WORKER_LIMIT};
use std::alloc::AllocGlobal;
use std::process::Abort;
use std::sync::atomic::{AtomicU64, Ordering};
use std::test::Fail;
use std::thread;
use std::thread::Threads;

/// Turns that a worker waits at the most.
const TURNS: u64 = 10_000_000;

/// The choices of the test: four bytes are read, each of two stores.
const CHOICES: u64 = 16;

/// Counts what it is told, and holds each worker until so many have entered a piece.
#[derive(Drop)]
struct Counting {
    /// The workers to wait for, as a set of bits.
    awaited: u64,
    /// The workers that have come, as a set of bits.
    workers: AtomicU64,
    /// How often each piece was entered, in four bits each.
    entered: AtomicU64,
    /// How many pieces there are said to be, and how often this was said, and the end.
    pieces: AtomicU64,
    begun: AtomicU64,
    ended: AtomicU64,
    /// A worker came with the pass of another, or the others did not come in time, or the search had not begun.
    failed: AtomicU64,
}

impl Counting {
    fn new(awaited: u64) -> Counting {
        Counting {
            awaited,
            workers: AtomicU64::new(0),
            entered: AtomicU64::new(0),
            pieces: AtomicU64::new(0),
            begun: AtomicU64::new(0),
            ended: AtomicU64::new(0),
            failed: AtomicU64::new(0),
        }
    }

    fn fail(&self) {
        self.failed.store(1, Ordering::SeqCst);
    }
}

impl Gate for Counting {
    /// The number of the worker.
    type Pass = usize;

    fn at(&self, pass: &mut usize, worker: usize, piece: u64) {
        if *pass != worker
            || self.begun.load(Ordering::SeqCst) != 1
            || self.ended.load(Ordering::SeqCst) != 0
        {
            self.fail();
        }
        self.entered.fetch_add(1u64.wrapping_shl((piece % 16) as u32 * 4), Ordering::SeqCst);
        self.workers
            .fetch_or(1u64.wrapping_shl((worker % 64) as u32), Ordering::SeqCst);
        for _ in 0..TURNS {
            if self.workers.load(Ordering::SeqCst) & self.awaited == self.awaited {
                return;
            }
            thread::yield_now();
        }
        self.fail();
    }
}

impl Watch for Counting {
    fn begin(&self, pieces: u64) {
        self.pieces.store(pieces, Ordering::SeqCst);
        self.begun.fetch_add(1, Ordering::SeqCst);
    }

    fn end(&self) {
        self.ended.fetch_add(1, Ordering::SeqCst);
    }
}

/// That so many workers, with this cut, enter so many pieces, each once, that these workers all come, and that they answer as one does.
fn enters(
    rt: &(impl Threads + Sync + Abort + AllocGlobal),
    workers: usize,
    cut: u64,
    quick: bool,
    pieces: u64,
    awaited: u64,
) -> Result<(), Fail> {
    let alloc = rt.alloc();
    let options = Options {
        workers: workers.clamp(1, WORKER_LIMIT),
        cut: cut.clamp(1, CUT_LIMIT),
        quick,
    };
    let mut passes = Vec::new(alloc);
    for number in 0..options.workers {
        passes.push(number)?;
    }
    assert_eq!(rt; passes.len(), options.workers);
    let watch = Counting::new(awaited);
    let mut input = Counted::new(INDEPENDENT_READS.0.as_bytes());
    let mut output = Counted::new(Vec::new(alloc));
    let answered = run_watched(rt, alloc, &mut input, &mut output, options, &watch, passes);
    assert!(rt; answered.is_ok());
    let report = if quick {
        INDEPENDENT_READS_QUICK
    } else {
        INDEPENDENT_READS.1
    };
    assert_eq!(rt; output.into_inner().as_slice(), report.as_bytes());
    let mut once_each = 0u64;
    for piece in 0..pieces.min(16) {
        once_each |= 1u64.wrapping_shl(piece as u32 * 4);
    }
    assert_eq!(rt; watch.pieces.load(Ordering::SeqCst), pieces);
    assert_eq!(rt; watch.entered.load(Ordering::SeqCst), once_each);
    assert_eq!(rt; watch.workers.load(Ordering::SeqCst), awaited);
    assert_eq!(rt; watch.begun.load(Ordering::SeqCst), 1);
    assert_eq!(rt; watch.ended.load(Ordering::SeqCst), 1);
    assert_eq!(rt; watch.failed.load(Ordering::SeqCst), 0);
    Ok(())
}

#[test]
fn as_many_workers_as_told(rt: HostRuntime) -> Result<(), Fail> {
    enters(&rt, 3, 1, false, CHOICES, 0b111)?;
    enters(&rt, 3, 1, true, CHOICES, 0b111)?;
    enters(&rt, 2, 5, false, 4, 0b11)
}

#[test]
fn pieces_as_told(rt: HostRuntime) -> Result<(), Fail> {
    enters(&rt, 2, 8, false, 2, 0b11)?;
    enters(&rt, 2, 15, true, 2, 0b11)?;
    enters(&rt, 1, 1, false, 1, 0b1)?;
    enters(&rt, 1, 5, false, 1, 0b1)?;
    enters(&rt, 1, 1, true, 1, 0b1)
}
