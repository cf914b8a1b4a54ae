//! Gates that hold a worker until others have come: workers run at once, and draw from one desk.

use lit_paths::{Plan, plan};
use lit_read::read;
use lit_share::{Gate, Quick, quick, search};
use lit_test_texts::{LOAD_BUFFERING, STORE_BUFFERING};
use std::alloc::AllocGlobal;
use std::process::Abort;
use std::sync::atomic::{AtomicBool, AtomicU64, Ordering};
use std::test::Fail;
use std::thread;
use std::thread::Threads;

/// Turns that a worker waits at the most.
const TURNS: u64 = 10_000_000;

/// A gate that delays the worker of one piece until others were entered.
#[derive(Drop)]
struct Holding {
    held: u64,
    /// The pieces to wait for, as a set of bits.
    awaited: u64,
    entered: AtomicU64,
    calls: AtomicU64,
    /// A worker came with the pass of another.
    exchanged: AtomicBool,
    /// The pieces did not come in time.
    gave_up: AtomicBool,
}

impl Holding {
    fn new(held: u64, awaited: u64) -> Holding {
        Holding {
            held,
            awaited,
            entered: AtomicU64::new(0),
            calls: AtomicU64::new(0),
            exchanged: AtomicBool::new(false),
            gave_up: AtomicBool::new(false),
        }
    }

    /// Whether these pieces were entered, each once, each worker came with its own pass, and the delay did not run out of turns.
    fn let_all_in(&self, pieces: u64) -> bool {
        self.entered.load(Ordering::SeqCst) == pieces
            && self.calls.load(Ordering::SeqCst) == u64::from(pieces.count_ones())
            && !self.exchanged.load(Ordering::SeqCst)
            && !self.gave_up.load(Ordering::SeqCst)
    }
}

impl Gate for Holding {
    /// The number of the worker.
    type Pass = usize;

    fn at(&self, pass: &mut usize, worker: usize, piece: u64) {
        self.calls.fetch_add(1, Ordering::SeqCst);
        if *pass != worker {
            self.exchanged.store(true, Ordering::SeqCst);
        }
        self.entered
            .fetch_or(1u64.wrapping_shl((piece % 64) as u32), Ordering::SeqCst);
        if piece != self.held {
            return;
        }
        for _ in 0..TURNS {
            if self.entered.load(Ordering::SeqCst) & self.awaited == self.awaited {
                return;
            }
            thread::yield_now();
        }
        self.gave_up.store(true, Ordering::SeqCst);
    }
}

/// That two workers search a test of three outcomes, two choices a piece, while the gate holds one of its two pieces.
fn searches_halves(
    rt: &(impl Abort + AllocGlobal + Threads + Sync),
    plan: &Plan<'_>,
    gate: &Holding,
) -> Result<(), Fail> {
    let passes = vec![in rt.alloc(); 0, 1]?;
    let found = search(rt, rt.alloc(), plan, 2, gate, passes)?;
    assert_eq!(rt; found.len(), 3);
    assert!(rt; gate.let_all_in(0b11));
    Ok(())
}

/// The same of a quick search that meets no condition.
fn quick_on_halves(
    rt: &(impl Abort + AllocGlobal + Threads + Sync),
    plan: &Plan<'_>,
    gate: &Holding,
) -> Result<(), Fail> {
    let passes = vec![in rt.alloc(); 0, 1]?;
    let quick = quick(rt, rt.alloc(), plan, 2, gate, passes)?;
    assert!(rt; quick.met.is_none());
    assert!(rt; gate.let_all_in(0b11));
    Ok(())
}

#[test]
fn gate_holds_first_piece(rt: HostRuntime) -> Result<(), Fail> {
    let test = read(rt.alloc(), STORE_BUFFERING.as_bytes())?;
    let plan = plan(rt.alloc(), &test)?;
    searches_halves(&rt, &plan, &Holding::new(0, 0b10))?;
    quick_on_halves(&rt, &plan, &Holding::new(0, 0b10))
}

/// Each of four pieces, and the other three as a set of bits.
const HELD: [(u64, u64); 4] = [(0, 0b1110), (1, 0b1101), (2, 0b1011), (3, 0b0111)];

/// That two workers search a test of three outcomes and four pieces while the gate holds one of them.
fn searches_pieces(
    rt: &(impl Abort + AllocGlobal + Threads + Sync),
    plan: &Plan<'_>,
    held: u64,
    awaited: u64,
) -> Result<(), Fail> {
    let gate = Holding::new(held, awaited);
    let passes = vec![in rt.alloc(); 0, 1]?;
    let found = search(rt, rt.alloc(), plan, 1, &gate, passes)?;
    assert_eq!(rt; found.len(), 3);
    assert!(rt; gate.let_all_in(0b1111), "held {held}");
    Ok(())
}

/// The same of a quick search that finds an outcome that does not meet the condition, and none that does.
fn quick_on_pieces(
    rt: &(impl Abort + AllocGlobal + Threads + Sync),
    plan: &Plan<'_>,
    held: u64,
    awaited: u64,
) -> Result<(), Fail> {
    let gate = Holding::new(held, awaited);
    let passes = vec![in rt.alloc(); 0, 1]?;
    let quick = quick(rt, rt.alloc(), plan, 1, &gate, passes)?;
    assert!(rt; quick.met.is_none());
    assert!(rt; quick.unmet.is_some());
    assert!(rt; gate.let_all_in(0b1111), "held {held}");
    Ok(())
}

#[test]
fn gate_drains_desk(rt: HostRuntime) -> Result<(), Fail> {
    let test = read(rt.alloc(), STORE_BUFFERING.as_bytes())?;
    let plan = plan(rt.alloc(), &test)?;
    for (held, awaited) in &HELD {
        searches_pieces(&rt, &plan, *held, *awaited)?;
    }
    Ok(())
}

#[test]
fn gate_drains_desk_of_quick(rt: HostRuntime) -> Result<(), Fail> {
    let test = read(rt.alloc(), STORE_BUFFERING.as_bytes())?;
    let plan = plan(rt.alloc(), &test)?;
    for (held, awaited) in &HELD {
        quick_on_pieces(&rt, &plan, *held, *awaited)?;
    }
    Ok(())
}

/// The answer of a quick search by three workers, a choice a piece.
fn quick_by_three(
    rt: &(impl AllocGlobal + Threads + Sync),
    plan: &Plan<'_>,
    gate: &Holding,
) -> Result<Quick, Fail> {
    let passes = vec![in rt.alloc(); 0, 1, 2]?;
    Ok(quick(rt, rt.alloc(), plan, 1, gate, passes)?)
}

#[test]
fn gate_holds_one_of_three(rt: HostRuntime) -> Result<(), Fail> {
    let test = read(rt.alloc(), LOAD_BUFFERING.as_bytes())?;
    let plan = plan(rt.alloc(), &test)?;
    let gate = Holding::new(0, 0b10);
    let quick = quick_by_three(&rt, &plan, &gate)?;
    let (Some(met), Some(unmet)) = (quick.met, quick.unmet) else {
        panic!(rt; "each class has an outcome")
    };
    assert_eq!(rt; met.choice, 3);
    assert_eq!(rt; met.order.as_slice(), [0, 1, 2, 3, 4, 5].as_slice());
    assert_eq!(rt; unmet.choice, 8);
    assert_eq!(rt; unmet.order.as_slice(), [0, 1, 2, 3].as_slice());
    assert!(rt; gate.let_all_in(0b1_1111_1111));
    Ok(())
}
