//! Ordering: the mean time of one least memory-order by each finder, over executions of one test: in a block of sixteen
//! bytes one agent stores byte 0 four times, and three agents load it eight times, all through Atomics. And the mean time to
//! find what is forced, over these and over those of a small test: two agents store one byte each, and two others load both.

use lit_order::{ForcedFinder, OrderFinder, PlainFinder, forced_precedence};
use lit_paths::BYTE_READ_LIMIT;
use lit_rel::{Between, EventSet, Rows};
use std::alloc::{AllocError, Global};
use std::io;
use std::time::Instant;

/// The events by number: what makes the block, then the stores, then the loads.
const EVENTS: usize = 28;

const FIRST_STORE: usize = 16;

const FIRST_LOAD: usize = 20;

/// How many executions are tried, and how often each is ordered.
const TRIED: usize = 65_536;

const TURNS: usize = 64;

/// Adds a pair to a transitive relation, and closes the relation with it.
fn close(rows: &mut Rows, a: usize, d: usize) {
    if a < rows.len() && d < rows.len() {
        rows.close_with(a, d);
    }
}

/// The happens-before of the test, where no load has a source.
fn unsourced() -> Rows {
    let mut rows = Rows::new(EVENTS);
    for event in 1..EVENTS {
        if event < FIRST_STORE {
            close(&mut rows, event - 1, event);
        } else {
            close(&mut rows, 0, event);
        }
        let first_of_agent = event == FIRST_STORE
            || event == FIRST_LOAD
            || event == 23
            || event == 26;
        if event > FIRST_STORE && !first_of_agent {
            close(&mut rows, event - 1, event);
        }
    }
    rows
}

/// happens-before and the triples, with sources by digits of a number.
fn execution(unsourced: &Rows, number: u64) -> (Rows, Between) {
    let mut rows = *unsourced;
    let mut between = Between::new(EVENTS);
    let mut left = number;
    for load in FIRST_LOAD..EVENTS {
        let digit = (left % 5) as usize;
        left /= 5;
        let source = if digit == 0 {
            0
        } else {
            FIRST_STORE + digit - 1
        };
        if digit > 0 {
            close(&mut rows, source, load);
        }
        let mut others = EventSet::new();
        for store in FIRST_STORE..FIRST_LOAD {
            if store != source {
                others = others.with(store);
            }
        }
        let room = between.pairs().len() < BYTE_READ_LIMIT
            && source < between.len()
            && load < between.len();
        if room {
            between.forbid(source as u8, load as u8, others);
        }
    }
    (rows, between)
}

/// Those executions of the first `TRIED` (by a step that mixes the digits) that have an order.
fn executions(alloc: Global) -> Result<Vec<(Rows, Between)>, AllocError> {
    let unsourced = unsourced();
    let mut all = Vec::new(alloc);
    for number in 0..TRIED {
        let one = execution(&unsourced, (number as u64).wrapping_mul(48_271) % 390_625);
        let same = one.0.len() == one.1.len();
        if same && !one.0.has_cycle() && ForcedFinder.least_order(&one.0, &one.1).is_some() {
            all.push(one)?;
        }
    }
    Ok(all)
}

/// The executions of the small test: 0 and 1 make the bytes, 2 stores byte 0 and 3 byte 1, 4 and 5 load bytes 0 and 1,
/// and 6 and 7 bytes 1 and 0.
fn small_executions(alloc: Global) -> Result<Vec<(Rows, Between)>, AllocError> {
    let mut all = Vec::new(alloc);
    for number in 0..16u32 {
        let mut rows = Rows::new(8);
        close(&mut rows, 0, 1);
        for access in 2..8 {
            close(&mut rows, 1, access);
        }
        close(&mut rows, 4, 5);
        close(&mut rows, 6, 7);
        let mut between = Between::new(8);
        for (place, load) in [4, 5, 6, 7].iter().enumerate() {
            let byte = if *load == 4 || *load == 7 { 0 } else { 1 };
            let store = byte + 2;
            let read = *load as usize;
            let from_store = (number >> (place as u32 % 4)) & 1 == 1;
            let room = between.pairs().len() < BYTE_READ_LIMIT && between.len() == 8;
            if from_store {
                close(&mut rows, store, read);
            } else if room && byte < 2 && read < 8 {
                between.forbid(byte as u8, read as u8, EventSet::new().with(store));
            }
        }
        all.push((rows, between))?;
    }
    Ok(all)
}

/// How many executions have no event that is forced before itself, where each is searched so many times.
fn unbroken(all: &[(Rows, Between)], turns: usize) -> usize {
    let mut count: usize = 0;
    for _ in 0..turns {
        for one in all {
            if one.0.len() == one.1.len() && forced_precedence(&one.0, &one.1).is_some() {
                count = count.saturating_add(1);
            }
        }
    }
    count
}

/// How many orders a finder finds, where it searches each execution `TURNS` times.
fn found<F: OrderFinder>(finder: &F, all: &[(Rows, Between)]) -> usize {
    let mut count: usize = 0;
    for _ in 0..TURNS {
        for one in all {
            if one.0.len() == one.1.len() && finder.least_order(&one.0, &one.1).is_some() {
                count = count.saturating_add(1);
            }
        }
    }
    count
}

/// Prints the mean time of one order.
fn report<F: OrderFinder>(
    rt: &HostRuntime,
    name: &str,
    finder: &F,
    all: &[(Rows, Between)],
) -> io::Result<()> {
    let start = Instant::now(rt)?;
    let orders = found(finder, all);
    let spent = start.elapsed(rt)?.as_nanos();
    let asked = all.len().max(1);
    println!(rt;
        "{name}: {} ns an answer, {} executions, {} orders",
        spent / (asked as u128) / (TURNS as u128),
        asked,
        orders / TURNS
    )
}

/// Prints the mean time to find what is forced.
fn report_forced(
    rt: &HostRuntime,
    name: &str,
    all: &[(Rows, Between)],
    turns: usize,
) -> io::Result<()> {
    let start = Instant::now(rt)?;
    let count = unbroken(all, turns);
    let spent = start.elapsed(rt)?.as_nanos();
    let asked = all.len().max(1);
    let each = turns.max(1);
    println!(rt;
        "{name}: {} ns an answer, {} executions, {} of them unbroken",
        spent / (asked as u128) / (each as u128),
        asked,
        count / each
    )
}

/// Prints the mean times.
pub(super) fn measure(rt: &HostRuntime) -> io::Result<()> {
    let all = executions(rt.alloc())?;
    report(rt, "ForcedFinder", &ForcedFinder, all.as_slice())?;
    report(rt, "PlainFinder", &PlainFinder, all.as_slice())?;
    report_forced(rt, "forced_precedence", all.as_slice(), TURNS)?;
    let small = small_executions(rt.alloc())?;
    report_forced(
        rt,
        "forced_precedence of eight events",
        small.as_slice(),
        8_192,
    )
}
