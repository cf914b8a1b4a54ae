//! Parts: going over all parts of a litmus test some times. Each byte read is given each candidate in turn, also where the
//! part is broken, and it is taken back.

use lit_paths::{BYTE_READ_LIMIT, Plan, plan};
use lit_read::read;
use lit_rel::Part;
use std::test::Fail;
use std::time::Instant;

/// How many pushes are wanted at the least.
const WANTED: u64 = 2_000_000;

/// How many pushes there were, and how many made a part that is broken.
#[derive(Clone, Copy, Default)]
struct Count {
    parts: u64,
    pushes: u64,
    broken: u64,
}

/// Gives the next byte read its candidate with an index, if there is one.
fn push_candidate(part: &mut Part<'_>, index: usize) -> bool {
    let place = part.len();
    if place >= part.reads() {
        return false;
    }
    let candidates = part.combination().candidates(place);
    if index >= candidates.len() {
        return false;
    }
    let source = candidates[index];
    part.push(source);
    true
}

/// Goes over all parts of a combination.
fn walk(part: &mut Part<'_>, count: &mut Count) {
    let mut next = [0; BYTE_READ_LIMIT];
    for _ in 0..u64::MAX {
        let place = part.len();
        if place < BYTE_READ_LIMIT && push_candidate(part, next[place]) {
            next[place] = next[place].wrapping_add(1);
            if place + 1 < BYTE_READ_LIMIT {
                next[place + 1] = 0;
            }
            count.pushes = count.pushes.wrapping_add(1);
            if part.broken() {
                count.broken = count.broken.wrapping_add(1);
            }
        } else if part.len() > 0 {
            part.pop();
        } else {
            return;
        }
    }
}

/// Goes over all parts of a test.
fn walk_all(plan: &Plan<'_>, count: &mut Count) {
    for combination in 0..plan.combinations() {
        let mut part = Part::open(&*plan, combination);
        count.parts = count.parts.wrapping_add(1);
        walk(&mut part, count);
    }
}

/// Prints how many parts of the test of a text are opened, and how many pushes and pops that is in a second.
pub(super) fn measure(rt: &HostRuntime, text: &[u8]) -> Result<(), Fail> {
    let test = read(rt.alloc(), text)?;
    let plan = plan(rt.alloc(), &test)?;
    let mut one = Count::default();
    walk_all(&plan, &mut one);
    let turns = WANTED
        .checked_div(one.pushes)
        .unwrap_or(0)
        .saturating_add(1);
    let mut count = Count::default();
    let start = Instant::now(rt)?;
    for _ in 0..turns {
        walk_all(&plan, &mut count);
    }
    let spent = start.elapsed(rt)?.as_nanos().max(1);
    let second = u128::from(count.pushes).saturating_mul(1_000_000_000) / spent;
    println!(rt;
        "{} parts opened, {} pushes, {} of them broken: {} pushes and pops a second",
        one.parts, one.pushes, one.broken, second
    )?;
    Ok(())
}
