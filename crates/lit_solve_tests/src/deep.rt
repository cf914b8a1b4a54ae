//! `lit_solve`: searches as deep as a plan allows, each on a thread of its own.

ghost use Rattle.std.specs.Prelude.{◌≤◌};
ghost use Rattle.lit_solve.specs.Box.{IsBox, box_with};

use lit_paths::{BYTE_READ_LIMIT, EVENT_LIMIT, Plan, plan};
use lit_read::read;
use lit_rel::EventSet;
use lit_solve::{Boxes, Domains, Goal, Problem, exists, least};
use lit_valid::Class;
use std::alloc::AllocGlobal;
use std::process::Abort;
use std::test::Fail;
use std::thread::{Threads, join_mut};

/// Thirty byte reads with three sources each, init, event 12 and event 13: no plan has more such byte reads. Each of the two events could
/// force something, since the other one has its range too; but no load is ordered with them, so each choice is valid. The search branches
/// on each byte read by the bytes that its sources store, and then source by source on those that store 0: sixty cuts.
const THREE_SOURCES: &str = "test three
bytes 4
agent A
r0 = DV.getUint32(0, true)
r1 = DV.getUint32(0, true)
r2 = DV.getUint32(0, true)
r3 = DV.getUint32(0, true)
r4 = DV.getUint32(0, true)
r5 = DV.getUint32(0, true)
r6 = DV.getUint32(0, true)
r7 = DV.getUint16(0, true)
agent B
Atomics.store(U32, 0, 0)
Atomics.store(U32, 0, 16843009)
check A.r0 == 0 && A.r1 == 0 && A.r2 == 0 && A.r3 == 0 && A.r4 == 0 && A.r5 == 0 && A.r6 == 0 && A.r7 == 0
";

/// Twenty such byte reads, with the sources init, event 10 and event 11, and sixteen with the sources init and event 28. The loads of the
/// sixteen and event 28 are sequentially consistent: the store comes after each load that reads 0, and before each that reads 1.
/// Thirty-six cuts, source by source.
const MIXED_SOURCES: &str = "test mixed
bytes 5
agent A
r0 = DV.getUint32(0, true)
r1 = DV.getUint32(0, true)
r2 = DV.getUint32(0, true)
r3 = DV.getUint32(0, true)
r4 = DV.getUint32(0, true)
agent B
Atomics.store(U32, 0, 0)
Atomics.store(U32, 0, 16843009)
agent C
r0 = Atomics.load(U8, 4)
r0 = Atomics.load(U8, 4)
r0 = Atomics.load(U8, 4)
r0 = Atomics.load(U8, 4)
r0 = Atomics.load(U8, 4)
r0 = Atomics.load(U8, 4)
r0 = Atomics.load(U8, 4)
r0 = Atomics.load(U8, 4)
r0 = Atomics.load(U8, 4)
r0 = Atomics.load(U8, 4)
r0 = Atomics.load(U8, 4)
r0 = Atomics.load(U8, 4)
r0 = Atomics.load(U8, 4)
r0 = Atomics.load(U8, 4)
r0 = Atomics.load(U8, 4)
r0 = Atomics.load(U8, 4)
agent D
Atomics.store(U8, 4, 1)
check A.r0 == 0 && A.r1 == 0 && A.r2 == 0 && A.r3 == 0 && A.r4 == 0
";

/// Forty-eight byte reads with two sources each, init and event 16, which can't force anything: no plan has more such byte reads. Each
/// choice is valid, and none meets the condition, but that shows only at the end: the condition depends on each byte read in turn, as long
/// as those before it read 0. Byte reads on which the search doesn't branch are filled read by read.
const TWO_SOURCES: &str = "test two
bytes 4
agent A
r0 = DV.getUint32(0, true)
r1 = DV.getUint32(0, true)
r2 = DV.getUint32(0, true)
r3 = DV.getUint32(0, true)
r4 = DV.getUint32(0, true)
r5 = DV.getUint32(0, true)
r6 = DV.getUint32(0, true)
r7 = DV.getUint32(0, true)
agent B
r0 = DV.getUint32(0, true)
r1 = DV.getUint32(0, true)
r2 = DV.getUint32(0, true)
r3 = DV.getUint32(0, true)
agent C
U32[0] = 16843009
check A.r0 != 0 && A.r0 == 0 && A.r1 == 0 && A.r2 == 0 && A.r3 == 0 && A.r4 == 0 && A.r5 == 0 && A.r6 == 0 \
    && A.r7 == 0 && B.r0 == 0 && B.r1 == 0 && B.r2 == 0 && B.r3 == 0
";

/// A goal, and which valid choices meet it: those with one of these events as a source, or, if not `some`, those with none.
#[derive(Clone, Copy)]
struct Query {
    goal: Goal,
    events: EventSet,
    some: bool,
}

/// The queries on the boxes of a test where a choice meets the condition unless one of the events `against` is a source, and has a data
/// race exactly if one of the events `apart` is a source.
fn queries_on(against: EventSet, apart: EventSet) -> [Query; 4] {
    let any = Query {
        goal: Goal::Any,
        events: EventSet::below(EVENT_LIMIT),
        some: true,
    };
    let met = Query {
        goal: Goal::OfClass(Class::Met),
        events: against,
        some: false,
    };
    let unmet = Query {
        goal: Goal::OfClass(Class::Unmet),
        events: against,
        some: true,
    };
    let race = Query {
        goal: Goal::Race,
        events: apart,
        some: true,
    };
    [any, met, unmet, race]
}

/// The least sources in domains that meet a query: the least of each domain. If one of the query's events is wanted and none of them is
/// such a least source, the last byte read that can have one has it.
fn wanted(domains: &Domains, reads: usize, query: Query) -> Option<[u8; BYTE_READ_LIMIT]>
    requires { reads ≤ BYTE_READ_LIMIT }
{
    let mut sources = [0u8; BYTE_READ_LIMIT];
    let mut some = false;
    for place in 0..reads {
        let (source, _others) = domains[place].split_first()?;
        sources[place] = u8::try_from(source).ok()?;
        if let Some((event, _others)) = domains[place].intersection(query.events).split_first() {
            some = some || event == source;
        }
    }
    if some == query.some {
        return Some(sources);
    }
    if some {
        return None;
    }
    for place in (0..reads).rev() {
        if let Some((source, _others)) = domains[place].intersection(query.events).split_first() {
            sources[place] = u8::try_from(source).ok()?;
            return Some(sources);
        }
    }
    None
}

/// Whether a box answers a query as wanted.
fn is_answered(problem: &Problem<'_>, domains: &Domains, query: Query) -> bool
    requires { IsBox (box_with problem.now domains.now) }
{
    let reads = problem
        .combination()
        .byte_reads()
        .len()
        .min(BYTE_READ_LIMIT);
    let found = least(problem, domains, query.goal);
    if exists(problem, domains, query.goal) != found.is_some() {
        return false;
    }
    match (found, wanted(domains, reads, query)) {
        (Some(one), Some(sources)) => one.sources.as_slice() == &sources[..reads],
        (None, None) => true,
        _ => false,
    }
}

/// How many boxes a range of choices on the first combination has, if each answers all queries as wanted.
fn answered(plan: &Plan<'_>, (from, to): (u64, u64), queries: &[Query]) -> Option<usize> {
    // For the prover: the plan's test is one that a text can say, and has a combination 0.
    let _test = plan.test();
    let _combinations = plan.combinations();
    let problem = Problem::open(plan, 0);
    let combination = problem.combination();
    if from >= to || from >= combination.end() || to <= combination.first() {
        return None;
    }
    let boxes = Boxes::of_range(combination, from, to);
    for i in 0..boxes.len() {
        let mut domains: Domains = [EventSet::new(); BYTE_READ_LIMIT];
        boxes.put(i, &mut domains);
        for query in queries {
            if !is_answered(&problem, &domains, *query) {
                return None;
            }
        }
    }
    Some(boxes.len())
}

/// That a range of choices of a test has so many boxes, and each answers all queries as wanted. The search runs on its own thread.
fn assert_answered(
    rt: &(impl Abort + AllocGlobal + Threads),
    text: &str,
    range: (u64, u64),
    queries: &[Query],
    wanted: usize,
) -> Result<(), Fail> {
    let test = read(rt.alloc(), text.as_bytes())?;
    let plan = plan(rt.alloc(), &test)?;
    let (boxes, ()) = join_mut(rt, &mut || answered(&plan, range, queries), &mut || ());
    assert_eq!(rt; boxes, Some(wanted));
    Ok(())
}

/// All choices, and all but the first and the last one. The latter range is cut on both sides: a box for each place where sources first
/// differ from those of an end, one box between both, and the ends.
#[test]
fn sixty_cuts_of_thirty_bytes(rt: HostRuntime) -> Result<(), Fail> {
    let ones = EventSet::new().with(13);
    let queries = queries_on(ones, ones.with(12));
    let total = 3u64.pow(30);
    assert_answered(&rt, THREE_SOURCES, (0, total), &queries, 1)?;
    assert_answered(&rt, THREE_SOURCES, (1, total - 1), &queries, 61)
}

#[test]
fn thirty_six_bytes_branched_by_source(rt: HostRuntime) -> Result<(), Fail> {
    let ones = EventSet::new().with(11);
    let queries = queries_on(ones, ones.with(10));
    let total = 3u64.pow(20) * 2u64.pow(16);
    assert_answered(&rt, MIXED_SOURCES, (0, total), &queries, 1)
}

#[test]
fn forty_eight_bytes_branched_by_value(rt: HostRuntime) -> Result<(), Fail> {
    let queries = queries_on(EventSet::below(EVENT_LIMIT), EventSet::new().with(16));
    assert_answered(&rt, TWO_SOURCES, (0, 1 << 48), &queries, 1)
}
