//! `lit_solve`: data races that the sources of a read rule out together.

use lit_paths::{BYTE_READ_LIMIT, Plan, plan};
use lit_read::read;
use lit_rel::EventSet;
use lit_solve::{Boxes, Domains, Goal, Problem, exists};
use std::test::Fail;

/// Seven agents load a flag that is raised nine times after a plain store, and where it is raised they load what was stored. Whichever
/// of the nine stores a load reads, the plain store comes before the second load. A search that branches on these sources one by one has
/// ten million leaves.
const RAISED_NINE_TIMES: &str = "test flag
bytes 2
agent A
U8[0] = 1
Atomics.store(U8, 1, 1)
Atomics.store(U8, 1, 1)
Atomics.store(U8, 1, 1)
Atomics.store(U8, 1, 1)
Atomics.store(U8, 1, 1)
Atomics.store(U8, 1, 1)
Atomics.store(U8, 1, 1)
Atomics.store(U8, 1, 1)
Atomics.store(U8, 1, 1)
agent B
r0 = Atomics.load(U8, 1)
if r0 == 1 {
r1 = U8[0]
}
agent C
r0 = Atomics.load(U8, 1)
if r0 == 1 {
r1 = U8[0]
}
agent D
r0 = Atomics.load(U8, 1)
if r0 == 1 {
r1 = U8[0]
}
agent E
r0 = Atomics.load(U8, 1)
if r0 == 1 {
r1 = U8[0]
}
agent F
r0 = Atomics.load(U8, 1)
if r0 == 1 {
r1 = U8[0]
}
agent G
r0 = Atomics.load(U8, 1)
if r0 == 1 {
r1 = U8[0]
}
agent H
r0 = Atomics.load(U8, 1)
if r0 == 1 {
r1 = U8[0]
}
check B.r0 == 1 && B.r1 == 0
";

/// Whether some box of all choices on a combination has a completion with a data race.
fn has_race(plan: &Plan<'_>) -> bool {
    // For the prover: the plan's test is one that a text can say.
    let _test = plan.test();
    for number in 0..plan.combinations() {
        let problem = Problem::open(&*plan, number);
        let combination = problem.combination();
        if combination.first() >= combination.end() {
            return true;
        }
        let boxes = Boxes::of_range(combination, combination.first(), combination.end());
        for i in 0..boxes.len() {
            let mut domains: Domains = [EventSet::new(); BYTE_READ_LIMIT];
            boxes.put(i, &mut domains);
            if exists(&problem, &domains, Goal::Race) {
                return true;
            }
        }
    }
    false
}

#[test]
fn all_sources_of_a_flag_order_what_its_readers_load(rt: HostRuntime) -> Result<(), Fail> {
    let test = read(rt.alloc(), RAISED_NINE_TIMES.as_bytes())?;
    let plan = plan(rt.alloc(), &test)?;
    assert!(rt; !has_race(&plan));
    Ok(())
}
