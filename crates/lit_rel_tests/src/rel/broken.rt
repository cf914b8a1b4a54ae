//! What breaks a part.

use super::{give, has_combinations, of_sources, part_with_none, plan_of, test_of};
use lit_rel::Part;
use lit_test_texts::{LOAD_BUFFERING, LOAD_BUFFERING_ATOMIC, MESSAGE_PASSING, TYPED_READ};
use std::process::Abort;

const UNWRITTEN: &str = "test unwritten
bytes 1
agent A
if r0 == 1 {
r0 = U8[0]
}
check A.r0 == 0
";

const WIDE: &str = "test wide
bytes 2
agent A
r0 = U16[0]
if r0 == 256 {
r1 = U8[0]
}
agent B
U8[1] = 1
check A.r0 == 256
";

const BEHIND: &str = "test behind
bytes 3
agent A
r0 = U8[0]
Atomics.store(U8, 1, 1)
agent B
r0 = Atomics.load(U8, 1)
Atomics.store(U8, 2, 1)
agent C
r0 = Atomics.load(U8, 2)
U8[0] = 1
check A.r0 == 1
";

fn assert_breaks(rt: &impl Abort, part: &mut Part<'_>) {
    assert!(rt; !part.broken());
    give(rt, part, 0);
    assert!(rt; part.broken());
    part.pop();
    give(rt, part, 5);
    assert!(rt; !part.broken());
    give(rt, part, 3);
    assert!(rt; part.broken());
    part.pop();
    assert!(rt; !part.broken());
}

#[test]
fn a_test_or_a_cycle_breaks(rt: HostRuntime) {
    let test = test_of(&rt, LOAD_BUFFERING_ATOMIC);
    let plan = plan_of(&rt, &test);
    assert_breaks(&rt, &mut part_with_none(&rt, &plan, 0));
}

/// Combination 0 is the then-part, whose guard asks that a register that holds 0 be 1.
#[test]
fn an_unwritten_register_breaks_at_once(rt: HostRuntime) {
    let test = test_of(&rt, UNWRITTEN);
    let plan = plan_of(&rt, &test);
    has_combinations(&rt, &plan, 2);
    assert!(rt; part_with_none(&rt, &plan, 0).broken());
    assert!(rt; !part_with_none(&rt, &plan, 1).broken());
}

/// Texts with sources for the first byte reads of their first combination, and whether these break it.
const BREAKS: [(&str, &[u8], bool); 11] = [
    // Plain accesses close no cycle.
    (LOAD_BUFFERING, &[5, 3], false),
    // B loads the flag that A stores (3), so A's store of the data (2) hides init (0) from B's load of it.
    (MESSAGE_PASSING, &[3, 0], true),
    (MESSAGE_PASSING, &[3, 2], false),
    // Two stores tear, a store and init do not.
    (TYPED_READ, &[2, 3], true),
    (TYPED_READ, &[2, 1], false),
    // The load of two bytes is 2, the store 4. Its first byte alone is 0, which is not 256; but a guard is checked once all
    // bytes of its read have a source.
    (WIDE, &[0], false),
    (WIDE, &[0, 1], true),
    (WIDE, &[0, 4], false),
    // A loads byte 0 (3) from C's last store (8) and then stores byte 1 (4). B loads byte 1 (5) from it and stores byte 2
    // (6). Where C loads byte 2 (7) from that, its store comes after the load that read it: the load stands before the
    // edge from 6 to 7.
    (BEHIND, &[8], false),
    (BEHIND, &[8, 4], false),
    (BEHIND, &[8, 4, 6], true),
];

#[test]
fn sources_break_a_part_or_do_not(rt: HostRuntime) {
    for (text, sources, breaks) in BREAKS {
        let (broken, _) = of_sources(&rt, text, sources);
        assert_eq!(rt; broken, breaks, "of {} sources", sources.len());
    }
}
