//! The relations of whole choices.

use super::{
    assert_pairs, assert_triples, give, has_choices, part_of, part_with_none, plan_of, test_of,
};
use lit_paths::Plan;
use lit_rel::Part;
use lit_test_texts::{
    MESSAGE_PASSING, OWN_STORE, STORE_BUFFERING, STORE_BUFFERING_MIXED, STORE_BUFFERING_PLAIN,
    TYPED_READ, VIEWED_READ,
};
use std::process::Abort;

/// A choice, of this number of events, forbids these triples and no other.
fn assert_forbids<'p>(
    rt: &impl Abort,
    plan: &'p Plan<'p>,
    choice: u64,
    events: usize,
    wanted: &[(usize, usize, usize)],
) {
    assert!(rt; choice < plan.total());
    let between = part_of(plan, plan.combination(choice), choice).between();
    assert_eq!(rt; between.len(), events);
    assert_triples(rt, &between, wanted);
}

#[test]
fn store_buffering_forbids_these_triples(rt: HostRuntime) {
    let test = test_of(&rt, STORE_BUFFERING);
    let plan = plan_of(&rt, &test);
    has_choices(&rt, &plan, 4);
    assert_forbids(&rt, &plan, 0, 6, &[(1, 3, 4), (0, 5, 2)]);
}

/// In a choice these pairs read from one another, and these synchronize.
fn assert_synchronizes<'p>(
    rt: &impl Abort,
    plan: &'p Plan<'p>,
    choice: u64,
    read: &[(usize, usize)],
    wanted: &[(usize, usize)],
) {
    assert!(rt; choice < plan.total());
    let part = part_of(plan, plan.combination(choice), choice);
    assert_pairs(rt, &part.reads_from(), read);
    assert_pairs(rt, &part.synchronizes(), wanted);
}

#[test]
fn store_buffering_synchronizes(rt: HostRuntime) {
    let test = test_of(&rt, STORE_BUFFERING);
    let plan = plan_of(&rt, &test);
    has_choices(&rt, &plan, 4);
    assert_synchronizes(&rt, &plan, 2, &[(3, 4), (5, 0)], &[(4, 3)]);
}

/// B loads the flag (4) that A stores (3), and then the data (5) that A stored before it (2): what A stores happens before
/// what B loads as long as the flag is read from A.
fn assert_flagged(rt: &impl Abort, part: &mut Part<'_>) {
    let first = part.happens_before();
    give(rt, part, 3);
    let flagged = part.happens_before();
    give(rt, part, 2);
    part.pop();
    part.pop();
    let last = part.happens_before();
    assert!(rt; first.len() == 6 && flagged.len() == 6 && last.len() == 6);
    assert!(rt; !first.holds(2, 5) && flagged.holds(2, 5) && !last.holds(2, 5));
}

#[test]
fn a_flag_orders_and_is_taken_back(rt: HostRuntime) {
    let test = test_of(&rt, MESSAGE_PASSING);
    let plan = plan_of(&rt, &test);
    assert_flagged(&rt, &mut part_with_none(&rt, &plan, 0));
}

/// In each choice these pairs synchronize.
fn all_synchronize<'p>(rt: &impl Abort, plan: &'p Plan<'p>, wanted: &[(usize, usize)]) {
    for choice in 0..plan.total() {
        let part = part_of(plan, plan.combination(choice), choice);
        assert_pairs(rt, &part.synchronizes(), wanted);
    }
}

/// In each choice these pairs are in happens-before.
fn all_happen_before<'p>(rt: &impl Abort, plan: &'p Plan<'p>, wanted: &[(usize, usize)]) {
    for choice in 0..plan.total() {
        let part = part_of(plan, plan.combination(choice), choice);
        assert_pairs(rt, &part.happens_before(), wanted);
    }
}

/// The init events are one list, each agent's accesses another, and an init event comes before each access of its byte.
/// A stores byte 0 (2) and loads byte 1 (3), B stores byte 1 (4) and loads byte 0 (5).
const AGENT_ORDERED: [(usize, usize); 10] = [
    (0, 1),
    (0, 2),
    (0, 3),
    (0, 4),
    (0, 5),
    (1, 3),
    (1, 4),
    (1, 5),
    (2, 3),
    (4, 5),
];

#[test]
fn plain_accesses_are_agent_ordered(rt: HostRuntime) {
    let test = test_of(&rt, STORE_BUFFERING_PLAIN);
    let plan = plan_of(&rt, &test);
    all_synchronize(&rt, &plan, &[]);
    all_happen_before(&rt, &plan, &AGENT_ORDERED);
}

#[test]
fn mixed_sizes_never_synchronize_nor_forbid(rt: HostRuntime) {
    let test = test_of(&rt, STORE_BUFFERING_MIXED);
    let plan = plan_of(&rt, &test);
    has_choices(&rt, &plan, 4);
    all_synchronize(&rt, &plan, &[]);
    for choice in 0..4 {
        assert_forbids(&rt, &plan, choice, 8, &[]);
    }
}

/// Some choice has these sources, and there event 4 has this value, and the reads are tear free or not.
fn assert_read(rt: &impl Abort, plan: &Plan<'_>, wanted: [u8; 2], value: u32, tear_free: bool) {
    let mut found = false;
    for choice in 0..plan.total() {
        let combination = plan.combination(choice);
        let sources = plan.enter(combination).sources(choice);
        if sources.as_slice() == wanted.as_slice() {
            let events = plan.events(combination);
            assert!(rt; events.len() == 5 && events[4].kind.does_read());
            let part = part_of(plan, combination, choice);
            assert_eq!(rt; part.value(4), value);
            assert_eq!(rt; part.tear_free(), tear_free);
            found = true;
        }
    }
    assert!(rt; found);
}

/// Some choices have these sources, with these values and tear free or not.
fn assert_reads(rt: &impl Abort, plan: &Plan<'_>, wanted: &[([u8; 2], u32, bool)]) {
    for (sources, value, tear_free) in wanted {
        assert_read(rt, plan, *sources, *value, *tear_free);
    }
}

#[test]
fn typed_loads_mix_with_init_alone(rt: HostRuntime) {
    let test = test_of(&rt, TYPED_READ);
    let plan = plan_of(&rt, &test);
    has_choices(&rt, &plan, 9);
    assert_reads(
        &rt,
        &plan,
        &[
            ([0, 2], 256, true),
            ([2, 3], 513, false),
            ([3, 2], 258, false),
            ([2, 2], 257, true),
        ],
    );
}

#[test]
fn viewed_loads_mix(rt: HostRuntime) {
    let test = test_of(&rt, VIEWED_READ);
    let plan = plan_of(&rt, &test);
    assert_reads(
        &rt,
        &plan,
        &[
            ([0, 2], 256, true),
            ([2, 3], 513, true),
            ([3, 2], 258, true),
        ],
    );
}

/// The choices are coherent or not.
fn assert_coherent<'p>(rt: &impl Abort, plan: &'p Plan<'p>, wanted: &[bool]) {
    for choice in 0..plan.total() {
        let found = part_of(plan, plan.combination(choice), choice).coherent();
        assert!(rt; usize::try_from(choice).ok().and_then(|n| wanted.get(n)) == Some(&found));
    }
}

#[test]
fn own_store_hides_init(rt: HostRuntime) {
    let test = test_of(&rt, OWN_STORE);
    let plan = plan_of(&rt, &test);
    has_choices(&rt, &plan, 2);
    assert_coherent(&rt, &plan, &[false, true]);
}

/// A part with all sources of the first choice, and what it is without the last.
fn takes_back<'p>(rt: &impl Abort, plan: &'p Plan<'p>) {
    assert_eq!(rt; plan.total(), 9);
    let mut part = part_of(plan, plan.combination(0), 0);
    assert_eq!(rt; part.reads(), 2);
    assert_eq!(rt; part.len(), 2);
    part.pop();
    assert_eq!(rt; part.len(), 1);
    assert_eq!(rt; part.reads(), 2);
    assert_eq!(rt; Part::open(plan, 0).len(), 0);
}

#[test]
fn sources_are_taken_back(rt: HostRuntime) {
    let test = test_of(&rt, TYPED_READ);
    let plan = plan_of(&rt, &test);
    takes_back(&rt, &plan);
}
