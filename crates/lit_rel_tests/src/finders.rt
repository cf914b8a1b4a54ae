//! Both finders of orders, on the choices of whole tests.

use crate::rel::{part_of, plan_of, test_of};
use lit_order::{ForcedFinder, OrderFinder, PlainFinder};
use lit_paths::Plan;
use lit_rel::Part;
use lit_test_texts::{
    BOTH_EXCHANGE_FOR_ONE, FAILED_EXCHANGE, INDEPENDENT_READS, INDEPENDENT_READS_PLAIN,
    LOAD_BUFFERING, LOAD_BUFFERING_ATOMIC, MESSAGE_PASSING, MESSAGE_PASSING_PLAIN, OWN_STORE,
    READ_READ_COHERENCE_ATOMIC, READ_READ_COHERENCE_PLAIN, STORE_BUFFERING, STORE_BUFFERING_MIXED,
    STORE_BUFFERING_PLAIN, TYPED_READ, VIEWED_READ,
};
use std::process::Abort;

/// Tests of two agents, without and with branches, and of three and four.
const TEXTS: [&str; 16] = [
    STORE_BUFFERING,
    STORE_BUFFERING_PLAIN,
    STORE_BUFFERING_MIXED,
    MESSAGE_PASSING,
    MESSAGE_PASSING_PLAIN,
    READ_READ_COHERENCE_PLAIN,
    READ_READ_COHERENCE_ATOMIC,
    OWN_STORE,
    LOAD_BUFFERING,
    LOAD_BUFFERING_ATOMIC,
    BOTH_EXCHANGE_FOR_ONE,
    FAILED_EXCHANGE,
    TYPED_READ,
    VIEWED_READ,
    INDEPENDENT_READS,
    INDEPENDENT_READS_PLAIN,
];

/// Asserts that both finders give the same answer on each choice of a plan.
fn assert_agree<'p>(rt: &impl Abort, plan: &'p Plan<'p>) {
    for choice in 0..plan.total() {
        let part = part_of(plan, plan.combination(choice), choice);
        assert!(rt; agree_on(&part), "at {choice}");
    }
}

/// Whether both finders give the same answer on a part.
fn agree_on(part: &Part<'_>) -> bool {
    let (before, between) = (part.happens_before(), part.between());
    ForcedFinder.least_order(&before, &between) == PlainFinder.least_order(&before, &between)
}

#[test]
fn finders_agree_on_each_choice(rt: HostRuntime) {
    for text in TEXTS {
        let test = test_of(&rt, text);
        let plan = plan_of(&rt, &test);
        assert_agree(&rt, &plan);
    }
}

/// Whether a finder gives this order of a part.
fn has_order<F: OrderFinder>(finder: &F, part: &Part<'_>, wanted: &[u8]) -> bool {
    match finder.least_order(&part.happens_before(), &part.between()) {
        Some(order) => order.as_slice() == wanted,
        None => false,
    }
}

fn assert_of_load_buffering(rt: &impl Abort, part: &mut Part<'_>, choice: u64) {
    let order: &[u8] = match choice {
        0..=3 => &[0, 1, 2, 3, 4, 5],
        4..=7 => &[0, 1, 2, 3, 4],
        _ => &[0, 1, 2, 3],
    };
    assert_eq!(rt; part.broken(), choice != 3 && choice != 8, "at {choice}");
    assert!(rt; has_order(&ForcedFinder, part, order), "at {choice}");
    assert!(rt; has_order(&PlainFinder, part, order), "at {choice}");
    assert!(rt; part.len() > 0);
    part.pop();
    assert_eq!(rt;
        part.broken(),
        ![2, 3, 6, 8].contains(&choice),
        "at {choice}"
    );
}

/// With the sources of choices 3 and 8 the guards of both agents are true, with those of 2 and 6 those of A alone. No
/// access is atomic, so the events by number are an order of each choice.
#[test]
fn load_buffering_parts_and_orders(rt: HostRuntime) {
    let test = test_of(&rt, LOAD_BUFFERING);
    let plan = plan_of(&rt, &test);
    for choice in 0..plan.total() {
        let mut part = part_of(&plan, plan.combination(choice), choice);
        assert_of_load_buffering(&rt, &mut part, choice);
    }
}
