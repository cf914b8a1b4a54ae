//! What is known of a source of one byte.

ghost use Rattle.std.specs.Prelude.{◌≡◌, ◌<◌, length};
ghost use Rattle.lit_rel.specs.Part.{part_events};

use super::{part_with_none, plan_of, test_of};
use lit_paths::{ByteRead, Event, event_at};
use lit_rel::{
    Part, can_synchronize, is_source_refused, others_between, peers_of, unsourced_order,
};
use lit_test_texts::{LOAD_BUFFERING_ATOMIC, STORE_BUFFERING};
use std::process::Abort;

/// The first byte read of a part of six events.
fn first_read(rt: &impl Abort, part: &Part<'_>) -> ByteRead
    ensures read { result.read < length (part_events part.now) }
    ensures six { length (part_events part.now) ≡ 6 }
{
    let combination = part.combination();
    assert!(rt; combination.byte_reads().len() > 0);
    let first = combination.byte_reads()[0];
    assert!(rt; usize::from(first.read) < combination.events().len());
    assert!(rt; combination.events().len() == 6);
    first
}

fn assert_peers(rt: &impl Abort, events: &[Event]) {
    assert!(rt; events.len() == 6);
    let (before, peers) = (unsourced_order(events), peers_of(events));
    let others = others_between(events, 1, 3, &before, &peers);
    assert!(rt; others.contains(4) && !others.contains(2));
    assert!(rt; others_between(events, 4, 3, &before, &peers).is_empty());
    assert!(rt; can_synchronize(event_at(events, 4), event_at(events, 3)));
    assert!(rt; !can_synchronize(event_at(events, 1), event_at(events, 3)));
}

/// A's load (3) can synchronize with B's store (4), which may not stand between it and init (1).
#[test]
fn a_store_may_not_stand_after_init(rt: HostRuntime) {
    let test = test_of(&rt, STORE_BUFFERING);
    let plan = plan_of(&rt, &test);
    assert_peers(&rt, part_with_none(&rt, &plan, 0).combination().events());
}

/// A's store stands behind a guard for 1, which B stores (5), and which init (0) is not.
#[test]
fn a_test_refuses_init(rt: HostRuntime) {
    let test = test_of(&rt, LOAD_BUFFERING_ATOMIC);
    let plan = plan_of(&rt, &test);
    let part = part_with_none(&rt, &plan, 0);
    let load = first_read(&rt, &part);
    assert!(rt; is_source_refused(part.combination(), load, 0));
    assert!(rt; !is_source_refused(part.combination(), load, 5));
}
