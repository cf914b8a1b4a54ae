//! `lit_order`: orders that respect pairs and avoid triples, and cases without any order.

ghost use Rattle.std.specs.Prelude.{◌≡◌};
ghost use Rattle.lit_rel.specs.Rows.{rows_len};

use lit_order::{Forced, ForcedFinder, OrderFinder, PlainFinder, forced_precedence};
use lit_rel::{Between, EventSet, Rows};
use std::process::Abort;

/// Asserts that the finder's order is this one, or that there is none.
fn assert_order<F: OrderFinder>(
    rt: &impl Abort,
    finder: &F,
    before: &Rows,
    between: &Between,
    wanted: Option<&[u8]>,
)
    requires { rows_len before.now ≡ between.now.len }
{
    match finder.least_order(before, between) {
        Some(order) => assert!(rt; wanted == Some(order.as_slice())),
        None => assert!(rt; wanted.is_none()),
    }
}

#[test]
fn nothing_has_the_empty_order(rt: HostRuntime) {
    assert_order(
        &rt,
        &PlainFinder,
        &Rows::new(0),
        &Between::new(0),
        Some(&[]),
    );
}

#[test]
fn free_events_stand_by_number(rt: HostRuntime) {
    let mut before = Rows::new(4);
    assert_order(
        &rt,
        &PlainFinder,
        &before,
        &Between::new(4),
        Some(&[0, 1, 2, 3]),
    );
    before.put(3, 1);
    assert_order(
        &rt,
        &PlainFinder,
        &before,
        &Between::new(4),
        Some(&[0, 2, 3, 1]),
    );
}

/// To begin with 0 leads to a dead end: 1 stands after 2, which may not stand between 0 and 1.
#[test]
fn a_dead_end_is_left(rt: HostRuntime) {
    let mut before = Rows::new(3);
    before.put(2, 1);
    let mut between = Between::new(3);
    between.forbid(0, 1, EventSet::new().with(2));
    assert_order(&rt, &PlainFinder, &before, &between, Some(&[2, 0, 1]));
}

#[test]
fn cycles_and_forced_triples_have_no_order(rt: HostRuntime) {
    let mut cycle = Rows::new(2);
    cycle.put(0, 1);
    cycle.put(1, 0);
    assert_order(&rt, &PlainFinder, &cycle, &Between::new(2), None);
    let mut before = Rows::new(3);
    before.put(0, 2);
    before.put(2, 1);
    let mut between = Between::new(3);
    between.forbid(0, 1, EventSet::new().with(2));
    assert_order(&rt, &PlainFinder, &before, &between, None);
}

/// Store buffering where both loads read what init stored: 2 stores byte 0 and 4 byte 1, 3 loads byte 1 and 5 byte 0.
#[test]
fn store_buffering_of_init_has_no_order(rt: HostRuntime) {
    let mut before = Rows::new(6);
    before.put(0, 1);
    before.put(0, 2);
    before.put(0, 3);
    before.put(0, 4);
    before.put(0, 5);
    before.put(1, 3);
    before.put(1, 4);
    before.put(1, 5);
    before.put(2, 3);
    before.put(4, 5);
    assert_order(
        &rt,
        &PlainFinder,
        &before,
        &Between::new(6),
        Some(&[0, 1, 2, 3, 4, 5]),
    );
    let mut between = Between::new(6);
    between.forbid(1, 3, EventSet::new().with(4));
    between.forbid(0, 5, EventSet::new().with(2));
    assert_order(&rt, &PlainFinder, &before, &between, None);
}

/// Asserts whether some order satisfies the precedences and avoids the triples given.
fn assert_extendable(rt: &impl Abort, forced: Option<Forced<'_>>, wanted: bool) {
    match forced {
        Some(forced) => assert!(rt; forced.extendable() == wanted),
        None => assert!(rt; false),
    }
}

/// The steps of store buffering that no source decides: 2 stores byte 0 and 3 loads byte 1, 4 stores byte 1 and 5 loads
/// byte 0, after the events 0 and 1 that make these bytes.
fn store_buffering() -> Rows
    ensures { rows_len result ≡ 6 }
{
    let mut before = Rows::new(6);
    before.put(0, 1);
    before.put(0, 2);
    before.put(0, 5);
    before.put(1, 3);
    before.put(1, 4);
    before.put(2, 3);
    before.put(4, 5);
    before
}

#[test]
fn store_buffering_of_init_is_not_extendable(rt: HostRuntime) {
    let mut between = Between::new(6);
    between.forbid(1, 3, EventSet::new().with(4));
    between.forbid(0, 5, EventSet::new().with(2));
    let before = store_buffering();
    assert_extendable(&rt, Forced::open(&before, &between), false);
    assert!(&rt; forced_precedence(&before, &between).is_none());
}

#[test]
fn one_side_of_a_triple_is_extendable(rt: HostRuntime) {
    let mut before = store_buffering();
    before.put(2, 5);
    let mut between = Between::new(6);
    between.forbid(1, 3, EventSet::new().with(4));
    match Forced::open(&before, &between) {
        Some(forced) => {
            assert_extendable(&rt, forced.with(4, 3), false);
            assert_extendable(&rt, forced.with(3, 4), true);
            assert!(&rt; forced.with(3, 2).is_none());
            assert!(&rt; forced.with(3, 3).is_none());
        }
        None => assert!(&rt; false),
    }
    match forced_precedence(&before, &between) {
        Some(forced) => assert!(&rt;
            forced.holds(3, 4) && forced.holds(2, 5) && !forced.holds(3, 2)
        ),
        None => assert!(&rt; false),
    }
}

#[test]
fn chains_are_not_opened_where_they_close(rt: HostRuntime) {
    let mut before = Rows::new(3);
    before.put(0, 1);
    before.put(1, 2);
    before.put(2, 0);
    assert!(&rt; Forced::open(&before, &Between::new(3)).is_none());
}

/// A triple whose event is its own source or read forbids nothing.
#[test]
fn an_event_of_its_own_triple_may_stand(rt: HostRuntime) {
    let mut between = Between::new(2);
    between.forbid(0, 1, EventSet::new().with(0).with(1));
    let before = Rows::new(2);
    assert_order(&rt, &PlainFinder, &before, &between, Some(&[0, 1]));
    assert_order(&rt, &ForcedFinder, &before, &between, Some(&[0, 1]));
    assert_extendable(&rt, Forced::open(&before, &between), true);
}

/// The least event leads into a dead end: after 0 and 1, neither 2 nor 3 can stand next.
#[test]
fn a_walk_that_sticks_begins_anew(rt: HostRuntime) {
    let mut between = Between::new(4);
    between.forbid(0, 3, EventSet::new().with(2));
    between.forbid(1, 2, EventSet::new().with(3));
    let before = Rows::new(4);
    assert_order(&rt, &PlainFinder, &before, &between, Some(&[0, 3, 1, 2]));
    assert_order(&rt, &ForcedFinder, &before, &between, Some(&[0, 3, 1, 2]));
}

/// Nothing is forced before itself, yet there is no order.
#[test]
fn triples_that_force_nothing_can_leave_no_order(rt: HostRuntime) {
    let mut between = Between::new(4);
    between.forbid(2, 3, EventSet::new().with(1));
    between.forbid(1, 2, EventSet::new().with(3));
    between.forbid(3, 0, EventSet::new().with(1));
    between.forbid(1, 3, EventSet::new().with(2));
    between.forbid(3, 1, EventSet::new().with(0));
    between.forbid(0, 1, EventSet::new().with(3));
    let before = Rows::new(4);
    assert!(&rt; forced_precedence(&before, &between).is_some());
    assert_extendable(&rt, Forced::open(&before, &between), false);
    assert_order(&rt, &PlainFinder, &before, &between, None);
    assert_order(&rt, &ForcedFinder, &before, &between, None);
}
