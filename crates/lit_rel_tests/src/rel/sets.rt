//! Sets of events, of pairs and of triples.

use super::assert_pairs;
use lit_paths::EVENT_LIMIT;
use lit_rel::laws::{
    bytes_stay_broken, given_values_agree, mixed_sizes_never_synchronize, never_reads_itself,
    relations_grow_with_bytes, typed_load_mixes_with_init_only, values_stay, viewed_load_mixes,
};
use lit_rel::{Between, EventSet, Rows, converse_of};

/// The number of the last event that there may be.
const LAST: usize = EVENT_LIMIT - 1;

#[test]
fn sets_have_what_is_put_in(rt: HostRuntime) {
    let first = EventSet::new().with(0).with(LAST);
    let other = EventSet::new().with(LAST);
    assert!(rt; first.contains(0) && first.contains(LAST) && !first.contains(LAST - 1));
    assert!(rt; EventSet::new().is_empty() && !other.is_empty());
    assert!(rt; other.is_within(first) && !first.is_within(other));
    assert!(rt; other.union(EventSet::new().with(0)) == first);
    assert!(rt; first.intersection(other) == other);
}

#[test]
fn sets_are_taken_apart(rt: HostRuntime) {
    let first = EventSet::below(3);
    assert!(rt; first == EventSet::new().with(0).with(1).with(2));
    assert!(rt; EventSet::below(0).is_empty() && EventSet::below(EVENT_LIMIT).contains(LAST));
    let other = EventSet::new().with(1).with(LAST);
    assert!(rt; first.difference(other) == EventSet::new().with(0).with(2));
    assert!(rt; other.difference(first) == EventSet::new().with(LAST));
    assert!(rt; other.split_first() == Some((1, EventSet::new().with(LAST))));
    assert!(rt; EventSet::new().split_first().is_none());
}

#[test]
fn rows_hold_of_what_is_put_in(rt: HostRuntime) {
    let mut rows = Rows::new(EVENT_LIMIT);
    assert_eq!(rt; rows.len(), EVENT_LIMIT);
    rows.put(3, LAST);
    rows.put(0, LAST);
    assert_pairs(&rt, &rows, &[(0, LAST), (3, LAST)]);
    assert!(rt; converse_of(&rows).successors(LAST) == EventSet::new().with(0).with(3));
    assert!(rt; !rows.has_cycle());
    rows.put(5, 5);
    assert!(rt; rows.has_cycle());
}

/// 0 leads to 1, and 2 to 3. With 1 before 2, both 0 and 1 lead to 2 and 3.
#[test]
fn one_more_pair_is_closed(rt: HostRuntime) {
    let mut rows = Rows::new(5);
    rows.put(0, 1);
    rows.put(2, 3);
    rows.close_with(1, 2);
    assert_pairs(
        &rt,
        &rows,
        &[(0, 1), (0, 2), (0, 3), (1, 2), (1, 3), (2, 3)],
    );
    assert!(rt; rows.successors(1) == EventSet::new().with(2).with(3));
    assert!(rt; converse_of(&rows).successors(2) == EventSet::new().with(0).with(1));
    rows.close_with(3, 0);
    assert!(rt; rows.holds(2, 2) && !rows.holds(4, 4));
}

#[test]
fn pairs_forbid_their_triples(rt: HostRuntime) {
    let mut between = Between::new(4);
    between.forbid(0, 1, EventSet::new().with(2));
    assert_eq!(rt; between.len(), 4);
    assert!(rt; between.forbids(0, 1, 2) && !between.forbids(0, 1, 3));
    assert!(rt; !between.forbids(1, 0, 2));
    between.forbid(0, 1, EventSet::new().with(3));
    between.forbid(3, 1, EventSet::new().with(0));
    let pairs = between.pairs();
    assert_eq!(rt; pairs.len(), 2);
    assert!(rt; pairs[0].source == 0 && pairs[0].read == 1);
    assert!(rt; pairs[0].others == EventSet::new().with(2).with(3));
    assert!(rt; pairs[1].source == 3 && pairs[1].read == 1);
}

#[test]
fn laws_are_named(rt: HostRuntime) {
    mixed_sizes_never_synchronize();
    typed_load_mixes_with_init_only();
    viewed_load_mixes();
    never_reads_itself();
    relations_grow_with_bytes();
    values_stay();
    bytes_stay_broken();
    given_values_agree();
    assert!(rt; true);
}
