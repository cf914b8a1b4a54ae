//! Data races of the sources given.

use super::{give_all, part_with_none, plan_of, test_of};
use lit_test_texts::{
    EQUAL_STORES, INDEPENDENT_READS_PLAIN, MESSAGE_PASSING, OWN_STORE, STORE_BUFFERING,
    STORE_BUFFERING_MIXED, STORE_BUFFERING_PLAIN, SWAPS, TYPED_READ,
};
use std::alloc::AllocGlobal;
use std::process::Abort;

const MASK: &str = "test mask
bytes 1
agent A
U8[0] = 0
agent B
r0 = U8[0]
check B.r0 == 0
";

const OVERLAP: &str = "test overlap
bytes 2
agent A
Atomics.store(U16, 0, 1)
agent B
r0 = Atomics.exchange(U8, 0, 1)
check B.r0 == 0
";

const UPPER_BYTE: &str = "test upper
bytes 2
agent A
r0 = U16[0]
agent B
U8[1] = 1
check A.r0 == 0
";

/// Whether the first combination of a test, with these sources for its first byte reads, has a data race.
fn has_race(rt: &(impl Abort + AllocGlobal), text: &str, sources: &[u8]) -> bool {
    let test = test_of(rt, text);
    let plan = plan_of(rt, &test);
    let mut part = part_with_none(rt, &plan, 0);
    give_all(rt, &mut part, sources);
    part.race()
}

/// Texts with sources for the first byte reads of their only combination, and whether these give a data race.
const RACES: [(&str, &[u8], bool); 35] = [
    // A stores byte 0 (2) and loads byte 1 (3), B stores byte 1 (4) and loads byte 0 (5): all seq-cst, of one byte.
    (STORE_BUFFERING, &[], false),
    (STORE_BUFFERING, &[1, 2], false),
    (STORE_BUFFERING, &[4, 0], false),
    // The same events, plain. What is read from init is ordered; the other agent's store is not.
    (STORE_BUFFERING_PLAIN, &[], false),
    (STORE_BUFFERING_PLAIN, &[1], false),
    (STORE_BUFFERING_PLAIN, &[1, 0], false),
    (STORE_BUFFERING_PLAIN, &[1, 2], true),
    (STORE_BUFFERING_PLAIN, &[4], true),
    // A stores bytes 0 and 1 (4) and loads byte 2 (5), B stores bytes 2 and 3 (6) and loads byte 0 (7): all seq-cst, but
    // a load has half the range of the store.
    (STORE_BUFFERING_MIXED, &[], false),
    (STORE_BUFFERING_MIXED, &[2], false),
    (STORE_BUFFERING_MIXED, &[2, 0], false),
    (STORE_BUFFERING_MIXED, &[6, 0], true),
    // A stores byte 0 (2) and then the flag (3), B loads the flag (4) and byte 0 (5). Where the flag is read from A, A's
    // plain store happens before B's plain load.
    (MESSAGE_PASSING, &[], false),
    (MESSAGE_PASSING, &[3], false),
    (MESSAGE_PASSING, &[3, 2], false),
    (MESSAGE_PASSING, &[3, 0], false),
    (MESSAGE_PASSING, &[1], false),
    (MESSAGE_PASSING, &[1, 0], false),
    (MESSAGE_PASSING, &[1, 2], true),
    // Two plain stores of one byte, or of the same two, race before anything is read.
    (EQUAL_STORES, &[], true),
    (EQUAL_STORES, &[0], true),
    (TYPED_READ, &[], true),
    // Two exchanges of one byte do not, and two read-modify-writes of ranges that overlap do.
    (SWAPS, &[], false),
    (SWAPS, &[2, 1], false),
    (OVERLAP, &[], true),
    // A plain load of what is stored through Atomics.
    (INDEPENDENT_READS_PLAIN, &[], false),
    (INDEPENDENT_READS_PLAIN, &[2], true),
    // An agent's own store comes before its load.
    (OWN_STORE, &[], false),
    (OWN_STORE, &[1], false),
    // The store (1) writes what init (0) has made; the load (2) races where it reads from the store.
    (MASK, &[], false),
    (MASK, &[0], false),
    (MASK, &[1], true),
    // The load of bytes 0 and 1 (2) races once its upper byte is read from the store (3).
    (UPPER_BYTE, &[0], false),
    (UPPER_BYTE, &[0, 1], false),
    (UPPER_BYTE, &[0, 3], true),
];

#[test]
fn sources_give_a_race_or_do_not(rt: HostRuntime) {
    for (text, sources, race) in RACES {
        let found = has_race(&rt, text, sources);
        assert_eq!(rt; found, race, "of {} sources in {text}", sources.len());
    }
}
