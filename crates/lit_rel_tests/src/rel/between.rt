//! Triples that are forbidden.

use super::{assert_triples, of_sources};

const AFTER_THE_SOURCE: &str = "test after
bytes 3
agent A
Atomics.store(U8, 0, 1)
Atomics.store(U8, 1, 1)
agent B
Atomics.store(U8, 0, 2)
Atomics.store(U8, 2, 1)
agent C
r0 = Atomics.load(U8, 1)
r1 = Atomics.load(U8, 2)
r2 = U8[0]
check C.r2 == 1
";

const SYNCHRONIZED: &str = "test synchronized
bytes 4
agent A
Atomics.store(U16, 0, 1)
r0 = Atomics.load(U8, 0)
agent B
Atomics.store(U16, 0, 2)
r0 = Atomics.exchange(U16, 0, 3)
check B.r0 == 1
";

/// The init events are 0, 1 and 2. A stores byte 0 (3) and byte 1 (4), B stores byte 0 (5) and byte 2 (6), C loads
/// byte 1 (7) from 4, byte 2 (8) from 6 and then, plainly, byte 0 (9) from 3. So both stores of byte 0 happen before
/// the plain load, and B's, with the range of its source, may not stand between. Each atomic load has the one atomic
/// store of its byte as its source.
#[test]
fn a_store_before_the_read_is_forbidden_after_its_source(rt: HostRuntime) {
    let (_, between) = of_sources(&rt, AFTER_THE_SOURCE, &[4, 6, 3]);
    assert_triples(&rt, &between, &[(3, 9, 5)]);
}

/// The init events are 0 to 3. A stores bytes 0 and 1 (4) and loads byte 0 (5) from B's store (6), and B exchanges both
/// bytes (7), the lower one read from init (0) and the upper one from 6. Of the sources in order, the first is of 5, the
/// others are of 7.
#[test]
fn no_write_of_the_range_stands_between_what_synchronizes(rt: HostRuntime) {
    let (_, between) = of_sources(&rt, SYNCHRONIZED, &[6, 0, 6]);
    assert_triples(&rt, &between, &[(0, 7, 4), (0, 7, 6), (6, 7, 4)]);
}
