//! The least racing pair.

use super::part_with;
use lit_paths::plan;
use lit_read::read;
use lit_test_texts::{
    READ_READ_COHERENCE_ATOMIC, READ_READ_COHERENCE_PLAIN, STORE_BUFFERING, STORE_BUFFERING_PLAIN,
};
use lit_why::racing_pair;
use std::test::Fail;

/// Texts with sources for all byte reads of their only combination, and the least pair in a data race.
const PAIRS: [(&str, &[u8], Option<(u8, u8)>); 6] = [
    // A stores byte 0 (2) and loads byte 1 (3), B stores byte 1 (4) and loads byte 0 (5).
    (STORE_BUFFERING, &[4, 2], None),
    (STORE_BUFFERING_PLAIN, &[1, 0], None),
    (STORE_BUFFERING_PLAIN, &[4, 0], Some((3, 4))),
    (STORE_BUFFERING_PLAIN, &[4, 2], Some((2, 5))),
    // A stores (1), B loads twice (2, 3).
    (READ_READ_COHERENCE_PLAIN, &[0, 1], Some((1, 3))),
    (READ_READ_COHERENCE_ATOMIC, &[0, 1], None),
];

#[test]
fn the_least_racing_pair_is_found(rt: HostRuntime) -> Result<(), Fail> {
    for (text, sources, wanted) in PAIRS {
        let test = read(rt.alloc(), text.as_bytes())?;
        let plan = plan(rt.alloc(), &test)?;
        assert!(rt; plan.combinations() > 0);
        let part = part_with(&rt, &plan, 0, sources);
        let found = match racing_pair(&part) {
            Some(pair) => Some((pair.first, pair.second)),
            None => None,
        };
        assert_eq!(rt; found, wanted, "of {text}");
    }
    Ok(())
}
