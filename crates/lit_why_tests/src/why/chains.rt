//! The shortest chains.

use super::part_with;
use lit_paths::plan;
use lit_read::read;
use lit_test_texts::{LOAD_BUFFERING_ATOMIC, MESSAGE_PASSING, STORE_BUFFERING};
use lit_why::{Link, StepKind, chain};
use std::test::Fail;

/// A text, sources for all byte reads of its first combination, two events, and the shortest chain from the one to the other.
type Led<'a> = (&'a str, &'a [u8], (u8, u8), Option<&'a [Link]>);

const MADE: StepKind = StepKind::MadeBefore;

const ORDERED: StepKind = StepKind::AgentOrder;

const SYNCHRONIZED: StepKind = StepKind::SynchronizesWith;

const LED: [Led<'_>; 7] = [
    // A stores byte 0 (2) and loads byte 1 (3), B stores byte 1 (4) and loads byte 0 (5).
    (STORE_BUFFERING, &[1, 0], (2, 4), None),
    (STORE_BUFFERING, &[1, 0], (9, 2), None),
    (STORE_BUFFERING, &[1, 0], (2, 2), None),
    (
        STORE_BUFFERING,
        &[1, 0],
        (1, 3),
        Some(&[Link { to: 3, kind: MADE }]),
    ),
    (
        STORE_BUFFERING,
        &[1, 0],
        (1, 5),
        Some(&[
            Link { to: 4, kind: MADE },
            Link {
                to: 5,
                kind: ORDERED,
            },
        ]),
    ),
    // A stores byte 0 (2) and the flag (3), B loads the flag (4) from A, and byte 0 (5).
    (
        MESSAGE_PASSING,
        &[3, 2],
        (2, 5),
        Some(&[
            Link {
                to: 3,
                kind: ORDERED,
            },
            Link {
                to: 4,
                kind: SYNCHRONIZED,
            },
            Link {
                to: 5,
                kind: ORDERED,
            },
        ]),
    ),
    // Each agent loads (2, 4) what the other stores after its own load (5, 3).
    (
        LOAD_BUFFERING_ATOMIC,
        &[5, 3],
        (2, 2),
        Some(&[
            Link {
                to: 3,
                kind: ORDERED,
            },
            Link {
                to: 4,
                kind: SYNCHRONIZED,
            },
            Link {
                to: 5,
                kind: ORDERED,
            },
            Link {
                to: 2,
                kind: SYNCHRONIZED,
            },
        ]),
    ),
];

#[test]
fn chains_are_the_shortest(rt: HostRuntime) -> Result<(), Fail> {
    for (text, sources, (from, to), links) in LED {
        let test = read(rt.alloc(), text.as_bytes())?;
        let plan = plan(rt.alloc(), &test)?;
        assert!(rt; plan.combinations() > 0);
        let part = part_with(&rt, &plan, 0, sources);
        let (events, synchronizes) = (part.combination().events(), part.synchronizes());
        match chain(events, &synchronizes, from, to) {
            Some(found) => assert_eq!(rt; Some(found.links.as_slice()), links, "{from} to {to}"),
            None => assert!(rt; links.is_none(), "{from} to {to}"),
        }
    }
    Ok(())
}
