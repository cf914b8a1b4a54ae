//! What refuses a part first.

use super::part_with;
use lit_paths::plan;
use lit_read::read;
use lit_test_texts::{
    LOAD_BUFFERING, LOAD_BUFFERING_ATOMIC, MESSAGE_PASSING, READ_READ_COHERENCE_ATOMIC,
    READ_READ_COHERENCE_PLAIN, STORE_BUFFERING, TYPED_READ,
};
use lit_why::{Incoherence, Refusal, refusal};
use std::test::Fail;

const UNWRITTEN: &str = "test unwritten
bytes 1
agent A
if r0 == 1 {
r0 = U8[0]
}
check A.r0 == 0
";

const EARLY: &str = "test early
bytes 1
agent A
r0 = U8[0]
U8[0] = 1
check A.r0 == 1
";

/// A text, sources for all byte reads of its first combination, and what refuses them.
type Refused<'a> = (&'a str, &'a [u8], Option<Refusal>);

const REFUSED: [Refused<'_>; 10] = [
    // The register was not written, so it holds 0.
    (
        UNWRITTEN,
        &[0],
        Some(Refusal::FalseGuard { agent: 0, place: 0 }),
    ),
    // A loads 1 (2) from B's store (5), and B loads 0 (4) from the event that made its byte.
    (
        LOAD_BUFFERING,
        &[5, 1],
        Some(Refusal::FalseGuard { agent: 1, place: 0 }),
    ),
    // Each agent loads (2, 4) what the other stores after its own load (5, 3).
    (
        LOAD_BUFFERING_ATOMIC,
        &[5, 3],
        Some(Refusal::BeforeItself { event: 2 }),
    ),
    // B loads the flag that A stores (3), so A's store of the data (2) hides init (0) from B's load of it (5).
    (
        MESSAGE_PASSING,
        &[3, 0],
        Some(Refusal::Incoherent {
            read: 5,
            byte: 0,
            source: 0,
            cause: Incoherence::HiddenBy(2),
        }),
    ),
    (
        READ_READ_COHERENCE_ATOMIC,
        &[1, 0],
        Some(Refusal::Incoherent {
            read: 3,
            byte: 0,
            source: 0,
            cause: Incoherence::HiddenBy(1),
        }),
    ),
    // The load (1) happens before the store (2).
    (
        EARLY,
        &[2],
        Some(Refusal::Incoherent {
            read: 1,
            byte: 0,
            source: 2,
            cause: Incoherence::ReadFirst,
        }),
    ),
    (
        TYPED_READ,
        &[2, 3],
        Some(Refusal::Torn {
            read: 4,
            source: 2,
            other: 3,
        }),
    ),
    (STORE_BUFFERING, &[1, 0], Some(Refusal::NoOrder)),
    (STORE_BUFFERING, &[4, 0], None),
    (READ_READ_COHERENCE_PLAIN, &[1, 0], None),
];

#[test]
fn the_first_refusal_is_named(rt: HostRuntime) -> Result<(), Fail> {
    for (text, sources, wanted) in REFUSED {
        let test = read(rt.alloc(), text.as_bytes())?;
        let plan = plan(rt.alloc(), &test)?;
        assert!(rt; plan.combinations() > 0);
        let part = part_with(&rt, &plan, 0, sources);
        assert_eq!(rt; part.len(), part.reads(), "of {text}");
        assert_eq!(rt; refusal(&part, sources), wanted, "of {text}");
    }
    Ok(())
}
