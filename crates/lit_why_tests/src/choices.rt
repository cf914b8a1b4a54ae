//! `lit_why`: attempts and covers against each choice of a test, one by one. Each read of these tests is asked about.

use crate::covers::WORDS;
use lit_paths::{BYTE_READ_LIMIT, EVENT_LIMIT, Plan, plan};
use lit_read::read;
use lit_rel::Part;
use lit_test_texts::{
    INDEPENDENT_READS, LOAD_BUFFERING_ATOMIC, MESSAGE_PASSING, READ_READ_COHERENCE_ATOMIC,
    STORE_BUFFERING, TYPED_READ,
};
use lit_valid::Class;
use lit_why::{Case, attempts, cover_of, part_of, refusal};
use std::alloc::AllocGlobal;
use std::process::Abort;
use std::test::Fail;

/// More attempts, and cases of one, than a test here has.
const MANY: usize = 1_000;

/// Whether the reads of two parts on one combination have the same values.
fn agree(some: &Part<'_>, other: &Part<'_>) -> bool {
    let events = some.combination().events();
    for (number, event) in events.iter().enumerate() {
        if event.kind.does_read() && some.value(number as u8) != other.value(number as u8) {
            return false;
        }
    }
    true
}

/// Whether the sources of a choice are all in the domains of a case.
fn lies(sources: &[u8], case: &Case) -> bool {
    for (place, source) in sources.iter().enumerate() {
        let source = usize::from(*source);
        if place >= BYTE_READ_LIMIT
            || source >= EVENT_LIMIT
            || !case.domains[place].contains(source)
        {
            return false;
        }
    }
    true
}

/// That a choice is refused where it lies in one of the cases, and lies in one where it is of the attempt that they are of.
fn assert_choice(
    rt: &(impl Abort + AllocGlobal),
    plan: &Plan<'_>,
    choice: u64,
    attempt: u64,
    cases: &[Case],
) -> Result<(), Fail> {
    assert!(rt; choice < plan.total() && attempt < plan.total());
    if plan.combination(choice) != plan.combination(attempt) {
        return Ok(());
    }
    let (part, of) = (part_of(plan, choice), part_of(plan, attempt));
    let sources = plan.sources(choice);
    let within = cases.iter().any(|case| lies(sources.as_slice(), case));
    if within {
        assert!(rt; refusal(&part, sources.as_slice()).is_some());
    }
    if agree(&part, &of) {
        assert!(rt; within);
    }
    Ok(())
}

/// That the cases of each attempt at a class cover its choices, and have only refused ones.
fn assert_covered(
    rt: &(impl Abort + AllocGlobal),
    text: &str,
    class: Class,
    count: usize,
) -> Result<(), Fail> {
    let test = read(rt.alloc(), text.as_bytes())?;
    let plan = plan(rt.alloc(), &test)?;
    let found = attempts(rt.alloc(), &plan, class, MANY)?;
    assert_eq!(rt; found.len(), count);
    for attempt in found.iter() {
        assert!(rt; attempt.choice < plan.total());
        let cover = cover_of(rt.alloc(), &plan, attempt.choice, MANY)?;
        assert!(rt; cover.whole);
        for choice in 0..plan.total() {
            assert_choice(rt, &plan, choice, attempt.choice, &cover.cases)?;
        }
    }
    Ok(())
}

/// Each of these conditions asks for one value of each read.
#[test]
fn cases_have_all_choices_of_an_attempt(rt: HostRuntime) -> Result<(), Fail> {
    for text in [
        STORE_BUFFERING,
        MESSAGE_PASSING,
        LOAD_BUFFERING_ATOMIC,
        READ_READ_COHERENCE_ATOMIC,
        INDEPENDENT_READS,
        WORDS,
    ] {
        assert_covered(&rt, text, Class::Met, 1)?;
    }
    // The word is of two stores in two ways.
    assert_covered(&rt, TYPED_READ, Class::Met, 2)
}
