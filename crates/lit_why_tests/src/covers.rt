//! `lit_why`: covers of attempts by cases that what is given in each refutes.

use lit_paths::plan;
use lit_read::read;
use lit_test_texts::{PUBLICATION, STORE_BUFFERING};
use lit_valid::Class;
use lit_why::{Incoherence, Refusal, attempts, cover_of};
use std::alloc::AllocGlobal;
use std::process::Abort;
use std::test::Fail;

/// Message passing over words: of the flag's 1 only the low byte tells its store, of the datum's 0 only the low byte tells init.
pub(crate) const WORDS: &str = "test words
bytes 8
agent A
U32[0] = 42
Atomics.store(U32, 1, 1)
agent B
r0 = Atomics.load(U32, 1)
r1 = U32[0]
check B.r0 == 1 && B.r1 == 0
";

/// A byte that two stores make 1, each of which the load before the other's flag leaves out: a case for each.
const TWICE: &str = "test twice
bytes 2
agent A
U8[0] = 1
U8[0] = 1
U8[0] = 2
Atomics.store(U8, 1, 1)
agent B
r0 = Atomics.load(U8, 1)
r1 = U8[0]
check B.r0 == 1 && B.r1 == 1
";

/// That the first attempt at a class has so many cases, all or the first of them, of which the first is refused so.
fn assert_cover(
    rt: &(impl Abort + AllocGlobal),
    text: &str,
    class: Class,
    most: usize,
    wanted: (usize, bool, Option<Refusal>),
) -> Result<(), Fail> {
    let test = read(rt.alloc(), text.as_bytes())?;
    let plan = plan(rt.alloc(), &test)?;
    let found = attempts(rt.alloc(), &plan, class, 1)?;
    assert_eq!(rt; found.len(), 1);
    for attempt in found.iter() {
        let choice = attempt.choice;
        assert!(rt; choice < plan.total());
        let cover = cover_of(rt.alloc(), &plan, choice, most)?;
        assert_eq!(rt; cover.cases.len(), wanted.0);
        assert_eq!(rt; cover.whole, wanted.1);
        let first = cover.cases.first().map(|case| case.refusal);
        assert_eq!(rt; first, wanted.2);
    }
    Ok(())
}

/// Events are numbered with init first: the datum's load is the last one.
#[test]
fn what_is_given_refutes(rt: HostRuntime) -> Result<(), Fail> {
    let all = (1, true, Some(Refusal::NoOrder));
    assert_cover(&rt, STORE_BUFFERING, Class::Met, 9, all)?;
    let of_bytes = Refusal::Incoherent {
        read: 5,
        byte: 0,
        source: 0,
        cause: Incoherence::HiddenBy(2),
    };
    assert_cover(&rt, PUBLICATION, Class::Met, 9, (1, true, Some(of_bytes)))?;
    let of_words = Refusal::Incoherent {
        read: 11,
        byte: 0,
        source: 0,
        cause: Incoherence::HiddenBy(8),
    };
    assert_cover(&rt, WORDS, Class::Met, 9, (1, true, Some(of_words)))
}

/// The first case has the first store as the source, which the second hides.
#[test]
fn what_is_open_is_cut(rt: HostRuntime) -> Result<(), Fail> {
    let first = Refusal::Incoherent {
        read: 7,
        byte: 0,
        source: 2,
        cause: Incoherence::HiddenBy(3),
    };
    assert_cover(&rt, TWICE, Class::Met, 9, (2, true, Some(first)))?;
    assert_cover(&rt, TWICE, Class::Met, 1, (1, false, Some(first)))?;
    assert_cover(&rt, TWICE, Class::Met, 0, (0, false, None))
}

/// The least attempt to fail the condition is valid.
#[test]
fn what_is_valid_has_no_case(rt: HostRuntime) -> Result<(), Fail> {
    assert_cover(&rt, STORE_BUFFERING, Class::Unmet, 9, (0, false, None))
}
