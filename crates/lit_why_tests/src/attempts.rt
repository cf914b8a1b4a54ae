//! `lit_why`: attempts at an outcome, by the first choice of each and how many choices it has.

use lit_paths::plan;
use lit_read::read;
use lit_test_texts::{
    BOTH_EXCHANGE_FOR_ONE, EQUAL_STORES, PUBLICATION, STORE_BUFFERING, UNTOUCHED_BYTE,
};
use lit_valid::Class;
use lit_why::attempts;
use std::alloc::AllocGlobal;
use std::process::Abort;
use std::test::Fail;

/// A load of two bytes, each of which some of the others' stores fill with 1.
const TWO_BYTES: &str = "test pair
bytes 2
agent A
U16[0] = 257
agent B
U8[0] = 1
agent C
r0 = U16[0]
check C.r0 == 257
";

/// Four loads of four bytes, each of which has three sources that store 0 or 1: 43,046,721 choices, and 65,536 ways to read.
const MANY_CHOICES: &str = "test many
bytes 4
agent A
r0 = DV.getUint32(0, true)
r1 = DV.getUint32(0, true)
r2 = DV.getUint32(0, true)
r3 = DV.getUint32(0, true)
agent B
U32[0] = 0
agent C
U32[0] = 16843009
check A.r0 == 16843009 && A.r1 == 1 && A.r2 == 256 && A.r3 == 0
";

/// That the first attempts are these, each by the number of its first choice and how many choices it has.
fn assert_attempts(
    rt: &(impl Abort + AllocGlobal),
    text: &str,
    class: Class,
    most: usize,
    wanted: &[(u64, u64)],
) -> Result<(), Fail> {
    let test = read(rt.alloc(), text.as_bytes())?;
    let plan = plan(rt.alloc(), &test)?;
    let found = attempts(rt.alloc(), &plan, class, most)?;
    assert_eq!(rt; found.len(), wanted.len());
    for (place, attempt) in found.iter().enumerate() {
        assert_eq!(rt; attempt.choice, wanted[place].0, "attempt {place}");
        assert_eq!(rt; attempt.choices, wanted[place].1, "attempt {place}");
    }
    Ok(())
}

/// Each load reads 0 from init or 1 from the other agent's store.
#[test]
fn each_way_to_read_is_an_attempt(rt: HostRuntime) -> Result<(), Fail> {
    assert_attempts(&rt, STORE_BUFFERING, Class::Met, 9, &[(0, 1)])?;
    let others: &[(u64, u64)] = &[(1, 1), (2, 1), (3, 1)];
    assert_attempts(&rt, STORE_BUFFERING, Class::Unmet, 9, others)
}

/// These are the first attempts, and no more than `most`.
#[test]
fn so_many_are_given_at_most(rt: HostRuntime) -> Result<(), Fail> {
    assert_attempts(&rt, STORE_BUFFERING, Class::Unmet, 0, &[])?;
    assert_attempts(&rt, STORE_BUFFERING, Class::Unmet, 1, &[(1, 1)])?;
    assert_attempts(&rt, STORE_BUFFERING, Class::Unmet, 2, &[(1, 1), (2, 1)])
}

/// Choices that read the same values from other events are of one attempt: 1 from either store; and of two bytes, the low one from
/// either and the high one from the wide store.
#[test]
fn sources_that_store_the_same_are_counted(rt: HostRuntime) -> Result<(), Fail> {
    assert_attempts(&rt, EQUAL_STORES, Class::Met, 9, &[(1, 2)])?;
    assert_attempts(&rt, EQUAL_STORES, Class::Unmet, 9, &[(0, 1)])?;
    assert_attempts(&rt, TWO_BYTES, Class::Met, 9, &[(3, 2)])?;
    let others: &[(u64, u64)] = &[(0, 1), (1, 1), (2, 2)];
    assert_attempts(&rt, TWO_BYTES, Class::Unmet, 9, others)
}

/// Both succeed where both read 0. One fails where it reads the 1 of the other, and no path lets both fail.
#[test]
fn guards_allow_values(rt: HostRuntime) -> Result<(), Fail> {
    assert_attempts(&rt, BOTH_EXCHANGE_FOR_ONE, Class::Met, 9, &[(0, 1)])?;
    let others: &[(u64, u64)] = &[(5, 1), (7, 1)];
    assert_attempts(&rt, BOTH_EXCHANGE_FOR_ONE, Class::Unmet, 9, others)?;
    assert_attempts(&rt, PUBLICATION, Class::Met, 9, &[(2, 1)])
}

/// No event stores anything but 0.
#[test]
fn values_that_nothing_stores_make_none(rt: HostRuntime) -> Result<(), Fail> {
    assert_attempts(&rt, UNTOUCHED_BYTE, Class::Met, 9, &[(0, 1)])?;
    assert_attempts(&rt, UNTOUCHED_BYTE, Class::Unmet, 9, &[])
}

/// Of sixteen bytes six are to be read as 1, from one store, and ten as 0, from init or the other store: 2 to the power of 10
/// choices. The first one has the last of three sources where 1 is read, and the first elsewhere: twice the sum of 3 to the
/// powers of 15, 14, 13, 12, 11 and 6, since the sources are the digits of a choice, the last byte read its lowest.
#[test]
fn choices_are_not_walked(rt: HostRuntime) -> Result<(), Fail> {
    assert_attempts(&rt, MANY_CHOICES, Class::Met, 9, &[(42_871_032, 1024)])
}
