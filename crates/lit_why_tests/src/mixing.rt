//! `lit_why`: the execution that is shown mixes sources least. The expected sources are found by hand.

use lit_paths::plan;
use lit_read::read;
use lit_solve::Goal;
use lit_valid::Class;
use lit_why::least_mixing;
use std::alloc::AllocGlobal;
use std::process::Abort;
use std::test::Fail;

/// That of the choices of a test whose condition is met this one is shown, with these sources and this memory-order.
fn assert_shown(
    rt: &(impl Abort + AllocGlobal),
    text: &str,
    choice: u64,
    sources: &[u8],
    order: &[u8],
) -> Result<(), Fail> {
    let test = read(rt.alloc(), text.as_bytes())?;
    let plan = plan(rt.alloc(), &test)?;
    let Some(shown) = least_mixing(&plan, Goal::OfClass(Class::Met)) else {
        assert!(rt; false);
        return Ok(());
    };
    assert_eq!(rt; shown.choice, choice);
    assert_eq!(rt; shown.least.sources.as_slice(), sources);
    assert_eq!(rt; shown.least.order.as_slice(), order);
    Ok(())
}

/// 42 has one byte that isn't 0. The least choice takes the others from init; all four from the store are shown.
#[test]
fn a_word_is_taken_from_one_store(rt: HostRuntime) -> Result<(), Fail> {
    assert_shown(
        &rt,
        "test word\nbytes 4\nagent A\nU32[0] = 42\nagent B\nr0 = U32[0]\ncheck B.r0 == 42\n",
        15,
        &[4, 4, 4, 4],
        &[0, 1, 2, 3, 4, 5],
    )
}

/// The store of the first byte alone has the lesser number; the store of both bytes is shown.
#[test]
fn one_store_stands_before_a_lesser_mix(rt: HostRuntime) -> Result<(), Fail> {
    assert_shown(
        &rt,
        "test mix\nbytes 2\nagent A\nU8[0] = 1\nagent B\nU16[0] = 257\nagent C\nr0 = U16[0]\ncheck C.r0 == 257\n",
        5,
        &[3, 3],
        &[0, 1, 2, 3, 4],
    )
}

/// Each byte is stored by an event of its own: they have to mix.
#[test]
fn what_has_to_mix_is_mixed(rt: HostRuntime) -> Result<(), Fail> {
    assert_shown(
        &rt,
        "test apart\nbytes 2\nagent A\nU8[0] = 1\nagent B\nU8[1] = 1\nagent C\nr0 = U16[0]\ncheck C.r0 == 257\n",
        3,
        &[2, 3],
        &[0, 1, 2, 3, 4],
    )
}
