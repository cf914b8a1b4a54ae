//! `lit_why`: the choice that is shown of those with a data race.

use lit_paths::plan;
use lit_read::read;
use lit_solve::Goal;
use lit_test_texts::{MESSAGE_PASSING_PLAIN, PUBLICATION, STORE_BUFFERING};
use lit_why::{is_data_race, least_mixing, part_of};
use std::alloc::AllocGlobal;
use std::process::Abort;
use std::test::Fail;

/// A choice's number, its sources, and its least memory-order.
type Told<'a> = (u64, &'a [u8], &'a [u8]);

/// That the choice that is shown of those with a data race is this one, or that there is none.
fn assert_race(
    rt: &(impl Abort + AllocGlobal),
    text: &str,
    wanted: Option<Told<'_>>,
) -> Result<(), Fail> {
    let test = read(rt.alloc(), text.as_bytes())?;
    let plan = plan(rt.alloc(), &test)?;
    match (least_mixing(&plan, Goal::Race), wanted) {
        (Some(race), Some((choice, sources, order))) => {
            assert_eq!(rt; race.choice, choice);
            assert_eq!(rt; race.least.sources.as_slice(), sources);
            assert_eq!(rt; race.least.order.as_slice(), order);
        }
        (found, wanted) => assert_eq!(rt; found.is_some(), wanted.is_some()),
    }
    Ok(())
}

/// The first choice reads 0 from init twice, which races with nothing. The second one reads the data from its store, which
/// nothing orders with the load.
#[test]
fn a_plain_load_races_with_the_store_that_it_reads(rt: HostRuntime) -> Result<(), Fail> {
    assert_race(
        &rt,
        MESSAGE_PASSING_PLAIN,
        Some((1, &[1, 2], &[0, 1, 2, 3, 4, 5])),
    )
}

/// Atomic accesses of one range race with nothing; nor does a load behind a guard that the atomic flag was read.
#[test]
fn synchronized_accesses_have_no_race(rt: HostRuntime) -> Result<(), Fail> {
    assert_race(&rt, STORE_BUFFERING, None)?;
    assert_race(&rt, PUBLICATION, None)
}

/// In the same choice that load and that store are in a data race, whichever is named first, and no other two events.
#[test]
fn only_the_racing_pair_races(rt: HostRuntime) -> Result<(), Fail> {
    let test = read(rt.alloc(), MESSAGE_PASSING_PLAIN.as_bytes())?;
    let plan = plan(rt.alloc(), &test)?;
    assert!(&rt; 1 < plan.total());
    let part = part_of(&plan, 1);
    for first in 0..6 {
        for second in 0..6 {
            let wanted = first == 2 && second == 5 || first == 5 && second == 2;
            assert_eq!(&rt; is_data_race(&part, first, second), wanted);
        }
    }
    Ok(())
}
