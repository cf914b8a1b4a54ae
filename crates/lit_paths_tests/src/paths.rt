//! `lit_paths`: the paths, events, byte reads and choices of a test.

use crate::planned::{entered, has_combinations, plan_of, test_of};
use lit_paths::{ByteRead, Combination, Event, Events, Kind, Order3, Plan, PlanFault};
use lit_test_texts::STORE_BUFFERING;
use numbers::has_choices;
use std::alloc::AllocGlobal;
use std::process::Abort;
use std::test::Fail;

mod choices;
mod guards;
mod makers;
mod numbers;
mod refusals;

/// Asserts that these are the events of store buffering: two of init, and a store and a load of each agent.
fn are_store_buffering(rt: &impl Abort, events: &[Event]) {
    assert_eq!(rt; events.len(), 6);
    let (first, store, load) = (events[1], events[2], events[5]);
    assert!(rt; first.order == Order3::Init && first.first == 1 && first.owner.is_none());
    assert!(rt;
        store.kind == Kind::Write && store.payload == [1, 0, 0, 0] && store.owner == Some(0)
    );
    assert!(rt;
        load.kind == Kind::Read && load.first == 0 && load.owner == Some(1) && load.place == 1
    );
    assert!(rt; load.kind.does_read() && !load.kind.does_write());
}

/// The events of the first combination.
fn first_events(rt: &impl Abort, plan: &Plan<'_>) -> Events {
    assert!(rt; plan.combinations() > 0);
    plan.events(0)
}

#[test]
fn store_buffering_events(rt: HostRuntime) {
    let test = test_of(&rt, STORE_BUFFERING.as_bytes());
    let plan = plan_of(&rt, &test);
    are_store_buffering(&rt, &first_events(&rt, &plan));
}

/// Asserts that a choice of a combination has these sources.
fn has_sources(rt: &impl Abort, combination: &Combination<'_>, choice: u64, wanted: &[u8]) {
    assert!(rt; combination.first() <= choice && choice < combination.end());
    let sources = combination.sources(choice);
    assert_eq!(rt; sources.as_slice(), wanted);
}

/// Asserts that a combination has six events, and that its byte reads are those of store buffering.
fn reads_both(rt: &impl Abort, combination: &Combination<'_>) {
    assert_eq!(rt; combination.events().len(), 6);
    let reads = [ByteRead { read: 3, byte: 1 }, ByteRead { read: 5, byte: 0 }];
    assert!(rt; combination.byte_reads() == reads.as_slice());
}

#[test]
fn store_buffering_combination(rt: HostRuntime) {
    let test = test_of(&rt, STORE_BUFFERING.as_bytes());
    let plan = plan_of(&rt, &test);
    has_combinations(&rt, &plan, 1);
    let combination = entered(&rt, &plan, 0);
    reads_both(&rt, &combination);
    has_choices(&rt, &combination, 0, 4);
    has_sources(&rt, &combination, 1, &[1, 2]);
}

/// Asserts that the first byte that event 3 reads in the first combination has these candidates.
fn has_candidates(rt: &impl Abort, plan: &Plan<'_>, wanted: &[u8]) {
    assert_eq!(rt; plan.combinations(), 1);
    let events = plan.events(0);
    assert!(rt; 3 < events.len() && events[3].size == 1);
    let candidates = plan.candidates(0, 3, 0);
    assert_eq!(rt; candidates.as_slice(), wanted);
}

#[test]
fn store_buffering_candidates(rt: HostRuntime) {
    let test = test_of(&rt, STORE_BUFFERING.as_bytes());
    let plan = plan_of(&rt, &test);
    has_candidates(&rt, &plan, &[1, 4]);
}

/// Asserts that the condition is about the first register of both agents, and asks that both be 0.
fn asks_for_zeros(rt: &impl Abort, plan: &Plan<'_>) {
    let names = plan.names();
    assert_eq!(rt; names.len(), 2);
    assert!(rt; names[0] == (0, 0) && names[1] == (1, 0));
    assert!(rt; plan.meets(&[0, 0]));
    assert!(rt; !plan.meets(&[0, 1]));
}

#[test]
fn store_buffering_condition(rt: HostRuntime) {
    let test = test_of(&rt, STORE_BUFFERING.as_bytes());
    let plan = plan_of(&rt, &test);
    asks_for_zeros(&rt, &plan);
}

fn has_name(rt: &(impl Abort + AllocGlobal), fault: PlanFault, name: &str) -> Result<(), Fail> {
    assert_eq!(rt; fault.to_string(rt.alloc())?.as_str(), name);
    Ok(())
}

#[test]
fn faults_have_names(rt: HostRuntime) -> Result<(), Fail> {
    has_name(&rt, PlanFault::TooManyEvents, "14 too_many_events")?;
    has_name(&rt, PlanFault::TooManyPaths, "13 too_many_paths")?;
    has_name(&rt, PlanFault::TooManyChoices, "15 too_many_choices")?;
    has_name(&rt, PlanFault::OutOfMemory, "out_of_memory")
}
