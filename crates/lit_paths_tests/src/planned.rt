//! Tests and plans of texts.
//!
//! What `read` and `plan` ensure stays within these functions, which ensure nothing: no goal of a test needs it, and
//! each one would be tried with it.

use lit_paths::{Combination, Plan, plan};
use lit_read::read;
use lit_syntax::Test;
use std::alloc::AllocGlobal;
use std::process::Abort;

/// The test that a text spells.
pub(crate) fn test_of(rt: &(impl Abort + AllocGlobal), text: &[u8]) -> Test {
    read(rt.alloc(), text).expect(rt, "a test")
}

/// The plan of a test.
pub(crate) fn plan_of<'t>(rt: &(impl Abort + AllocGlobal), test: &'t Test) -> Plan<'t> {
    plan(rt.alloc(), test).expect(rt, "a plan")
}

/// Asserts that a plan has this number of combinations.
pub(crate) fn has_combinations(rt: &impl Abort, plan: &Plan<'_>, wanted: usize) {
    assert_eq!(rt; plan.combinations(), wanted);
}

/// Asserts that a plan has this number of choices.
pub(crate) fn has_total(rt: &impl Abort, plan: &Plan<'_>, wanted: u64) {
    assert_eq!(rt; plan.total(), wanted);
}

/// A combination by its number, which the plan has to have.
pub(crate) fn entered<'p>(rt: &impl Abort, plan: &'p Plan<'_>, number: usize) -> Combination<'p> {
    assert!(rt; number < plan.combinations());
    plan.enter(number)
}
