//! The search of a range of choices, combination by combination and box by box.

ghost use Rattle.std.specs.Prelude.{◌+◌, ◌<◌, ◌≤◌, IsTrue, length, IfOk, MatchOption};
ghost use Rattle.lit_syntax.specs.Syntax.{IsLitmus};
ghost use Rattle.lit_paths.specs.Choice.{choices_of};
ghost use Rattle.lit_paths.specs.Plan.{choices_before};
ghost use Rattle.lit_search.specs.FirstOfClass.{HasNoneOf, IsFirstOf};
ghost use Rattle.lit_search.specs.Report.{IsReport, in_range};
ghost use Rattle.lit_search.specs.Internal.Boxed.{AreOfRange};
ghost use Rattle.lit_search.specs.Internal.Gained.{Gains, GoesOn};

use crate::collector::Collector;
use crate::fault::SearchFault;
use crate::found::Found;
use crate::found::examples::Examples;
use lit_paths::{BYTE_READ_LIMIT, Plan};
use lit_rel::EventSet;
use lit_solve::{
    Boxes, Goal, Heartbeat, NoHeartbeat, Problem, least, number_of, outcomes_and_race,
};
use lit_valid::Class;
use lit_valid::laws::laws_below;
use std::alloc::{AllocError, Global};

/// The boxes of the choices with numbers from `from` up to and without `to`, all of the problem's combination.
fn boxes_of<'a, 'p>(problem: &'a Problem<'p>, from: u64, to: u64) -> Boxes<'a, 'p>
    requires some { from < to }
    requires begins { choices_before problem.now.0 problem.now.1 ≤ from }
    requires ends { to ≤ choices_before problem.now.0 (problem.now.1 + 1) }
    ensures { AreOfRange problem.now from to result }
{
    let combination = problem.combination();
    // For the prover: that the combination is one of the test.
    let _first = combination.first();
    Boxes::of_range(combination, from, to)
}

/// The first choice of a class with a number from `from` up to and without `to`, all of the problem's combination: the least
/// of the first box that has one.
fn first_on(problem: &Problem<'_>, class: Class, from: u64, to: u64) -> Option<u64>
    requires litmus { IsLitmus problem.now.0 }
    requires some { from < to }
    requires begins { choices_before problem.now.0 problem.now.1 ≤ from }
    requires ends { to ≤ choices_before problem.now.0 (problem.now.1 + 1) }
    ensures { MatchOption result (HasNoneOf problem.now.0 class (in_range from to)) (IsFirstOf problem.now.0 class (in_range from to)) }
{
    // For the prover: the executions of the test have choices, and these have numbers.
    laws_below();
    let boxes = boxes_of(problem, from, to);
    let mut domains = [EventSet::new(); BYTE_READ_LIMIT];
    for i in 0..boxes.len() {
        boxes.put(i, &mut domains);
        if let Some(least) = least(problem, &domains, Goal::OfClass(class)) {
            return Some(number_of(problem.combination(), least.sources.as_slice()));
        }
    }
    None
}

/// Of the choices with numbers from `from` up to and without `to`, the first one of a valid execution with an outcome in
/// the class; `None` if there is none. `from` is at most `to`, and `to` at most `plan.total()`. Takes no memory.
pub fn first_in(plan: &Plan<'_>, class: Class, from: u64, to: u64) -> Option<u64>
    requires order { from ≤ to }
    requires known { to ≤ length (choices_of plan.now) }
    ensures { MatchOption result (HasNoneOf plan.now class (in_range from to)) (IsFirstOf plan.now class (in_range from to)) }
{
    // For the prover: the plan's test is one that a text can say.
    let _test = plan.test();
    let mut next = from;
    // For the prover: there is a combination.
    let _combinations = plan.combinations();
    // It is opened with any combination, and reopened with each of the range.
    let mut problem = Problem::open(&*plan, 0);
    while next < to {
        problem.reopen(&*plan, plan.combination(next));
        let end = problem.combination().end().min(to);
        if let Some(first) = first_on(&problem, class, next, end) {
            return Some(first);
        }
        next = end;
    }
    None
}

/// Records the outcomes of the choices with numbers from `from` up to and without `to`, all of the problem's combination,
/// that the table lacks. Answers `true` if `raced` is, or if one of these choices has a data race (decision 45).
fn record_on<H: Heartbeat>(
    alloc: Global,
    problem: &Problem<'_>,
    table: &mut Examples,
    heartbeat: &H,
    raced: bool,
    from: u64,
    to: u64,
) -> Result<bool, AllocError>
    requires litmus { IsLitmus problem.now.0 }
    requires some { from < to }
    requires begins { choices_before problem.now.0 problem.now.1 ≤ from }
    requires ends { to ≤ choices_before problem.now.0 (problem.now.1 + 1) }
    ensures goes_on { GoesOn table.old table.new }
    ensures gains { IfOk result (Gains problem.now.0 (λ n. IsTrue (in_range from to n)) table.old table.new raced) }
{
    // For the prover: the executions of the test have choices, and these have numbers.
    laws_below();
    let boxes = boxes_of(problem, from, to);
    let mut domains = [EventSet::new(); BYTE_READ_LIMIT];
    let mut race = raced;
    for place in 0..boxes.len() {
        boxes.put(place, &mut domains);
        // Once there is one, no further box is searched for a data race.
        race = outcomes_and_race(alloc, problem, &domains, table, heartbeat, race)?;
    }
    Ok(race)
}

/// Records the outcomes of the choices with numbers from `from` up to and without `to` that the table lacks. Answers `true` if
/// `raced` is, or if one of these choices has a data race.
pub(crate) fn record<H: Heartbeat>(
    alloc: Global,
    plan: &Plan<'_>,
    table: &mut Examples,
    heartbeat: &H,
    raced: bool,
    from: u64,
    to: u64,
) -> Result<bool, AllocError>
    requires order { from ≤ to }
    requires known { to ≤ length (choices_of plan.now) }
    ensures goes_on { GoesOn table.old table.new }
    ensures gains { IfOk result (Gains plan.now (λ n. IsTrue (in_range from to n)) table.old table.new raced) }
{
    // For the prover: the plan's test is one that a text can say.
    let _test = plan.test();
    let mut race = raced;
    let mut next = from;
    // For the prover: there is a combination.
    let _combinations = plan.combinations();
    // It is opened with any combination, and reopened with each of the range.
    let mut problem = Problem::open(&*plan, 0);
    while next < to {
        problem.reopen(&*plan, plan.combination(next));
        let end = problem.combination().end().min(to);
        race = record_on(alloc, &problem, table, heartbeat, race, next, end)?;
        next = end;
    }
    Ok(race)
}

/// The report of the choices with numbers from `from` up to and without `to`: `from` is at most `to`, and `to` at most
/// `plan.total()`. Answers `SearchFault::OutOfMemory` where a growth was refused, and no other fault.
pub fn search_range(
    alloc: Global,
    plan: &Plan<'_>,
    from: u64,
    to: u64,
) -> Result<Found, SearchFault>
    requires order { from ≤ to }
    requires known { to ≤ length (choices_of plan.now) }
    ensures { IfOk result (IsReport plan.now (in_range from to)) }
{
    search_range_with(alloc, plan, &NoHeartbeat, from, to)
}

/// This is `search_range` with a heartbeat: where that ends the search, the answer is `SearchFault::OutOfMemory` too.
pub fn search_range_with<H: Heartbeat>(
    alloc: Global,
    plan: &Plan<'_>,
    heartbeat: &H,
    from: u64,
    to: u64,
) -> Result<Found, SearchFault>
    requires order { from ≤ to }
    requires known { to ≤ length (choices_of plan.now) }
    ensures { IfOk result (IsReport plan.now (in_range from to)) }
{
    let mut collector = Collector::new(alloc, &*plan);
    collector.take(heartbeat, from, to)?;
    collector.into_found()
}
