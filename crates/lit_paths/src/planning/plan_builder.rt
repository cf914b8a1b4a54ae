//! Builds the plan of a test, or refuses the test. `planning` has the `Plan` and its calls.

ghost use Rattle.std.specs.Prelude.{◌≡◌, ◌↔◌, ◌⊎◌, ◌<◌, ◌≤◌, length, min, IsTrue, IfOk, IfErr, OnOk, MatchOption};
ghost use Rattle.lit_syntax.specs.Syntax.{IsLitmus};
ghost use Rattle.lit_paths.specs.declared.limits.TheConstants.{ACCESS_LIMIT as ACCESSES, COMBINATION_LIMIT as COMBINATIONS};
ghost use Rattle.lit_paths.specs.declared.limits.TheConstants.{CHOICE_LIMIT as CHOICES};
ghost use Rattle.lit_paths.specs.declared.fault.PlanFault.TheVariants.{OutOfMemory, TooManyChoices};
ghost use Rattle.lit_paths.specs.Choice.{sources_of, combinations_of, choices_of};
ghost use Rattle.lit_paths.specs.Plan.{events_in, IsPlanFault};
ghost use Rattle.lit_paths.specs.Refusal.{HasFewEvents};
ghost use Rattle.lit_paths.specs.Internal.Walks.{longest_of, count_of, many_walks};
ghost use Rattle.lit_paths.specs.Internal.Totals.{totals_below};

use crate::byte_reads::{ByteReads, count_sources, find_byte_reads};
use crate::combination::paths::{CombinationPaths, join};
use crate::fault::PlanFault;
use crate::limits::{ACCESS_LIMIT, CHOICE_LIMIT, COMBINATION_LIMIT};
use crate::path::counting::{longest_walk, walk_count};
use crate::planning::Plan;
use crate::planning::agent_paths::AgentPaths;
use crate::registers::written_names;
use lit_syntax::Test;
use std::alloc::Global;

/// Whether some combination of paths has too many access events.
fn has_too_many_events(test: &Test) -> bool
    ensures { IsTrue result ↔ (ACCESSES < longest_of test.now.agents) }
{
    let mut count = 0;
    for agent in 0..test.agents() {
        count = (count + longest_walk(test.body(agent))).min(ACCESS_LIMIT + 1);
    }
    count > ACCESS_LIMIT
}

/// How many combinations of paths there are, capped at one more than there may be.
fn combination_count(test: &Test) -> usize
    ensures value { result ≡ min (count_of test.now.agents) many_walks }
    ensures litmus { IsLitmus test.now }
{
    let mut count = 1;
    for agent in 0..test.agents() {
        count = (count * walk_count(test.body(agent))).min(COMBINATION_LIMIT + 1);
    }
    count
}

/// How many choices a combination has, or `None` where these are more than there may be. Its paths and byte reads replace
/// those given.
fn choice_count(
    combination_paths: &mut CombinationPaths,
    reads: &mut ByteReads,
    paths: &AgentPaths<'_>,
    combination: usize,
) -> Option<u64>
    requires { combination < count_of paths.now.agents }
    ensures { MatchOption result (CHOICES < length (sources_of (events_in paths.now combination)))
        (λ count. (count ≡ length (sources_of (events_in paths.now combination))) × (count ≤ CHOICES)) }
{
    join(combination_paths, paths, combination);
    let events = combination_paths.events.as_slice();
    find_byte_reads(reads, events);
    count_sources(events, reads.as_slice())
}

/// The running totals of choices: for each combination, how many choices it has with those before it.
fn running_totals(alloc: Global, paths: &AgentPaths<'_>) -> Result<Vec<u64>, PlanFault>
    ensures totals { IfOk result (λ totals. totals.items ≡ totals_below paths.now (length (combinations_of paths.now))) }
    ensures few { OnOk result (length (choices_of paths.now) ≤ CHOICES) }
    ensures many { IfErr result (λ e. (e ≡ OutOfMemory) ⊎ ((e ≡ TooManyChoices) × (CHOICES < length (choices_of paths.now)))) }
{
    let count = paths.combinations();
    let mut totals = Vec::with_capacity(alloc, count)?;
    let mut combination_paths = CombinationPaths::new();
    let mut reads = ByteReads::new();
    let mut total = 0;
    for combination in 0..count {
        let Some(choices) = choice_count(&mut combination_paths, &mut reads, paths, combination)
        else {
            return Err(PlanFault::TooManyChoices);
        };
        total += choices;
        if total > CHOICE_LIMIT {
            return Err(PlanFault::TooManyChoices);
        }
        totals.push(total)?;
    }
    Ok(totals)
}

/// The plan of a test, or why it has none. `PlanFault::TooManyEvents` comes first: some combination of paths has more
/// than `ACCESS_LIMIT` access events. `PlanFault::TooManyPaths` is next: there are more than `COMBINATION_LIMIT`
/// combinations. Both are decided before anything grows. `PlanFault::TooManyChoices` is last: there are more than
/// `CHOICE_LIMIT` choices. `PlanFault::OutOfMemory` may stand in place of an answer after the first two.
pub fn plan<'t>(alloc: Global, test: &'t Test) -> Result<Plan<'t>, PlanFault>
    ensures ok { IfOk result (λ p. p ≡ test.now) }
    ensures few_events { OnOk result (HasFewEvents test.now) }
    ensures few_paths { OnOk result (length (combinations_of test.now) ≤ COMBINATIONS) }
    ensures few_choices { OnOk result (length (choices_of test.now) ≤ CHOICES) }
    ensures refused { IfErr result (IsPlanFault test.now) }
{
    // Both counts are capped and take no memory, so they come before any growth (decision 10).
    if has_too_many_events(test) {
        return Err(PlanFault::TooManyEvents);
    }
    if combination_count(test) > COMBINATION_LIMIT {
        return Err(PlanFault::TooManyPaths);
    }
    let paths = AgentPaths::new(alloc, test)?;
    let totals = match running_totals(alloc, &paths) {
        Ok(totals) => totals,
        Err(fault) => return Err(fault),
    };
    Ok(Plan::new(paths, totals, written_names(test)))
}
