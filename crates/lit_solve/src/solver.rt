//! The solver's calls: whether a box has a solution, its least solution, and all its outcomes.

ghost use Rattle.std.specs.Prelude.{◌↔◌, ◌⊎◌, IfOk, IsTrue, MatchOption, OnOk};
ghost use Rattle.lit_solve.specs.Box.{IsBox, box_with};
ghost use Rattle.lit_solve.specs.Completion.{HasSolution, IsLeastSolution};
ghost use Rattle.lit_solve.specs.Outcomes.{AddsEntries, HasEachOutcome};
ghost use Rattle.lit_solve.specs.declared.goal.Goal.TheVariants.{Race};

use crate::domains::Domains;
use crate::goal::Goal;
use crate::heartbeat::Heartbeat;
use crate::least_search::Least;
use crate::problem::Problem;
use crate::table::OutcomeTable;
use std::alloc::{AllocError, Global};

/// Whether a box of the problem's combination has a completion that meets the goal.
pub fn exists(problem: &Problem<'_>, domains: &Domains, goal: Goal) -> bool
    requires { IsBox (box_with problem.now domains.now) }
    ensures { IsTrue result ↔ HasSolution (box_with problem.now domains.now) goal }
{
    match problem.fixpoint(domains) {
        Some(frame) => problem.exists(&frame, goal),
        None => false,
    }
}

/// The least sources of a completion that meets the goal, with their least memory-order, or `None` exactly if there is none.
pub fn least(problem: &Problem<'_>, domains: &Domains, goal: Goal) -> Option<Least>
    requires { IsBox (box_with problem.now domains.now) }
    ensures { MatchOption result (¬ HasSolution (box_with problem.now domains.now) goal)
        (λ least. IsLeastSolution (box_with problem.now domains.now) goal least.sources.items least.order.items) }
{
    match problem.fixpoint(domains) {
        Some(frame) => problem.least(&frame, goal, None),
        None => None,
    }
}

/// Records the outcomes of a box's completions that the table lacks. Each comes with the choice of the least sources of a completion that
/// has it, and with their least memory-order. Then answers `true` if `raced` is, or if a completion has a data race. Answers `AllocError`
/// if the table refuses to record an outcome or if the memory for the values of reads, taken from `alloc`, is refused; some outcomes may
/// be missing then. Calls the heartbeat at each step down.
pub fn outcomes_and_race<T: OutcomeTable, H: Heartbeat>(
    alloc: Global,
    problem: &Problem<'_>,
    domains: &Domains,
    table: &mut T,
    heartbeat: &H,
    raced: bool,
) -> Result<bool, AllocError>
    requires { IsBox (box_with problem.now domains.now) }
    ensures added { AddsEntries (box_with problem.now domains.now) (T.entries table.old) (T.entries table.new) }
    ensures whole { OnOk result (HasEachOutcome (box_with problem.now domains.now) (T.entries table.new)) }
    ensures race { IfOk result (λ race. IsTrue race ↔ (IsTrue raced ⊎ HasSolution (box_with problem.now domains.now) Race)) }
{
    let Some(frame) = problem.fixpoint(domains) else {
        return Ok(raced);
    };
    problem.outcomes(alloc, &frame, table, heartbeat)?;
    Ok(raced || problem.exists(&frame, Goal::Race))
}

/// This is `outcomes_and_race` without a search for a data race.
pub fn outcomes<T: OutcomeTable, H: Heartbeat>(
    alloc: Global,
    problem: &Problem<'_>,
    domains: &Domains,
    table: &mut T,
    heartbeat: &H,
) -> Result<(), AllocError>
    requires { IsBox (box_with problem.now domains.now) }
    ensures added { AddsEntries (box_with problem.now domains.now) (T.entries table.old) (T.entries table.new) }
    ensures whole { OnOk result (HasEachOutcome (box_with problem.now domains.now) (T.entries table.new)) }
{
    // Nothing is searched for where there is one already.
    outcomes_and_race(alloc, problem, domains, table, heartbeat, true)?;
    Ok(())
}
