//! Which execution is shown of those that meet a goal: the one that mixes sources least.

ghost use Rattle.std.specs.Prelude.{ℕ, ◌<◌, IfSome, MatchOption, length};
ghost use Rattle.lit_paths.specs.Choice.{choices_of, combinations_of};
ghost use Rattle.lit_why.specs.LeastMixing.{HasNoneOn, IsShown, IsShownOn};

use crate::domains::all_candidates;
use crate::unmixing::unmix;
use lit_paths::Plan;
use lit_solve::{Goal, Least, Problem, least, number_of};
use lit_valid::laws::laws_below;

/// A choice that a valid execution which meets a goal has.
#[derive(Drop)]
pub struct LeastMixing {
    /// Its number.
    pub choice: u64,
    /// Its sources, in the order of the byte reads, and the least memory-order with them.
    pub least: Least,
}

/// The choice on a combination that mixes sources least; the combination by its number, below `combinations`.
fn least_mixing_on(plan: &Plan<'_>, combination: usize, goal: Goal) -> Option<LeastMixing>
    requires { combination < length (combinations_of plan.now) }
    ensures { MatchOption result (HasNoneOn plan.now goal combination)
        (λ shown. IsShownOn plan.now goal combination shown.choice shown.least.sources.items shown.least.order.items) }
{
    // Tells the prover the laws of the crates below, and that the test is one that a text can spell.
    laws_below();
    let _test = plan.test();
    let problem = Problem::open(plan, combination);
    let domains = all_candidates(problem.combination());
    let Some(first) = least(&problem, &domains, goal) else {
        return None;
    };
    let least = unmix(&problem, goal, first);
    let choice = number_of(problem.combination(), least.sources.as_slice());
    Some(LeastMixing { choice, least })
}

/// The choice to show of those that a valid execution which meets the goal has, with its least memory-order; `None` exactly where none
/// has one. It is on the first combination with one. There, read by read, sources from one event, or from init alone, stand before
/// sources that mix; and else lesser ones before greater. Takes no memory.
pub fn least_mixing(plan: &Plan<'_>, goal: Goal) -> Option<LeastMixing>
    ensures shown { MatchOption result ((c : ℕ) → HasNoneOn plan.now goal c)
        (λ shown. IsShown plan.now goal shown.choice shown.least.sources.items shown.least.order.items) }
    ensures known { IfSome result (λ shown. shown.choice < length (choices_of plan.now)) }
{
    for combination in 0..plan.combinations() {
        if let Some(shown) = least_mixing_on(plan, combination, goal) {
            return Some(shown);
        }
    }
    None
}
