//! Cases: boxes into which an attempt is cut until what is given in each of them alone, the bytes that have one source, refutes it.

mod attempt_box;
pub(crate) mod covering;
pub(crate) mod given;
pub(crate) mod refuting;

ghost use Rattle.std.specs.Prelude.{◌<◌, ◌≤◌, IfOk, IsTrue, length};
ghost use Rattle.lit_paths.specs.Choice.{choices_of};
ghost use Rattle.lit_why.specs.Refutation.{AreCasesOfAttempt, IsRefutedAttempt};

use crate::cases::attempt_box::attempt_box;
use crate::cases::covering::{Case, add_cases};
use lit_paths::Plan;
use lit_solve::Problem;
use std::alloc::{AllocError, Global};

/// The cases of an attempt.
#[derive(Drop)]
pub struct Cover {
    /// The cases that were found, each refuted by what is given in it.
    pub cases: Vec<Case>,
    /// Whether each choice of the attempt has its sources in one of them; `false` may come of the limit alone.
    pub whole: bool,
}

/// The cases of the attempt that a choice is of, by the choice's number, below `plan.total()`: at most so many, each refuted. Where they
/// are the whole of it, no choice of the attempt has a valid execution. Fails only where memory is refused.
pub fn cover_of(
    alloc: Global,
    plan: &Plan<'_>,
    choice: u64,
    most: usize,
) -> Result<Cover, AllocError>
    requires { choice < length (choices_of plan.now) }
    ensures cases { IfOk result (λ cover. AreCasesOfAttempt plan.now choice cover.cases.items cover.whole) }
    ensures few { IfOk result (λ cover. length cover.cases.items ≤ most) }
    ensures refuted { IfOk result (λ cover. IsTrue cover.whole → IsRefutedAttempt plan.now choice cover.cases.items) }
{
    // Tells the prover that the test is one that a text can spell.
    let _test = plan.test();
    let problem = Problem::open(&*plan, plan.combination(choice));
    let combination = problem.combination();
    let sources = plan.sources(choice);
    let domains = attempt_box(plan, combination, sources.as_slice());
    let cuts = combination.byte_reads().len();
    let mut cases = Vec::new(alloc);
    let whole = add_cases(plan, &problem, &domains, most, cuts, &mut cases)?;
    Ok(Cover { cases, whole })
}
