//! Interleavings: a test's agents in turns, on one block.

ghost use Rattle.std.specs.Prelude.{◌≡◌, ◌<◌, All, IfOk, length, map};
ghost use Rattle.lit_paths.specs.Outcome.{outcome_of};
ghost use Rattle.lit_interleave.specs.Interleaving.{beginning, interleaved};

use crate::runner::Runner;
use lit_paths::written_names;
use lit_syntax::Test;
use std::alloc::{AllocError, Global};

/// Each agent of a test before its first statement.
fn runners_of<'t>(alloc: Global, test: &'t Test) -> Result<Vec<Runner<'t>>, AllocError>
    ensures { IfOk result (λ runners. runners.items ≡ (beginning test.now).agents) }
{
    let mut runners = Vec::new(alloc);
    for agent in 0..test.agents() {
        runners.push(Runner::new(alloc, test.body(agent))?)?;
    }
    Ok(runners)
}

/// The values of an outcome's registers.
fn outcome_of(alloc: Global, test: &Test, runners: &[Runner<'_>]) -> Result<Vec<u32>, AllocError>
    requires { length runners.now ≡ length test.now.agents }
    ensures { IfOk result (λ outcome. outcome.items ≡ outcome_of test.now (map (λ runner. runner.registers) runners.now)) }
{
    let names = written_names(test);
    let mut outcome = Vec::new(alloc);
    for name in names.as_slice() {
        outcome.push(runners[usize::from(name.0)].register(name.1))?;
    }
    Ok(outcome)
}

/// The outcome of a schedule: each access is carried out at once, on a block whose bytes are 0 at first. The schedule
/// lists agents by number, each below `test.agents()`. A turn of an agent carries out its statements up to and
/// including the next access; a turn of one that has ended does nothing. After the schedule each agent carries out what
/// it has left, in order. Answers an error where a growth was refused.
pub fn interleave(alloc: Global, test: &Test, schedule: &[u8]) -> Result<Vec<u32>, AllocError>
    requires { All (λ agent. agent < length test.now.agents) schedule.now }
    ensures { IfOk result (λ outcome. outcome.items ≡ interleaved test.now schedule.now) }
{
    let mut block = vec![in alloc; 0; usize::from(test.bytes())]?;
    let mut runners = runners_of(alloc, test)?;
    'turns: for agent in schedule {
        runners[usize::from(*agent)].turn(&mut block)?;
    }
    'ends: for agent in 0..test.agents() {
        runners[agent].finish(&mut block)?;
    }
    outcome_of(alloc, test, &runners)
}
