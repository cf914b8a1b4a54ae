//! The paths of each agent, by their numbers.

ghost use Rattle.std.specs.Prelude.{◌≡◌, ◌<◌, ◌≤◌, length, map, IfOk};
ghost use Rattle.lit_syntax.specs.Litmus.{statements_of};
ghost use Rattle.lit_syntax.specs.Syntax.{agent_of};
ghost use Rattle.lit_paths.specs.declared.limits.TheConstants.{ACCESS_LIMIT, COMBINATION_LIMIT};
ghost use Rattle.lit_paths.specs.Path.{walks_of};
ghost use Rattle.lit_paths.specs.PathModel.{path_model};
ghost use Rattle.lit_paths.specs.Internal.Combining.{path_models};
ghost use Rattle.lit_paths.specs.Internal.Walks.{AreSaid, longest, IsInLimits, count_of, walk_at};

use crate::path::Path;
use crate::path::counting::walk_count;
use crate::path::walking::walk;
use lit_syntax::{Stmt, Test};
use std::alloc::{AllocError, Global};
use std::marker::Model;

/// The paths of an agent, by rising decisions.
fn paths_of_agent(alloc: Global, owner: u8, body: &[Stmt]) -> Result<Vec<Path>, AllocError>
    requires said { AreSaid (statements_of body.now) }
    requires few { length (walks_of (statements_of body.now)) ≤ COMBINATION_LIMIT }
    requires short { longest (statements_of body.now) ≤ ACCESS_LIMIT }
    ensures { IfOk result (λ paths. paths.items ≡ path_models owner (statements_of body.now)) }
{
    let count = walk_count(body);
    let mut paths = Vec::with_capacity(alloc, count)?;
    for number in 0..count {
        let mut path = Path::new(alloc);
        walk(&mut path, owner, body, number)?;
        paths.push(path)?;
    }
    Ok(paths)
}

/// The paths of each agent of a test, by agent and number. A clause sees it as the test's value.
#[derive(Drop)]
pub(crate) struct AgentPaths<'t> {
    test: &'t Test,
    lists: Vec<Vec<Path>>,
}

impl<'t> Model for AgentPaths<'t> {
    ghost use Rattle.lit_syntax.specs.Syntax.{Litmus};
    ghost use Rattle.lit_syntax.specs.SyntaxCodes.{coded_litmus};
    ghost use Rattle.lit_paths.specs.Internal.AllPaths.{AreAllPaths};

    ghost Value = { Litmus };

    ghost coded = { coded_litmus };

    ghost view = { λ p. p.test.now };

    ghost invariant = { AreAllPaths };
}

impl<'t> AgentPaths<'t> {
    /// The paths of each agent of a test.
    pub(crate) fn new(alloc: Global, test: &'t Test) -> Result<AgentPaths<'t>, AllocError>
        requires { IsInLimits test.now }
        ensures { IfOk result (λ p. p ≡ test.now) }
    {
        let mut lists = Vec::with_capacity(alloc, test.agents())?;
        for agent in 0..test.agents() {
            lists.push(paths_of_agent(alloc, agent as u8, test.body(agent))?)?;
        }
        Ok(AgentPaths { test, lists })
    }

    /// The test.
    pub(crate) fn test(&self) -> &'t Test
        ensures { result.now ≡ self.now }
    {
        self.test
    }

    /// How many paths an agent has.
    pub(crate) fn count(&self, agent: usize) -> usize
        requires { agent < length self.now.agents }
        ensures { result ≡ length (walks_of (agent_of self.now agent).body) }
    {
        self.lists[agent].as_slice().len()
    }

    /// A path of an agent, by its number.
    pub(crate) fn path(&self, agent: usize, number: usize) -> &Path
        requires agent { agent < length self.now.agents }
        requires number { number < length (walks_of (agent_of self.now agent).body) }
        ensures { result.now ≡ path_model agent (walk_at (agent_of self.now agent).body number) }
    {
        &self.lists[agent].as_slice()[number]
    }

    /// How many combinations of a path for each agent there are.
    pub(crate) fn combinations(&self) -> usize
        ensures value { result ≡ count_of self.now.agents }
        ensures limits { IsInLimits self.now }
    {
        let mut count = 1;
        for agent in 0..self.test.agents() {
            count *= self.count(agent);
        }
        count
    }
}
