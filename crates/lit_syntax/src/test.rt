//! A litmus test.

use crate::syntax::{Cond, Stmt};
use indexmap::IndexMap;
use std::marker::Model;

/// A litmus test: only what a text can say, but that this text may be longer than `TEXT_LIMIT`. A clause sees it as a
/// `Litmus`.
#[derive(Drop)]
pub struct Test {
    name: String,
    bytes: u8,
    agents: IndexMap<String, Vec<Stmt>>,
    check: Cond,
}

impl Model for Test {
    ghost use Rattle.lit_syntax.specs.Syntax.{Litmus};
    ghost use Rattle.lit_syntax.specs.SyntaxCodes.{coded_litmus};

    ghost Value = { Litmus };

    ghost coded = { coded_litmus };

    ghost use Rattle.lit_syntax.specs.Syntax.{IsLitmus};
    ghost use Rattle.lit_syntax.specs.Litmus.{litmus_of};

    ghost view = { litmus_of };

    ghost invariant = { λ t. IsLitmus (litmus_of t) };
}

impl Test {
    ghost use Rattle.std.specs.Prelude.{◌≡◌, ◌<◌, length, string_bytes};
    ghost use Rattle.lit_syntax.specs.Syntax.{agent_of, IsLitmus};
    ghost use Rattle.lit_syntax.specs.Litmus.{statements_of, condition_of, agents_view, litmus_with};

    /// The test of these parts, which are within the limits and rules of a test.
    pub fn new(name: String, bytes: u8, agents: IndexMap<String, Vec<Stmt>>, check: Cond) -> Test
        requires { IsLitmus (litmus_with (string_bytes name) bytes (agents_view agents.entries) (condition_of check)) }
        ensures { result ≡ litmus_with (string_bytes name) bytes (agents_view agents.entries) (condition_of check) }
    {
        Test {
            name,
            bytes,
            agents,
            check,
        }
    }

    /// The name in the text's `test` line.
    pub fn name(&self) -> &str
        ensures { result.now ≡ self.now.name }
    {
        self.name.as_str()
    }

    /// How many bytes the block has: 1 to `BLOCK_LIMIT`.
    pub fn bytes(&self) -> u8
        ensures value { result ≡ self.now.bytes }
        ensures litmus { IsLitmus self.now }
    {
        self.bytes
    }

    /// How many agents there are: 1 to `AGENT_LIMIT`.
    pub fn agents(&self) -> usize
        ensures value { result ≡ length self.now.agents }
        ensures litmus { IsLitmus self.now }
    {
        self.agents.len()
    }

    /// The name of an agent, by its number from 0 in the order of the text, below `agents()`.
    pub fn agent_name(&self, agent: usize) -> &str
        requires { agent < length self.now.agents }
        ensures { result.now ≡ (agent_of self.now agent).name }
    {
        let Some((name, _)) = self.agents.get_index(agent) else {
            unreachable!()
        };
        name.as_str()
    }

    /// The statements of an agent, by its number from 0 in the order of the text, below `agents()`.
    pub fn body(&self, agent: usize) -> &[Stmt]
        requires { agent < length self.now.agents }
        ensures value { statements_of result.now ≡ (agent_of self.now agent).body }
        ensures litmus { IsLitmus self.now }
    {
        let Some((_, body)) = self.agents.get_index(agent) else {
            unreachable!()
        };
        body.as_slice()
    }

    /// The condition in the text's `check` line.
    pub fn check(&self) -> &Cond
        ensures value { condition_of result.now ≡ self.now.check }
        ensures litmus { IsLitmus self.now }
    {
        &self.check
    }
}
