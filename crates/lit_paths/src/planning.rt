//! The plan of a test: its choices by number, with their combinations and sources. `plan_builder` builds it.

pub(crate) mod agent_paths;
pub(crate) mod plan_builder;

ghost use Rattle.std.specs.Prelude.{◌≡◌, ℕ, ◌+◌, ◌<◌, ◌≤◌, length, All, nat_le, slice_index};
ghost use Rattle.std.specs.List.Sorted.{IsNonDecreasingBy};
ghost use Rattle.lit_syntax.specs.Syntax.{IsLitmus};
ghost use Rattle.lit_syntax.specs.declared.limits.TheConstants.{REGISTERS};
ghost use Rattle.lit_paths.specs.Choice.{choices_of, combinations_of};
ghost use Rattle.lit_paths.specs.declared.limits.TheConstants.{CHOICE_LIMIT, COMBINATION_LIMIT, NAME_LIMIT};
ghost use Rattle.lit_paths.specs.Event.{event_at};
ghost use Rattle.lit_paths.specs.Outcome.{asks as is_asked, names_of, meets as is_met};
ghost use Rattle.lit_paths.specs.Plan.{events_in, choices_before, path_in, walk_in, AreEventsIn};
ghost use Rattle.lit_paths.specs.Plan.{HasSources, IsOfCombination, IsWalkIn};
ghost use Rattle.lit_paths.specs.Members.{ListsCandidates};

use crate::byte_reads::{ByteRead, Candidates, candidates_of};
use crate::combination::Combination;
use crate::combination::paths::{CombinationPaths, join};
use crate::event::{Events, Sources, event_at};
use crate::path::Path;
use crate::planning::agent_paths::AgentPaths;
use crate::registers::{OutcomeRegisters, asks, holds};
use lit_syntax::Test;
use std::marker::Model;

/// The choices of a test, by number, and what all of them share. A clause sees it as the test's value.
#[derive(Drop)]
pub struct Plan<'t> {
    paths: AgentPaths<'t>,
    totals: Vec<u64>,
    names: OutcomeRegisters,
}

impl<'t> Model for Plan<'t> {
    ghost use Rattle.lit_syntax.specs.Syntax.{Litmus};
    ghost use Rattle.lit_syntax.specs.SyntaxCodes.{coded_litmus};
    ghost use Rattle.lit_paths.specs.Internal.Planned.{IsPlanned};

    ghost Value = { Litmus };

    ghost coded = { coded_litmus };

    ghost view = { λ p. p.paths };

    ghost invariant = { IsPlanned };
}

/// The number of the combination that a choice is of, by binary search: the first one whose choices end behind it.
fn combination_of(totals: &[u64], n: u64) -> usize
    requires { IsNonDecreasingBy (λ x. x) totals.now }
    ensures bound { result ≤ length totals.now }
    ensures before { (c : ℕ) → c < result → slice_index totals.now c ≤ n }
    ensures behind { (c : ℕ) → result ≤ c → c < length totals.now → n < slice_index totals.now c }
{
    totals.partition_point(
        |end: &u64| -> bool
            ensures { result ≡ nat_le end.now n }
        { *end <= n },
    )
}

impl<'t> Plan<'t> {
    ghost use Rattle.lit_paths.specs.Internal.Totals.{totals_below};
    ghost use Rattle.lit_paths.specs.Internal.Walks.{IsInLimits};

    /// The plan of a test, of its paths, the running totals of its choices, and the registers of its outcomes.
    pub(crate) fn new(paths: AgentPaths<'t>, totals: Vec<u64>, names: OutcomeRegisters) -> Self
        requires limits { IsInLimits paths }
        requires totals { totals.items ≡ totals_below paths (length (combinations_of paths)) }
        requires few { length (choices_of paths) ≤ CHOICE_LIMIT }
        requires names { names.items ≡ names_of paths }
        ensures { result ≡ paths.entry }
    {
        Plan {
            paths,
            totals,
            names,
        }
    }

    /// The test.
    pub fn test(&self) -> &'t Test
        ensures value { result.now ≡ self.now }
        ensures litmus { IsLitmus self.now }
    {
        self.paths.test()
    }

    /// How many combinations of paths there are: 1 to `COMBINATION_LIMIT`.
    pub fn combinations(&self) -> usize
        ensures value { result ≡ length (combinations_of self.now) }
        ensures some { 1 ≤ result }
        ensures few { result ≤ COMBINATION_LIMIT }
    {
        self.totals.as_slice().len()
    }

    /// How many choices there are: 1 to `CHOICE_LIMIT`.
    pub fn total(&self) -> u64
        ensures value { result ≡ length (choices_of self.now) }
        ensures some { 1 ≤ result }
        ensures few { result ≤ CHOICE_LIMIT }
    {
        self.end_of(self.combinations() - 1)
    }

    /// How many choices there are up to the end of a combination.
    fn end_of(&self, combination: usize) -> u64
        requires { combination < length (combinations_of self.now) }
        ensures value { result ≡ choices_before self.now (combination + 1) }
        ensures some { 1 ≤ result }
        ensures few { result ≤ CHOICE_LIMIT }
    {
        self.totals.as_slice()[combination]
    }

    /// How many choices the combinations before one have.
    fn first_of(&self, combination: usize) -> u64
        requires { combination < length (combinations_of self.now) }
        ensures { result ≡ choices_before self.now combination }
    {
        if combination == 0 {
            0
        } else {
            self.end_of(combination - 1)
        }
    }

    /// The combination of paths of a choice, by the choice's number: below `total`.
    pub fn combination(&self, n: u64) -> usize
        requires { n < length (choices_of self.now) }
        ensures value { IsOfCombination self.now n result }
        ensures low { choices_before self.now result ≤ n }
        ensures high { n < choices_before self.now (result + 1) }
    {
        combination_of(self.totals.as_slice(), n)
    }

    /// A combination of paths, by its number: below `combinations`.
    pub fn enter<'p>(&'p self, combination: usize) -> Combination<'p>
        requires { combination < length (combinations_of self.now) }
        ensures { result ≡ (self.now, combination) }
    {
        let first = self.first_of(combination);
        let total = self.end_of(combination) - first;
        Combination::new(&self.paths, combination, first, total)
    }

    /// Enters a combination of paths, by its number, below `combinations`, in place of one that was entered before. Unlike
    /// `enter`, it makes no new value as large as a combination.
    pub fn reenter<'p>(&'p self, combination: &mut Combination<'p>, number: usize)
        requires { number < length (combinations_of self.now) }
        ensures { combination.new ≡ (self.now, number) }
    {
        let first = self.first_of(number);
        let total = self.end_of(number) - first;
        combination.reenter(&self.paths, number, first, total);
    }

    /// The sources of a choice, by its number: below `total`.
    pub fn sources(&self, n: u64) -> Sources
        requires { n < length (choices_of self.now) }
        ensures { HasSources self.now n result.items }
    {
        self.enter(self.combination(n)).sources(n)
    }

    /// All events of a combination of paths, by its number: below `combinations`.
    pub fn events(&self, combination: usize) -> Events
        requires { combination < length (combinations_of self.now) }
        ensures value { result.items ≡ events_in self.now combination }
        ensures sound { AreEventsIn self.now.bytes result.items }
    {
        let mut combination_paths = CombinationPaths::new();
        join(&mut combination_paths, &self.paths, combination);
        combination_paths.events
    }

    /// The path of an agent in a combination. The combination is below `combinations`, the agent below the number of
    /// agents.
    pub fn path(&self, combination: usize, agent: usize) -> &Path
        requires combination { combination < length (combinations_of self.now) }
        requires agent { agent < length self.now.agents }
        ensures exact { result.now ≡ path_in self.now combination agent }
        ensures walk { IsWalkIn self.now combination agent (walk_in self.now combination agent) }
    {
        self.enter(combination).path(agent)
    }

    /// The candidates of a byte of a read, by rising event number. The combination is below `combinations`, `read` the
    /// number of an event of it that reads, and `byte` below that event's size.
    pub fn candidates(&self, combination: usize, read: u8, byte: u8) -> Candidates
        requires combination { combination < length (combinations_of self.now) }
        requires known { read < length (events_in self.now combination) }
        requires byte { byte < (event_at (events_in self.now combination) read).size }
        ensures { ListsCandidates (events_in self.now combination) read
            ((event_at (events_in self.now combination) read).first + byte) result.items }
    {
        let events = self.events(combination);
        let events = events.as_slice();
        let first = event_at(events, usize::from(read)).first;
        let byte = first + byte;
        candidates_of(events, ByteRead { read, byte })
    }

    /// The registers of an outcome, as agent and register: agents in order, registers rising. At most `NAME_LIMIT`.
    pub fn names(&self) -> &[(u8, u8)]
        ensures value { result.now ≡ names_of self.now }
        ensures few { length result.now ≤ NAME_LIMIT }
        ensures known { All (λ name. (name.0 < length self.now.agents) × (name.1 < REGISTERS)) result.now }
    {
        self.names.as_slice()
    }

    /// Whether an outcome, with as many values as `names`, meets the test's condition.
    pub fn meets(&self, outcome: &[u32]) -> bool
        requires { length outcome.now ≡ length (names_of self.now) }
        ensures { result ≡ is_met self.now outcome.now }
    {
        holds(self.names.as_slice(), outcome, self.test().check())
    }

    /// Whether the test's condition looks at a register, named by agent and register.
    pub fn asks(&self, name: (u8, u8)) -> bool
        ensures { result ≡ is_asked self.now.check name.0 name.1 }
    {
        asks(self.test().check(), name.0, name.1)
    }
}
