//! A combination of paths: its events, its byte reads with their candidates, and the choices on it.

pub(crate) mod paths;

ghost use Rattle.std.specs.Prelude.{◌≡◌, ℕ, ◌+◌, ◌/◌, ◌%◌, ◌<◌, ◌≤◌, length, map, Some, slice_get};
ghost use Rattle.std.specs.List.{AllByRecursion};
ghost use Rattle.lit_syntax.specs.Syntax.{agent_of};
ghost use Rattle.lit_syntax.specs.StatementOrder.{statement_count};
ghost use Rattle.lit_paths.specs.declared.limits.TheConstants.{BYTE_READ_LIMIT as READS, CANDIDATE_LIMIT as CANDIDATES};
ghost use Rattle.lit_paths.specs.declared.limits.TheConstants.{CHOICE_LIMIT, EVENT_LIMIT};
ghost use Rattle.lit_paths.specs.ByteReads.{byte_reads, byte_read_at, pair_of};
ghost use Rattle.lit_paths.specs.Choice.{product, candidates_of as candidates_among, choices_of, combinations_of};
ghost use Rattle.lit_paths.specs.Members.{AreSources, ListsCandidates};
ghost use Rattle.lit_paths.specs.Numbers.{ways_from};
ghost use Rattle.lit_paths.specs.declared.byte_reads.ByteRead.{ByteRead as Read};
ghost use Rattle.lit_paths.specs.Plan.{events_in, choices_before, first_event, path_in, walk_in, AreEventsIn};
ghost use Rattle.lit_paths.specs.Plan.{HasSources, IsOfCombination, IsWalkIn};
ghost use Rattle.lit_paths.specs.StatementNumbers.{AreMakers};
ghost use Rattle.lit_paths.specs.Internal.CandidateLists.{candidate_lists, candidates_for, ways_after};
ghost use Rattle.lit_paths.specs.Internal.Entered.{IsFormed};
ghost use Rattle.lit_paths.specs.Internal.Walks.{IsInLimits};

use crate::byte_reads::{ByteRead, ByteReads, candidates_of, find_byte_reads};
use crate::combination::paths::{CombinationPaths, join};
use crate::event::{Event, Sources};
use crate::limits::{BYTE_READ_LIMIT, CANDIDATE_LIMIT};
use crate::path::Path;
use crate::path::makers::{Makers, find_makers};
use crate::planning::agent_paths::AgentPaths;
use arrayvec::ArrayVec;
use lit_syntax::Test;
use std::marker::Model;

/// The candidates of each byte read, and in how many ways sources can be chosen for the byte reads after it.
#[derive(Drop)]
struct Ways {
    candidates: ArrayVec<ArrayVec<u8, CANDIDATE_LIMIT>, BYTE_READ_LIMIT>,
    later: ArrayVec<u64, BYTE_READ_LIMIT>,
}

/// Replaces `ways` by those of these byte reads, whose sources can be chosen in `total` ways.
fn find_ways(ways: &mut Ways, events: &[Event], reads: &[ByteRead], total: u64)
    requires few { length events.now ≤ EVENT_LIMIT }
    requires room { length reads.now ≤ READS }
    requires fit { (i : ℕ) (read : Read) → slice_get reads.now i ≡ Some read → length (candidates_for events.now read) ≤ CANDIDATES }
    requires whole { total ≡ length (product (candidate_lists events.now reads.now)) }
    requires some { 1 ≤ total }
    ensures candidates { map (λ list. list.items) ways.new.candidates.items ≡ candidate_lists events.now reads.now }
    ensures later { ways.new.later.items ≡ ways_after (candidate_lists events.now reads.now) }
{
    ways.candidates.clear();
    ways.later.clear();
    let mut left = total;
    for read in reads {
        let list = candidates_of(events, *read);
        left /= list.len() as u64;
        ways.candidates.push(list);
        ways.later.push(left);
    }
}

/// What is computed on entering a combination: its paths and events, its byte reads, and the candidates of each.
#[derive(Drop)]
struct Formed {
    combination_paths: CombinationPaths,
    reads: ByteReads,
    ways: Ways,
}

impl Formed {
    /// The value before any combination is entered.
    fn new() -> Self {
        Formed {
            combination_paths: CombinationPaths::new(),
            reads: ByteReads::new(),
            ways: Ways {
                candidates: ArrayVec::new(),
                later: ArrayVec::new(),
            },
        }
    }

    /// Computes the paths, events, byte reads and candidates of a combination, by its number, in place of another's. It has
    /// `total` choices.
    fn form(&mut self, paths: &AgentPaths<'_>, number: usize, total: u64)
        requires limits { IsInLimits paths.now }
        requires known { number < length (combinations_of paths.now) }
        requires whole { choices_before paths.now number + total ≡ choices_before paths.now (number + 1) }
        ensures { IsFormed paths.now number total self.new }
    {
        join(&mut self.combination_paths, paths, number);
        let events = self.combination_paths.events.as_slice();
        find_byte_reads(&mut self.reads, events);
        find_ways(&mut self.ways, events, self.reads.as_slice(), total);
    }
}

/// A number divided by another, and the rest. It subtracts, since a division takes longer where a quotient is below the number of a
/// byte read's candidates.
fn divided(number: u64, by: u64) -> (u64, u64)
    requires { 1 ≤ by }
    ensures quotient { result.0 ≡ number / by }
    ensures rest { result.1 ≡ number % by }
{
    let mut quotient = 0;
    let mut rest = number;
    'subtracting: while rest >= by {
        rest -= by;
        quotient += 1;
    }
    (quotient, rest)
}

/// The candidate that a choice takes for a byte, by its digit.
fn candidate_at(candidates: &[u8], digit: u64) -> u8
    requires { digit < length candidates.now }
    ensures { slice_get candidates.now digit ≡ Some result }
{
    candidates[digit as usize]
}

/// One combination of paths: the path of each agent, all events, the byte reads with the candidates of each, and the
/// choices on it. It borrows the plan (decision 11), and its size is fixed. A clause sees it as the test's value and the
/// combination's number.
#[derive(Drop)]
pub struct Combination<'p> {
    paths: &'p AgentPaths<'p>,
    number: usize,
    formed: Formed,
    first: u64,
    total: u64,
}

impl<'p> Model for Combination<'p> {
    ghost use Rattle.std.specs.Prelude.{ℕ};
    ghost use Rattle.std.specs.Coded.{coded×, coded_ℕ};
    ghost use Rattle.lit_syntax.specs.Syntax.{Litmus};
    ghost use Rattle.lit_syntax.specs.SyntaxCodes.{coded_litmus};
    ghost use Rattle.lit_paths.specs.Internal.Entered.{IsEntered};

    ghost Value = { Litmus × ℕ };

    ghost coded = { coded× coded_litmus coded_ℕ };

    ghost view = { λ x. (x.paths.now, x.number) };

    ghost invariant = { IsEntered };
}

impl<'p> Combination<'p> {
    /// Combination `number` of a plan's test, with `total` choices from number `first` on.
    pub(crate) fn new(paths: &'p AgentPaths<'p>, number: usize, first: u64, total: u64) -> Self
        requires limits { IsInLimits paths.now }
        requires known { number < length (combinations_of paths.now) }
        requires first { first ≡ choices_before paths.now number }
        requires whole { first + total ≡ choices_before paths.now (number + 1) }
        requires few { first + total ≤ CHOICE_LIMIT }
        ensures { result ≡ (paths.now, number) }
    {
        let mut formed = Formed::new();
        formed.form(paths, number, total);
        Combination {
            paths,
            number,
            formed,
            first,
            total,
        }
    }

    /// Makes it combination `number` of a plan's test, with `total` choices from number `first` on, in place.
    pub(crate) fn reenter(
        &mut self,
        paths: &'p AgentPaths<'p>,
        number: usize,
        first: u64,
        total: u64,
    )
        requires limits { IsInLimits paths.now }
        requires known { number < length (combinations_of paths.now) }
        requires first { first ≡ choices_before paths.now number }
        requires whole { first + total ≡ choices_before paths.now (number + 1) }
        requires few { first + total ≤ CHOICE_LIMIT }
        ensures { self.new ≡ (paths.now, number) }
    {
        self.formed.form(paths, number, total);
        self.paths = paths;
        self.number = number;
        self.first = first;
        self.total = total;
    }

    /// The test.
    pub fn test(&self) -> &'p Test
        ensures { result.now ≡ self.now.0 }
    {
        self.paths.test()
    }

    /// All events of the combination, by number.
    pub fn events(&self) -> &[Event]
        ensures value { result.now ≡ events_in self.now.0 self.now.1 }
        ensures sound { AreEventsIn self.now.0.bytes result.now }
    {
        self.formed.combination_paths.events.as_slice()
    }

    /// The path of an agent, by its number: below the number of agents.
    pub fn path(&self, agent: usize) -> &'p Path
        requires { agent < length self.now.0.agents }
        ensures exact { result.now ≡ path_in self.now.0 self.now.1 agent }
        ensures walk { IsWalkIn self.now.0 self.now.1 agent (walk_in self.now.0 self.now.1 agent) }
    {
        let number = self.formed.combination_paths.numbers.as_slice()[agent];
        self.paths.path(agent, usize::from(number))
    }

    /// The number of the first event of an agent, by the agent's number: below the number of agents. Where the agent
    /// has no event, it is the number after those of the agents before.
    pub fn first_event(&self, agent: usize) -> u8
        requires { agent < length self.now.0.agents }
        ensures { result ≡ first_event self.now.0 self.now.1 agent }
    {
        self.formed.combination_paths.firsts.as_slice()[agent]
    }

    /// The number of the statement that makes each event on the path of an agent, by the event's place. Agents are
    /// numbered from 0 in the order of the text.
    pub fn statements(&self, agent: usize) -> Makers
        requires { agent < length self.now.0.agents }
        ensures makers { AreMakers 0 (agent_of self.now.0 agent).body (walk_in self.now.0 self.now.1 agent) result.items }
        ensures one_each { length result.items ≡ length (path_in self.now.0 self.now.1 agent).events }
        ensures known { AllByRecursion (λ n. n < statement_count (agent_of self.now.0 agent).body) result.items }
    {
        let mut makers = Makers::new();
        find_makers(
            &mut makers,
            0,
            self.paths.test().body(agent),
            self.path(agent).tests(),
        );
        makers
    }

    /// Each byte that is read: reads by rising number, bytes rising within a read.
    pub fn byte_reads(&self) -> &[ByteRead]
        ensures { map pair_of result.now ≡ byte_reads (events_in self.now.0 self.now.1) }
    {
        self.formed.reads.as_slice()
    }

    /// The candidates of a byte read, by its place in `byte_reads`: by rising event number, and at least one.
    pub fn candidates(&self, place: usize) -> &[u8]
        requires { place < length (byte_reads (events_in self.now.0 self.now.1)) }
        ensures value { result.now
            ≡ candidates_among (events_in self.now.0 self.now.1) (byte_read_at (events_in self.now.0 self.now.1) place) }
        ensures lists { ListsCandidates (events_in self.now.0 self.now.1) (byte_read_at (events_in self.now.0 self.now.1) place).0
            (byte_read_at (events_in self.now.0 self.now.1) place).1 result.now }
        ensures some { 1 ≤ length result.now }
    {
        self.formed.ways.candidates.as_slice()[place].as_slice()
    }

    /// How many choices on the combination each candidate of a byte read leads to, by the byte read's place in
    /// `byte_reads`: the product of the numbers of candidates of the byte reads after it.
    pub fn ways_after(&self, place: usize) -> u64
        requires { place < length (byte_reads (events_in self.now.0 self.now.1)) }
        ensures value { result ≡ ways_from (events_in self.now.0 self.now.1) (place + 1) }
        ensures some { 1 ≤ result }
    {
        self.formed.ways.later.as_slice()[place]
    }

    /// The number of its first choice. It has one at least.
    pub fn first(&self) -> u64
        ensures value { result ≡ choices_before self.now.0 self.now.1 }
        ensures known { result < length (choices_of self.now.0) }
    {
        self.first
    }

    /// The number after that of its last choice.
    pub fn end(&self) -> u64
        ensures value { result ≡ choices_before self.now.0 (self.now.1 + 1) }
        ensures few { result ≤ CHOICE_LIMIT }
    {
        self.first + self.total
    }

    /// The sources of a choice on it, by the choice's number: at least `first` and below `end`.
    pub fn sources(&self, n: u64) -> Sources
        requires low { choices_before self.now.0 self.now.1 ≤ n }
        requires high { n < choices_before self.now.0 (self.now.1 + 1) }
        ensures listed { HasSources self.now.0 n result.items }
        ensures of { IsOfCombination self.now.0 n self.now.1 }
        ensures sourced { AreSources (events_in self.now.0 self.now.1) result.items }
    {
        let candidates = self.formed.ways.candidates.as_slice();
        let later = self.formed.ways.later.as_slice();
        let mut left = n - self.first;
        let mut sources = Sources::new();
        for i in 0..candidates.len() {
            let list = candidates[i].as_slice();
            let (digit, rest) = divided(left, later[i]);
            sources.push(candidate_at(list, digit));
            left = rest;
        }
        sources
    }
}
