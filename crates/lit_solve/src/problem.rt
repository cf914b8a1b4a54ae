//! A combination as a constraint satisfaction problem: what all its boxes share.

ghost use Rattle.std.specs.Prelude.{◌≡◌, ℕ, ◌<◌, ◌≤◌, IsFalse, Some, length, slice_get};
ghost use Rattle.lit_paths.specs.ByteReads.{byte_read_at, byte_reads, pair_of};
ghost use Rattle.lit_paths.specs.Choice.{combinations_of};
ghost use Rattle.lit_paths.specs.Plan.{AreEventsIn, path_in};
ghost use Rattle.lit_paths.specs.declared.limits.TheConstants.{BYTE_READ_LIMIT};
ghost use Rattle.lit_solve.specs.Box.{events_on};
ghost use Rattle.lit_solve.specs.Internal.Frames.{AreCandidates};

use crate::domains::{Domains, candidates_of};
use lit_paths::{BYTE_READ_LIMIT, ByteRead, Combination, Event, Plan};
use lit_rel::laws::byte_reads_are_of_events;
use lit_rel::{EventSet, Rows, peers_of};
use std::marker::Model;

/// Overwrites `candidates` with all candidates of each byte read of a combination.
fn put_candidates(combination: &Combination<'_>, candidates: &mut Domains)
    ensures { AreCandidates (events_on combination.now) candidates.new }
{
    // For the prover: a combination has few byte reads.
    let _events = combination.events();
    for place in 0..combination.byte_reads().len() {
        candidates[place] = candidates_of(combination, place);
    }
}

/// Whether some path of a combination has a guard.
fn has_guard(combination: &Combination<'_>) -> bool
    ensures { IsFalse result → (i : ℕ) → i < length combination.now.0.agents
        → length (path_in combination.now.0 combination.now.1 i).tests ≡ 0 }
{
    for agent in 0..combination.test().agents() {
        if !combination.path(agent).tests().is_empty() {
            return true;
        }
    }
    false
}

/// A combination of paths as a constraint satisfaction problem: its byte reads are the variables. A clause sees it as the test's value
/// and the combination's number.
#[derive(Drop)]
pub struct Problem<'p> {
    pub(crate) combination: Combination<'p>,
    /// All candidates of each byte read.
    pub(crate) candidates: Domains,
    /// The sequentially consistent writes that have the range of each event.
    pub(crate) peers: Rows,
    /// The registers of an outcome, as agent and register.
    pub(crate) names: &'p [(u8, u8)],
    /// Whether some path has a guard.
    pub(crate) guarded: bool,
}

impl<'p> Model for Problem<'p> {
    ghost use Rattle.std.specs.Prelude.{ℕ};
    ghost use Rattle.std.specs.Coded.{coded×, coded_ℕ};
    ghost use Rattle.lit_syntax.specs.Syntax.{Litmus};
    ghost use Rattle.lit_syntax.specs.SyntaxCodes.{coded_litmus};
    ghost use Rattle.lit_solve.specs.Internal.Frames.{IsProblem};

    ghost Value = { Litmus × ℕ };

    ghost coded = { coded× coded_litmus coded_ℕ };

    ghost view = { λ p. p.combination };

    ghost invariant = { λ p. IsProblem p.combination p.candidates p.peers p.names.now p.guarded };
}

impl<'p> Problem<'p> {
    /// A combination of a plan's test, by its number: below `combinations`.
    pub fn open(plan: &'p Plan<'p>, combination: usize) -> Self
        requires { combination < length (combinations_of plan.now) }
        ensures { result ≡ (plan.now, combination) }
    {
        // For the prover: the plan's test is one that a text can say.
        let _test = plan.test();
        let combination = plan.enter(combination);
        let peers = peers_of(combination.events());
        let mut candidates = [EventSet::new(); BYTE_READ_LIMIT];
        put_candidates(&combination, &mut candidates);
        let guarded = has_guard(&combination);
        Problem {
            combination,
            candidates,
            peers,
            names: plan.names(),
            guarded,
        }
    }

    /// Makes it the problem of a combination of a plan's test, by its number, below `combinations`, in place: to open one takes longer,
    /// since that makes a new value as large as a problem.
    pub fn reopen(&mut self, plan: &'p Plan<'p>, combination: usize)
        requires { combination < length (combinations_of plan.now) }
        ensures { self.new ≡ (plan.now, combination) }
    {
        // For the prover: the plan's test is one that a text can say.
        let _test = plan.test();
        plan.reenter(&mut self.combination, combination);
        self.peers = peers_of(self.combination.events());
        put_candidates(&self.combination, &mut self.candidates);
        self.guarded = has_guard(&self.combination);
        self.names = plan.names();
    }

    /// The combination.
    pub fn combination(&self) -> &Combination<'p>
        ensures { result.now ≡ self.now }
    {
        &self.combination
    }

    /// All events of the combination, by number.
    pub(crate) fn events(&self) -> &[Event]
        ensures value { result.now ≡ events_on self.now }
        ensures sound { AreEventsIn self.now.0.bytes (events_on self.now) }
    {
        self.combination.events()
    }

    /// How many byte reads there are.
    pub(crate) fn reads(&self) -> usize
        ensures value { result ≡ length (byte_reads (events_on self.now)) }
        ensures few { result ≤ BYTE_READ_LIMIT }
    {
        self.combination.byte_reads().len()
    }

    /// The byte read at a place.
    pub(crate) fn byte_read(&self, place: usize) -> ByteRead
        requires { place < length (byte_reads (events_on self.now)) }
        ensures at { slice_get (byte_reads (events_on self.now)) place ≡ Some (pair_of result) }
        ensures is { pair_of result ≡ byte_read_at (events_on self.now) place }
        ensures read { result.read < length (events_on self.now) }
    {
        byte_reads_are_of_events();
        self.combination.byte_reads()[place]
    }
}
