//! Unmixing: from the least solution to the one that mixes sources least, by a greedy pass over the reads (decision 186).

ghost use Rattle.std.specs.Prelude.{◌≡◌, ◌↔◌, ℕ, ◌<◌, IsTrue, MatchOption, length, slice_index_or};
ghost use Rattle.lit_syntax.specs.Syntax.{IsLitmus};
ghost use Rattle.lit_paths.specs.ByteReads.{byte_read_at, byte_reads};
ghost use Rattle.lit_paths.specs.Choice.{combinations_of};
ghost use Rattle.lit_paths.specs.Members.{AreSources};
ghost use Rattle.lit_paths.specs.declared.limits.TheConstants.{EVENT_LIMIT as EVENTS};
ghost use Rattle.lit_rel.specs.EventSet.{HasEvent};
ghost use Rattle.lit_solve.specs.Box.{events_on};
ghost use Rattle.lit_why.specs.LeastMixing.{IsUnmixed};
ghost use Rattle.lit_why.specs.Internal.Unmixing.{AreDomainsFor, HasNoneFilled, HasNoneUnmixed, IsFilled, IsFirstUnmixed};
ghost use Rattle.lit_why.specs.Internal.Unmixing.{IsLeastAfter, IsLeastFilled, IsLeastMixingOn, TakesFilled, filling};

use lit_paths::{BYTE_READ_LIMIT, Combination, EVENT_LIMIT};
use lit_rel::EventSet;
use lit_solve::{Domains, Goal, Least, Problem, candidates_of, least};

/// The set of one event, where it is in a set of events.
fn only(set: EventSet, event: usize) -> EventSet
    requires { (w : ℕ) → HasEvent set w → w < EVENTS }
    ensures { (w : ℕ) → HasEvent result w ↔ (HasEvent set w × (w ≡ event)) }
{
    if event < EVENT_LIMIT && set.contains(event) {
        return EventSet::new().with(event);
    }
    EventSet::new()
}

/// The source of a byte of a read that is filled from init, or else from one event.
fn filled_from(filler: Option<usize>, byte: u8) -> usize
    ensures { result ≡ filling filler byte }
{
    match filler {
        None => usize::from(byte),
        Some(event) => event,
    }
}

/// The sources of the byte read at a place where a read is filled and the reads before it keep their sources.
fn domain_at(
    combination: &Combination<'_>,
    sources: &[u8],
    place: usize,
    read: usize,
    filler: Option<usize>,
) -> EventSet
    requires place { place < length (byte_reads (events_on combination.now)) }
    requires sourced { AreSources (events_on combination.now) sources.now }
    ensures { (w : ℕ) → HasEvent result w
        ↔ TakesFilled (events_on combination.now) read filler (byte_read_at (events_on combination.now) place)
        (slice_index_or sources.now place 0) w }
{
    // Tells the prover that there are few events, so that a set has room.
    let _events = combination.events();
    let at = combination.byte_reads()[place];
    let candidates = candidates_of(combination, place);
    let reader = usize::from(at.read);
    if reader < read {
        return only(candidates, usize::from(sources[place]));
    }
    if reader == read {
        return only(candidates, filled_from(filler, at.byte));
    }
    candidates
}

/// The domains in which a read is filled and the reads before it keep their sources, one for each byte read.
fn filled_domains(
    combination: &Combination<'_>,
    sources: &[u8],
    read: usize,
    filler: Option<usize>,
) -> Domains
    requires { AreSources (events_on combination.now) sources.now }
    ensures { AreDomainsFor combination.now sources.now (TakesFilled (events_on combination.now) read filler) result }
{
    // Tells the prover that there are few byte reads, so that the array has room.
    let _events = combination.events();
    let mut domains = [EventSet::new(); BYTE_READ_LIMIT];
    for place in 0..combination.byte_reads().len() {
        domains[place] = domain_at(combination, sources, place, read, filler);
    }
    domains
}

/// The least solution in which a read is filled and the reads before it keep their sources.
fn least_filled(
    problem: &Problem<'_>,
    goal: Goal,
    sources: &[u8],
    read: usize,
    filler: Option<usize>,
) -> Option<Least>
    requires litmus { IsLitmus problem.now.0 }
    requires known { problem.now.1 < length (combinations_of problem.now.0) }
    requires sourced { AreSources (events_on problem.now) sources.now }
    ensures { MatchOption result (HasNoneFilled problem.now goal read filler sources.now)
        (λ least. IsLeastFilled problem.now goal read filler sources.now least.sources.items least.order.items) }
{
    let domains = filled_domains(problem.combination(), sources, read, filler);
    least(problem, &domains, goal)
}

/// The first solution that doesn't mix the sources of a read, of those in which the reads before it keep their sources.
fn first_unmixed(problem: &Problem<'_>, goal: Goal, sources: &[u8], read: usize) -> Option<Least>
    requires litmus { IsLitmus problem.now.0 }
    requires known { problem.now.1 < length (combinations_of problem.now.0) }
    requires sourced { AreSources (events_on problem.now) sources.now }
    ensures { MatchOption result (HasNoneUnmixed problem.now goal read sources.now)
        (λ least. IsFirstUnmixed problem.now goal read sources.now least.sources.items least.order.items) }
{
    let events = problem.combination().events().len();
    if let Some(least) = least_filled(problem, goal, sources, read, None) {
        return Some(least);
    }
    for event in 0..events {
        if let Some(least) = least_filled(problem, goal, sources, read, Some(event)) {
            return Some(least);
        }
    }
    None
}

/// Whether a read is filled from init, or else from one event.
fn is_filled(
    combination: &Combination<'_>,
    sources: &[u8],
    read: usize,
    filler: Option<usize>,
) -> bool
    requires { AreSources (events_on combination.now) sources.now }
    ensures { IsTrue result → IsFilled (events_on combination.now) sources.now read filler }
{
    for (place, at) in combination.byte_reads().iter().enumerate() {
        if usize::from(at.read) == read
            && usize::from(sources[place]) != filled_from(filler, at.byte)
        {
            return false;
        }
    }
    true
}

/// Whether the sources of a read don't mix.
fn is_unmixed(combination: &Combination<'_>, sources: &[u8], read: usize) -> bool
    requires { AreSources (events_on combination.now) sources.now }
    ensures { IsTrue result → IsUnmixed (events_on combination.now) sources.now read }
{
    let events = combination.events().len();
    if is_filled(combination, sources, read, None) {
        return true;
    }
    for event in 0..events {
        if is_filled(combination, sources, read, Some(event)) {
            return true;
        }
    }
    false
}

/// The first solution of those in which the reads before a read keep their sources, from the least of them.
fn first_on(problem: &Problem<'_>, goal: Goal, least: Least, read: usize) -> Least
    requires litmus { IsLitmus problem.now.0 }
    requires least { IsLeastAfter problem.now goal read least.sources.items least.order.items }
    ensures { IsFirstUnmixed problem.now goal read least.sources.items result.sources.items result.order.items }
{
    if is_unmixed(problem.combination(), least.sources.as_slice(), read) {
        return least;
    }
    match first_unmixed(problem, goal, least.sources.as_slice(), read) {
        Some(other) => other,
        None => least,
    }
}

/// The solution of the problem that mixes sources least, from the least one.
pub(crate) fn unmix(problem: &Problem<'_>, goal: Goal, first: Least) -> Least
    requires litmus { IsLitmus problem.now.0 }
    requires least { IsLeastAfter problem.now goal 0 first.sources.items first.order.items }
    ensures { IsLeastMixingOn problem.now goal result.sources.items result.order.items }
{
    let mut least = first;
    for read in 0..problem.combination().events().len() {
        least = first_on(problem, goal, least, read);
    }
    least
}
