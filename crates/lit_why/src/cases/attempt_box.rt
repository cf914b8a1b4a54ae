//! The box of an attempt.

ghost use Rattle.std.specs.Prelude.{◌≡◌, ◌↔◌, ℕ, ◌<◌, ◌≤◌, IsTrue, length};
ghost use Rattle.lit_paths.specs.ByteReads.{byte_read_at, byte_reads};
ghost use Rattle.lit_paths.specs.Members.{IsCandidate, AreSources};
ghost use Rattle.lit_paths.specs.declared.limits.TheConstants.{EVENT_LIMIT as EVENTS};
ghost use Rattle.lit_rel.specs.EventSet.{HasEvent};
ghost use Rattle.lit_solve.specs.Box.{events_on};
ghost use Rattle.lit_why.specs.Asked.{is_asked};
ghost use Rattle.lit_why.specs.Attempts.{agree};
ghost use Rattle.lit_why.specs.Refutation.{IsAttemptBox};

use crate::asking::{asks, do_agree};
use lit_paths::{BYTE_READ_LIMIT, Combination, Event, Plan};
use lit_rel::EventSet;
use lit_solve::{Domains, candidates_of};

/// The events of a set that make no difference to a source of a byte, where its read is asked about or is not.
fn agreeing(events: &[Event], among: EventSet, asked: bool, byte: u8, source: usize) -> EventSet
    requires few { length events.now ≤ EVENTS }
    requires known { (w : ℕ) → HasEvent among w → w < length events.now }
    requires source { source < length events.now }
    ensures { (w : ℕ) → HasEvent result w ↔ (HasEvent among w × IsTrue (agree asked events.now byte source w)) }
{
    let mut agreeing = EventSet::new();
    let mut left = among;
    while let Some((event, others)) = left.split_first() {
        if do_agree(events, asked, byte, source, event) {
            agreeing = agreeing.with(event);
        }
        left = others;
    }
    agreeing
}

/// The sources of the byte read at a place in the box of an attempt, of which a choice has this source there.
fn sources_at(
    plan: &Plan<'_>,
    combination: &Combination<'_>,
    place: usize,
    source: usize,
) -> EventSet
    requires plan { plan.now ≡ combination.now.0 }
    requires place { place < length (byte_reads (events_on combination.now)) }
    requires source { source < length (events_on combination.now) }
    ensures { (w : ℕ) → HasEvent result w ↔ (IsCandidate (events_on combination.now)
        (byte_read_at (events_on combination.now) place).0 (byte_read_at (events_on combination.now) place).1 w
        × IsTrue (agree (is_asked combination.now.0 combination.now.1 (byte_read_at (events_on combination.now) place).0)
        (events_on combination.now) (byte_read_at (events_on combination.now) place).1 source w)) }
{
    let events = combination.events();
    let at = combination.byte_reads()[place];
    let asked = asks(plan, combination, usize::from(at.read));
    let candidates = candidates_of(combination, place);
    agreeing(events, candidates, asked, at.byte, source)
}

/// The box of the attempt that a choice with these sources, one for each byte read, is of. The combination is one of the plan's test.
pub(crate) fn attempt_box(plan: &Plan<'_>, combination: &Combination<'_>, sources: &[u8]) -> Domains
    requires plan { plan.now ≡ combination.now.0 }
    requires sourced { AreSources (events_on combination.now) sources.now }
    ensures { IsAttemptBox combination.now sources.now result }
{
    // Tells the prover that there are few byte reads, so that the array has room.
    let _events = combination.events();
    let mut domains = [EventSet::new(); BYTE_READ_LIMIT];
    for place in 0..combination.byte_reads().len() {
        domains[place] = sources_at(plan, combination, place, usize::from(sources[place]));
    }
    domains
}
