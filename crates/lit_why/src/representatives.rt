//! Representatives: of the candidates of a byte read between which there is no difference, the least (decision 142).

ghost use Rattle.std.specs.Prelude.{◌≡◌, ◌↔◌, ℕ, ◌<◌, ◌≤◌, IsTrue, length};
ghost use Rattle.lit_paths.specs.ByteReads.{byte_read_at, byte_reads};
ghost use Rattle.lit_paths.specs.Members.{IsCandidate};
ghost use Rattle.lit_paths.specs.declared.limits.TheConstants.{EVENT_LIMIT};
ghost use Rattle.lit_rel.specs.EventSet.{HasEvent};
ghost use Rattle.lit_solve.specs.Box.{events_on};
ghost use Rattle.lit_why.specs.Attempts.{agree};
ghost use Rattle.lit_why.specs.Internal.Domains.{AreDomainsBy};
ghost use Rattle.lit_why.specs.Internal.Trials.{IsRepresentative};

use crate::asking::{asks, do_agree};
use lit_paths::{BYTE_READ_LIMIT, Combination, Event, Plan};
use lit_rel::laws::byte_reads_are_of_events;
use lit_rel::{EventSet, is_source_refused};
use lit_solve::{Domains, candidates_of};

/// Whether some lesser event of a set would make no difference as the source of a byte, where its read is asked about or is not.
fn is_stored_before(events: &[Event], among: EventSet, asked: bool, byte: u8, source: usize) -> bool
    requires source { source < length events.now }
    requires few { length events.now ≤ EVENT_LIMIT }
    ensures { IsTrue result ↔ ((v : ℕ) × HasEvent among v × (v < source) × IsTrue (agree asked events.now byte v source)) }
{
    let mut left = among;
    while let Some((event, others)) = left.split_first() {
        // The events of a set come in rising order.
        if event >= source {
            return false;
        }
        if do_agree(events, asked, byte, event, source) {
            return true;
        }
        left = others;
    }
    false
}

/// Whether a candidate of a byte read, by its place, is the least of those between which there is no difference, and no guard refuses it.
fn is_representative(
    plan: &Plan<'_>,
    combination: &Combination<'_>,
    place: usize,
    candidates: EventSet,
    source: usize,
) -> bool
    requires plan { plan.now ≡ combination.now.0 }
    requires place { place < length (byte_reads (events_on combination.now)) }
    requires exact { (w : ℕ) → HasEvent candidates w ↔ IsCandidate (events_on combination.now)
        (byte_read_at (events_on combination.now) place).0 (byte_read_at (events_on combination.now) place).1 w }
    requires there { HasEvent candidates source }
    ensures { IsTrue result ↔ IsRepresentative combination.now (byte_read_at (events_on combination.now) place) source }
{
    // The law says that each byte read is of an event that reads the byte.
    byte_reads_are_of_events();
    let events = combination.events();
    let at = combination.byte_reads()[place];
    if is_source_refused(combination, at, source as u8) {
        return false;
    }
    let asked = asks(plan, combination, usize::from(at.read));
    !is_stored_before(events, candidates, asked, at.byte, source)
}

/// The representatives of a byte read, by its place.
fn representatives_at(plan: &Plan<'_>, combination: &Combination<'_>, place: usize) -> EventSet
    requires plan { plan.now ≡ combination.now.0 }
    requires place { place < length (byte_reads (events_on combination.now)) }
    ensures { (w : ℕ) → HasEvent result w ↔ IsRepresentative combination.now (byte_read_at (events_on combination.now) place) w }
{
    // Tells the prover that a set has room for each event of the combination.
    let _events = combination.events();
    let candidates = candidates_of(combination, place);
    let mut first = EventSet::new();
    let mut left = candidates;
    while let Some((source, others)) = left.split_first() {
        if is_representative(plan, combination, place, candidates, source) {
            first = first.with(source);
        }
        left = others;
    }
    first
}

/// The representatives of each byte read, as domains. The combination is one of the plan's test.
pub(crate) fn representatives(plan: &Plan<'_>, combination: &Combination<'_>) -> Domains
    requires { plan.now ≡ combination.now.0 }
    ensures { AreDomainsBy combination.now (IsRepresentative combination.now) result }
{
    // Tells the prover that there are few byte reads, so that the array has room.
    let _events = combination.events();
    let mut domains = [EventSet::new(); BYTE_READ_LIMIT];
    for place in 0..combination.byte_reads().len() {
        domains[place] = representatives_at(plan, combination, place);
    }
    domains
}
