//! Domains: a set of candidates for each byte read.

ghost use Rattle.std.specs.Prelude.{◌≡◌, ◌↔◌, ℕ, ◌<◌, MatchOption, length};
ghost use Rattle.lit_paths.specs.ByteReads.{byte_reads, byte_read_at};
ghost use Rattle.lit_paths.specs.Members.{IsCandidate};
ghost use Rattle.lit_paths.specs.declared.limits.TheConstants.{EVENT_LIMIT};
ghost use Rattle.lit_paths.specs.Plan.{events_in};
ghost use Rattle.lit_rel.specs.EventSet.{HasEvent};

use lit_paths::{BYTE_READ_LIMIT, Combination};
use lit_rel::EventSet;

/// A set of candidates for each byte read of a combination, in the order of its byte reads. Entries behind these mean nothing
/// (decision 25).
pub type Domains = [EventSet; BYTE_READ_LIMIT];

/// All candidates of a byte read, by its place among the combination's byte reads.
pub fn candidates_of(combination: &Combination<'_>, place: usize) -> EventSet
    requires { place < length (byte_reads (events_in combination.now.0 combination.now.1)) }
    ensures { (w : ℕ) → HasEvent result w ↔ IsCandidate (events_in combination.now.0 combination.now.1)
        (byte_read_at (events_in combination.now.0 combination.now.1) place).0
        (byte_read_at (events_in combination.now.0 combination.now.1) place).1 w }
{
    // For the prover: a set has room for each event of a combination.
    let _events = combination.events();
    let mut candidates = EventSet::new();
    for event in combination.candidates(place) {
        candidates = candidates.with(usize::from(*event));
    }
    candidates
}

/// The event of a set with one event; `None` if it has none or several.
pub(crate) fn only_one(set: EventSet) -> Option<usize>
    ensures { MatchOption result ((w : ℕ) → HasEvent set w → ¬ ((v : ℕ) → HasEvent set v → v ≡ w))
        (λ w. HasEvent set w × ((v : ℕ) → HasEvent set v → v ≡ w)) }
{
    let (first, others) = set.split_first()?;
    if others.is_empty() { Some(first) } else { None }
}

/// The set of one event.
pub(crate) fn set_of(event: usize) -> EventSet
    requires { event < EVENT_LIMIT }
    ensures { (w : ℕ) → HasEvent result w ↔ (w ≡ event) }
{
    EventSet::new().with(event)
}
