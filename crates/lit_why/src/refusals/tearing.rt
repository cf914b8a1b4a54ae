//! The least read that would be whole from two events (ECMA-262, 2024, 29.7.3).

ghost use Rattle.std.specs.Prelude.{◌≡◌, ◌↔◌, ℕ, ◌<◌, IsTrue, MatchOption, length};
ghost use Rattle.lit_rel.specs.Rows.{Holds, rows_len};
ghost use Rattle.lit_why.specs.Internal.Refusing.{AreTorn, IsWholeBy};
ghost use Rattle.lit_why.specs.RacingPair.{IsLesserPair};
ghost use Rattle.lit_why.specs.Refusal.{IsLesserTriple};

use lit_paths::{Event, event_at};
use lit_rel::{Rows, can_read_whole};

/// A read, and the two events that it would be whole from.
#[derive(Clone, Copy)]
pub(crate) struct Tear {
    pub read: usize,
    pub source: usize,
    pub other: usize,
}

/// Whether a read has this event among its sources and would be whole from it, by reads-from as rows.
fn is_whole(events: &[Event], reads: &Rows, read: usize, source: usize) -> bool
    requires len { rows_len reads.now ≡ length events.now }
    requires read { read < length events.now }
    requires source { source < length events.now }
    ensures { IsTrue result ↔ IsWholeBy events.now (Holds reads.now) read source }
{
    reads.holds(read, source) && can_read_whole(event_at(events, read), event_at(events, source))
}

/// The least event of a greater number than one that a read would be whole from.
fn whole_after(events: &[Event], reads: &Rows, read: usize, source: usize) -> Option<usize>
    requires len { rows_len reads.now ≡ length events.now }
    requires read { read < length events.now }
    requires source { source < length events.now }
    ensures { MatchOption result ((v : ℕ) → source < v → ¬ IsWholeBy events.now (Holds reads.now) read v)
        (λ v. (source < v) × IsWholeBy events.now (Holds reads.now) read v
        × ((u : ℕ) → source < u → u < v → ¬ IsWholeBy events.now (Holds reads.now) read u)) }
{
    for other in source + 1..events.len() {
        if is_whole(events, reads, read, other) {
            return Some(other);
        }
    }
    None
}

/// The least two events that a read would be whole from.
fn torn_read(events: &[Event], reads: &Rows, read: usize) -> Option<(usize, usize)>
    requires len { rows_len reads.now ≡ length events.now }
    requires read { read < length events.now }
    ensures { MatchOption result ((w v : ℕ) → ¬ AreTorn events.now (Holds reads.now) read w v)
        (λ found. AreTorn events.now (Holds reads.now) read found.0 found.1
        × ((w v : ℕ) → AreTorn events.now (Holds reads.now) read w v → ¬ IsLesserPair w v found.0 found.1)) }
{
    for source in 0..events.len() {
        if is_whole(events, reads, read, source) {
            if let Some(other) = whole_after(events, reads, read, source) {
                return Some((source, other));
            }
        }
    }
    None
}

/// The least read that would be whole from two events, with the least two.
pub(crate) fn first_torn(events: &[Event], reads: &Rows) -> Option<Tear>
    requires { rows_len reads.now ≡ length events.now }
    ensures { MatchOption result ((r w v : ℕ) → ¬ AreTorn events.now (Holds reads.now) r w v)
        (λ found. AreTorn events.now (Holds reads.now) found.read found.source found.other
        × ((r w v : ℕ) → AreTorn events.now (Holds reads.now) r w v → ¬ IsLesserTriple r w v found.read found.source found.other)) }
{
    for read in 0..events.len() {
        if let Some((source, other)) = torn_read(events, reads, read) {
            return Some(Tear {
                read,
                source,
                other,
            });
        }
    }
    None
}
