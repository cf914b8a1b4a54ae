//! The least pair of events that are in a data race (ECMA-262, 2024, 29.9).

ghost use Rattle.std.specs.Prelude.{◌≡◌, ◌↔◌, ℕ, ◌<◌, IsTrue, MatchOption, length};
ghost use Rattle.lit_rel.specs.DataRace.{HasDataRace, IsDataRace};
ghost use Rattle.lit_rel.specs.Part.{part_events};
ghost use Rattle.lit_rel.specs.Racing.{WritesWith};
ghost use Rattle.lit_rel.specs.Rows.{Holds, rows_len};
ghost use Rattle.lit_why.specs.Internal.Racing.{IsLeastAfter};
ghost use Rattle.lit_why.specs.RacingPair.{IsLeastRacing, IsLeastRacingPair, RacesIn};

use lit_paths::{Event, event_at};
use lit_rel::{Part, Rows, are_apart};

/// Two events that are in a data race.
#[derive(Clone, Copy, Debug, PartialEq, Eq)]
pub struct RacingPair {
    /// The lesser number of an event.
    pub first: u8,
    /// The greater.
    pub second: u8,
}

/// Whether two events, by number, write a byte that is in both ranges.
fn write_one_byte(events: &[Event], first: usize, second: usize) -> bool
    requires first { first < length events.now }
    requires second { second < length events.now }
    ensures { IsTrue result ↔ WritesWith events.now first second }
{
    let (e, d) = (event_at(events, first), event_at(events, second));
    e.kind.does_write() && d.kind.does_write() && e.shares_byte(d)
}

/// Whether two events, by number, are in a data race by relations that stand for happens-before and for reads-from.
fn are_racing(events: &[Event], before: &Rows, reads: &Rows, first: usize, second: usize) -> bool
    requires len { rows_len reads.now ≡ length events.now }
    requires first { first < length events.now }
    requires second { second < length events.now }
    ensures { IsTrue result ↔ IsDataRace events.now (Holds before.now) (Holds reads.now) first second }
{
    are_apart(events, before, first, second)
        && (write_one_byte(events, first, second)
            || reads.holds(first, second)
            || reads.holds(second, first))
}

/// The least event of a greater number that an event is in a data race with.
fn racing_after(events: &[Event], before: &Rows, reads: &Rows, first: usize) -> Option<usize>
    requires len { rows_len reads.now ≡ length events.now }
    requires first { first < length events.now }
    ensures { MatchOption result ((d : ℕ) → first < d → ¬ IsDataRace events.now (Holds before.now) (Holds reads.now) first d)
        (λ second. IsLeastAfter (IsDataRace events.now (Holds before.now) (Holds reads.now) first) first second
        × (second < length events.now)) }
{
    for second in first + 1..events.len() {
        if are_racing(events, before, reads, first, second) {
            return Some(second);
        }
    }
    None
}

/// The least pair of events that are in a data race by relations that stand for happens-before and for reads-from.
fn least_racing(events: &[Event], before: &Rows, reads: &Rows) -> Option<RacingPair>
    requires { rows_len reads.now ≡ length events.now }
    ensures { MatchOption result ((e d : ℕ) → e < d → ¬ IsDataRace events.now (Holds before.now) (Holds reads.now) e d)
        (IsLeastRacing (IsDataRace events.now (Holds before.now) (Holds reads.now))) }
{
    for first in 0..reads.len() {
        if let Some(second) = racing_after(events, before, reads, first) {
            return Some(RacingPair {
                first: first as u8,
                second: second as u8,
            });
        }
    }
    None
}

/// The least two events that are in a data race by the part's happens-before and reads-from, the lesser number first: least by
/// the first, and then by the second. `None` exactly where no two events are in one.
pub fn racing_pair(part: &Part<'_>) -> Option<RacingPair>
    ensures { MatchOption result (¬ HasDataRace (part_events part.now) part.now.sources) (IsLeastRacingPair part.now) }
{
    let (before, reads) = (part.happens_before(), part.reads_from());
    least_racing(part.combination().events(), &before, &reads)
}

/// Whether two events of a part, by number, are in a data race by its happens-before and reads-from.
pub fn is_data_race(part: &Part<'_>, first: u8, second: u8) -> bool
    ensures { IsTrue result ↔ RacesIn part.now first second }
{
    let events = part.combination().events();
    let (e, d) = (usize::from(first), usize::from(second));
    if e >= events.len() || d >= events.len() {
        return false;
    }
    let (before, reads) = (part.happens_before(), part.reads_from());
    are_racing(events, &before, &reads, e, d)
}
