//! Data races (ECMA-262, 2024, 29.8 and 29.9) of the sources given.

ghost use Rattle.std.specs.Prelude.{◌↔◌, ℕ, ◌<◌, IsTrue, length};
ghost use Rattle.lit_rel.specs.DataRace.{AreUnguarded, WriteOneByte};
ghost use Rattle.lit_rel.specs.Internal.Given.{HasByteSo, IsRacing};
ghost use Rattle.lit_rel.specs.Racing.{AreApart, HasApartPair, WritesWith};
ghost use Rattle.lit_rel.specs.Rows.{Holds};

use crate::given::Given;
use crate::rows::Rows;
use lit_paths::{Event, event_at};

/// Whether two events write a byte that is in both ranges.
fn write_one_byte(first: &Event, second: &Event) -> bool
    ensures { IsTrue result ↔ WriteOneByte first.now second.now }
{
    first.kind.does_write() && second.kind.does_write() && first.shares_byte(second)
}

/// Whether one of two events is not sequentially consistent, or their ranges overlap.
fn are_unguarded(first: &Event, second: &Event) -> bool
    ensures { IsTrue result ↔ AreUnguarded first.now second.now }
{
    !first.is_seq_cst()
        || !second.is_seq_cst()
        || (first.shares_byte(second) && !first.has_same_range(second))
}

/// Whether two events, by number, are in a data race where both write a byte or one reads from the other, by a relation that
/// orders the events.
pub fn are_apart(events: &[Event], before: &Rows, first: usize, second: usize) -> bool
    requires first { first < length events.now }
    requires second { second < length events.now }
    ensures { IsTrue result ↔ AreApart events.now (Holds before.now) first second }
{
    first != second
        && !before.has_pair(first, second)
        && !before.has_pair(second, first)
        && are_unguarded(event_at(events, first), event_at(events, second))
}

/// Whether a write is in a data race with one of a lesser number.
fn races_with_lesser(events: &[Event], before: &Rows, write: usize) -> bool
    requires { write < length events.now }
    ensures { IsTrue result ↔ ((d : ℕ) × (d < write) × WritesWith events.now write d × AreApart events.now (Holds before.now) write d) }
{
    for other in 0..write {
        if write_one_byte(event_at(events, write), event_at(events, other))
            && are_apart(events, before, write, other)
        {
            return true;
        }
    }
    false
}

/// Whether two events that write a byte are in a data race, by a relation that orders the events.
pub fn has_racing_writes(events: &[Event], before: &Rows) -> bool
    ensures { IsTrue result ↔ HasApartPair events.now (Holds before.now) (WritesWith events.now) }
{
    for write in 0..events.len() {
        if races_with_lesser(events, before, write) {
            return true;
        }
    }
    false
}

impl Given<'_> {
    /// Whether a read and its source are in a data race.
    pub(crate) fn has_racing_read(&self, before: &Rows) -> bool
        ensures { IsTrue result ↔ HasByteSo self.now.bytes.now (IsRacing self.now.events.now (Holds before.now)) }
    {
        for byte in self.bytes {
            if are_apart(
                self.events,
                before,
                usize::from(byte.read),
                usize::from(byte.source),
            ) {
                return true;
            }
        }
        false
    }
}
