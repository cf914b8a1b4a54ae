//! The steps of happens-before that no source decides (ECMA-262, 2024, 29.6.1 and 29.6.6).

ghost use Rattle.std.specs.Prelude.{◌≡◌, ◌↔◌, ℕ, ◌<◌, ◌≤◌, IsTrue, [], length};
ghost use Rattle.lit_paths.specs.declared.limits.TheConstants.{EVENT_LIMIT};
ghost use Rattle.lit_rel.specs.EventSet.{HasEvent};
ghost use Rattle.lit_rel.specs.HappensBefore.{HappensBefore};
ghost use Rattle.lit_rel.specs.Internal.Steps.{IsFixedStep};
ghost use Rattle.lit_rel.specs.Rows.{Holds, rows_len};

use crate::event_set::EventSet;
use crate::rows::Rows;
use crate::rows::two_way_rows::TwoWayRows;
use lit_paths::{Event, Order3, event_at};

/// happens-before where no byte read has a source.
pub fn unsourced_order(events: &[Event]) -> TwoWayRows
    requires { length events.now ≤ EVENT_LIMIT }
    ensures len { rows_len result.rows ≡ length events.now }
    ensures pairs { (e d : ℕ) → Holds result.rows e d ↔ HappensBefore events.now [] e d }
{
    let mut steps = Rows::new(events.len());
    for first in 0..events.len() {
        steps.put_all(first, steps_from(events, first));
    }
    TwoWayRows::closed(&steps)
}

/// The events that an event comes before in such a step.
fn steps_from(events: &[Event], first: usize) -> EventSet
    requires few { length events.now ≤ EVENT_LIMIT }
    requires first { first < length events.now }
    ensures { (d : ℕ) → HasEvent result d ↔ IsFixedStep events.now first d }
{
    let mut steps = EventSet::new();
    for second in 0..events.len() {
        if is_fixed_step(events, first, second) {
            steps = steps.with(second);
        }
    }
    steps
}

/// Whether one event comes before another in such a step: in agent-order (29.6.1), where both are in one event list, the first
/// one before the other; or since the first event makes a byte that is in the range of the second, another event.
fn is_fixed_step(events: &[Event], first: usize, second: usize) -> bool
    requires first { first < length events.now }
    requires second { second < length events.now }
    ensures { IsTrue result ↔ IsFixedStep events.now first second }
{
    let (e, d) = (event_at(events, first), event_at(events, second));
    (e.owner == d.owner && e.place < d.place)
        || (first != second && e.order == Order3::Init && e.shares_byte(d))
}
