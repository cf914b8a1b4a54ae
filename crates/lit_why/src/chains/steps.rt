//! The steps of happens-before (ECMA-262, 2024, 29.6.6), and their kinds.

ghost use Rattle.std.specs.Prelude.{◌≡◌, ◌⊎◌, ◌↔◌, ℕ, ◌<◌, IsTrue, length};
ghost use Rattle.lit_rel.specs.AgentOrder.{IsAgentOrdered};
ghost use Rattle.lit_rel.specs.HappensBefore.{IsMadeBefore};
ghost use Rattle.lit_rel.specs.Rows.{Holds, rows_len};
ghost use Rattle.lit_why.specs.Chains.{IsOfKind};
ghost use Rattle.lit_why.specs.Internal.Reaching.{IsStep};

use crate::chains::links::StepKind;
use lit_paths::{Event, Order3, event_at};
use lit_rel::Rows;

/// agent-order (29.6.1): whether two events, by number, are in one event list, the first one earlier.
fn is_agent_ordered(events: &[Event], first: usize, second: usize) -> bool
    requires first { first < length events.now }
    requires second { second < length events.now }
    ensures { IsTrue result ↔ IsAgentOrdered events.now first second }
{
    let (e, d) = (event_at(events, first), event_at(events, second));
    e.owner == d.owner && e.place < d.place
}

/// Whether the first event makes a byte that is in the range of the second, another event.
fn is_made_before(events: &[Event], first: usize, second: usize) -> bool
    requires first { first < length events.now }
    requires second { second < length events.now }
    ensures { IsTrue result ↔ IsMadeBefore events.now first second }
{
    let (e, d) = (event_at(events, first), event_at(events, second));
    first != second && e.order == Order3::Init && e.shares_byte(d)
}

/// Whether one event is a step before another, by synchronizes-with as rows.
fn is_step(events: &[Event], synchronizes: &Rows, first: usize, second: usize) -> bool
    requires len { rows_len synchronizes.now ≡ length events.now }
    requires first { first < length events.now }
    requires second { second < length events.now }
    ensures { IsTrue result ↔ IsStep events.now (Holds synchronizes.now) first second }
{
    is_agent_ordered(events, first, second)
        || synchronizes.holds(first, second)
        || is_made_before(events, first, second)
}

/// The kind of a step from one event to another, the first that holds.
pub(crate) fn kind_of(
    events: &[Event],
    synchronizes: &Rows,
    first: usize,
    second: usize,
) -> StepKind
    requires len { rows_len synchronizes.now ≡ length events.now }
    requires first { first < length events.now }
    requires second { second < length events.now }
    requires step { IsStep events.now (Holds synchronizes.now) first second }
    ensures { IsOfKind events.now (Holds synchronizes.now) result first second }
{
    if is_agent_ordered(events, first, second) {
        StepKind::AgentOrder
    } else if synchronizes.holds(first, second) {
        StepKind::SynchronizesWith
    } else {
        StepKind::MadeBefore
    }
}

/// Puts in the steps from one event.
fn put_steps(rows: &mut Rows, events: &[Event], synchronizes: &Rows, first: usize)
    requires len { rows_len synchronizes.now ≡ length events.now }
    requires same { rows_len rows.old ≡ length events.now }
    requires first { first < length events.now }
    ensures len { rows_len rows.new ≡ rows_len rows.old }
    ensures pairs { (e d : ℕ) → Holds rows.new e d
        ↔ (Holds rows.old e d ⊎ ((e ≡ first) × (d < length events.now) × IsStep events.now (Holds synchronizes.now) first d)) }
{
    for second in 0..events.len() {
        if is_step(events, synchronizes, first, second) {
            rows.put(first, second);
        }
    }
}

/// All steps, by synchronizes-with as rows.
pub(crate) fn steps_of(events: &[Event], synchronizes: &Rows) -> Rows
    requires { rows_len synchronizes.now ≡ length events.now }
    ensures len { rows_len result ≡ length events.now }
    ensures pairs { (e d : ℕ) → Holds result e d ↔ IsStep events.now (Holds synchronizes.now) e d }
{
    let mut rows = Rows::new(synchronizes.len());
    for first in 0..events.len() {
        put_steps(&mut rows, events, synchronizes, first);
    }
    rows
}
