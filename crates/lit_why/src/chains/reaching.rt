//! Breadth-first search backwards along steps: from which events a chain of so many steps leads to an event.

ghost use Rattle.std.specs.Prelude.{◌≡◌, ◌↔◌, ℕ, ◌<◌, IsTrue, MatchOption, length};
ghost use Rattle.lit_rel.specs.EventSet.{HasEvent};
ghost use Rattle.lit_rel.specs.Rows.{Holds, rows_len};
ghost use Rattle.lit_why.specs.Internal.Reaching.{AreLevelsBelow, IsUnreached};

use arrayvec::ArrayVec;
use lit_paths::EVENT_LIMIT;
use lit_rel::{EventSet, Rows};

/// The levels of the search: for each number of steps, from one on, the events from which so many steps lead to an event.
pub(crate) type Levels = ArrayVec<EventSet, EVENT_LIMIT>;

/// Whether an event leads to some event of a set.
fn leads_into(steps: &Rows, event: usize, set: EventSet) -> bool
    requires { event < rows_len steps.now }
    ensures { IsTrue result ↔ ((d : ℕ) × Holds steps.now event d × HasEvent set d) }
{
    match steps.successors(event).intersection(set).split_first() {
        Some(_) => true,
        None => false,
    }
}

/// The events that lead to some event of a set.
fn leading_to(steps: &Rows, set: EventSet) -> EventSet
    ensures { (e : ℕ) → HasEvent result e ↔ ((d : ℕ) × Holds steps.now e d × HasEvent set d) }
{
    let mut leading = EventSet::new();
    for event in 0..steps.len() {
        if leads_into(steps, event, set) {
            leading = leading.with(event);
        }
    }
    leading
}

/// The least event of a set that an event leads to. The set has one.
pub(crate) fn next_of(steps: &Rows, event: usize, set: EventSet) -> usize
    requires known { event < rows_len steps.now }
    requires some { (d : ℕ) × Holds steps.now event d × HasEvent set d }
    ensures step { Holds steps.now event result }
    ensures within { HasEvent set result }
{
    match steps.successors(event).intersection(set).split_first() {
        Some((next, _)) => next,
        None => event,
    }
}

/// The levels of `to` that are below the least number of steps from `from` to `to`. `None` exactly where no steps lead from `from` to
/// `to`.
pub(crate) fn levels_below(steps: &Rows, from: usize, to: usize) -> Option<Levels>
    requires from { from < rows_len steps.now }
    requires to { to < rows_len steps.now }
    ensures { MatchOption result (IsUnreached (Holds steps.now) from to)
        (λ levels. AreLevelsBelow (Holds steps.now) from to levels.items × (length levels.items < rows_len steps.now)) }
{
    let mut levels = Levels::new();
    let mut reached = EventSet::new();
    let mut level = leading_to(steps, EventSet::new().with(to));
    while !level.contains(from) {
        let Some((_new, _others)) = level.difference(reached).split_first() else {
            return None;
        };
        levels.push(level);
        reached = reached.union(level);
        level = leading_to(steps, level);
    }
    Some(levels)
}
