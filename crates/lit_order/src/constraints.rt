//! The constraints on a memory-order: precedences, and forbidden triples.

ghost use Rattle.std.specs.Prelude.{◌≡◌, ◌⊎◌, ℕ, ◌<◌, ◌≤◌, ◌↔◌, IsTrue, MatchOption};
ghost use Rattle.lit_paths.specs.declared.limits.TheConstants.{EVENT_LIMIT};
ghost use Rattle.lit_rel.specs.Between.{Forbids};
ghost use Rattle.lit_rel.specs.EventSet.{HasEvent};
ghost use Rattle.lit_rel.specs.Rows.{rows_len, Holds};

use lit_paths::EVENT_LIMIT;
use lit_rel::{Between, EventSet, Pair, TwoWayRows};

/// Whether one source and its read let an event stand next after the placed events: the event may stand between them,
/// or the source is not placed, or the read is the event itself or is placed too.
fn pair_allows(pair: &Pair, event: usize, placed: EventSet) -> bool
    requires event { event < EVENT_LIMIT }
    requires source { pair.now.source < EVENT_LIMIT }
    requires read { pair.now.read < EVENT_LIMIT }
    ensures { IsTrue result ↔ (HasEvent pair.now.others event → HasEvent placed pair.now.source →
        (pair.now.read ≡ event) ⊎ HasEvent placed pair.now.read) }
{
    !pair.others.contains(event)
        || !placed.contains(usize::from(pair.source))
        || usize::from(pair.read) == event
        || placed.contains(usize::from(pair.read))
}

/// Whether the forbidden triples let an event stand next after the placed events: where the event may not stand between
/// a placed source and its read, that read is placed too, or is the event itself.
fn allows(between: &Between, event: usize, placed: EventSet) -> bool
    requires { event < between.now.len }
    ensures { IsTrue result ↔ ((w r : ℕ) → Forbids between.now w r event → HasEvent placed w → (r ≡ event) ⊎ HasEvent placed r) }
{
    for pair in between.pairs() {
        if !pair_allows(pair, event, placed) {
            return false;
        }
    }
    true
}

/// The constraints on an order: which events come before each event, and which may not stand between a source and its
/// read.
#[derive(Drop)]
pub(crate) struct Constraints<'a> {
    /// Which events come before which.
    before: &'a TwoWayRows,
    between: &'a Between,
    /// The events that may not stand between some source and its read.
    kept: EventSet,
    ghost same: { rows_len before.now.converse ≡ between.now.len },
    ghost few: { between.now.len ≤ EVENT_LIMIT },
    ghost all: { (w r v : ℕ) → Forbids between.now w r v → HasEvent kept v },
}

impl<'a> Constraints<'a> {
    ghost use Rattle.lit_order.specs.Internal.Beginning.{CanStandNext, IsNext};
    ghost use Rattle.lit_order.specs.Internal.Constrained.{constrained_len, ComesBefore, MayNotStand};

    /// The constraints of a relation and of forbidden triples, both on the same events.
    pub(crate) fn new(before: &'a TwoWayRows, between: &'a Between) -> Self
        requires { rows_len before.now.converse ≡ between.now.len }
        ensures len { constrained_len result ≡ rows_len before.now.converse }
        ensures pairs { (a e : ℕ) → ComesBefore result a e ↔ Holds before.now.converse e a }
        ensures triples { (w r v : ℕ) → MayNotStand result w r v ↔ Forbids between.now w r v }
    {
        let mut kept = EventSet::new();
        for pair in between.pairs() {
            kept = kept.union(pair.others);
        }
        Constraints {
            before,
            between,
            kept,
        }
    }

    /// How many events there are.
    pub(crate) fn len(&self) -> usize
        ensures value { result ≡ constrained_len self.now }
        ensures few { result ≤ EVENT_LIMIT }
    {
        self.between.len()
    }

    /// The forbidden triples: which events may not stand between a source and its read.
    pub(crate) fn between(&self) -> &'a Between
        ensures { result.now ≡ self.now.between.now }
    {
        self.between
    }

    /// Whether the forbidden triples let an event, below `len()`, stand next after the placed events.
    fn allows(&self, event: usize, placed: EventSet) -> bool
        requires { event < constrained_len self.now }
        ensures { IsTrue result ↔ ((w r : ℕ) → MayNotStand self.now w r event → HasEvent placed w → (r ≡ event) ⊎ HasEvent placed r) }
    {
        // Most events are in no triple.
        !self.kept.contains(event) || allows(self.between, event, placed)
    }

    /// Whether an event, below `len()`, can stand next after the placed events: it is not placed, every event that comes
    /// before it is, and no forbidden triple has it between a source and its read.
    pub(crate) fn can_stand_next(&self, event: usize, placed: EventSet) -> bool
        requires { event < constrained_len self.now }
        ensures { IsTrue result ↔ CanStandNext (ComesBefore self.now) (MayNotStand self.now) (HasEvent placed) event }
    {
        !placed.contains(event)
            && self.before.converse.successors(event).is_within(placed)
            && self.allows(event, placed)
    }

    /// The least event that can stand next after the placed events; `None` if none can.
    pub(crate) fn next_event(&self, placed: EventSet) -> Option<usize>
        ensures { MatchOption result
            ((e : ℕ) → e < constrained_len self.now → ¬ CanStandNext (ComesBefore self.now) (MayNotStand self.now) (HasEvent placed) e)
            (λ event. IsNext (constrained_len self.now) (ComesBefore self.now) (MayNotStand self.now) (HasEvent placed) event) }
    {
        let mut left = EventSet::below(self.len()).difference(placed);
        'next: while let Some((event, others)) = left.split_first() {
            if self.can_stand_next(event, placed) {
                return Some(event);
            }
            // Nor can an event that comes after it.
            left = others.difference(self.before.rows.successors(event));
        }
        None
    }
}
