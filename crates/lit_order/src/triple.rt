//! What a relation says of forbidden triples: which pairs they force, and which triples it does not decide.

ghost use Rattle.std.specs.Prelude.{◌≡◌, ◌≢◌, ◌↔◌, ℕ, ◌<◌, IsTrue, MatchOption};
ghost use Rattle.lit_paths.specs.declared.limits.TheConstants.{EVENT_LIMIT};
ghost use Rattle.lit_rel.specs.Between.{Forbids};
ghost use Rattle.lit_rel.specs.EventSet.{HasEvent};
ghost use Rattle.lit_rel.specs.Rows.{rows_len, Holds};
ghost use Rattle.lit_order.specs.Internal.Deciding.{HasAllForced, HasForced, IsForcedByPair, IsForcedNext, IsOtherOf, IsUndecided};

use lit_rel::{Between, EventSet, Pair, Rows, TwoWayRows};

/// A pair of events, the first before the second.
#[derive(Clone, Copy)]
pub(crate) struct Precedence {
    pub first: usize,
    pub second: usize,
}

/// A source, its read, and another event that may not stand between them.
#[derive(Clone, Copy)]
pub(crate) struct Triple {
    pub source: usize,
    pub read: usize,
    pub other: usize,
}

impl Triple {
    /// Whether the other event is neither the source nor the read, and neither after the read nor before the source.
    fn is_undecided(self, rows: &Rows) -> bool
        requires source { self.source < rows_len rows.now }
        requires read { self.read < rows_len rows.now }
        requires other { self.other < rows_len rows.now }
        ensures { IsTrue result ↔ IsUndecided (Holds rows.now) self.source self.read self.other }
    {
        self.other != self.source
            && self.other != self.read
            && !rows.holds(self.read, self.other)
            && !rows.holds(self.other, self.source)
    }
}

/// The least event of one set and another that is not in a third.
fn first_lacking(set: EventSet, other: EventSet, there: EventSet) -> Option<usize>
    ensures { MatchOption result ((e : ℕ) → HasEvent set e → HasEvent other e → ¬ ¬ HasEvent there e)
        (λ event. HasEvent set event × HasEvent other event × ¬ HasEvent there event) }
{
    let (event, _) = set.intersection(other).difference(there).split_first()?;
    Some(event)
}

/// The events that may not stand between a source and its read, but for these two.
fn others_of(pair: &Pair) -> EventSet
    requires source { pair.now.source < EVENT_LIMIT }
    requires read { pair.now.read < EVENT_LIMIT }
    ensures { (e : ℕ) → HasEvent result e ↔ (HasEvent pair.now.others e × e ≢ pair.now.source × e ≢ pair.now.read) }
{
    let source = EventSet::new().with(usize::from(pair.source));
    pair.others.difference(source.with(usize::from(pair.read)))
}

/// A pair of events that some triple of a source and its read forces, and that the relation lacks.
fn forced_by(rows: &TwoWayRows, pair: &Pair) -> Option<Precedence>
    requires source { pair.now.source < rows_len rows.now.rows }
    requires read { pair.now.read < rows_len rows.now.rows }
    ensures { MatchOption result
        ((v : ℕ) → IsOtherOf (rows_len rows.now.rows) pair.now v → HasForced (Holds rows.now.rows) pair.now.source pair.now.read v)
        (λ forced. IsForcedByPair (rows_len rows.now.rows) (Holds rows.now.rows) pair.now forced.first forced.second) }
{
    let source = usize::from(pair.source);
    let read = usize::from(pair.read);
    let others = others_of(pair);
    let after_source = rows.rows.successors(source);
    if let Some(other) = first_lacking(others, after_source, rows.rows.successors(read)) {
        return Some(Precedence {
            first: read,
            second: other,
        });
    }
    let before_read = rows.converse.successors(read);
    if let Some(other) = first_lacking(others, before_read, rows.converse.successors(source)) {
        return Some(Precedence {
            first: other,
            second: source,
        });
    }
    None
}

/// A pair of events that some triple forces, and that the relation lacks.
pub(crate) fn next_forced(rows: &TwoWayRows, between: &Between) -> Option<Precedence>
    requires { rows_len rows.now.rows ≡ between.now.len }
    ensures { MatchOption result (HasAllForced (Holds rows.now.rows) (Forbids between.now))
        (λ forced. IsForcedNext (Holds rows.now.rows) (Forbids between.now) forced.first forced.second) }
{
    for pair in between.pairs() {
        if let Some(forced) = forced_by(rows, pair) {
            return Some(forced);
        }
    }
    None
}

/// An undecided triple of a source and its read.
fn undecided_of(rows: &Rows, pair: &Pair) -> Option<Triple>
    requires source { pair.now.source < rows_len rows.now }
    requires read { pair.now.read < rows_len rows.now }
    ensures { MatchOption result
        ((v : ℕ) → IsOtherOf (rows_len rows.now) pair.now v → ¬ IsUndecided (Holds rows.now) pair.now.source pair.now.read v)
        (λ t. (t.source ≡ pair.now.source) × (t.read ≡ pair.now.read) × IsOtherOf (rows_len rows.now) pair.now t.other
        × IsUndecided (Holds rows.now) t.source t.read t.other) }
{
    for other in 0..rows.len() {
        let triple = Triple {
            source: usize::from(pair.source),
            read: usize::from(pair.read),
            other,
        };
        if pair.others.contains(other) && triple.is_undecided(rows) {
            return Some(triple);
        }
    }
    None
}

/// An undecided triple.
pub(crate) fn undecided(rows: &Rows, between: &Between) -> Option<Triple>
    requires { rows_len rows.now ≡ between.now.len }
    ensures { MatchOption result ((w r v : ℕ) → Forbids between.now w r v → ¬ IsUndecided (Holds rows.now) w r v)
        (λ t. Forbids between.now t.source t.read t.other × IsUndecided (Holds rows.now) t.source t.read t.other) }
{
    for pair in between.pairs() {
        if let Some(triple) = undecided_of(rows, pair) {
            return Some(triple);
        }
    }
    None
}
