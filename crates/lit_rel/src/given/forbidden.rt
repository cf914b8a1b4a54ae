//! Which events may not stand between a source and its read in the order of memory (ECMA-262, 2024, 29.7.4).

ghost use Rattle.std.specs.Prelude.{◌≡◌, ◌⊎◌, ◌↔◌, ℕ, ◌<◌, ◌≤◌, length};
ghost use Rattle.lit_paths.specs.declared.event.Order3.TheVariants.{SeqCst};
ghost use Rattle.lit_paths.specs.declared.limits.TheConstants.{EVENT_LIMIT};
ghost use Rattle.lit_paths.specs.Event.{event_at as event_of};
ghost use Rattle.lit_rel.specs.Between.{Forbids};
ghost use Rattle.lit_rel.specs.EventSet.{HasEvent};
ghost use Rattle.lit_rel.specs.Forbidden.{IsAfterSource, IsBeforeRead, IsBetweenSynchronized, IsForbiddenBetween, IsForbiddenTriple};
ghost use Rattle.lit_rel.specs.Internal.Given.{sources_of};
ghost use Rattle.lit_rel.specs.Peers.{ArePeers, IsPeer, IsSeqCstWrite};
ghost use Rattle.lit_rel.specs.ReadsFrom.{ReadsByteFrom};
ghost use Rattle.lit_rel.specs.Rows.{Holds, rows_len};

use crate::between::Between;
use crate::event_set::EventSet;
use crate::given::Given;
use crate::given::relations::can_synchronize;
use crate::rows::Rows;
use crate::rows::two_way_rows::TwoWayRows;
use lit_paths::{Event, event_at};

impl Given<'_> {
    /// What may not stand between each source and its read, by a relation that orders the events.
    pub(crate) fn between(&self, before: &TwoWayRows, peers: &Rows) -> Between
        requires len { rows_len before.now.rows ≡ length self.now.events.now }
        requires peers { ArePeers self.now.events.now peers.now }
        ensures len { result.len ≡ length self.now.events.now }
        ensures triples { (w r v : ℕ) → Forbids result w r v
            ↔ IsForbiddenTriple self.now.events.now (ReadsByteFrom self.now.events.now (sources_of self.now.bytes.now))
            (Holds before.now.rows) w r v }
    {
        let mut between = Between::new(self.events.len());
        for byte in self.bytes {
            let others = others_between(self.events, byte.source, byte.read, before, peers);
            if !others.is_empty() {
                between.forbid(byte.source, byte.read, others);
            }
        }
        between
    }
}

/// What may not stand between a source and a read in the order of memory (29.7.4), if the read has that source, by a relation that orders
/// the events, and the sequentially consistent writes that have the range of each. Source and read are event numbers.
pub fn others_between(
    events: &[Event],
    source: u8,
    read: u8,
    before: &TwoWayRows,
    peers: &Rows,
) -> EventSet
    requires few { length events.now ≤ EVENT_LIMIT }
    requires rows { rows_len before.now.rows ≡ length events.now }
    requires peers { ArePeers events.now peers.now }
    requires source { source < length events.now }
    requires read { read < length events.now }
    ensures { (v : ℕ) → HasEvent result v
        ↔ ((v < length events.now) × IsForbiddenBetween events.now (Holds before.now.rows) source read v) }
{
    let (source, read) = (usize::from(source), usize::from(read));
    let others = in_pattern(events, source, read, before, peers);
    others.difference(EventSet::new().with(source).with(read))
}

/// The sequentially consistent writes in one of the patterns between a source and a read.
fn in_pattern(
    events: &[Event],
    source: usize,
    read: usize,
    before: &TwoWayRows,
    peers: &Rows,
) -> EventSet
    requires peers { ArePeers events.now peers.now }
    requires rows { rows_len before.now.rows ≡ length events.now }
    requires source { source < length events.now }
    requires read { read < length events.now }
    ensures { (v : ℕ) → HasEvent result v ↔ (IsSeqCstWrite events.now v
        × (IsBetweenSynchronized events.now source read v
        ⊎ IsAfterSource events.now (Holds before.now.rows) source read v
        ⊎ IsBeforeRead events.now (Holds before.now.rows) source read v)) }
{
    let others = between_synchronized(events, source, read, peers);
    if before.rows.holds(source, read) {
        let before_read = before.converse.successors(read);
        let after_source = before.rows.successors(source);
        others
            .union(peers_among(events, source, before_read, peers))
            .union(peers_among(events, read, after_source, peers))
    } else {
        others
    }
}

/// The sequentially consistent writes that have the range of a read that its source can synchronize with.
fn between_synchronized(events: &[Event], source: usize, read: usize, peers: &Rows) -> EventSet
    requires peers { ArePeers events.now peers.now }
    requires source { source < length events.now }
    requires read { read < length events.now }
    ensures { (v : ℕ) → HasEvent result v ↔ (IsSeqCstWrite events.now v × IsBetweenSynchronized events.now source read v) }
{
    if can_synchronize(event_at(events, source), event_at(events, read)) {
        peers.successors(read)
    } else {
        EventSet::new()
    }
}

/// The sequentially consistent writes of a set that have the range of an event, where that is sequentially consistent too.
fn peers_among(events: &[Event], event: usize, set: EventSet, peers: &Rows) -> EventSet
    requires peers { ArePeers events.now peers.now }
    requires event { event < length events.now }
    ensures { (v : ℕ) → HasEvent result v
        ↔ (IsPeer events.now event v × ((event_of events.now event).order ≡ SeqCst) × HasEvent set v) }
{
    if event_at(events, event).is_seq_cst() {
        peers.successors(event).intersection(set)
    } else {
        EventSet::new()
    }
}
