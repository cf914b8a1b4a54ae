//! Which sources can force anything.

ghost use Rattle.std.specs.Prelude.{◌≡◌, ◌↔◌, ℕ, ◌<◌, ◌≤◌, IsTrue, length};
ghost use Rattle.lit_paths.specs.declared.event.Order3.TheVariants.{SeqCst};
ghost use Rattle.lit_paths.specs.declared.limits.TheConstants.{EVENT_LIMIT};
ghost use Rattle.lit_paths.specs.Event.{event_at as event_of};
ghost use Rattle.lit_rel.specs.EventSet.{HasEvent};
ghost use Rattle.lit_rel.specs.Peers.{ArePeers, IsPeer};
ghost use Rattle.lit_solve.specs.Fill.{HasEffect};

use crate::domains::set_of;
use lit_paths::{Event, event_at};
use lit_rel::{EventSet, Rows};

/// Whether an event is sequentially consistent, and some sequentially consistent write of its range is not in the set `besides`.
/// `peers` has the sequentially consistent writes of each event's range.
fn has_peer_beside(events: &[Event], peers: &Rows, event: usize, besides: EventSet) -> bool
    requires peers { ArePeers events.now peers.now }
    requires event { event < length events.now }
    ensures { IsTrue result ↔ (((event_of events.now event).order ≡ SeqCst)
        × ((v : ℕ) × IsPeer events.now event v × ¬ HasEvent besides v)) }
{
    event_at(events, event).is_seq_cst() && !peers.successors(event).difference(besides).is_empty()
}

/// Whether a source can force anything if a read reads a byte from it. Both are event numbers. `peers` has the sequentially
/// consistent writes of each event's range.
pub(crate) fn has_effect(events: &[Event], peers: &Rows, source: usize, read: usize) -> bool
    requires few { length events.now ≤ EVENT_LIMIT }
    requires peers { ArePeers events.now peers.now }
    requires source { source < length events.now }
    requires read { read < length events.now }
    ensures { IsTrue result ↔ HasEffect events.now source read }
{
    let reader = set_of(read);
    let both = reader.with(source);
    has_peer_beside(events, peers, read, reader) || has_peer_beside(events, peers, source, both)
}
