//! The sequentially consistent writes with the range of an event.

ghost use Rattle.std.specs.Prelude.{◌≡◌, ◌⊎◌, ◌↔◌, ℕ, ◌<◌, ◌≤◌, length};
ghost use Rattle.lit_paths.specs.declared.limits.TheConstants.{EVENT_LIMIT};
ghost use Rattle.lit_rel.specs.Peers.{ArePeers, IsPeer, IsSeqCstWrite};
ghost use Rattle.lit_rel.specs.Rows.{Holds, rows_len};

use crate::rows::Rows;
use lit_paths::{Event, event_at};

/// Lets each event lead to a write where it has the write's range.
fn put_peer(peers: &mut Rows, events: &[Event], write: usize)
    requires len { rows_len peers.old ≡ length events.now }
    requires write { IsSeqCstWrite events.now write }
    ensures len { rows_len peers.new ≡ rows_len peers.old }
    ensures pairs { (e v : ℕ) → Holds peers.new e v ↔ (Holds peers.old e v ⊎ ((v ≡ write) × IsPeer events.now e v)) }
{
    for event in 0..events.len() {
        if event_at(events, write).has_same_range(event_at(events, event)) {
            peers.put(event, write);
        }
    }
}

/// The sequentially consistent writes that have the range of each event.
pub fn peers_of(events: &[Event]) -> Rows
    requires { length events.now ≤ EVENT_LIMIT }
    ensures { ArePeers events.now result }
{
    let mut peers = Rows::new(events.len());
    for number in 0..events.len() {
        let write = event_at(events, number);
        if write.kind.does_write() && write.is_seq_cst() {
            put_peer(&mut peers, events, number);
        }
    }
    peers
}
