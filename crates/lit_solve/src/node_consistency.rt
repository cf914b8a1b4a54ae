//! Node consistency: a guard of a path refuses some sources of a byte read, whatever the read takes for its other bytes (decision 34).

ghost use Rattle.std.specs.Prelude.{◌↔◌, ℕ, ◌<◌, length};
ghost use Rattle.lit_paths.specs.ByteReads.{byte_read_at, byte_reads};
ghost use Rattle.lit_paths.specs.Choice.{combinations_of};
ghost use Rattle.lit_rel.specs.EventSet.{HasEvent};
ghost use Rattle.lit_solve.specs.Box.{events_on};
ghost use Rattle.lit_solve.specs.Prunable.{IsRefusedOn};

use lit_paths::Combination;
use lit_rel::laws::byte_reads_are_of_events;
use lit_rel::{EventSet, is_source_refused};

/// The events of a set that some guard refuses as the source of a byte read, by its place among the combination's byte reads.
pub(crate) fn refused_among(
    combination: &Combination<'_>,
    place: usize,
    among: EventSet,
) -> EventSet
    requires entered { combination.now.1 < length (combinations_of combination.now.0) }
    requires place { place < length (byte_reads (events_on combination.now)) }
    requires known { (w : ℕ) → HasEvent among w → w < length (events_on combination.now) }
    ensures { (w : ℕ) → HasEvent result w ↔ (HasEvent among w × IsRefusedOn combination.now
        (byte_read_at (events_on combination.now) place).0 (byte_read_at (events_on combination.now) place).1 w) }
{
    byte_reads_are_of_events();
    // For the prover: a set has room for each event of a combination.
    let _events = combination.events();
    let at = combination.byte_reads()[place];
    let mut refused = EventSet::new();
    let mut left = among;
    while let Some((source, others)) = left.split_first() {
        if is_source_refused(combination, at, source as u8) {
            refused = refused.with(source);
        }
        left = others;
    }
    refused
}
