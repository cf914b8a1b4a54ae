//! synchronizes-with and happens-before (ECMA-262, 2024, 29.6.5 and 29.6.6), with one source more.

ghost use Rattle.std.specs.Prelude.{◌≡◌, ◌↔◌, ℕ, IsTrue, Some, List, [], ◌∷◌, ◌++◌, length, slice_get};
ghost use Rattle.lit_paths.specs.ByteReads.{byte_reads};
ghost use Rattle.lit_rel.specs.Internal.Given.{IsKnown, read_of};
ghost use Rattle.lit_rel.specs.Internal.PrefixStates.{IsOrder};
ghost use Rattle.lit_rel.specs.Rows.{rows_len};
ghost use Rattle.lit_rel.specs.SynchronizesWith.{CanSynchronize};

use crate::given::SourcedByte;
use crate::rows::two_way_rows::TwoWayRows;
use lit_paths::{Event, event_at};

/// Whether a source and its read synchronize (29.6.5): both are sequentially consistent, and their ranges are equal.
pub fn can_synchronize(source: &Event, read: &Event) -> bool
    ensures { IsTrue result ↔ CanSynchronize source.now read.now }
{
    source.is_seq_cst() && read.is_seq_cst() && source.has_same_range(read)
}

/// happens-before (29.6.6) with one byte more: with the pair of its source and its read, where they synchronize.
pub(crate) fn order_with(events: &[Event], byte: SourcedByte, before: &TwoWayRows) -> TwoWayRows
    requires known { IsKnown (length events.now) byte }
    requires len { rows_len before.now.rows ≡ length events.now }
    ensures { (sources : List ℕ) → slice_get (byte_reads events.now) (length sources) ≡ Some (read_of byte)
        → IsOrder events.now sources before.now.rows → IsOrder events.now (sources ++ byte.source ∷ []) result.rows }
{
    let (source, read) = (usize::from(byte.source), usize::from(byte.read));
    let mut order = *before;
    if can_synchronize(event_at(events, source), event_at(events, read)) {
        order.close_with(source, read);
    }
    order
}
