//! The pieces of a cutting.

ghost use Rattle.std.specs.Prelude.{◌≡◌, ◌<◌, ◌≤◌};
ghost use Rattle.lit_paths.specs.declared.limits.TheConstants.{CHOICE_LIMIT};
ghost use Rattle.lit_share.specs.Pieces.{pieces_of, piece_start, piece_end};

use crate::limits::CUT_LIMIT;
use std::ops::Range;

/// The numbers of a piece, by the piece's number.
pub(crate) fn piece(total: u64, cut: u64, number: u64) -> Range<u64>
    requires total { total ≤ CHOICE_LIMIT }
    requires cut { (0 < cut) × (cut ≤ CUT_LIMIT) }
    requires known { number < pieces_of total cut }
    ensures start { result.start ≡ piece_start cut number }
    ensures end { result.end ≡ piece_end total cut number }
    ensures some { result.start < result.end }
    ensures below { result.end ≤ total }
{
    let start = number * cut;
    let end = total.min(start + cut);
    Range { start, end }
}
