//! Frames: the state of a backtracking search at one node, a box with the relations that follow from it.

use crate::domains::Domains;
use lit_rel::TwoWayRows;

/// A box with the relations that follow from it. To descend, the search copies the frame and prunes it; to backtrack, it goes on from
/// the copy (decision 24).
#[derive(Clone, Copy)]
pub(crate) struct Frame {
    /// happens-before (ECMA-262, 2024, 29.6.6) of the byte reads that have one source.
    pub happens_before: TwoWayRows,
    /// The pairs that each memory-order of each completion respects because of it.
    pub forced: TwoWayRows,
    pub domains: Domains,
}
