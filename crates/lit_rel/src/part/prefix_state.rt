//! The state of a part after a prefix of its sources: happens-before, and whether the part is broken.

ghost use Rattle.std.specs.Prelude.{◌≤◌, length};
ghost use Rattle.lit_paths.specs.declared.limits.TheConstants.{BYTE_READ_LIMIT as READS};
ghost use Rattle.lit_paths.specs.Plan.{events_in};
ghost use Rattle.lit_rel.specs.Internal.Given.{AreFirstReads, AreKnown, part_of, sources_of};
ghost use Rattle.lit_rel.specs.Internal.PrefixStates.{IsPrefixState, IsOrder};

use crate::given::{Given, SourcedByte};
use crate::part::false_guards::contradicts_guard;
use crate::rows::two_way_rows::TwoWayRows;
use lit_paths::Combination;

/// The state of a part after a prefix of its sources.
#[derive(Clone, Copy, Default)]
pub(crate) struct PrefixState {
    /// happens-before of these sources.
    pub before: TwoWayRows,
    /// Whether the part is broken.
    pub broken: bool,
}

impl PrefixState {
    /// The state of a combination with these byte reads, by their happens-before. Whether the part is broken is computed
    /// from all given bytes, since one more source may break any of them (decision 16).
    pub(crate) fn new(
        combination: &Combination<'_>,
        bytes: &[SourcedByte],
        before: TwoWayRows,
    ) -> Self
        requires few { length bytes.now ≤ READS }
        requires reads { AreFirstReads (events_in combination.now.0 combination.now.1) bytes.now }
        requires known { AreKnown (events_in combination.now.0 combination.now.1) bytes.now }
        requires before { IsOrder (events_in combination.now.0 combination.now.1) (sources_of bytes.now) before.rows }
        ensures { IsPrefixState (part_of combination.now.0 combination.now.1 bytes.now) result }
    {
        let given = Given {
            events: combination.events(),
            bytes,
        };
        let broken = given.is_broken(&before) || contradicts_guard(combination, &given);
        PrefixState { before, broken }
    }
}
