//! The byte reads of a combination that have a source (ECMA-262, 2024, 29.6.2).

pub(crate) mod forbidden;
pub(crate) mod peers;
pub(crate) mod races;
pub(crate) mod reads;
pub(crate) mod relations;
pub(crate) mod values;

ghost use Rattle.std.specs.Prelude.{◌≤◌, length};
ghost use Rattle.lit_paths.specs.declared.limits.TheConstants.{BYTE_READ_LIMIT as READS, EVENT_LIMIT};
ghost use Rattle.lit_rel.specs.Internal.Given.{AreFirstReads, AreKnown};

use arrayvec::ArrayVec;
use lit_paths::{BYTE_READ_LIMIT, Event};

/// A byte that is read, and its source.
#[derive(Clone, Copy, Debug, Default, PartialEq, Eq)]
pub(crate) struct SourcedByte {
    /// The number of the event that reads it.
    pub read: u8,
    /// The byte, from the block's start.
    pub byte: u8,
    /// The number of the event that it is read from.
    pub source: u8,
}

/// Bytes that are read: reads by rising number, bytes rising within a read.
pub(crate) type SourcedBytes = ArrayVec<SourcedByte, BYTE_READ_LIMIT>;

/// Events, and their first byte reads, each with a source.
#[derive(Clone, Copy)]
pub(crate) struct Given<'a> {
    pub events: &'a [Event],
    pub bytes: &'a [SourcedByte],
    ghost few_events: { length events.now ≤ EVENT_LIMIT },
    ghost few_bytes: { length bytes.now ≤ READS },
    ghost first_reads: { AreFirstReads events.now bytes.now },
    ghost known: { AreKnown events.now bytes.now },
}
