//! Coherent reads and tear free reads (ECMA-262, 2024, 29.7.2 and 29.7.3), for the sources given.

ghost use Rattle.std.specs.Prelude.{◌≡◌, ◌↔◌, ◌<◌, IsTrue, length};
ghost use Rattle.lit_paths.specs.Event.{HasByte, does_write, event_at};
ghost use Rattle.lit_rel.specs.Coherent.{IsCoherentRead};
ghost use Rattle.lit_rel.specs.Internal.Given.{HasBrokenBytes, HasByteSo, HasTornBytes, IsIncoherent, IsKnown, Tears};
ghost use Rattle.lit_rel.specs.Rows.{Holds, rows_len};
ghost use Rattle.lit_rel.specs.TearFree.{CanReadWhole};

use crate::given::{Given, SourcedByte};
use crate::rows::two_way_rows::TwoWayRows;
use lit_paths::{Event, event_at};

/// Whether neither a read nor its source may tear, and their ranges are equal.
pub fn can_read_whole(read: &Event, source: &Event) -> bool
    ensures { IsTrue result ↔ CanReadWhole read.now source.now }
{
    read.no_tear && source.no_tear && read.has_same_range(source)
}

/// Whether an event writes a byte.
fn writes(event: &Event, byte: u8) -> bool
    ensures { IsTrue result ↔ (IsTrue (does_write event.now.kind) × HasByte event.now byte) }
{
    event.kind.does_write() && event.has_byte(byte)
}

/// Whether a byte is read from no later event, and no write hides its source.
fn is_coherent_byte(events: &[Event], byte: SourcedByte, before: &TwoWayRows) -> bool
    requires known { IsKnown (length events.now) byte }
    requires len { rows_len before.now.rows ≡ length events.now }
    ensures { IsTrue result ↔ IsCoherentRead events.now (Holds before.now.rows) byte.read byte.byte byte.source }
{
    let (read, source) = (usize::from(byte.read), usize::from(byte.source));
    if before.rows.holds(read, source) {
        return false;
    }
    let after_source = before.rows.successors(source);
    let mut left = after_source.intersection(before.converse.successors(read));
    while let Some((other, rest)) = left.split_first() {
        if writes(event_at(events, other), byte.byte) {
            return false;
        }
        left = rest;
    }
    true
}

impl Given<'_> {
    /// Whether some event comes before itself by a relation that orders the events, or some byte is not coherent or tears its read.
    pub(crate) fn is_broken(&self, before: &TwoWayRows) -> bool
        requires { rows_len before.now.rows ≡ length self.now.events.now }
        ensures { IsTrue result ↔ HasBrokenBytes self.now.events.now (Holds before.now.rows) self.now.bytes.now }
    {
        before.rows.has_cycle() || self.has_incoherent_byte(before) || self.has_torn_read()
    }

    /// Whether some byte is not coherent (29.7.2), by a relation that orders the events.
    pub(crate) fn has_incoherent_byte(&self, before: &TwoWayRows) -> bool
        requires { rows_len before.now.rows ≡ length self.now.events.now }
        ensures { IsTrue result ↔ HasByteSo self.now.bytes.now (IsIncoherent self.now.events.now (Holds before.now.rows)) }
    {
        for byte in self.bytes {
            if !is_coherent_byte(self.events, *byte, before) {
                return true;
            }
        }
        false
    }

    /// Whether some byte tears its read (29.7.3).
    pub(crate) fn has_torn_read(&self) -> bool
        ensures { IsTrue result ↔ HasTornBytes self.now.events.now self.now.bytes.now }
    {
        for byte in self.bytes {
            if self.is_torn_by(*byte) {
                return true;
            }
        }
        false
    }

    /// Whether a byte and another one of its read come whole from two sources.
    fn is_torn_by(&self, byte: SourcedByte) -> bool
        requires { IsKnown (length self.now.events.now) byte }
        ensures { IsTrue result ↔ HasByteSo self.now.bytes.now (Tears self.now.events.now byte) }
    {
        for other in self.bytes {
            if byte.read == other.read
                && byte.source != other.source
                && self.reads_whole(byte)
                && self.reads_whole(*other)
            {
                return true;
            }
        }
        false
    }

    /// Whether neither a byte's read nor its source may tear, and their ranges are equal.
    fn reads_whole(&self, byte: SourcedByte) -> bool
        requires { IsKnown (length self.now.events.now) byte }
        ensures { IsTrue result ↔ CanReadWhole (event_at self.now.events.now byte.read) (event_at self.now.events.now byte.source) }
    {
        let read = event_at(self.events, usize::from(byte.read));
        let source = event_at(self.events, usize::from(byte.source));
        can_read_whole(read, source)
    }
}
