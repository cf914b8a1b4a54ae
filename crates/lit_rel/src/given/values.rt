//! The values that are read (ECMA-262, 2024, 29.5.4 and 29.5.5).

ghost use Rattle.std.specs.Prelude.{◌≡◌, ◌-◌, ◌≤◌, slice_index};
ghost use Rattle.lit_paths.specs.Event.{event_at, payload_at};
ghost use Rattle.lit_rel.specs.Internal.Given.{sources_of};
ghost use Rattle.lit_rel.specs.ReadsFrom.{value_of};

use crate::given::Given;
use lit_paths::{Event, event_at};

/// The one of some bytes, of which the first is for byte `first` of the block, that is for this byte of it: 0 where there is none.
pub(crate) fn byte_from(bytes: [u8; 4], first: u8, byte: u8) -> u8
    ensures { result ≡ slice_index bytes (byte - first) }
{
    let offset = usize::from(byte.saturating_sub(first));
    bytes.get(offset).copied().unwrap_or(0)
}

/// The byte that an event stores at a byte of its range, from the block's start.
pub fn payload_at(event: &Event, byte: u8) -> u8
    ensures { result ≡ payload_at event.now byte }
{
    byte_from(event.payload, event.first, byte)
}

impl Given<'_> {
    /// The value of a read of at most four bytes, from the payload bytes of its sources.
    pub(crate) fn value(&self, read: usize) -> u32
        requires { (event_at self.now.events.now read).size ≤ 4 }
        ensures { result ≡ value_of self.now.events.now (sources_of self.now.bytes.now) read }
    {
        let mut value: u32 = 0;
        // The last byte comes first, since it is the most significant one.
        for place in (0..self.bytes.len()).rev() {
            let byte = self.bytes[place];
            let reader = usize::from(byte.read);
            // Byte reads rise by their reads, so no earlier byte is of this read.
            if reader < read {
                return value;
            }
            if reader == read {
                let source = event_at(self.events, usize::from(byte.source));
                value = 256 * value + u32::from(payload_at(source, byte.byte));
            }
        }
        value
    }
}
