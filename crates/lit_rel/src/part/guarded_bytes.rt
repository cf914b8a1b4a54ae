//! Guards of paths that refuse a source of one byte, whatever its read takes for its other bytes.

ghost use Rattle.std.specs.Prelude.{◌↔◌, ◌<◌, IsTrue, length};
ghost use Rattle.lit_paths.specs.Event.{event_at as event_of, payload_at as payload_of_event};
ghost use Rattle.lit_paths.specs.Plan.{events_in};
ghost use Rattle.lit_rel.specs.Internal.FalseGuards.{HasFalseByte};
ghost use Rattle.lit_rel.specs.GuardedBytes.{HasFalseByteOn, IsFalseOfByte};

use crate::given::values::{byte_from, payload_at};
use crate::part::false_guards::tested_read;
use lit_paths::{ByteRead, Combination, Event, Tested, event_at};

/// Whether a guard is false of whatever an event reads, if this byte of it has this value.
fn is_false_of_byte(test: Tested, event: &Event, byte: u8, value: u8) -> bool
    ensures { IsTrue result ↔ IsFalseOfByte event.now byte value test }
{
    if test.equal {
        byte_from(test.value.to_le_bytes(), event.first, byte) != value
    } else {
        event.size == 1 && test.value == u32::from(value)
    }
}

/// Whether some guard asks about a read, and is false of whatever the read takes, if this byte of it has this value. The
/// event is that of the read.
fn has_false_byte(tests: &[Tested], first: u8, event: &Event, at: ByteRead, value: u8) -> bool
    ensures { IsTrue result ↔ HasFalseByte tests.now first at.read event.now at.byte value }
{
    let asked = Some(usize::from(at.read));
    for test in tests {
        if tested_read(*test, first) == asked && is_false_of_byte(*test, event, at.byte, value) {
            return true;
        }
    }
    false
}

/// Whether some guard of a path of the combination is false of whatever a read takes, if this byte of it has this source. Both
/// are by event number.
pub fn is_source_refused(combination: &Combination<'_>, at: ByteRead, source: u8) -> bool
    requires read { at.read < length (events_in combination.now.0 combination.now.1) }
    requires source { source < length (events_in combination.now.0 combination.now.1) }
    ensures { IsTrue result ↔ HasFalseByteOn combination.now.0 combination.now.1 at.read at.byte
        (payload_of_event (event_of (events_in combination.now.0 combination.now.1) source) at.byte) }
{
    let events = combination.events();
    let read = event_at(events, usize::from(at.read));
    let value = payload_at(event_at(events, usize::from(source)), at.byte);
    for agent in 0..combination.test().agents() {
        let tests = combination.path(agent).tests();
        if has_false_byte(tests, combination.first_event(agent), read, at, value) {
            return true;
        }
    }
    false
}
