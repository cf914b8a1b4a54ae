//! Events (ECMA-262, 2024, clause 29, "Memory Model Fundamentals").

pub(crate) mod access;

ghost use Rattle.std.specs.Prelude.{◌≡◌, ◌<◌, length};
ghost use Rattle.lit_paths.specs.Event.{event_at};

use crate::limits::{BYTE_READ_LIMIT, EVENT_LIMIT};
use arrayvec::ArrayVec;

/// What an event does to the block.
#[derive(Clone, Copy, Debug, Default, PartialEq, Eq)]
pub enum Kind {
    /// ReadSharedMemory.
    #[default]
    Read,
    /// WriteSharedMemory.
    Write,
    /// ReadModifyWriteSharedMemory.
    Modify,
}

impl Kind {
    ghost use Rattle.std.specs.Prelude.{◌≡◌};
    ghost use Rattle.lit_paths.specs.Event.{does_read, does_write};

    /// Whether an event of this kind reads.
    pub fn does_read(self) -> bool
        ensures { result ≡ does_read self }
    {
        matches!(self, Kind::Read | Kind::Modify)
    }

    /// Whether an event of this kind writes.
    pub fn does_write(self) -> bool
        ensures { result ≡ does_write self }
    {
        matches!(self, Kind::Write | Kind::Modify)
    }
}

/// The \[\[Order]] of an event.
#[derive(Clone, Copy, Debug, Default, PartialEq, Eq)]
pub enum Order3 {
    /// seq-cst: an access through `Atomics`.
    SeqCst,
    /// unordered: any other access.
    #[default]
    Unordered,
    /// init: a write that makes a byte of the block.
    Init,
}

/// An event: an access of the block, or the making of one of its bytes.
#[derive(Clone, Copy, Debug, Default, PartialEq, Eq)]
pub struct Event {
    /// What it does to the block.
    pub kind: Kind,
    /// Its \[\[Order]].
    pub order: Order3,
    /// Its \[\[NoTear]] mark: false for a DataView access alone.
    pub no_tear: bool,
    /// The first byte of its range, in bytes from the block's start, from 0.
    pub first: u8,
    /// How many bytes its range has: 1, 2 or 4.
    pub size: u8,
    /// What a write or read-modify-write stores in its range, the lowest byte first. Bytes from `size` on are 0, as are
    /// all bytes of a read.
    pub payload: [u8; 4],
    /// The agent, by its number from 0 in the order of the text, or `None` for an event that makes the block.
    pub owner: Option<u8>,
    /// Its place, from 0, in the event list of its owner; of an event that makes the block, the byte that it makes.
    pub place: u8,
}

impl Event {
    ghost use Rattle.std.specs.Prelude.{◌≡◌, ◌↔◌, IsTrue};
    ghost use Rattle.lit_paths.specs.declared.event.Order3.TheVariants.{SeqCst};
    ghost use Rattle.lit_paths.specs.Event.{HasByte, HasSameRange, SharesByte};

    /// Whether a byte, from the block's start, is in its range.
    pub fn has_byte(&self, byte: u8) -> bool
        ensures { IsTrue result ↔ HasByte self.now byte }
    {
        self.first <= byte && u16::from(byte) < u16::from(self.first) + u16::from(self.size)
    }

    /// Whether its range and that of another event are the same bytes.
    pub fn has_same_range(&self, other: &Event) -> bool
        ensures { IsTrue result ↔ HasSameRange self.now other.now }
    {
        if self.size == 0 {
            other.size == 0
        } else {
            self.first == other.first && self.size == other.size
        }
    }

    /// Whether some byte is in its range and in that of another event.
    pub fn shares_byte(&self, other: &Event) -> bool
        ensures { IsTrue result ↔ SharesByte self.now other.now }
    {
        let start = self.first.max(other.first);
        self.has_byte(start) && other.has_byte(start)
    }

    /// Whether it is sequentially consistent.
    pub fn is_seq_cst(&self) -> bool
        ensures { IsTrue result ↔ (self.now.order ≡ SeqCst) }
    {
        self.order == Order3::SeqCst
    }
}

/// The event with a number, which is below their count.
pub fn event_at(events: &[Event], number: usize) -> &Event
    requires { number < length events.now }
    ensures { result.now ≡ event_at events.now number }
{
    &events[number]
}

/// The events of a candidate execution: those that make the block, by byte, then each agent's in order. An event's
/// number, from 0, is its place here.
pub type Events = ArrayVec<Event, EVENT_LIMIT>;

/// The source of each byte read, by event number: reads by rising number, bytes rising within a read.
pub type Sources = ArrayVec<u8, BYTE_READ_LIMIT>;
