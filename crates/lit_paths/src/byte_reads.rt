//! The bytes that a list of events reads, and the candidates of each.

ghost use Rattle.std.specs.Prelude.{◌≡◌, ℕ, ◌+◌, ◌<◌, ◌≤◌, ◌^◌, ◌++◌, length, map, MatchOption, slice_get, Some};
ghost use Rattle.arrayvec.specs.ArrayVec.{array_vec_len};
ghost use Rattle.lit_paths.specs.Event.{event_at};
ghost use Rattle.lit_paths.specs.ByteReads.{bytes_read_by, byte_reads, pair_of};
ghost use Rattle.lit_paths.specs.Choice.{product, is_candidate as may_be_source};
ghost use Rattle.lit_paths.specs.declared.byte_reads.ByteRead.{ByteRead as Read};
ghost use Rattle.lit_paths.specs.Internal.CandidateLists.{candidates_for, candidate_lists};

use crate::event::{Event, Sources};
use crate::limits::{BYTE_READ_LIMIT, CHOICE_LIMIT, EVENT_LIMIT};
use arrayvec::ArrayVec;

/// A byte that is read.
#[derive(Clone, Copy, Debug, Default, PartialEq, Eq)]
pub struct ByteRead {
    /// The number of the event that reads it.
    pub read: u8,
    /// The byte, from the block's start.
    pub byte: u8,
}

/// Each byte that is read: reads by rising number, bytes rising within a read.
pub type ByteReads = ArrayVec<ByteRead, BYTE_READ_LIMIT>;

/// The candidates of a byte of a read, by rising event number.
pub type Candidates = ArrayVec<u8, EVENT_LIMIT>;

/// Adds the bytes that the event with this number reads.
fn push_bytes(reads: &mut ByteReads, number: u8, event: &Event)
    requires room { array_vec_len reads.old + length (bytes_read_by number event.now) ≤ BYTE_READ_LIMIT }
    requires range { event.now.first + event.now.size ≤ 2 ^ 8 }
    ensures { map pair_of reads.new.items ≡ map pair_of reads.old.items ++ bytes_read_by number event.now }
{
    if event.kind.does_read() {
        for k in 0..event.size {
            reads.push(ByteRead {
                read: number,
                byte: event.first + k,
            });
        }
    }
}

/// Replaces the list by that of all byte reads of the events.
pub(crate) fn find_byte_reads(reads: &mut ByteReads, events: &[Event])
    requires few { length events.now ≤ 2 ^ 8 }
    requires room { length (byte_reads events.now) ≤ BYTE_READ_LIMIT }
    requires ranges { (i : ℕ) → i < length events.now → (event_at events.now i).first + (event_at events.now i).size ≤ 2 ^ 8 }
    ensures { map pair_of reads.new.items ≡ byte_reads events.now }
{
    reads.clear();
    for (number, event) in events.iter().enumerate() {
        push_bytes(reads, number as u8, event);
    }
}

/// Whether the event with this number may be the source of a byte for a read.
fn is_candidate(number: usize, event: &Event, read: ByteRead) -> bool
    ensures { result ≡ may_be_source read.read read.byte (number, event.now) }
{
    event.kind.does_write() && event.has_byte(read.byte) && number != usize::from(read.read)
}

/// The candidates of a byte of a read, at most `MOST`.
pub(crate) fn candidates_of<const MOST: usize>(
    events: &[Event],
    read: ByteRead,
) -> ArrayVec<u8, MOST>
    requires few { length events.now ≤ EVENT_LIMIT }
    requires fits { length (candidates_for events.now read) ≤ MOST }
    ensures { result.items ≡ candidates_for events.now read }
{
    let mut candidates = ArrayVec::new();
    for (number, event) in events.iter().enumerate() {
        if is_candidate(number, event, read) {
            candidates.push(number as u8);
        }
    }
    candidates
}

/// How many candidates a byte of a read has.
fn candidate_count(events: &[Event], read: ByteRead) -> u64
    requires { length events.now ≤ EVENT_LIMIT }
    ensures value { result ≡ length (candidates_for events.now read) }
    ensures few { result ≤ EVENT_LIMIT }
{
    let mut count = 0;
    for (number, event) in events.iter().enumerate() {
        if is_candidate(number, event, read) {
            count += 1;
        }
    }
    count
}

/// In how many ways sources can be chosen for all reads, or `None` where these are more than `CHOICE_LIMIT`.
pub(crate) fn count_sources(events: &[Event], reads: &[ByteRead]) -> Option<u64>
    requires few { length events.now ≤ EVENT_LIMIT }
    requires some { (i : ℕ) (read : Read) → slice_get reads.now i ≡ Some read → 1 ≤ length (candidates_for events.now read) }
    ensures { MatchOption result (CHOICE_LIMIT < length (product (candidate_lists events.now reads.now)))
        (λ total. (total ≡ length (product (candidate_lists events.now reads.now))) × (1 ≤ total) × (total ≤ CHOICE_LIMIT)) }
{
    let mut total = 1;
    for read in reads {
        total *= candidate_count(events, *read);
        if total > CHOICE_LIMIT {
            return None;
        }
    }
    Some(total)
}
