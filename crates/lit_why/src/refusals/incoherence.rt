//! The first byte that is not coherent (ECMA-262, 2024, 29.7.2).

ghost use Rattle.std.specs.Prelude.{◌≡◌, ◌↔◌, ℕ, ◌<◌, ◌≤◌, Some, IsTrue, MatchOption, length, slice_get};
ghost use Rattle.lit_paths.specs.Event.{HasByte, does_write};
ghost use Rattle.lit_paths.specs.declared.byte_reads.ByteRead.{ByteRead as ReadByte};
ghost use Rattle.lit_paths.specs.declared.limits.TheConstants.{EVENT_LIMIT};
ghost use Rattle.lit_rel.specs.Coherent.{Hides, IsCoherentRead};
ghost use Rattle.lit_rel.specs.Rows.{Holds, rows_len};
ghost use Rattle.lit_why.specs.Internal.Refusing.{IsFirstIncoherent, IsLeastCause};

use crate::refusals::causes::Incoherence;
use lit_paths::{ByteRead, Event, event_at};
use lit_rel::Rows;

/// A byte that is not coherent.
#[derive(Clone, Copy)]
pub(crate) struct IncoherentByte {
    pub place: usize,
    pub read: u8,
    pub byte: u8,
    pub source: u8,
    pub cause: Incoherence,
}

/// Whether an event writes a byte.
fn writes(event: &Event, byte: u8) -> bool
    ensures { IsTrue result ↔ (IsTrue (does_write event.now.kind) × HasByte event.now byte) }
{
    event.kind.does_write() && event.has_byte(byte)
}

/// The least event that hides the source of a byte.
fn hiding(events: &[Event], before: &Rows, at: ByteRead, source: u8) -> Option<usize>
    requires len { rows_len before.now ≡ length events.now }
    requires read { at.read < length events.now }
    requires source { source < length events.now }
    ensures { MatchOption result ((v : ℕ) → ¬ Hides events.now (Holds before.now) at.read at.byte source v)
        (λ v. Hides events.now (Holds before.now) at.read at.byte source v × (v < length events.now)
        × ((u : ℕ) → u < v → ¬ Hides events.now (Holds before.now) at.read at.byte source u)) }
{
    let (read, source) = (usize::from(at.read), usize::from(source));
    for other in 0..events.len() {
        if writes(event_at(events, other), at.byte)
            && before.holds(source, other)
            && before.holds(other, read)
        {
            return Some(other);
        }
    }
    None
}

/// Why a byte is not coherent, or `None` where it is: the read happens before the source, or the least event that hides it.
pub(crate) fn incoherence(
    events: &[Event],
    before: &Rows,
    at: ByteRead,
    source: u8,
) -> Option<Incoherence>
    requires len { rows_len before.now ≡ length events.now }
    requires few { length events.now ≤ EVENT_LIMIT }
    requires read { at.read < length events.now }
    requires source { source < length events.now }
    ensures { MatchOption result (IsCoherentRead events.now (Holds before.now) at.read at.byte source)
        (IsLeastCause events.now (Holds before.now) at.read at.byte source) }
{
    if before.holds(usize::from(at.read), usize::from(source)) {
        return Some(Incoherence::ReadFirst);
    }
    match hiding(events, before, at, source) {
        Some(other) => Some(Incoherence::HiddenBy(other as u8)),
        None => None,
    }
}

/// The first byte read that is not coherent. The sources are one for each.
pub(crate) fn first_incoherent(
    events: &[Event],
    before: &Rows,
    reads: &[ByteRead],
    sources: &[u8],
) -> Option<IncoherentByte>
    requires len { rows_len before.now ≡ length events.now }
    requires few { length events.now ≤ EVENT_LIMIT }
    requires one_each { length sources.now ≡ length reads.now }
    requires reads { (k : ℕ) (at : ReadByte) → slice_get reads.now k ≡ Some at → at.read < length events.now }
    requires sources { (k w : ℕ) → slice_get sources.now k ≡ Some w → w < length events.now }
    ensures { MatchOption result ((k : ℕ) (at : ReadByte) (w : ℕ) → slice_get reads.now k ≡ Some at → slice_get sources.now k ≡ Some w
        → IsCoherentRead events.now (Holds before.now) at.read at.byte w)
        (λ found. IsFirstIncoherent events.now (Holds before.now) reads.now sources.now found.place found.read found.byte found.source
        found.cause) }
{
    for place in 0..reads.len() {
        let (at, source) = (reads[place], sources[place]);
        if let Some(cause) = incoherence(events, before, at, source) {
            return Some(IncoherentByte {
                place,
                read: at.read,
                byte: at.byte,
                source,
                cause,
            });
        }
    }
    None
}
