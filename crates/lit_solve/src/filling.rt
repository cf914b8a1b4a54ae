//! Filling: whether the domains of a read's bytes have sources with which the read, by itself, is tear free and its guards are true.

ghost use Rattle.std.specs.Prelude.{◌≡◌, ◌↔◌, ℕ, ◌+◌, ◌*◌, ◌^◌, ◌<◌, ◌≤◌, IsTrue, MatchOption, length, slice_get, Some};
ghost use Rattle.lit_paths.specs.ByteReads.{byte_read_at, byte_reads};
ghost use Rattle.lit_paths.specs.declared.limits.TheConstants.{BYTE_READ_LIMIT, EVENT_LIMIT};
ghost use Rattle.lit_paths.specs.Event.{event_at as event_of, payload_at as payload_of};
ghost use Rattle.lit_rel.specs.Broken.{HasFalseGuardOn};
ghost use Rattle.lit_rel.specs.EventSet.{HasEvent};
ghost use Rattle.lit_solve.specs.Box.{HasEmptyDomain, IsBox, box_with, events_on};
ghost use Rattle.lit_solve.specs.Fill.{CanFill};
ghost use Rattle.lit_solve.specs.Internal.Filling.{CanFillOn, HasRoom, IsFirstPlace, TakesOn, WholeWith, WouldNotTear};

use crate::domains::Domains;
use crate::problem::Problem;
use lit_paths::{Event, event_at};
use lit_rel::{EventSet, can_read_whole, has_false_guard, payload_at};

/// What a read takes from the sources of its first bytes.
#[derive(Clone, Copy)]
pub(crate) struct Taken {
    /// Of these sources those from which it can read whole.
    whole: EventSet,
    /// The number that the bytes compose.
    pub(crate) value: u32,
    /// How many bytes were taken.
    bytes: u32,
}

impl Taken {
    /// Nothing, before its first byte.
    pub(crate) fn nothing() -> Self
        ensures whole { (v : ℕ) → ¬ HasEvent result.whole v }
        ensures value { result.value ≡ 0 }
        ensures bytes { result.bytes ≡ 0 }
    {
        Taken {
            whole: EventSet::new(),
            value: 0,
            bytes: 0,
        }
    }
}

/// The events of a set that store this value at a byte.
pub(crate) fn storing(events: &[Event], among: EventSet, byte: u8, stored: u8) -> EventSet
    requires few { length events.now ≤ EVENT_LIMIT }
    requires known { (v : ℕ) → HasEvent among v → v < length events.now }
    ensures { (v : ℕ) → HasEvent result v ↔ (HasEvent among v × (payload_of (event_of events.now v) byte ≡ stored)) }
{
    let mut matching = EventSet::new();
    let mut left = among;
    while let Some((event, others)) = left.split_first() {
        if payload_at(event_at(events, event), byte) == stored {
            matching = matching.with(event);
        }
        left = others;
    }
    matching
}

impl Problem<'_> {
    /// The place of the first byte read of a read or of a later one, or how many byte reads there are.
    pub(crate) fn first_place(&self, read: u8) -> usize
        ensures { IsFirstPlace (events_on self.now) read result }
    {
        for place in 0..self.reads() {
            if self.byte_read(place).read >= read {
                return place;
            }
        }
        self.reads()
    }

    /// Whether the byte read at a place, if there is one, is of this read.
    pub(crate) fn is_of(&self, read: u8, place: usize) -> bool
        ensures few { IsTrue result → place < BYTE_READ_LIMIT }
        ensures of { IsTrue result ↔ ((place < length (byte_reads (events_on self.now)))
            × ((byte_read_at (events_on self.now) place).0 ≡ read)) }
    {
        place < self.reads() && self.byte_read(place).read == read
    }

    /// Whether each guard on a read is true of a value.
    fn are_guards_true(&self, read: u8, value: u32) -> bool
        ensures { IsTrue result ↔ ¬ HasFalseGuardOn self.now.0 self.now.1 (Some read) value }
    {
        !self.guarded || !has_false_guard(&self.combination, Some(usize::from(read)), value)
    }

    /// Whether a guard on a register that was not written is false.
    pub(crate) fn has_false_unwritten(&self) -> bool
        ensures { IsTrue result ↔ HasFalseGuardOn self.now.0 self.now.1 None 0 }
    {
        has_false_guard(&self.combination, None, 0)
    }

    /// The byte that a source stores for the byte read at a place.
    fn stored(&self, place: usize, source: usize) -> u8
        requires place { place < length (byte_reads (events_on self.now)) }
        requires source { source < length (events_on self.now) }
        ensures { result ≡ payload_of (event_of (events_on self.now) source) (byte_read_at (events_on self.now) place).1 }
    {
        payload_at(event_at(self.events(), source), self.byte_read(place).byte)
    }

    /// The events from which a read reads whole once it also takes a byte from this source. `None` if that would tear the read.
    fn whole_with(&self, read: u8, whole: EventSet, source: usize) -> Option<EventSet>
        requires read { read < length (events_on self.now) }
        requires source { source < length (events_on self.now) }
        ensures { MatchOption result (¬ WouldNotTear (events_on self.now) read (HasEvent whole) source)
            (λ more. WouldNotTear (events_on self.now) read (HasEvent whole) source
            × ((v : ℕ) → HasEvent more v ↔ WholeWith (events_on self.now) read (HasEvent whole) source v)) }
    {
        let events = self.events();
        let reader = event_at(events, usize::from(read));
        if !can_read_whole(reader, event_at(events, source)) {
            return Some(whole);
        }
        let one = EventSet::new().with(source);
        if whole.is_within(one) {
            Some(one)
        } else {
            None
        }
    }

    /// What the bytes of the read at a place compose once the byte read there has this source.
    pub(crate) fn with_byte(&self, place: usize, taken: Taken, source: usize) -> Taken
        requires place { place < length (byte_reads (events_on self.now)) }
        requires source { source < length (events_on self.now) }
        requires room { HasRoom (events_on self.now) (byte_read_at (events_on self.now) place).0 place taken }
        ensures value { result.value ≡ taken.value
            + 256 ^ taken.bytes * payload_of (event_of (events_on self.now) source) (byte_read_at (events_on self.now) place).1 }
        ensures bytes { result.bytes ≡ taken.bytes + 1 }
        ensures room { HasRoom (events_on self.now) (byte_read_at (events_on self.now) place).0 (place + 1) result }
    {
        let unit = 256u32.pow(taken.bytes);
        Taken {
            whole: taken.whole,
            value: taken.value + unit * u32::from(self.stored(place, source)),
            bytes: taken.bytes + 1,
        }
    }

    /// What a read takes once its byte read at a place has this source. `None` if that would tear the read.
    fn take(&self, read: u8, place: usize, taken: Taken, source: usize) -> Option<Taken>
        requires place { place < length (byte_reads (events_on self.now)) }
        requires read { (byte_read_at (events_on self.now) place).0 ≡ read }
        requires source { source < length (events_on self.now) }
        requires room { HasRoom (events_on self.now) read place taken }
        ensures { MatchOption result (¬ WouldNotTear (events_on self.now) read (HasEvent taken.whole) source)
            (λ next. TakesOn (events_on self.now) read place (byte_read_at (events_on self.now) place).1 source taken next) }
    {
        let Some(whole) = self.whole_with(read, taken.whole, source) else {
            return None;
        };
        let next = self.with_byte(place, taken, source);
        Some(Taken { whole, ..next })
    }

    /// The events of a set that store the same byte as a source for the byte read at a place.
    pub(crate) fn storing_same(&self, among: EventSet, place: usize, source: usize) -> EventSet
        requires place { place < length (byte_reads (events_on self.now)) }
        requires source { source < length (events_on self.now) }
        requires known { (v : ℕ) → HasEvent among v → v < length (events_on self.now) }
        ensures { (v : ℕ) → HasEvent result v ↔ (HasEvent among v × (payload_of (event_of (events_on self.now) v)
            (byte_read_at (events_on self.now) place).1
            ≡ payload_of (event_of (events_on self.now) source) (byte_read_at (events_on self.now) place).1)) }
    {
        let byte = self.byte_read(place).byte;
        let stored = self.stored(place, source);
        storing(self.events(), among, byte, stored)
    }

    /// Of the other sources of the byte read at a place, those still worth trying after one failed, with which the read took `next`.
    /// The failed source dominates those that store the same byte, unless it is a further one from which the read reads whole.
    fn worth_trying(
        &self,
        others: EventSet,
        place: usize,
        source: usize,
        taken: Taken,
        next: Taken,
    ) -> EventSet
        requires place { place < length (byte_reads (events_on self.now)) }
        requires source { source < length (events_on self.now) }
        requires known { (v : ℕ) → HasEvent others v → v < length (events_on self.now) }
        ensures within { (v : ℕ) → HasEvent result v → HasEvent others v }
        ensures dominated { (v : ℕ) → HasEvent others v → ¬ HasEvent result v → ((u : ℕ) → HasEvent next.whole u → HasEvent taken.whole u)
            × (payload_of (event_of (events_on self.now) v) (byte_read_at (events_on self.now) place).1
            ≡ payload_of (event_of (events_on self.now) source) (byte_read_at (events_on self.now) place).1) }
    {
        if !next.whole.is_within(taken.whole) {
            return others;
        }
        others.difference(self.storing_same(others, place, source))
    }

    /// Whether the byte reads of a read from a place on have sources in their domains with which the read, with what it took before, is
    /// not torn and its guards are true.
    fn fills_on(&self, domains: &Domains, read: u8, place: usize, taken: Taken) -> bool
        requires is_box { IsBox (box_with self.now domains.now) }
        requires some { ¬ HasEmptyDomain (box_with self.now domains.now) }
        requires room { HasRoom (events_on self.now) read place taken }
        ensures { IsTrue result ↔ CanFillOn (box_with self.now domains.now) read place (HasEvent taken.whole) taken.value taken.bytes }
    {
        if !self.is_of(read, place) {
            return self.are_guards_true(read, taken.value);
        }
        let mut left = domains[place];
        while let Some((source, others)) = left.split_first() {
            left = others;
            if let Some(next) = self.take(read, place, taken, source) {
                if self.fills_on(domains, read, place + 1, next) {
                    return true;
                }
                left = self.worth_trying(others, place, source, taken, next);
            }
        }
        false
    }

    /// Whether a read can be filled: by sources in the domains of its bytes with which it is tear free (29.7.3) and its guards are true.
    pub(crate) fn can_fill(&self, domains: &Domains, read: u8) -> bool
        requires is_box { IsBox (box_with self.now domains.now) }
        requires some { ¬ HasEmptyDomain (box_with self.now domains.now) }
        requires read { read < length (events_on self.now) }
        ensures { IsTrue result ↔ CanFill (box_with self.now domains.now) read }
    {
        // For the prover: no event has more than four bytes.
        let events = self.events();
        // Nothing tears a read of one byte, whatever its sources are.
        if !self.guarded && event_at(events, usize::from(read)).size == 1 {
            return true;
        }
        self.fills_on(domains, read, self.first_place(read), Taken::nothing())
    }
}
