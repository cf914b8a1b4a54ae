//! Observed values: the outcome that all completions of a box share, or a byte read on which it depends.

ghost use Rattle.std.specs.Prelude.{◌≡◌, ℕ, ◌<◌, MatchBool, length};
ghost use Rattle.lit_paths.specs.ByteReads.{byte_reads};
ghost use Rattle.lit_solve.specs.Box.{HasEmptyDomain, HasSource, IsBox, box_with, events_on};
ghost use Rattle.lit_solve.specs.Prospect.{IsUndecidedAt, IsValueOf};
ghost use Rattle.lit_solve.specs.Internal.ConditionValues.{stored_for};
ghost use Rattle.lit_solve.specs.Internal.Observation.{AreFirstValues, IsObservation, IsValueObserved};

use crate::decided::Decided;
use crate::domains::Domains;
use crate::filling::Taken;
use crate::problem::Problem;
use arrayvec::ArrayVec;
use lit_paths::NAME_LIMIT;
use lit_valid::laws::laws_below;

/// The last values of the first registers of an outcome, in the order of `Plan::names`.
pub(crate) type Values = ArrayVec<u32, NAME_LIMIT>;

impl Problem<'_> {
    /// Whether some source in the domain of the byte read at a place stores another byte than this source.
    pub(crate) fn has_other_byte(&self, domains: &Domains, place: usize, source: usize) -> bool
        requires place { place < length (byte_reads (events_on self.now)) }
        requires is_box { IsBox (box_with self.now domains.now) }
        requires there { HasSource (box_with self.now domains.now) place source }
        ensures { MatchBool result (IsUndecidedAt (box_with self.now domains.now) place)
            ((w : ℕ) → HasSource (box_with self.now domains.now) place w
            → stored_for (box_with self.now domains.now) place w ≡ stored_for (box_with self.now domains.now) place source) }
    {
        // For the prover: the domain has events of the combination alone.
        let _events = self.events();
        let matching = self.storing_same(domains[place], place, source);
        match domains[place].difference(matching).split_first() {
            Some(_other) => true,
            None => false,
        }
    }

    /// What the domains of a box, none of which is empty, say of the value of a read. The read is an event number.
    pub fn read_value(&self, domains: &Domains, read: u8) -> Decided<u32>
        requires read { read < length (events_on self.now) }
        requires is_box { IsBox (box_with self.now domains.now) }
        requires some { ¬ HasEmptyDomain (box_with self.now domains.now) }
        ensures { IsValueOf (box_with self.now domains.now) read result }
    {
        // For the prover: no event has more than four bytes.
        let _events = self.events();
        let mut taken = Taken::nothing();
        let mut place = self.first_place(read);
        'bytes: while self.is_of(read, place) {
            let Some((source, _others)) = domains[place].split_first() else {
                unreachable!()
            };
            if self.has_other_byte(domains, place, source) {
                return Decided::Open(place);
            }
            taken = self.with_byte(place, taken, source);
            place += 1;
        }
        Decided::Known(taken.value)
    }

    /// What the domains of a box say of the value that a register, named by agent and register, has at the end.
    fn register_value(&self, domains: &Domains, name: (u8, u8)) -> Decided<u32>
        requires is_box { IsBox (box_with self.now domains.now) }
        requires some { ¬ HasEmptyDomain (box_with self.now domains.now) }
        ensures { IsValueObserved (box_with self.now domains.now) name result }
    {
        // For the prover: event numbers are small.
        let _events = self.events();
        match self.observed_read(name.0, name.1) {
            Some(read) => self.read_value(domains, read as u8),
            None => Decided::Known(0),
        }
    }

    /// Appends the values of the next registers to the first values of an outcome, as long as all completions share them (decision 31).
    /// Answers the place of a byte read on which the next value depends, or `None` if the outcome is complete.
    pub(crate) fn observe(&self, domains: &Domains, values: &mut Values) -> Option<usize>
        requires is_box { IsBox (box_with self.now domains.now) }
        requires some { ¬ HasEmptyDomain (box_with self.now domains.now) }
        requires first { AreFirstValues (box_with self.now domains.now) values.old.items }
        ensures first { AreFirstValues (box_with self.now domains.now) values.new.items }
        ensures observed { IsObservation (box_with self.now domains.now) values.new.items result }
    {
        // For the prover: an execution's outcome follows from its sources.
        laws_below();
        for i in values.len()..self.names.len() {
            match self.register_value(domains, self.names[i]) {
                Decided::Known(value) => values.push(value),
                Decided::Open(place) => return Some(place),
            }
        }
        None
    }
}
