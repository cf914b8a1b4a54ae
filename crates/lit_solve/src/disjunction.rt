//! Constructive disjunction: the pairs of happens-before (ECMA-262, 2024, 29.6.6) that all sources in the domains of a frame have in
//! common (decision 187).

ghost use Rattle.std.specs.Prelude.{◌≡◌, ◌⊎◌, ℕ, ◌<◌, IsFalse, IsTrue, length};
ghost use Rattle.lit_paths.specs.ByteReads.{byte_read_at, byte_reads};
ghost use Rattle.lit_paths.specs.Event.{event_at as event_of};
ghost use Rattle.lit_rel.specs.Coherent.{IsCoherentRead};
ghost use Rattle.lit_rel.specs.EventSet.{HasEvent};
ghost use Rattle.lit_rel.specs.Rows.{Holds, rows_len};
ghost use Rattle.lit_rel.specs.SynchronizesWith.{CanSynchronize};
ghost use Rattle.lit_solve.specs.Box.{HasSource, events_on};
ghost use Rattle.lit_solve.specs.Internal.Frames.{IsContained, box_of};
ghost use Rattle.lit_solve.specs.Internal.Leaves.{IsOrderOfBox};
ghost use Rattle.lit_solve.specs.Internal.Pruning.{HasNoCompletion};

use crate::frame::Frame;
use crate::problem::Problem;
use lit_rel::{EventSet, TwoWayRows};
use lit_valid::laws::laws_below;

impl Problem<'_> {
    /// The events that each source in the domain at a place is, or comes after by a relation, if each of them synchronizes with the read:
    /// of these those that the relation does not put before the read.
    fn before_each(&self, frame: &Frame, ordered: &TwoWayRows, place: usize) -> EventSet
        requires place { place < length (byte_reads (events_on self.now)) }
        requires contained { IsContained (box_of self.now frame.now) frame.now }
        requires len { rows_len ordered.now.rows ≡ length (events_on self.now) }
        ensures known { (e : ℕ) → HasEvent result e → e < length (events_on self.now) }
        ensures before { (e w : ℕ) → HasEvent result e → HasSource (box_of self.now frame.now) place w
            → CanSynchronize (event_of (events_on self.now) w) (event_of (events_on self.now) (byte_read_at (events_on self.now) place).0)
            × (Holds ordered.now.rows e w ⊎ (e ≡ w)) }
    {
        let read = usize::from(self.byte_read(place).read);
        let there = ordered.converse.successors(read);
        let mut before = EventSet::below(self.events().len()).difference(there);
        let mut left = frame.domains[place];
        if !left.is_within(self.synchronizing(read)) {
            return EventSet::new();
        }
        while let Some((source, others)) = left.split_first() {
            before = before.intersection(ordered.converse.successors(source).with(source));
            if before.is_empty() {
                return before;
            }
            left = others;
        }
        before
    }

    /// Adds the pairs of a byte read to those that all sources order. Answers whether there are any.
    fn put_ordered(&self, frame: &Frame, ordered: &mut TwoWayRows, place: usize) -> bool
        requires place { place < length (byte_reads (events_on self.now)) }
        requires contained { IsContained (box_of self.now frame.now) frame.now }
        requires sound { IsOrderOfBox (box_of self.now frame.now) ordered.old.rows }
        ensures sound { IsOrderOfBox (box_of self.now frame.now) ordered.new.rows }
    {
        let read = usize::from(self.byte_read(place).read);
        let mut left = self.before_each(frame, &*ordered, place);
        let adds = !left.is_empty();
        while let Some((event, others)) = left.split_first() {
            ordered.close_with(event, read);
            left = others;
        }
        adds
    }

    /// Adds the pairs of each byte read once. Answers whether there are any.
    fn put_each_ordered(&self, frame: &Frame, ordered: &mut TwoWayRows) -> bool
        requires contained { IsContained (box_of self.now frame.now) frame.now }
        requires sound { IsOrderOfBox (box_of self.now frame.now) ordered.old.rows }
        ensures sound { IsOrderOfBox (box_of self.now frame.now) ordered.new.rows }
    {
        let mut adds = false;
        for place in 0..self.reads() {
            adds |= self.put_ordered(frame, ordered, place);
        }
        adds
    }

    /// Adds to a relation that all sources in the domains of a frame order the pairs more that they order. Answers whether there are any. A
    /// pair of one byte read can lead to one of another, so that each pass goes over all of them.
    pub(crate) fn put_all_ordered(&self, frame: &Frame, ordered: &mut TwoWayRows) -> bool
        requires contained { IsContained (box_of self.now frame.now) frame.now }
        requires sound { IsOrderOfBox (box_of self.now frame.now) ordered.old.rows }
        ensures { IsOrderOfBox (box_of self.now frame.now) ordered.new.rows }
    {
        if !self.put_each_ordered(frame, ordered) {
            return false;
        }
        for _pass in 0..self.reads() {
            if !self.put_each_ordered(frame, ordered) {
                return true;
            }
        }
        true
    }

    /// Whether a source in the domain at a place is coherent for its read, by an acyclic relation.
    fn has_coherent(&self, frame: &Frame, before: &TwoWayRows, place: usize) -> bool
        requires place { place < length (byte_reads (events_on self.now)) }
        requires contained { IsContained (box_of self.now frame.now) frame.now }
        requires len { rows_len before.now.rows ≡ length (events_on self.now) }
        requires acyclic { (e : ℕ) → ¬ Holds before.now.rows e e }
        ensures { IsFalse result → (w : ℕ) → HasSource (box_of self.now frame.now) place w
            → ¬ IsCoherentRead (events_on self.now) (Holds before.now.rows) (byte_read_at (events_on self.now) place).0
            (byte_read_at (events_on self.now) place).1 w }
    {
        // For the prover: a combination has few events.
        let _events = self.events();
        let mut left = self.sources_left(frame, place);
        while let Some((source, others)) = left.split_first() {
            if self.is_coherent(before, place, source) {
                return true;
            }
            left = others;
        }
        false
    }

    /// Whether a relation that all sources in the domains of a frame order shows that the frame is infeasible: the relation has a cycle,
    /// or no source of some byte read is coherent.
    pub(crate) fn is_disordered(&self, frame: &Frame, ordered: &TwoWayRows) -> bool
        requires contained { IsContained (box_of self.now frame.now) frame.now }
        requires sound { IsOrderOfBox (box_of self.now frame.now) ordered.now.rows }
        ensures { IsTrue result → HasNoCompletion (box_of self.now frame.now) }
    {
        laws_below();
        if ordered.rows.has_cycle() {
            return true;
        }
        for place in 0..self.reads() {
            if !self.has_coherent(frame, ordered, place) {
                return true;
            }
        }
        false
    }
}
