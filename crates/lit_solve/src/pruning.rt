//! Pruning: sources that no completion has, by the relations of a frame, are removed from its domains.

ghost use Rattle.std.specs.Prelude.{◌≡◌, ◌≢◌, ◌↔◌, ℕ, ◌+◌, ◌<◌, ◌≤◌, IfNone, IfSome, IsFalse, IsTrue, length};
ghost use Rattle.lit_paths.specs.ByteReads.{byte_read_at, byte_reads};
ghost use Rattle.lit_paths.specs.Event.{event_at as event_of};
ghost use Rattle.lit_rel.specs.Coherent.{IsCoherentRead};
ghost use Rattle.lit_rel.specs.EventSet.{HasEvent};
ghost use Rattle.lit_rel.specs.Forbidden.{IsForbiddenBetween};
ghost use Rattle.lit_rel.specs.Rows.{Holds, rows_len};
ghost use Rattle.lit_rel.specs.TearFree.{CanReadWhole, ReadsWholeBy};
ghost use Rattle.lit_solve.specs.Box.{HasSource, events_on};
ghost use Rattle.lit_solve.specs.Given.{GivenIn, HasAlone};
ghost use Rattle.lit_solve.specs.Prunable.{IsPrunable};
ghost use Rattle.lit_solve.specs.Internal.Frames.{IsContained, box_of};
ghost use Rattle.lit_solve.specs.Internal.Pruning.{HasNoCompletion, Prunes, size_of};
ghost use Rattle.lit_solve.specs.Internal.Fixpoint.{IsFixpoint, IsFixpointBelow};

use crate::domains::set_of;
use crate::frame::Frame;
use crate::laws::completions_have_no_prunable_source;
use crate::problem::Problem;
use lit_paths::event_at;
use lit_rel::{EventSet, TwoWayRows, can_read_whole};

impl Problem<'_> {
    /// Whether the byte read at a place is coherent (29.7.2) with a source, by an acyclic relation that orders the events. The source is an
    /// event number.
    pub(crate) fn is_coherent(&self, before: &TwoWayRows, place: usize, source: usize) -> bool
        requires place { place < length (byte_reads (events_on self.now)) }
        requires source { source < length (events_on self.now) }
        requires len { rows_len before.now.rows ≡ length (events_on self.now) }
        requires acyclic { (e : ℕ) → ¬ Holds before.now.rows e e }
        ensures { IsTrue result ↔ IsCoherentRead (events_on self.now) (Holds before.now.rows)
            (byte_read_at (events_on self.now) place).0 (byte_read_at (events_on self.now) place).1 source }
    {
        // For the prover: the place is one of the array of candidates.
        let _reads = self.reads();
        let read = usize::from(self.byte_read(place).read);
        let earlier = self.candidates[place].intersection(before.converse.successors(read));
        let hiding = earlier.intersection(before.rows.successors(source));
        hiding.is_empty() && !before.rows.holds(read, source)
    }

    /// Whether an event is forced between a source and a read though it may not stand there if the read has that source.
    fn is_forced_between(&self, frame: &Frame, read: usize, source: usize) -> bool
        requires contained { IsContained (box_of self.now frame.now) frame.now }
        requires read { read < length (events_on self.now) }
        requires source { source < length (events_on self.now) }
        ensures { IsTrue result ↔ ((v : ℕ) × IsForbiddenBetween (events_on self.now) (Holds frame.now.happens_before.rows) source read v
            × Holds frame.now.forced.rows source v × Holds frame.now.forced.rows v read) }
    {
        let after = frame.forced.rows.successors(source);
        let between = after.intersection(frame.forced.converse.successors(read));
        !self.others_among(frame, source, read, between).is_empty()
    }

    /// The given source of a byte read, if its read can read whole from it; else no event.
    fn whole_source(&self, frame: &Frame, place: usize) -> EventSet
        requires place { place < length (byte_reads (events_on self.now)) }
        requires contained { IsContained (box_of self.now frame.now) frame.now }
        ensures { (u : ℕ) → HasEvent result u → HasAlone (box_of self.now frame.now) place u
            × CanReadWhole (event_of (events_on self.now) (byte_read_at (events_on self.now) place).0) (event_of (events_on self.now) u) }
    {
        let events = self.events();
        let read = usize::from(self.byte_read(place).read);
        match self.given(frame, place) {
            Some(source) if can_read_whole(event_at(events, read), event_at(events, source)) => {
                set_of(source)
            }
            _ => EventSet::new(),
        }
    }

    /// The given sources of a read from which it can read whole. The read is that of one of its byte reads. For a read of one byte the
    /// set is empty, since such a read can't be torn.
    fn whole_sources(&self, frame: &Frame, place: usize) -> EventSet
        requires place { place < length (byte_reads (events_on self.now)) }
        requires contained { IsContained (box_of self.now frame.now) frame.now }
        ensures { (u : ℕ) → HasEvent result u → ReadsWholeBy (events_on self.now) (GivenIn (box_of self.now frame.now))
            (byte_read_at (events_on self.now) place).0 u }
    {
        let read = self.byte_read(place).read;
        let mut whole = EventSet::new();
        if event_at(self.events(), usize::from(read)).size == 1 {
            return whole;
        }
        for other in 0..self.reads() {
            if self.byte_read(other).read == read {
                whole = whole.union(self.whole_source(frame, other));
            }
        }
        whole
    }

    /// Whether a source would tear a read that reads whole from each event of `whole`: it could read whole from the source too, and
    /// `whole` has another event.
    fn would_tear(&self, read: usize, source: usize, whole: EventSet) -> bool
        requires read { read < length (events_on self.now) }
        requires source { source < length (events_on self.now) }
        ensures { IsTrue result ↔ (CanReadWhole (event_of (events_on self.now) read) (event_of (events_on self.now) source)
            × ((u : ℕ) × HasEvent whole u × (u ≢ source))) }
    {
        let events = self.events();
        let others = whole.difference(EventSet::new().with(source));
        !others.is_empty() && can_read_whole(event_at(events, read), event_at(events, source))
    }

    /// Whether the frame shows that no completion has this source, which is not forced after it, for the byte read at a place: if not, it
    /// is coherent. `whole` are given sources of the read from which it reads whole. The frame's happens-before is acyclic.
    fn is_prunable(&self, frame: &Frame, place: usize, source: usize, whole: EventSet) -> bool
        requires place { place < length (byte_reads (events_on self.now)) }
        requires source { source < length (events_on self.now) }
        requires contained { IsContained (box_of self.now frame.now) frame.now }
        requires whole { (u : ℕ) → HasEvent whole u → ReadsWholeBy (events_on self.now) (GivenIn (box_of self.now frame.now))
            (byte_read_at (events_on self.now) place).0 u }
        requires acyclic { (e : ℕ) → ¬ Holds frame.now.happens_before.rows e e }
        ensures prunable { IsTrue result → IsPrunable (box_of self.now frame.now) (byte_read_at (events_on self.now) place).0
            (byte_read_at (events_on self.now) place).1 source }
        ensures coherent { IsFalse result → IsCoherentRead (events_on self.now) (Holds frame.now.happens_before.rows)
            (byte_read_at (events_on self.now) place).0 (byte_read_at (events_on self.now) place).1 source }
    {
        let read = usize::from(self.byte_read(place).read);
        !self.is_coherent(&frame.happens_before, place, source)
            || self.is_forced_between(frame, read, source)
            || self.would_tear(read, source, whole)
    }

    /// The events that may have to be pruned where they are sources of a read: those that are forced before it, since only these can be
    /// hidden or have another event forced in between, or all if it reads whole from `whole`.
    fn suspects(&self, frame: &Frame, read: usize, whole: EventSet) -> EventSet
        requires contained { IsContained (box_of self.now frame.now) frame.now }
        requires read { read < length (events_on self.now) }
        ensures { (w : ℕ) → Holds frame.now.forced.rows w read → HasEvent result w }
    {
        if whole.is_empty() {
            frame.forced.converse.successors(read)
        } else {
            EventSet::below(self.events().len())
        }
    }

    /// The sources in the domain of the byte read at a place that can't be pruned. The frame's happens-before is acyclic.
    fn unpruned(&self, frame: &Frame, place: usize) -> EventSet
        requires place { place < length (byte_reads (events_on self.now)) }
        requires contained { IsContained (box_of self.now frame.now) frame.now }
        requires acyclic { (e : ℕ) → ¬ Holds frame.now.happens_before.rows e e }
        ensures within { (w : ℕ) → HasEvent result w → HasSource (box_of self.now frame.now) place w }
        ensures prunable { (w : ℕ) → HasSource (box_of self.now frame.now) place w → ¬ HasEvent result w
            → IsPrunable (box_of self.now frame.now) (byte_read_at (events_on self.now) place).0
            (byte_read_at (events_on self.now) place).1 w }
        ensures coherent { (w : ℕ) → HasEvent result w → IsCoherentRead (events_on self.now) (Holds frame.now.happens_before.rows)
            (byte_read_at (events_on self.now) place).0 (byte_read_at (events_on self.now) place).1 w }
    {
        // For the prover: a set has room for each event of a combination.
        let _events = self.events();
        // A given source is only asked for coherence. It can't be forced later than its read, nor an event that may not stand between
        // the two be forced there, since what is forced has no cycle; and whether the read is torn, its filling tells.
        if let Some(source) = self.given(frame, place) {
            if self.is_coherent(&frame.happens_before, place, source) {
                return set_of(source);
            }
            return EventSet::new();
        }
        let read = usize::from(self.byte_read(place).read);
        let after = frame.forced.rows.successors(read);
        let later = after.intersection(self.synchronizing(read));
        let out = later.union(frame.happens_before.rows.successors(read));
        let open = frame.domains[place].difference(out);
        let whole = self.whole_sources(frame, place);
        let suspects = self.suspects(frame, read, whole);
        let mut left = open.difference(suspects);
        let mut rest = open.intersection(suspects);
        while let Some((source, others)) = rest.split_first() {
            if !self.is_prunable(frame, place, source, whole) {
                left = left.with(source);
            }
            rest = others;
        }
        left
    }

    /// Prunes the domain of the byte read at a place. `None` if that leaves none of its sources; else whether it cut the domain to one
    /// source that can force something. The frame's happens-before is acyclic.
    fn prune_at(&self, frame: &mut Frame, place: usize) -> Option<bool>
        requires place { place < length (byte_reads (events_on self.now)) }
        requires contained { IsContained (box_of self.now frame.old) frame.old }
        requires acyclic { (e : ℕ) → ¬ Holds frame.old.happens_before.rows e e }
        ensures before { frame.new.happens_before ≡ frame.old.happens_before }
        ensures contained { IfSome result (λ _. IsContained (box_of self.now frame.new) frame.new) }
        ensures prunes { IfSome result (λ _. Prunes (box_of self.now frame.old) (box_of self.now frame.new)) }
        ensures fixpoint { IfSome result (λ forces. IsFalse forces → IsFixpointBelow (box_of self.now frame.old) frame.old place
            → IsFixpointBelow (box_of self.now frame.new) frame.new (place + 1)) }
        ensures less { IfSome result (λ forces. IsTrue forces → size_of frame.new.domains < size_of frame.old.domains) }
        ensures size { size_of frame.new.domains ≤ size_of frame.old.domains }
        ensures none { IfNone result (HasNoCompletion (box_of self.now frame.old)) }
    {
        completions_have_no_prunable_source();
        // For the prover: the events lie in the test's block, as the law requires.
        let _events = self.events();
        let left = self.unpruned(&*frame, place);
        if left.is_empty() {
            return None;
        }
        if frame.domains[place].is_within(left) {
            return Some(false);
        }
        frame.domains[place] = left;
        let forces = self.forces(&*frame, place);
        Some(forces)
    }

    /// Prunes each domain once. `None` if that leaves a domain empty; else whether it cut one to a source that can force something.
    pub(crate) fn prune(&self, frame: &mut Frame) -> Option<bool>
        requires { IsFixpointBelow (box_of self.now frame.old) frame.old 0 }
        ensures contained { IfSome result (λ _. IsContained (box_of self.now frame.new) frame.new) }
        ensures prunes { IfSome result (λ _. Prunes (box_of self.now frame.old) (box_of self.now frame.new)) }
        ensures fixpoint { IfSome result (λ forces. IsFalse forces → IsFixpoint (box_of self.now frame.new) frame.new) }
        ensures less { IfSome result (λ forces. IsTrue forces → size_of frame.new.domains < size_of frame.old.domains) }
        ensures size { size_of frame.new.domains ≤ size_of frame.old.domains }
        ensures none { IfNone result (HasNoCompletion (box_of self.now frame.old)) }
    {
        let mut forces = false;
        for place in 0..self.reads() {
            forces |= self.prune_at(frame, place)?;
        }
        Some(forces)
    }
}
