//! Forcing: the least relation that each memory-order of each completion respects, from the byte reads that have one source.

ghost use Rattle.std.specs.Prelude.{◌≡◌, ◌⊎◌, ◌↔◌, ℕ, ◌+◌, ◌<◌, ◌≤◌, IsFalse, IsTrue, MatchOption, Some, length, slice_get};
ghost use Rattle.lit_paths.specs.ByteReads.{byte_reads};
ghost use Rattle.lit_paths.specs.declared.limits.TheConstants.{BYTE_READ_LIMIT, EVENT_LIMIT};
ghost use Rattle.lit_paths.specs.Event.{event_at as event_of};
ghost use Rattle.lit_rel.specs.Between.{Forbids};
ghost use Rattle.lit_rel.specs.EventSet.{HasEvent};
ghost use Rattle.lit_rel.specs.Forbidden.{IsForbiddenBetween};
ghost use Rattle.lit_rel.specs.Peers.{IsSeqCstWrite};
ghost use Rattle.lit_rel.specs.Rows.{Holds};
ghost use Rattle.lit_rel.specs.SynchronizesWith.{CanSynchronize};
ghost use Rattle.lit_order.specs.Forcing.{HasForcedCycle};
ghost use Rattle.lit_solve.specs.Fill.{HasEffect};
ghost use Rattle.lit_solve.specs.Given.{HappensBeforeIn, HasAlone, IsForbiddenIn};
ghost use Rattle.lit_solve.specs.Box.{events_on};
ghost use Rattle.lit_solve.specs.Internal.Frames.{IsContained, IsForbiddenAt, IsSynchronizedAt, IsUnsettled, box_of};
ghost use Rattle.lit_solve.specs.Internal.Fixpoint.{IsFixpointBelow};

use crate::domains::only_one;
use crate::frame::Frame;
use crate::problem::Problem;
use lit_order::force;
use lit_paths::event_at;
use lit_rel::{Between, EventSet, can_synchronize, others_between};

impl Problem<'_> {
    /// The only source in the domain of the byte read at a place; `None` if there are several.
    pub(crate) fn given(&self, frame: &Frame, place: usize) -> Option<usize>
        requires place { place < length (byte_reads (events_on self.now)) }
        requires contained { IsContained (box_of self.now frame.now) frame.now }
        ensures { MatchOption result ((w : ℕ) → ¬ HasAlone (box_of self.now frame.now) place w)
            (λ w. HasAlone (box_of self.now frame.now) place w × (w < length (events_on self.now)) × (w < EVENT_LIMIT)) }
    {
        // For the prover: the source is an event of the combination, which has few.
        let _read = self.byte_read(place);
        let _events = self.events();
        let source = only_one(frame.domains[place])?;
        Some(source)
    }

    /// Whether the byte read at a place has one source left, and this can force something.
    pub(crate) fn forces(&self, frame: &Frame, place: usize) -> bool
        requires place { place < length (byte_reads (events_on self.now)) }
        requires contained { IsContained (box_of self.now frame.now) frame.now }
        ensures { IsFalse result → (r b w : ℕ) → slice_get (byte_reads (events_on self.now)) place ≡ Some (r, b)
            → HasAlone (box_of self.now frame.now) place w → ¬ HasEffect (events_on self.now) w r }
    {
        let read = usize::from(self.byte_read(place).read);
        match self.given(frame, place) {
            Some(source) => self.has_effect(source, read),
            None => false,
        }
    }

    /// Whether an event synchronizes with another that reads from it. Both are event numbers.
    pub(crate) fn can_synchronize(&self, source: usize, read: usize) -> bool
        requires source { source < length (events_on self.now) }
        requires read { read < length (events_on self.now) }
        ensures { IsTrue result ↔ CanSynchronize (event_of (events_on self.now) source) (event_of (events_on self.now) read) }
    {
        let events = self.events();
        can_synchronize(event_at(events, source), event_at(events, read))
    }

    /// The events that synchronize with a read that reads from them. It is given by its number.
    pub(crate) fn synchronizing(&self, read: usize) -> EventSet
        requires { read < length (events_on self.now) }
        ensures { (w : ℕ) → HasEvent result w ↔ (IsSeqCstWrite (events_on self.now) w
            × CanSynchronize (event_of (events_on self.now) w) (event_of (events_on self.now) read)) }
    {
        if event_at(self.events(), read).is_seq_cst() {
            self.peers.successors(read)
        } else {
            EventSet::new()
        }
    }

    /// Adds to happens-before that the given source of a byte read comes before its read, if the two synchronize.
    fn put_synchronized(&self, frame: &mut Frame, place: usize)
        requires place { place < length (byte_reads (events_on self.now)) }
        requires contained { IsContained (box_of self.now frame.old) frame.old }
        ensures domains { frame.new.domains ≡ frame.old.domains }
        ensures contained { IsContained (box_of self.now frame.new) frame.new }
        ensures there { IsSynchronizedAt (box_of self.now frame.new) (Holds frame.new.happens_before.rows) place }
        ensures grows { (a d : ℕ) → Holds frame.old.happens_before.rows a d → Holds frame.new.happens_before.rows a d }
    {
        let read = self.byte_read(place).read as usize;
        let Some(source) = self.given(&*frame, place) else {
            return;
        };
        // To close a relation costs a pass over all rows: a pair that it has needs none.
        if frame.happens_before.rows.holds(source, read) {
            return;
        }
        if !self.can_synchronize(source, read) {
            return;
        }
        frame.happens_before.close_with(source, read);
        frame.forced.close_with(source, read);
    }

    /// Makes a frame's happens-before that of its box.
    fn synchronize(&self, frame: &mut Frame)
        requires contained { IsContained (box_of self.now frame.old) frame.old }
        ensures domains { frame.new.domains ≡ frame.old.domains }
        ensures contained { IsContained (box_of self.now frame.new) frame.new }
        ensures exact { (a d : ℕ) → HappensBeforeIn (box_of self.now frame.new) a d → Holds frame.new.happens_before.rows a d }
    {
        for place in 0..self.reads() {
            self.put_synchronized(frame, place);
        }
    }

    /// The events of a set that may not stand between a source and a read in memory-order (29.7.4) if the read has that source, by a
    /// frame's happens-before. Both are event numbers.
    pub(crate) fn others_among(
        &self,
        frame: &Frame,
        source: usize,
        read: usize,
        among: EventSet,
    ) -> EventSet
        requires contained { IsContained (box_of self.now frame.now) frame.now }
        requires source { source < length (events_on self.now) }
        requires read { read < length (events_on self.now) }
        ensures { (v : ℕ) → HasEvent result v ↔ (HasEvent among v × (v < length (events_on self.now))
            × IsForbiddenBetween (events_on self.now) (Holds frame.now.happens_before.rows) source read v) }
    {
        // Each has the range of the source or of the read. Mostly the set has no such event.
        let ranged = self
            .peers
            .successors(source)
            .union(self.peers.successors(read));
        let left = among.intersection(ranged);
        if left.is_empty() {
            return left;
        }
        let events = self.events();
        let (before, peers) = (&frame.happens_before, &self.peers);
        left.intersection(others_between(events, source as u8, read as u8, before, peers))
    }

    /// The events that may not stand between a source and a read if the read has that source, but for those that are forced after the
    /// read or before the source: these force nothing more. Both are event numbers.
    fn unsettled_others(&self, frame: &Frame, source: usize, read: usize) -> EventSet
        requires contained { IsContained (box_of self.now frame.now) frame.now }
        requires source { source < length (events_on self.now) }
        requires read { read < length (events_on self.now) }
        ensures { (v : ℕ) → HasEvent result v ↔ ((v < length (events_on self.now))
            × IsForbiddenBetween (events_on self.now) (Holds frame.now.happens_before.rows) source read v
            × IsUnsettled (Holds frame.now.forced.rows) source read v) }
    {
        let after = frame.forced.rows.successors(read).with(read);
        let earlier = frame.forced.converse.successors(source).with(source);
        let unsettled = EventSet::below(self.events().len()).difference(after.union(earlier));
        self.others_among(frame, source, read, unsettled)
    }

    /// Adds the forbidden triples of the given source of a byte read, if it has one, that may force something.
    fn forbid(&self, frame: &Frame, between: &mut Between, place: usize)
        requires place { place < length (byte_reads (events_on self.now)) }
        requires contained { IsContained (box_of self.now frame.now) frame.now }
        requires exact { (a d : ℕ) → HappensBeforeIn (box_of self.now frame.now) a d → Holds frame.now.happens_before.rows a d }
        requires len { between.old.len ≡ length (events_on self.now) }
        requires room { length between.old.pairs < BYTE_READ_LIMIT }
        ensures len { between.new.len ≡ between.old.len }
        ensures count { length between.new.pairs ≤ length between.old.pairs + 1 }
        ensures triples { (w r v : ℕ) → Forbids between.new w r v
            ↔ (Forbids between.old w r v ⊎ (IsForbiddenAt (box_of self.now frame.now) place w r v
            × IsUnsettled (Holds frame.now.forced.rows) w r v)) }
    {
        let read = self.byte_read(place).read;
        let Some(source) = self.given(frame, place) else {
            return;
        };
        let others = self.unsettled_others(frame, source, read as usize);
        if !others.is_empty() {
            between.forbid(source as u8, read, others);
        }
    }

    /// Overwrites `between` with the forbidden triples of all given sources that may force something: what is forced settles the others.
    pub(crate) fn put_between(&self, frame: &Frame, between: &mut Between)
        requires contained { IsContained (box_of self.now frame.now) frame.now }
        requires exact { (a d : ℕ) → HappensBeforeIn (box_of self.now frame.now) a d → Holds frame.now.happens_before.rows a d }
        ensures len { between.new.len ≡ length (events_on self.now) }
        ensures triples { (w r v : ℕ) → Forbids between.new w r v
            ↔ (IsForbiddenIn (box_of self.now frame.now) w r v × IsUnsettled (Holds frame.now.forced.rows) w r v) }
    {
        between.begin(self.events().len());
        for place in 0..self.reads() {
            self.forbid(frame, between, place);
        }
    }

    /// Makes the relations of a frame those of its box. Answers `false` if what is forced has a cycle. `between` is room for triples.
    pub(crate) fn force(&self, frame: &mut Frame, between: &mut Between) -> bool
        requires contained { IsContained (box_of self.now frame.old) frame.old }
        ensures domains { frame.new.domains ≡ frame.old.domains }
        ensures fixpoint { IsTrue result → IsFixpointBelow (box_of self.now frame.new) frame.new 0 }
        ensures cycle { IsFalse result → HasForcedCycle (HappensBeforeIn (box_of self.now frame.old))
            (IsForbiddenIn (box_of self.now frame.old)) }
    {
        self.synchronize(frame);
        self.put_between(&*frame, between);
        force(&mut frame.forced, &*between)
    }
}
