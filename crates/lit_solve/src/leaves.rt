//! Leaves of the search: whether a frame at its fixpoint in which no open byte read can force anything has a completion. And possible data
//! races of a frame (ECMA-262, 2024, 29.8 and 29.9).

ghost use Rattle.std.specs.Prelude.{◌↔◌, ℕ, ◌<◌, IfNone, IfSome, IsTrue, length};
ghost use Rattle.lit_paths.specs.ByteReads.{byte_reads};
ghost use Rattle.lit_rel.specs.Racing.{AreApart, HasApartPair, WritesWith};
ghost use Rattle.lit_rel.specs.Rows.{Holds};
ghost use Rattle.lit_solve.specs.Box.{HasEmptyDomain, HasSource, IsBox, box_with, events_on};
ghost use Rattle.lit_solve.specs.Completion.{HasSolution};
ghost use Rattle.lit_solve.specs.Fill.{CanFill, IsLeaf};
ghost use Rattle.lit_solve.specs.declared.goal.Goal.TheVariants.{Any};
ghost use Rattle.lit_solve.specs.Internal.Frames.{IsContained, box_of};
ghost use Rattle.lit_solve.specs.Internal.Independent.{IsLeastOrderOfEach, IsIndependent};
ghost use Rattle.lit_solve.specs.Internal.Leaves.{MayHave, RacesAt, RacesIn};
ghost use Rattle.lit_solve.specs.Internal.Pruning.{HasNoCompletion};
ghost use Rattle.lit_solve.specs.Internal.Fixpoint.{IsFixpoint};

use crate::domains::{Domains, set_of};
use crate::frame::Frame;
use crate::laws::{
    leaves_are_filled_read_by_read, leaves_have_one_order, reads_are_filled_together,
};
use crate::problem::Problem;
use lit_order::Order;
use lit_rel::{Rows, are_apart, has_racing_writes};

impl Problem<'_> {
    /// Whether each event can be filled. One that does not read has no byte to fill.
    pub(crate) fn can_fill_each(&self, domains: &Domains) -> bool
        requires is_box { IsBox (box_with self.now domains.now) }
        requires some { ¬ HasEmptyDomain (box_with self.now domains.now) }
        ensures { IsTrue result ↔ ((r : ℕ) → r < length (events_on self.now) → CanFill (box_with self.now domains.now) r) }
    {
        for read in 0..self.events().len() {
            if !self.can_fill(domains, read as u8) {
                return false;
            }
        }
        true
    }

    /// The least memory-order of the completions of a leaf, or `None` exactly if it has none. Its reads are filled one by one, and each
    /// order of what is given is a memory-order of each completion.
    pub(crate) fn leaf_order(&self, frame: &Frame) -> Option<Order>
        requires fixpoint { IsFixpoint (box_of self.now frame.now) frame.now }
        requires leaf { IsLeaf (box_of self.now frame.now) }
        ensures independent { IfSome result (λ _. IsIndependent (box_of self.now frame.now)) }
        ensures least { IfSome result (λ order. IsLeastOrderOfEach (box_of self.now frame.now) order.items) }
        ensures none { IfNone result (HasNoCompletion (box_of self.now frame.now)) }
    {
        reads_are_filled_together();
        leaves_are_filled_read_by_read();
        leaves_have_one_order();
        if self.has_false_unwritten() {
            return None;
        }
        if !self.can_fill_each(&frame.domains) {
            return None;
        }
        self.least_order(frame)
    }

    /// Whether a leaf has a completion.
    pub(crate) fn has_completion(&self, frame: &Frame) -> bool
        requires fixpoint { IsFixpoint (box_of self.now frame.now) frame.now }
        requires leaf { IsLeaf (box_of self.now frame.now) }
        ensures { IsTrue result ↔ HasSolution (box_of self.now frame.now) Any }
    {
        leaves_are_filled_read_by_read();
        self.leaf_order(frame).is_some()
    }

    /// Whether two events are in a data race where both write a byte or one reads from the other, by a relation that orders events.
    fn are_apart(&self, before: &Rows, first: usize, second: usize) -> bool
        requires first { first < length (events_on self.now) }
        requires second { second < length (events_on self.now) }
        ensures { IsTrue result ↔ AreApart (events_on self.now) (Holds before.now) first second }
    {
        are_apart(self.events(), before, first, second)
    }

    /// Whether two events that write a byte are in a data race, by a relation that orders events.
    fn has_racing_writes(&self, before: &Rows) -> bool
        ensures { IsTrue result ↔ HasApartPair (events_on self.now) (Holds before.now) (WritesWith (events_on self.now)) }
    {
        has_racing_writes(self.events(), before)
    }

    /// Whether the read at a place may have this source of the domain there. With `filling`, only if it can be filled with it.
    fn may_have(&self, frame: &Frame, place: usize, source: usize, filling: bool) -> bool
        requires contained { IsContained (box_of self.now frame.now) frame.now }
        requires place { place < length (byte_reads (events_on self.now)) }
        requires there { HasSource (box_of self.now frame.now) place source }
        ensures { IsTrue result ↔ MayHave (box_of self.now frame.now) filling place source }
    {
        if !filling {
            return true;
        }
        // For the prover: a set has room for each event of a combination.
        let _events = self.events();
        let _reads = self.reads();
        let read = self.byte_read(place).read;
        let mut alone = frame.domains;
        alone[place] = set_of(source);
        self.can_fill(&alone, read)
    }

    /// Whether the read at a place is in a data race with a source that it may have there, by a relation that orders events.
    fn races_at(&self, frame: &Frame, before: &Rows, place: usize, filling: bool) -> bool
        requires place { place < length (byte_reads (events_on self.now)) }
        requires contained { IsContained (box_of self.now frame.now) frame.now }
        ensures { IsTrue result ↔ RacesAt (box_of self.now frame.now) (Holds before.now) (MayHave (box_of self.now frame.now) filling)
            place }
    {
        // For the prover: the place is one of the array of domains.
        let _reads = self.reads();
        let read = usize::from(self.byte_read(place).read);
        let mut left = frame.domains[place];
        while let Some((source, others)) = left.split_first() {
            if self.are_apart(before, read, source)
                && self.may_have(frame, place, source, filling)
            {
                return true;
            }
            left = others;
        }
        false
    }

    /// Whether a frame has a possible data race, by a relation that orders events: of two writes, or of a read and a source in the domain
    /// of its byte. With `filling`, only of a source with which the read can be filled there.
    pub(crate) fn races(&self, frame: &Frame, before: &Rows, filling: bool) -> bool
        requires { IsContained (box_of self.now frame.now) frame.now }
        ensures { IsTrue result ↔ RacesIn (box_of self.now frame.now) (Holds before.now) filling }
    {
        for place in 0..self.reads() {
            if self.races_at(frame, before, place, filling) {
                return true;
            }
        }
        self.has_racing_writes(before)
    }
}
