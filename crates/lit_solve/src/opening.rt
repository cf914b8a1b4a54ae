//! How a search gets frames: it opens one for a box, and cuts a domain of one at each branch.

ghost use Rattle.std.specs.Prelude.{◌≡◌, ◌↔◌, ℕ, ◌<◌, IfNone, IfSome, IsFalse, IsTrue, length};
ghost use Rattle.lit_paths.specs.ByteReads.{byte_reads};
ghost use Rattle.lit_paths.specs.Execution.{Execution};
ghost use Rattle.lit_rel.specs.EventSet.{HasEvent};
ghost use Rattle.lit_solve.specs.Box.{HasEmptyDomain, HasSource, IsBox, box_with, events_on};
ghost use Rattle.lit_solve.specs.Completion.{IsCompletion};
ghost use Rattle.lit_solve.specs.Internal.Frames.{IsContained, box_of};
ghost use Rattle.lit_solve.specs.Internal.Pruning.{HasNoCompletion, Prunes, size_of};
ghost use Rattle.lit_solve.specs.Internal.Fixpoint.{IsRestricted, IsFixpoint, TakesFrom};

use crate::domains::Domains;
use crate::frame::Frame;
use crate::laws::{
    completions_fill_each_read, completions_have_no_prunable_source,
    refuted_boxes_have_no_completion,
};
use crate::node_consistency::refused_among;
use crate::problem::Problem;
use lit_rel::{EventSet, unsourced_order};

impl Problem<'_> {
    /// A frame of a box without empty domains, before any propagation.
    fn unpropagated(&self, domains: &Domains) -> Frame
        requires is_box { IsBox (box_with self.now domains.now) }
        requires some { ¬ HasEmptyDomain (box_with self.now domains.now) }
        ensures domains { result.domains ≡ domains.now }
        ensures contained { IsContained (box_of self.now result) result }
    {
        let before = unsourced_order(self.events());
        Frame {
            happens_before: before,
            forced: before,
            domains: *domains,
        }
    }

    /// The domains without the sources that a guard refuses: they are node consistent. `None` if that leaves one empty.
    fn consistent(&self, domains: &Domains) -> Option<Domains>
        requires { IsBox (box_with self.now domains.now) }
        ensures is_box { IfSome result (λ left. IsBox (box_with self.now left)) }
        ensures prunes { IfSome result (λ left. Prunes (box_with self.now domains.now) (box_with self.now left)) }
        ensures some { IfSome result (λ left. ¬ HasEmptyDomain (box_with self.now left)) }
        ensures none { IfNone result (HasNoCompletion (box_with self.now domains.now)) }
    {
        completions_have_no_prunable_source();
        refuted_boxes_have_no_completion();
        let mut left = *domains;
        for place in 0..self.reads() {
            // Most combinations are refuted here, by a guard that no source of its read meets: only the domains so far are looked at.
            left[place] = left[place].difference(refused_among(
                &self.combination,
                place,
                left[place],
            ));
            if left[place].is_empty() {
                return None;
            }
        }
        Some(left)
    }

    /// The frame of a box without empty domains, pruned and propagated until nothing more is forced. `None` if that refutes the box.
    /// It is not inlined: `fixpoint` mostly ends before it, and would clear its room for frames at each call.
    #[inline(never)]
    fn propagated(&self, domains: &Domains) -> Option<Frame>
        requires is_box { IsBox (box_with self.now domains.now) }
        requires some { ¬ HasEmptyDomain (box_with self.now domains.now) }
        ensures fixpoint { IfSome result (λ frame. IsFixpoint (box_of self.now frame) frame) }
        ensures prunes { IfSome result (λ frame. Prunes (box_with self.now domains.now) (box_of self.now frame)) }
        ensures none { IfNone result (HasNoCompletion (box_with self.now domains.now)) }
    {
        completions_fill_each_read();
        let mut frame = self.unpropagated(domains);
        if self.propagate(&mut frame) && self.can_fill_each(&frame.domains) {
            Some(frame)
        } else {
            None
        }
    }

    /// The frame of a box, node consistent and propagated until nothing more is forced. `None` if that refutes the box.
    pub(crate) fn fixpoint(&self, domains: &Domains) -> Option<Frame>
        requires { IsBox (box_with self.now domains.now) }
        ensures fixpoint { IfSome result (λ frame. IsFixpoint (box_of self.now frame) frame) }
        ensures prunes { IfSome result (λ frame. Prunes (box_with self.now domains.now) (box_of self.now frame)) }
        ensures none { IfNone result (HasNoCompletion (box_with self.now domains.now)) }
    {
        refuted_boxes_have_no_completion();
        if self.has_false_unwritten() {
            return None;
        }
        let domains = self.consistent(domains)?;
        self.propagated(&domains)
    }

    /// The sources in the domain of the byte read at a place.
    pub(crate) fn sources_left(&self, frame: &Frame, place: usize) -> EventSet
        requires { place < length (byte_reads (events_on self.now)) }
        ensures { (w : ℕ) → HasEvent result w ↔ HasSource (box_of self.now frame.now) place w }
    {
        // For the prover: the place is one of the array of domains.
        let _reads = self.reads();
        frame.domains[place]
    }

    /// Restricts the domain of the byte read at a place to a set, and propagates. Answers `false` if that shows that no completion has a
    /// source of the set there. Checks only this read for filling (decision 35).
    pub(crate) fn restrict(&self, frame: &mut Frame, place: usize, set: EventSet) -> bool
        requires place { place < length (byte_reads (events_on self.now)) }
        requires fixpoint { IsFixpoint (box_of self.now frame.old) frame.old }
        ensures fixpoint { IsTrue result → IsFixpoint (box_of self.now frame.new) frame.new }
        ensures restricted { IsTrue result → IsRestricted (box_of self.now frame.old) place set (box_of self.now frame.new) }
        ensures less { IsTrue result → ¬ ((w : ℕ) → HasSource (box_of self.now frame.old) place w → HasEvent set w)
            → size_of frame.new.domains < size_of frame.old.domains }
        ensures none { IsFalse result → (x : Execution) → IsCompletion (box_of self.now frame.old) x → ¬ TakesFrom x place set }
    {
        completions_fill_each_read();
        // For the prover: the place is one of the array of domains.
        let _reads = self.reads();
        let read = self.byte_read(place).read;
        let left = frame.domains[place].intersection(set);
        if left.is_empty() {
            return false;
        }
        frame.domains[place] = left;
        // A source without an effect adds nothing to the relations, so that nothing follows from it but for its own read.
        if self.forces(&*frame, place) && !self.propagate(frame) {
            return false;
        }
        self.can_fill(&frame.domains, read)
    }
}
