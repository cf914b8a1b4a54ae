//! Greedy descent to the least solution: each byte read in turn takes its least source that is not refuted.

ghost use Rattle.std.specs.Prelude.{◌≡◌, ℕ, ◌<◌, IsFalse, IsTrue, length};
ghost use Rattle.lit_paths.specs.ByteReads.{byte_reads};
ghost use Rattle.lit_rel.specs.EventSet.{HasEvent};
ghost use Rattle.lit_solve.specs.Completion.{HasSolution};
ghost use Rattle.lit_solve.specs.Given.{HasAlone};
ghost use Rattle.lit_solve.specs.Internal.Descending.{AreAloneBelow, IsLowest, IsLowestAt};
ghost use Rattle.lit_solve.specs.Box.{HasSource, box_with, events_on};
ghost use Rattle.lit_solve.specs.Internal.Frames.{box_of};
ghost use Rattle.lit_solve.specs.Internal.Fixpoint.{IsFixpoint};
ghost use Rattle.lit_solve.specs.Internal.Searching.{HasSolutionIn};

use crate::decided::Decided;
use crate::domains::{Domains, set_of};
use crate::frame::Frame;
use crate::goal::Goal;
use crate::problem::Problem;
use lit_rel::EventSet;

impl Problem<'_> {
    /// Whether a frame whose byte read at a place has sources of a set alone may have a solution, as far as its domains show. If
    /// `complete`, whether it has one, as `solve_part` says.
    fn is_promising(
        &self,
        frame: &Frame,
        goal: Goal,
        complete: bool,
        place: usize,
        set: EventSet,
        leaf: &mut Domains,
    ) -> bool
        requires place { place < length (byte_reads (events_on self.now)) }
        requires fixpoint { IsFixpoint (box_of self.now frame.now) frame.now }
        requires known { IsTrue complete → ((w : ℕ) → HasSource (box_with self.now leaf.old) place w → HasEvent set w)
            → HasSolutionIn (box_of self.now frame.now) goal (box_with self.now leaf.old) }
        ensures found { IsTrue result → IsTrue complete → HasSolutionIn (box_of self.now frame.now) goal (box_with self.now leaf.new) }
        ensures none { IsFalse result → ¬ HasSolution (box_of self.now frame.now) goal }
        ensures same { IsFalse result → leaf.new ≡ leaf.old }
    {
        if complete {
            return self.solve_part(frame, goal, place, set, leaf);
        }
        let mut ordered = frame.happens_before;
        // No other goal asks what all sources order.
        if goal == Goal::Race {
            self.put_all_ordered(frame, &mut ordered);
        }
        match self.prospect(frame, &ordered.rows, goal) {
            Decided::Known(false) => false,
            Decided::Known(true) | Decided::Open(_) => true,
        }
    }

    /// Gives the byte read at a place its least source that is not refuted, or, if `complete`, its least source with a solution; `leaf`
    /// has a solution of the frame then, before and after. Answers whether there is such a source.
    fn take_least(
        &self,
        frame: &mut Frame,
        goal: Goal,
        complete: bool,
        place: usize,
        leaf: &mut Domains,
    ) -> bool
        requires place { place < length (byte_reads (events_on self.now)) }
        requires fixpoint { IsFixpoint (box_of self.now frame.old) frame.old }
        requires known { IsTrue complete → HasSolutionIn (box_of self.now frame.old) goal (box_with self.now leaf.old) }
        ensures fixpoint { IsTrue result → IsFixpoint (box_of self.now frame.new) frame.new }
        ensures alone { IsTrue result → (w : ℕ) × HasAlone (box_of self.now frame.new) place w }
        ensures lowest { IsTrue result → IsLowestAt (box_of self.now frame.old) goal place (box_of self.now frame.new) }
        ensures found { IsTrue result → IsTrue complete → HasSolutionIn (box_of self.now frame.new) goal (box_with self.now leaf.new) }
        ensures none { IsFalse result → ¬ HasSolution (box_of self.now frame.old) goal }
    {
        // For the prover: a combination has few events.
        let _events = self.events();
        let before = *frame;
        let mut left = self.sources_left(&before, place);
        while let Some((source, others)) = left.split_first() {
            let set = set_of(source);
            if self.restrict(frame, place, set)
                && self.is_promising(&*frame, goal, complete, place, set, leaf)
            {
                return true;
            }
            *frame = before;
            left = others;
        }
        false
    }

    /// Gives each byte read in turn its least source that is not refuted, or, if `complete`, its least source with a solution; `leaf` has
    /// a solution of the frame then, before and after. Answers whether each byte read got a source.
    pub(crate) fn descend(
        &self,
        frame: &mut Frame,
        goal: Goal,
        complete: bool,
        leaf: &mut Domains,
    ) -> bool
        requires fixpoint { IsFixpoint (box_of self.now frame.old) frame.old }
        requires known { IsTrue complete → HasSolutionIn (box_of self.now frame.old) goal (box_with self.now leaf.old) }
        ensures fixpoint { IsTrue result → IsFixpoint (box_of self.now frame.new) frame.new }
        ensures alone { IsTrue result → AreAloneBelow (box_of self.now frame.new) (length (byte_reads (events_on self.now))) }
        ensures lowest { IsTrue result → IsLowest (box_of self.now frame.old) goal (box_of self.now frame.new) }
        ensures all { IsTrue complete → IsTrue result }
        ensures found { IsTrue complete → HasSolutionIn (box_of self.now frame.new) goal (box_with self.now leaf.new) }
    {
        for place in 0..self.reads() {
            if let Some(_source) = self.given(&*frame, place) {
                continue;
            }
            if !self.take_least(frame, goal, complete, place, leaf) {
                return false;
            }
        }
        true
    }
}
