//! Whether a box has a solution: a backtracking search by propagation and branching.

ghost use Rattle.std.specs.Prelude.{◌≡◌, ◌↔◌, ℕ, ◌<◌, IsFalse, IsTrue, length};
ghost use Rattle.lit_paths.specs.ByteReads.{byte_reads};
ghost use Rattle.lit_paths.specs.Execution.{Execution};
ghost use Rattle.lit_rel.specs.EventSet.{HasEvent};
ghost use Rattle.lit_solve.specs.Box.{HasSource, box_with, events_on};
ghost use Rattle.lit_solve.specs.Completion.{HasSolution, IsCompletion};
ghost use Rattle.lit_solve.specs.Fill.{IsLeaf};
ghost use Rattle.lit_solve.specs.Internal.ConditionValues.{MeetsByOutcome};
ghost use Rattle.lit_solve.specs.Internal.Frames.{box_of};
ghost use Rattle.lit_solve.specs.Internal.Fixpoint.{IsFixpoint};
ghost use Rattle.lit_solve.specs.Internal.Searching.{HasSolutionIn};

use crate::domains::Domains;
use crate::frame::Frame;
use crate::goal::Goal;
use crate::laws::leaves_race_as_reads_are_filled;
use crate::problem::Problem;
use crate::stepping::Step;
use lit_rel::EventSet;

impl Problem<'_> {
    /// Whether a leaf has a solution. Each completion is one, as far as its outcome goes.
    fn is_met(&self, frame: &Frame, goal: Goal) -> bool
        requires fixpoint { IsFixpoint (box_of self.now frame.now) frame.now }
        requires leaf { IsLeaf (box_of self.now frame.now) }
        requires each { (x : Execution) → IsCompletion (box_of self.now frame.now) x
            → MeetsByOutcome (box_of self.now frame.now).test goal x }
        ensures { IsTrue result ↔ HasSolution (box_of self.now frame.now) goal }
    {
        leaves_race_as_reads_are_filled();
        match goal {
            Goal::Any | Goal::OfClass(_) => self.has_completion(frame),
            Goal::Race => {
                self.has_completion(frame) && self.races(frame, &frame.happens_before.rows, true)
            }
        }
    }

    /// This is `solve` for a leaf. It is not inlined: `solve` would clear its room for a frame at each call.
    #[inline(never)]
    fn solve_leaf(&self, frame: &Frame, goal: Goal, leaf: &mut Domains) -> bool
        requires fixpoint { IsFixpoint (box_of self.now frame.now) frame.now }
        requires leaf { IsLeaf (box_of self.now frame.now) }
        requires each { (x : Execution) → IsCompletion (box_of self.now frame.now) x
            → MeetsByOutcome (box_of self.now frame.now).test goal x }
        ensures found { IsTrue result → HasSolutionIn (box_of self.now frame.now) goal (box_with self.now leaf.new) }
        ensures none { IsFalse result → ¬ HasSolution (box_of self.now frame.now) goal }
        ensures same { IsFalse result → leaf.new ≡ leaf.old }
    {
        let met = self.is_met(frame, goal);
        if met {
            *leaf = frame.domains;
        }
        met
    }

    /// Whether a frame has a solution. If it has one, `leaf` becomes the domains of a leaf that has it too.
    pub(crate) fn solve(&self, frame: &Frame, goal: Goal, leaf: &mut Domains) -> bool
        requires { IsFixpoint (box_of self.now frame.now) frame.now }
        ensures found { IsTrue result → HasSolutionIn (box_of self.now frame.now) goal (box_with self.now leaf.new) }
        ensures none { IsFalse result → ¬ HasSolution (box_of self.now frame.now) goal }
        ensures same { IsFalse result → leaf.new ≡ leaf.old }
    {
        let branch = match self.step(frame, goal) {
            Step::Refuted => return false,
            Step::Leaf => return self.solve_leaf(frame, goal, leaf),
            Step::Branched(branch) => branch,
        };
        let mut left = self.sources_left(frame, branch.place);
        while let Some((source, _others)) = left.split_first() {
            let part = self.part(branch, left, source);
            let mut next = *frame;
            if self.restrict(&mut next, branch.place, part) && self.solve(&next, goal, leaf) {
                return true;
            }
            left = left.difference(part);
        }
        false
    }

    /// This is `solve` for a frame whose byte read at a place has sources of a set alone. It needs no search if `leaf` is of a frame
    /// without that restriction and has sources of the set alone there too: its solution is one of this frame (decision 194).
    pub(crate) fn solve_part(
        &self,
        frame: &Frame,
        goal: Goal,
        place: usize,
        set: EventSet,
        leaf: &mut Domains,
    ) -> bool
        requires place { place < length (byte_reads (events_on self.now)) }
        requires fixpoint { IsFixpoint (box_of self.now frame.now) frame.now }
        requires known { ((w : ℕ) → HasSource (box_with self.now leaf.old) place w → HasEvent set w)
            → HasSolutionIn (box_of self.now frame.now) goal (box_with self.now leaf.old) }
        ensures found { IsTrue result → HasSolutionIn (box_of self.now frame.now) goal (box_with self.now leaf.new) }
        ensures none { IsFalse result → ¬ HasSolution (box_of self.now frame.now) goal }
        ensures same { IsFalse result → leaf.new ≡ leaf.old }
    {
        // For the prover: the place is one of the array of domains.
        let _reads = self.reads();
        leaf[place].difference(set).is_empty() || self.solve(frame, goal, leaf)
    }

    /// Whether a frame has a solution.
    pub(crate) fn exists(&self, frame: &Frame, goal: Goal) -> bool
        requires { IsFixpoint (box_of self.now frame.now) frame.now }
        ensures { IsTrue result ↔ HasSolution (box_of self.now frame.now) goal }
    {
        let mut leaf = frame.domains;
        self.solve(frame, goal, &mut leaf)
    }
}
