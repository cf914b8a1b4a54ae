//! Propagation to a fixed point: given sources force pairs of events, and these prune the domains, until that forces nothing more.

ghost use Rattle.std.specs.Prelude.{◌≤◌, IsFalse, IsTrue};
ghost use Rattle.lit_solve.specs.Internal.Frames.{IsContained, box_of};
ghost use Rattle.lit_solve.specs.Internal.Pruning.{HasNoCompletion, Prunes, size_of};
ghost use Rattle.lit_solve.specs.Internal.Fixpoint.{IsFixpoint};

use crate::frame::Frame;
use crate::laws::refuted_boxes_have_no_completion;
use crate::problem::Problem;
use lit_rel::Between;

impl Problem<'_> {
    /// Derives the relations of a frame from its domains, and prunes the domains by them, until that forces nothing more. Answers
    /// `false` if that refutes the box (decision 123).
    pub(crate) fn propagate(&self, frame: &mut Frame) -> bool
        requires { IsContained (box_of self.now frame.old) frame.old }
        ensures prunes { IsTrue result → Prunes (box_of self.now frame.old) (box_of self.now frame.new) }
        ensures fixpoint { IsTrue result → IsFixpoint (box_of self.now frame.new) frame.new }
        ensures size { IsTrue result → size_of frame.new.domains ≤ size_of frame.old.domains }
        ensures none { IsFalse result → HasNoCompletion (box_of self.now frame.old) }
    {
        refuted_boxes_have_no_completion();
        let mut between = Between::new(0);
        'propagation: while self.force(frame, &mut between) {
            let Some(forces) = self.prune(frame) else {
                return false;
            };
            if !forces {
                return true;
            }
        }
        false
    }
}
