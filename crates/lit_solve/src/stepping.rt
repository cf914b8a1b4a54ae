//! The step of the search at a frame: refute it, treat it as a leaf, or branch on a variable.

ghost use Rattle.std.specs.Prelude.{◌<◌, ℕ, [], length};
ghost use Rattle.lit_paths.specs.ByteReads.{byte_reads};
ghost use Rattle.lit_rel.specs.EventSet.{HasEvent};
ghost use Rattle.lit_solve.specs.Internal.ConditionValues.{IsProspect};
ghost use Rattle.lit_solve.specs.Box.{box_with, events_on};
ghost use Rattle.lit_solve.specs.Internal.Frames.{box_of};
ghost use Rattle.lit_solve.specs.Internal.Leaves.{IsOrderOfBox};
ghost use Rattle.lit_solve.specs.Internal.Searching.{GoesWith, IsStep};
ghost use Rattle.lit_solve.specs.Internal.Fixpoint.{IsFixpoint};

use crate::decided::Decided;
use crate::domains::set_of;
use crate::frame::Frame;
use crate::goal::Goal;
use crate::laws::boxes_bound_races;
use crate::problem::Problem;
use lit_rel::{EventSet, Rows};
use lit_valid::laws::laws_below;

/// A byte read on whose domain the search branches.
#[derive(Clone, Copy, Debug, PartialEq, Eq)]
pub(crate) struct Branch {
    /// The byte read's place.
    pub place: usize,
    /// Whether sources that store the same byte stay together in one part of the domain.
    pub by_value: bool,
}

/// What the search does at a frame.
#[derive(Clone, Copy, Debug, PartialEq, Eq)]
pub(crate) enum Step {
    /// It backtracks: no completion meets the goal.
    Refuted,
    /// The frame is a leaf, and each completion meets the goal as far as its outcome goes.
    Leaf,
    /// It branches on the domain of a byte read.
    Branched(Branch),
}

impl Problem<'_> {
    /// What a frame says of a goal before the search branches. All sources in its domains order the pairs of `ordered`.
    pub(crate) fn prospect(&self, frame: &Frame, ordered: &Rows, goal: Goal) -> Decided<bool>
        requires fixpoint { IsFixpoint (box_of self.now frame.now) frame.now }
        requires sound { IsOrderOfBox (box_of self.now frame.now) ordered.now }
        ensures { IsProspect (box_of self.now frame.now) goal result }
    {
        // For the prover: an execution's outcome follows from its sources.
        laws_below();
        boxes_bound_races();
        match goal {
            Goal::Any => Decided::Known(true),
            Goal::OfClass(class) => self.prospect_of(&frame.domains, class),
            Goal::Race => Decided::Known(self.races(frame, ordered, false)),
        }
    }

    /// The search's step at a frame. It branches first on what decides the goal (decision 27). It is not inlined: `exists` would clear
    /// its room for a frame at each call.
    #[inline(never)]
    pub(crate) fn step(&self, frame: &Frame, goal: Goal) -> Step
        requires { IsFixpoint (box_of self.now frame.now) frame.now }
        ensures { IsStep (box_of self.now frame.now) goal result }
    {
        let mut ordered = frame.happens_before;
        if self.put_all_ordered(frame, &mut ordered) && self.is_disordered(frame, &ordered) {
            return Step::Refuted;
        }
        match self.prospect(frame, &ordered.rows, goal) {
            Decided::Known(false) => Step::Refuted,
            Decided::Open(place) => Step::Branched(Branch {
                place,
                by_value: true,
            }),
            Decided::Known(true) => match self.branch(frame) {
                Some(place) => Step::Branched(Branch {
                    place,
                    by_value: false,
                }),
                None => Step::Leaf,
            },
        }
    }

    /// The part of a set of sources that a branch searches together with one of them.
    pub(crate) fn part(&self, branch: Branch, among: EventSet, source: usize) -> EventSet
        requires place { branch.place < length (byte_reads (events_on self.now)) }
        requires known { (w : ℕ) → HasEvent among w → w < length (events_on self.now) }
        requires there { HasEvent among source }
        ensures there { HasEvent result source }
        ensures within { (w : ℕ) → HasEvent result w → HasEvent among w }
        ensures apart { (w : ℕ) → HasEvent result w → GoesWith (box_with self.now []) branch source w }
    {
        if branch.by_value {
            self.storing_same(among, branch.place, source)
        } else {
            // For the prover: a set has room for each event of a combination.
            let _events = self.events();
            set_of(source)
        }
    }
}
