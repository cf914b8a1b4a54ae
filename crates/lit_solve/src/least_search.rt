//! The least solution of a frame: by greedy descent, and by a complete search where the descent ends at none.

ghost use Rattle.std.specs.Prelude.{◌≡◌, IfSome, IsFalse, IsTrue, MatchOption, length};
ghost use Rattle.lit_paths.specs.ByteReads.{byte_reads};
ghost use Rattle.lit_solve.specs.Box.{IsBox, LiesIn, box_with, events_on};
ghost use Rattle.lit_solve.specs.Completion.{HasSolution, IsLeastSolution};
ghost use Rattle.lit_solve.specs.Internal.Descending.{AreAloneBelow, IsLowest};
ghost use Rattle.lit_solve.specs.Internal.Frames.{box_of};
ghost use Rattle.lit_solve.specs.Internal.Fixpoint.{IsFixpoint};
ghost use Rattle.lit_solve.specs.Internal.Searching.{HasSolutionIn};

use crate::domains::{Domains, only_one};
use crate::frame::Frame;
use crate::goal::Goal;
use crate::laws::leaves_have_one_order;
use crate::problem::Problem;
use lit_order::Order;
use lit_paths::Sources;

/// The least solution: its sources, in the order of the byte reads, and its least memory-order.
#[derive(Drop)]
pub struct Least {
    pub sources: Sources,
    pub order: Order,
}

impl Problem<'_> {
    /// The source of each byte read, where each domain has one.
    pub(crate) fn sources_of(&self, domains: &Domains) -> Sources
        requires is_box { IsBox (box_with self.now domains.now) }
        requires alone { AreAloneBelow (box_with self.now domains.now) (length (byte_reads (events_on self.now))) }
        ensures one_each { length result.items ≡ length (byte_reads (events_on self.now)) }
        ensures within { LiesIn (box_with self.now domains.now) result.items }
    {
        // For the prover: event numbers are small.
        let _events = self.events();
        let mut sources = Sources::new();
        for place in 0..self.reads() {
            if let Some(source) = only_one(domains[place]) {
                sources.push(source as u8);
            }
        }
        sources
    }

    /// Descends to the frame of the least solution, in which each domain has one source. Answers whether there is a solution. `known` has
    /// one.
    fn find_least(&self, frame: &mut Frame, goal: Goal, known: Option<&Domains>) -> bool
        requires fixpoint { IsFixpoint (box_of self.now frame.old) frame.old }
        requires known { IfSome known (λ leaf. HasSolutionIn (box_of self.now frame.old) goal (box_with self.now leaf.now)) }
        ensures fixpoint { IsTrue result → IsFixpoint (box_of self.now frame.new) frame.new }
        ensures alone { IsTrue result → AreAloneBelow (box_of self.now frame.new) (length (byte_reads (events_on self.now))) }
        ensures lowest { IsTrue result → IsLowest (box_of self.now frame.old) goal (box_of self.now frame.new) }
        ensures found { IsTrue result → HasSolution (box_of self.now frame.new) goal }
        ensures none { IsFalse result → ¬ HasSolution (box_of self.now frame.old) goal }
    {
        // The descent changes a copy: if it fails, the complete search starts from the frame.
        let mut down = *frame;
        let mut leaf = frame.domains;
        if self.descend(&mut down, goal, false, &mut leaf) && self.solve(&down, goal, &mut leaf) {
            *frame = down;
            return true;
        }
        // A source that is not refuted may still be in no solution, so that a failed descent proves nothing.
        if let Some(known) = known {
            leaf = *known;
        } else if !self.solve(&*frame, goal, &mut leaf) {
            return false;
        }
        self.descend(frame, goal, true, &mut leaf)
    }

    /// The least solution of a frame, or `None` exactly if there is none. `known` has one.
    pub(crate) fn least(&self, frame: &Frame, goal: Goal, known: Option<&Domains>) -> Option<Least>
        requires fixpoint { IsFixpoint (box_of self.now frame.now) frame.now }
        requires known { IfSome known (λ leaf. HasSolutionIn (box_of self.now frame.now) goal (box_with self.now leaf.now)) }
        ensures { MatchOption result (¬ HasSolution (box_of self.now frame.now) goal)
            (λ least. IsLeastSolution (box_of self.now frame.now) goal least.sources.items least.order.items) }
    {
        leaves_have_one_order();
        // The reads of a leaf take their least sources one by one, without a search.
        if goal == Goal::Any && self.branch(frame).is_none() {
            let order = self.leaf_order(frame)?;
            return Some(Least {
                sources: self.least_filling(&frame.domains),
                order,
            });
        }
        let mut down = *frame;
        if !self.find_least(&mut down, goal, known) {
            return None;
        }
        match self.least_order(&down) {
            Some(order) => Some(Least {
                sources: self.sources_of(&down.domains),
                order,
            }),
            None => None,
        }
    }
}
