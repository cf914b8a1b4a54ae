//! All outcomes of a frame, by backtracking: first by the values of observed byte reads, and where some of these are of no execution, by
//! sources.

ghost use Rattle.std.specs.Prelude.{◌≡◌, ℕ, ◌<◌, IfOk, IfSome, IsFalse, IsSome, IsTrue, OnOk, length};
ghost use Rattle.lit_paths.specs.ByteReads.{byte_read_at, byte_reads};
ghost use Rattle.lit_paths.specs.Execution.{Execution, execution_outcome};
ghost use Rattle.lit_rel.specs.EventSet.{HasEvent};
ghost use Rattle.lit_solve.specs.Box.{HasSource, box_with, events_on};
ghost use Rattle.lit_solve.specs.Completion.{IsCompletion};
ghost use Rattle.lit_solve.specs.Fill.{IsLeaf};
ghost use Rattle.lit_solve.specs.Prospect.{IsUndecidedAt};
ghost use Rattle.lit_solve.specs.declared.goal.Goal.TheVariants.{Any};
ghost use Rattle.lit_solve.specs.Internal.Frames.{box_of};
ghost use Rattle.lit_solve.specs.Internal.Pruning.{HasNoCompletion};
ghost use Rattle.lit_solve.specs.Internal.Observation.{AreFirstValues, IsObservation, IsObservedAt};
ghost use Rattle.lit_solve.specs.Internal.Fixpoint.{IsFixpoint};
ghost use Rattle.lit_solve.specs.Internal.Searching.{HasSolutionIn};
ghost use Rattle.lit_solve.specs.Outcomes.{AddsEntries, HasEachOutcome};

use crate::domains::Domains;
use crate::frame::Frame;
use crate::goal::Goal;
use crate::heartbeat::Heartbeat;
use crate::numbering::number_of;
use crate::observation::Values;
use crate::problem::Problem;
use crate::table::OutcomeTable;
use lit_rel::EventSet;
use lit_valid::laws::laws_below;
use std::alloc::{AllocError, Global};

/// What a search by values ends at behind a frame of which it found that it has no completion, or did not.
fn end_at(none: bool, gives_up: bool) -> Option<bool>
    ensures { IsFalse gives_up → IsSome result }
{
    if gives_up && none {
        return None;
    }
    Some(none)
}

impl Problem<'_> {
    /// A byte read of a read that can force something and whose sources store several bytes.
    fn forcing_byte(&self, frame: &Frame, read: u8) -> Option<usize>
        requires read { read < length (events_on self.now) }
        requires fixpoint { IsFixpoint (box_of self.now frame.now) frame.now }
        ensures { IfSome result (λ k. (k < length (byte_reads (events_on self.now))) × IsUndecidedAt (box_of self.now frame.now) k
            × ((byte_read_at (events_on self.now) k).0 ≡ read)) }
    {
        let mut place = self.first_place(read);
        'bytes: while self.is_of(read, place) {
            let Some((source, _others)) = frame.domains[place].split_first() else {
                return None;
            };
            if self.can_force(frame, place) && self.has_other_byte(&frame.domains, place, source) {
                return Some(place);
            }
            place += 1;
        }
        None
    }

    /// A byte read that one of the registers from `first` on observes, that can force something, and whose sources store several bytes.
    fn forcing_observed(&self, frame: &Frame, first: usize) -> Option<usize>
        requires { IsFixpoint (box_of self.now frame.now) frame.now }
        ensures { IfSome result (λ k. (k < length (byte_reads (events_on self.now))) × IsUndecidedAt (box_of self.now frame.now) k
            × IsObservedAt (box_of self.now frame.now) k) }
    {
        // For the prover: a combination has few events.
        let _events = self.events();
        for i in first..self.names.len() {
            let name = self.names[i];
            if let Some(read) = self.observed_read(name.0, name.1) {
                if let Some(place) = self.forcing_byte(frame, read as u8) {
                    return Some(place);
                }
            }
        }
        None
    }

    /// As `observe`, but it prefers an observed byte read that can force something (decision 32).
    fn next_observed(&self, frame: &Frame, values: &mut Values) -> Option<usize>
        requires fixpoint { IsFixpoint (box_of self.now frame.now) frame.now }
        requires first { AreFirstValues (box_of self.now frame.now) values.old.items }
        ensures first { AreFirstValues (box_of self.now frame.now) values.new.items }
        ensures observed { IsObservation (box_of self.now frame.now) values.new.items result }
    {
        let open = self.observe(&frame.domains, values)?;
        // The values of the registers before are decided.
        Some(self.forcing_observed(frame, values.len()).unwrap_or(open))
    }

    /// Records the one outcome of a frame, if the table lacks it and the frame has a completion. Answers whether it found that the frame
    /// has none, or whether one is known where the table had the outcome. `known` has a completion of the frame.
    pub(crate) fn record<T: OutcomeTable>(
        &self,
        frame: &Frame,
        outcome: &[u32],
        known: Option<&Domains>,
        table: &mut T,
    ) -> Result<bool, AllocError>
        requires fixpoint { IsFixpoint (box_of self.now frame.now) frame.now }
        requires same { (x : Execution) → IsCompletion (box_of self.now frame.now) x → execution_outcome self.now.0 x ≡ outcome.now }
        requires known { IfSome known (λ leaf. HasSolutionIn (box_of self.now frame.now) Any (box_with self.now leaf.now)) }
        ensures added { AddsEntries (box_of self.now frame.now) (T.entries table.old) (T.entries table.new) }
        ensures whole { OnOk result (HasEachOutcome (box_of self.now frame.now) (T.entries table.new)) }
    {
        if table.has(outcome) {
            return Ok(known.is_some());
        }
        let Some(least) = self.least(frame, Goal::Any, known) else {
            return Ok(true);
        };
        let choice = number_of(&self.combination, least.sources.as_slice());
        table.record(outcome, choice, least.order)?;
        Ok(false)
    }

    /// Records the outcomes of a leaf that the table lacks. Answers whether it has none.
    fn leaf_outcomes<T: OutcomeTable, H: Heartbeat>(
        &self,
        alloc: Global,
        frame: &Frame,
        table: &mut T,
        heartbeat: &H,
    ) -> Result<bool, AllocError>
        requires fixpoint { IsFixpoint (box_of self.now frame.now) frame.now }
        requires leaf { IsLeaf (box_of self.now frame.now) }
        ensures added { AddsEntries (box_of self.now frame.now) (T.entries table.old) (T.entries table.new) }
        ensures whole { OnOk result (HasEachOutcome (box_of self.now frame.now) (T.entries table.new)) }
    {
        let Some(order) = self.leaf_order(frame) else {
            return Ok(true);
        };
        self.product_outcomes(alloc, &frame.domains, &order, table, heartbeat)?;
        Ok(false)
    }

    /// Whether a frame whose byte read at a place has sources of a group alone may have a completion. Only behind a dead end it finds out
    /// whether it has one; `leaf` gets it then. `known` has a completion of the frame without that restriction.
    fn may_complete(
        &self,
        frame: &Frame,
        dead_end: bool,
        place: usize,
        group: EventSet,
        known: Option<&Domains>,
        leaf: &mut Domains,
    ) -> bool
        requires place { place < length (byte_reads (events_on self.now)) }
        requires fixpoint { IsFixpoint (box_of self.now frame.now) frame.now }
        requires known { IfSome known (λ leaf. ((w : ℕ) → HasSource (box_with self.now leaf.now) place w → HasEvent group w)
            → HasSolutionIn (box_of self.now frame.now) Any (box_with self.now leaf.now)) }
        ensures found { IsTrue result → IsTrue dead_end → HasSolutionIn (box_of self.now frame.now) Any (box_with self.now leaf.new) }
        ensures none { IsFalse result → HasNoCompletion (box_of self.now frame.now) }
    {
        if !dead_end {
            return true;
        }
        if let Some(known) = known {
            *leaf = *known;
            return self.solve_part(frame, Goal::Any, place, group, leaf);
        }
        self.solve(frame, Goal::Any, leaf)
    }

    /// Records the outcomes of a frame that the table lacks, by a search that branches on the values of observed byte reads. `values` are
    /// the first of each outcome. Answers what it ended at: `None` where it gave up, which it does only if told to, at a frame that has
    /// no completion; else whether the last frame had none. While that is so it descends only into frames with a completion, and so it
    /// does from the beginning if it is given one: `known` has a completion of the frame.
    fn outcomes_by_values<T: OutcomeTable, H: Heartbeat>(
        &self,
        alloc: Global,
        frame: &Frame,
        values: &Values,
        known: Option<&Domains>,
        gives_up: bool,
        table: &mut T,
        heartbeat: &H,
    ) -> Result<Option<bool>, AllocError>
        requires fixpoint { IsFixpoint (box_of self.now frame.now) frame.now }
        requires first { AreFirstValues (box_of self.now frame.now) values.now.items }
        requires known { IfSome known (λ leaf. HasSolutionIn (box_of self.now frame.now) Any (box_with self.now leaf.now)) }
        ensures added { AddsEntries (box_of self.now frame.now) (T.entries table.old) (T.entries table.new) }
        ensures whole { IfOk result (λ end. IsSome end → HasEachOutcome (box_of self.now frame.now) (T.entries table.new)) }
        ensures ends { IsFalse gives_up → IfOk result IsSome }
    {
        // For the prover: an execution's outcome follows from its sources.
        laws_below();
        heartbeat.beat()?;
        let mut values = values.clone()?;
        let Some(place) = self.next_observed(frame, &mut values) else {
            let none = self.record(frame, values.as_slice(), known, table)?;
            return Ok(end_at(none, gives_up));
        };
        let Some(_branch) = self.branch(frame) else {
            let none = self.leaf_outcomes(alloc, frame, table, heartbeat)?;
            return Ok(end_at(none, gives_up));
        };
        // For the prover: a combination has few events.
        let _events = self.events();
        let all = self.sources_left(frame, place);
        let mut left = all;
        let mut dead_end = known.is_some();
        let mut leaf = frame.domains;
        while let Some((source, _others)) = left.split_first() {
            let group = self.storing_same(all, place, source);
            let mut next = *frame;
            // To refute an outcome takes long, and the next ones are mostly infeasible too: one search for any completion costs less.
            if self.restrict(&mut next, place, group)
                && self.may_complete(&next, dead_end, place, group, known, &mut leaf)
            {
                let found = if dead_end { Some(&leaf) } else { None };
                let end = self.outcomes_by_values(
                    alloc, &next, &values, found, gives_up, table, heartbeat,
                )?;
                let Some(none) = end else {
                    return Ok(None);
                };
                dead_end = none;
            }
            left = left.difference(group);
        }
        Ok(Some(dead_end))
    }

    /// Records the outcomes of a frame that the table lacks (decision 189).
    pub(crate) fn outcomes<T: OutcomeTable, H: Heartbeat>(
        &self,
        alloc: Global,
        frame: &Frame,
        table: &mut T,
        heartbeat: &H,
    ) -> Result<(), AllocError>
        requires fixpoint { IsFixpoint (box_of self.now frame.now) frame.now }
        ensures added { AddsEntries (box_of self.now frame.now) (T.entries table.old) (T.entries table.new) }
        ensures whole { OnOk result (HasEachOutcome (box_of self.now frame.now) (T.entries table.new)) }
    {
        let few = self.has_few_ways(frame);
        match self.outcomes_by_values(alloc, frame, &Values::new(), None, few, table, heartbeat)? {
            Some(_) => Ok(()),
            None => self.outcomes_by_sources(frame, frame, table, heartbeat),
        }
    }
}
