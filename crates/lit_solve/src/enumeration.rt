//! All outcomes of a frame by enumeration: a backtracking search that branches on what can force something first, source by source, so
//! that the values of its leaves are those of executions.

ghost use Rattle.std.specs.Prelude.{◌≡◌, ◌<◌, IfNone, IfSome, IsNone, OnOk, length};
ghost use Rattle.lit_paths.specs.ByteReads.{byte_reads};
ghost use Rattle.lit_paths.specs.Execution.{Execution, execution_outcome};
ghost use Rattle.lit_solve.specs.Box.{IsWithin, box_with, events_on};
ghost use Rattle.lit_solve.specs.Completion.{IsCompletion};
ghost use Rattle.lit_solve.specs.Internal.Frames.{IsContained, box_of};
ghost use Rattle.lit_solve.specs.Internal.Observation.{AreFirstValues};
ghost use Rattle.lit_solve.specs.Internal.Searching.{IsBranch};
ghost use Rattle.lit_solve.specs.Internal.Fixpoint.{IsFixpoint};
ghost use Rattle.lit_solve.specs.Outcomes.{AddsEntries, HasEachOutcome};
ghost use Rattle.lit_solve.specs.Prospect.{IsUndecidedAt};
ghost use Rattle.lit_valid.specs.Entry.{HasOutcome};

use crate::branching::count;
use crate::domains::Domains;
use crate::frame::Frame;
use crate::goal::Goal;
use crate::heartbeat::Heartbeat;
use crate::observation::Values;
use crate::problem::Problem;
use crate::stepping::Branch;
use crate::table::OutcomeTable;
use lit_valid::laws::laws_below;
use std::alloc::AllocError;

/// How many ways to choose sources take about as long as to refute the values of one outcome (decision 189).
const WAYS_OF_AN_OUTCOME: u64 = 64;

/// How many ways to choose sources are few at the most, so that what was thought to be quick ends within a second or two.
const MOST_WAYS: u64 = 1_048_576;

impl Problem<'_> {
    /// How many bytes the sources in the domain of the byte read at a place store.
    fn bytes_at(&self, frame: &Frame, place: usize) -> u64
        requires place { place < length (byte_reads (events_on self.now)) }
        requires contained { IsContained (box_of self.now frame.now) frame.now }
    {
        // For the prover: a combination has few events.
        let _events = self.events();
        let mut bytes = 0u64;
        let mut left = self.sources_left(frame, place);
        while let Some((source, _others)) = left.split_first() {
            let group = self.storing_same(left, place, source);
            bytes = bytes.saturating_add(1);
            left = left.difference(group);
        }
        bytes
    }

    /// About how many outcomes a frame has: the product of the bytes that the first byte of each observed read can have.
    fn values_of(&self, frame: &Frame) -> u64
        requires { IsContained (box_of self.now frame.now) frame.now }
    {
        // For the prover: a combination has few events.
        let _events = self.events();
        let mut values = 1u64;
        for name in self.names {
            if let Some(read) = self.observed_read(name.0, name.1) {
                let place = self.first_place(read as u8);
                if self.is_of(read as u8, place) {
                    values = values.saturating_mul(self.bytes_at(frame, place));
                }
            }
        }
        values
    }

    /// About in how many ways the reads of a frame that can force something can have sources: the product of the sources that the first
    /// byte of each can have.
    fn ways_of(&self, frame: &Frame) -> u64
        requires { IsContained (box_of self.now frame.now) frame.now }
    {
        // For the prover: a combination has few events.
        let _events = self.events();
        let mut ways = 1u64;
        for read in 0..self.events().len() {
            let place = self.first_place(read as u8);
            if self.is_of(read as u8, place) && self.can_force(frame, place) {
                ways = ways.saturating_mul(u64::from(count(frame.domains[place])));
            }
        }
        ways
    }

    /// Whether to enumerate sources takes about as long as to refute values, at most.
    pub(crate) fn has_few_ways(&self, frame: &Frame) -> bool
        requires { IsContained (box_of self.now frame.now) frame.now }
    {
        let ways = self.ways_of(frame);
        ways <= MOST_WAYS && ways <= self.values_of(frame).saturating_mul(WAYS_OF_AN_OUTCOME)
    }

    /// Records the outcome of a completion of a frame, by its sources, if the table lacks it: with its least example in the frame. `leaf`
    /// has this completion too. The outcome begins with the given values.
    fn record_alike<T: OutcomeTable>(
        &self,
        frame: &Frame,
        sources: &[u8],
        leaf: &Domains,
        values: &Values,
        table: &mut T,
    ) -> Result<(), AllocError>
        requires fixpoint { IsFixpoint (box_of self.now frame.now) frame.now }
        requires first { AreFirstValues (box_of self.now frame.now) values.now.items }
        requires completes { (x : Execution) × IsCompletion (box_of self.now frame.now) x × (x.sources ≡ sources.now)
            × IsCompletion (box_with self.now leaf.now) x }
        ensures added { AddsEntries (box_of self.now frame.now) (T.entries table.old) (T.entries table.new) }
        ensures has { OnOk result ((x : Execution) → IsCompletion (box_of self.now frame.now) x → x.sources ≡ sources.now
            → HasOutcome (T.entries table.new) (execution_outcome self.now.0 x)) }
    {
        // For the prover: an execution's outcome follows from its sources.
        laws_below();
        let mut values = values.clone()?;
        let Some(place) = self.observe(&frame.domains, &mut values) else {
            self.record(frame, values.as_slice(), Some(leaf), table)?;
            return Ok(());
        };
        // For the prover: a combination has few events.
        let _events = self.events();
        let all = self.sources_left(frame, place);
        let group = self.storing_same(all, place, usize::from(sources[place]));
        let mut next = *frame;
        if self.restrict(&mut next, place, group) {
            return self.record_alike(&next, sources, leaf, &values, table);
        }
        Ok(())
    }

    /// On which byte read an enumeration branches: on one that can force something, or else on one whose sources store several bytes, if
    /// it is given such a one.
    fn next_branch(&self, frame: &Frame, undecided: Option<usize>) -> Option<Branch>
        requires fixpoint { IsFixpoint (box_of self.now frame.now) frame.now }
        requires undecided { IfSome undecided (λ k. (k < length (byte_reads (events_on self.now)))
            × IsUndecidedAt (box_of self.now frame.now) k) }
        ensures branch { IfSome result (IsBranch (box_of self.now frame.now)) }
        ensures none { IfNone result (IsNone undecided) }
    {
        match self.branch(frame) {
            Some(place) => Some(Branch {
                place,
                by_value: false,
            }),
            None => {
                let place = undecided?;
                Some(Branch {
                    place,
                    by_value: true,
                })
            }
        }
    }

    /// Records the outcomes of a frame within another that the table lacks, each with its least example in the other one.
    pub(crate) fn outcomes_by_sources<T: OutcomeTable, H: Heartbeat>(
        &self,
        root: &Frame,
        frame: &Frame,
        table: &mut T,
        heartbeat: &H,
    ) -> Result<(), AllocError>
        requires root { IsFixpoint (box_of self.now root.now) root.now }
        requires fixpoint { IsFixpoint (box_of self.now frame.now) frame.now }
        requires within { IsWithin (box_of self.now frame.now) (box_of self.now root.now) }
        ensures added { AddsEntries (box_of self.now root.now) (T.entries table.old) (T.entries table.new) }
        ensures whole { OnOk result (HasEachOutcome (box_of self.now frame.now) (T.entries table.new)) }
    {
        heartbeat.beat()?;
        let mut values = Values::new();
        let open = self.observe(&frame.domains, &mut values);
        if open.is_none() && table.has(values.as_slice()) {
            return Ok(());
        }
        let Some(branch) = self.next_branch(frame, open) else {
            let Some(least) = self.least(frame, Goal::Any, None) else {
                return Ok(());
            };
            let sources = least.sources.as_slice();
            return self.record_alike(root, sources, &frame.domains, &Values::new(), table);
        };
        let mut left = self.sources_left(frame, branch.place);
        while let Some((source, _others)) = left.split_first() {
            let part = self.part(branch, left, source);
            let mut next = *frame;
            if self.restrict(&mut next, branch.place, part) {
                self.outcomes_by_sources(root, &next, table, heartbeat)?;
            }
            left = left.difference(part);
        }
        Ok(())
    }
}
