//! Boxes with independent reads: no open byte read can force anything. So each read takes its sources by itself, all completions have the
//! same least memory-order, and there is nothing to propagate.

ghost use Rattle.std.specs.Prelude.{◌≡◌, ◌≢◌, ℕ, ◌<◌, IsFalse, IsTrue, List, length};
ghost use Rattle.std.specs.Cmp.Lexicographic.{slice_cmp};
ghost use Rattle.std.specs.Ordering.{nat_cmp};
ghost use Rattle.std.specs.declared.cmp.Ordering.TheVariants.{Less};
ghost use Rattle.lit_paths.specs.ByteReads.{byte_reads};
ghost use Rattle.lit_paths.specs.Execution.{Execution};
ghost use Rattle.lit_rel.specs.EventSet.{HasEvent};
ghost use Rattle.lit_solve.specs.Box.{HasSource, box_with, events_on};
ghost use Rattle.lit_solve.specs.Completion.{IsCompletion, IsLeastSolution};
ghost use Rattle.lit_solve.specs.declared.goal.Goal.TheVariants.{Any};
ghost use Rattle.lit_solve.specs.Given.{HasAlone};
ghost use Rattle.lit_solve.specs.Internal.Descending.{IsLowestAt};
ghost use Rattle.lit_solve.specs.Internal.Independent.{IsLeastOrderOfEach, IsIndependent};
ghost use Rattle.lit_solve.specs.Internal.Pruning.{size_of};
ghost use Rattle.lit_solve.specs.Internal.Fixpoint.{IsRestricted, TakesFrom};

use crate::domains::{Domains, only_one, set_of};
use crate::laws::{completions_fill_each_read, leaves_are_filled_read_by_read};
use crate::problem::Problem;
use lit_paths::Sources;
use lit_rel::EventSet;
use lit_valid::laws::laws_below;

impl Problem<'_> {
    /// Restricts the domain of the byte read at a place to a set. Answers `false` if its read can't be filled then: no completion has a
    /// source of the set there.
    pub(crate) fn restrict_independent(
        &self,
        domains: &mut Domains,
        place: usize,
        set: EventSet,
    ) -> bool
        requires place { place < length (byte_reads (events_on self.now)) }
        requires independent { IsIndependent (box_with self.now domains.old) }
        ensures independent { IsTrue result → IsIndependent (box_with self.now domains.new) }
        ensures restricted { IsTrue result → IsRestricted (box_with self.now domains.old) place set (box_with self.now domains.new) }
        ensures less { IsTrue result → ¬ ((w : ℕ) → HasSource (box_with self.now domains.old) place w → HasEvent set w)
            → size_of domains.new < size_of domains.old }
        ensures none { IsFalse result → (x : Execution) → IsCompletion (box_with self.now domains.old) x → ¬ TakesFrom x place set }
    {
        // For the prover: a byte read is a byte in the range of its read.
        laws_below();
        completions_fill_each_read();
        // For the prover: the place is one of the array of domains.
        let _reads = self.reads();
        let read = self.byte_read(place).read;
        let left = domains[place].intersection(set);
        if left.is_empty() {
            return false;
        }
        domains[place] = left;
        self.can_fill(domains, read)
    }

    /// Gives the byte read at a place the least source with which its read can be filled.
    fn give_least(&self, domains: &mut Domains, place: usize)
        requires place { place < length (byte_reads (events_on self.now)) }
        requires independent { IsIndependent (box_with self.now domains.old) }
        ensures independent { IsIndependent (box_with self.now domains.new) }
        ensures alone { (w : ℕ) × HasAlone (box_with self.now domains.new) place w }
        ensures lowest { IsLowestAt (box_with self.now domains.old) Any place (box_with self.now domains.new) }
    {
        leaves_are_filled_read_by_read();
        // For the prover: a combination has few events and few byte reads.
        let _events = self.events();
        let _reads = self.reads();
        if let Some(_source) = only_one(domains[place]) {
            return;
        }
        let mut left = domains[place];
        while let Some((source, others)) = left.split_first() {
            let mut next = *domains;
            if self.restrict_independent(&mut next, place, set_of(source)) {
                *domains = next;
                return;
            }
            left = others;
        }
        unreachable!()
    }

    /// The sources of the least completion.
    pub(crate) fn least_filling(&self, domains: &Domains) -> Sources
        requires { IsIndependent (box_with self.now domains.now) }
        ensures completes { (x : Execution) × IsCompletion (box_with self.now domains.now) x × (x.sources ≡ result.items) }
        ensures least { (x : Execution) → IsCompletion (box_with self.now domains.now) x → slice_cmp nat_cmp x.sources result.items ≢ Less }
        ensures ordered { (order : List ℕ) → IsLeastOrderOfEach (box_with self.now domains.now) order
            → IsLeastSolution (box_with self.now domains.now) Any result.items order }
    {
        leaves_are_filled_read_by_read();
        let mut down = *domains;
        for place in 0..self.reads() {
            self.give_least(&mut down, place);
        }
        self.sources_of(&down)
    }
}
