//! A range of choices, cut into boxes.
//!
//! Choices on a combination are in lexicographic order of their sources, like numbers by their digits. The choices from the sources
//! `low` to the sources `high` share a common prefix. One box has the choices that lie strictly between `low` and `high` at the place
//! behind the prefix. Each later place gives one box before it: as `low` up to that place, and greater there; the later the place, the
//! earlier the box. In the same way each later place gives one box after it, as `high` up to that place and less there. The place behind
//! the last gives `low` itself, and `high` itself.

pub(crate) mod ends;

ghost use Rattle.std.specs.Prelude.{◌≡◌, ◌↔◌, ℕ, ◌+◌, ◌<◌, ◌≤◌, IfSome, length};
ghost use Rattle.lit_syntax.specs.Syntax.{IsLitmus};
ghost use Rattle.lit_paths.specs.declared.limits.TheConstants.{EVENT_LIMIT as EVENTS};
ghost use Rattle.lit_paths.specs.ByteReads.{byte_reads};
ghost use Rattle.lit_paths.specs.Plan.{choices_before};
ghost use Rattle.lit_rel.specs.EventSet.{HasEvent};
ghost use Rattle.lit_solve.specs.Box.{IsBox, box_with};
ghost use Rattle.lit_solve.specs.Boxes.{AreDomainsIn, CutsRange, IsAbove, IsBelow, IsInBox, boxes_events, boxes_len, parting_in};

use crate::boxes::ends::End;
use crate::domains::{Domains, candidates_of};
use crate::numbering::first_of;
use lit_paths::laws::choices_are_listed;
use lit_paths::{Combination, EVENT_LIMIT};
use lit_rel::EventSet;
use std::marker::Model;

/// The boxes of a range of choices on a combination, in a rising list. It stores no box: `put` makes each when it is needed.
#[derive(Drop)]
pub struct Boxes<'a, 'p> {
    combination: &'a Combination<'p>,
    /// The first choice of the range, if others on the combination come before it.
    low: End,
    /// The last one, if others on the combination come after it.
    high: End,
    /// How many first sources both share.
    shared: usize,
    /// How many boxes there are before the one whose sources lie between the two.
    lows: usize,
    /// How many boxes there are after it.
    highs: usize,
}

impl<'a, 'p> Model for Boxes<'a, 'p> {
    ghost use Rattle.lit_solve.specs.Boxes.{BoxesModel, coded_boxes};
    ghost use Rattle.lit_solve.specs.Internal.Cut.{end_sources};
    ghost use Rattle.lit_solve.specs.Internal.SoundRange.{IsSoundInside};

    ghost Value = { BoxesModel };

    ghost coded = { coded_boxes };

    ghost view = { λ b. record {
      test = b.combination.now.0;
      combination = b.combination.now.1;
      low = end_sources b.low;
      high = end_sources b.high;
      shared = b.shared;
      lows = b.lows;
      highs = b.highs;
    } };

    ghost invariant = { IsSoundInside };
}

impl<'a, 'p> Boxes<'a, 'p> {
    /// The boxes of those of the choices `from..to` that are on the combination, of which there is one.
    pub fn of_range(combination: &'a Combination<'p>, from: u64, to: u64) -> Self
        requires begins { from < choices_before combination.now.0 (combination.now.1 + 1) }
        requires ends { choices_before combination.now.0 combination.now.1 < to }
        requires some { from < to }
        ensures test { result.test ≡ combination.now.0 }
        ensures combination { result.combination ≡ combination.now.1 }
        ensures cuts { CutsRange result from to }
    {
        choices_are_listed();
        // For the prover: that the combination is one of the test, and that it has few byte reads.
        let _first = first_of(combination);
        let _events = combination.events();
        let low = End::low(combination, from);
        let high = End::high(combination, to);
        let reads = combination.byte_reads().len();
        let shared = low.shared(&high);
        let rest = reads - shared;
        let lows = low.count(rest);
        let highs = high.count(rest);
        Boxes {
            combination,
            low,
            high,
            shared,
            lows,
            highs,
        }
    }

    /// How many boxes there are.
    pub fn len(&self) -> usize
        ensures { result ≡ boxes_len self.now }
    {
        self.lows + 1 + self.highs
    }

    /// The events that `low` allows for a byte read, by its place, in the i-th box.
    fn above(&self, i: usize, place: usize) -> EventSet
        requires known { i < boxes_len self.now }
        requires place { place < length (byte_reads (boxes_events self.now)) }
        ensures { (w : ℕ) → w < EVENTS
            → HasEvent result w ↔ (i ≤ self.now.lows → IfSome self.now.low (λ low. IsAbove low (parting_in self.now i) place w)) }
    {
        if i <= self.lows {
            self.low.above(self.shared + (self.lows - i), place)
        } else {
            EventSet::below(EVENT_LIMIT)
        }
    }

    /// The events that `high` allows for a byte read, by its place, in the i-th box.
    fn below(&self, i: usize, place: usize) -> EventSet
        requires known { i < boxes_len self.now }
        requires place { place < length (byte_reads (boxes_events self.now)) }
        ensures { (w : ℕ) → w < EVENTS
            → HasEvent result w ↔ (self.now.lows ≤ i → IfSome self.now.high (λ high. IsBelow high (parting_in self.now i) place w)) }
    {
        if self.lows <= i {
            self.high.below(self.shared + (i - self.lows), place)
        } else {
            EventSet::below(EVENT_LIMIT)
        }
    }

    /// The domain of a byte read, by its place, in the i-th box.
    fn domain(&self, i: usize, place: usize) -> EventSet
        requires known { i < boxes_len self.now }
        requires place { place < length (byte_reads (boxes_events self.now)) }
        ensures { (w : ℕ) → HasEvent result w ↔ IsInBox self.now i place w }
    {
        let domain = candidates_of(self.combination, place);
        domain
            .intersection(self.above(i, place))
            .intersection(self.below(i, place))
    }

    /// Overwrites `domains` with those of the i-th box.
    pub fn put(&self, i: usize, domains: &mut Domains)
        requires { i < boxes_len self.now }
        ensures is_box { IsLitmus self.now.test → IsBox (box_with (self.now.test, self.now.combination) domains.new) }
        ensures exact { AreDomainsIn self.now i domains.new }
    {
        for place in 0..self.combination.byte_reads().len() {
            domains[place] = self.domain(i, place);
        }
    }
}
