//! Forbidden triples: which events may not stand between a source and its read.

ghost use Rattle.std.specs.Prelude.{◌≡◌, ◌⊎◌, ◌↔◌, ℕ, ◌+◌, ◌<◌, ◌≤◌, [], Some, IsTrue, MatchOption, length, slice_get};
ghost use Rattle.lit_paths.specs.declared.limits.TheConstants.{BYTE_READ_LIMIT, EVENT_LIMIT};
ghost use Rattle.lit_rel.specs.Between.{IsPairOf};
ghost use Rattle.lit_rel.specs.EventSet.{HasEvent};

use crate::event_set::EventSet;
use arrayvec::ArrayVec;
use lit_paths::{BYTE_READ_LIMIT, EVENT_LIMIT};
use std::marker::Model;

/// A source, a read of it, and the events that may not stand between them.
#[derive(Clone, Copy, Debug, Default, PartialEq, Eq)]
pub struct Pair {
    /// The number of the source.
    pub source: u8,
    /// The number of the read.
    pub read: u8,
    /// The events that may not stand after the source and before the read.
    pub others: EventSet,
}

/// For each pair w, r of events with numbers below `len()`, which events v may not stand after w and before r. A clause
/// sees it as that number, and the pairs that have such events.
#[derive(Drop)]
pub struct Between {
    len: usize,
    pairs: ArrayVec<Pair, BYTE_READ_LIMIT>,
}

impl Model for Between {
    ghost use Rattle.lit_rel.specs.Between.{BetweenModel, coded_between, ArePairsOf};

    ghost Value = { BetweenModel };

    ghost coded = { coded_between };

    ghost use Rattle.std.specs.Prelude.{◌≤◌};
    ghost use Rattle.lit_paths.specs.declared.limits.TheConstants.{EVENT_LIMIT};

    ghost view = { λ between. record { len = between.len; pairs = between.pairs.items } };

    ghost invariant = { λ between. (between.len ≤ EVENT_LIMIT) × ArePairsOf between.len between.pairs.items };
}

/// Where the pair of a source and a read stands.
fn place_of(pairs: &[Pair], source: usize, read: usize) -> Option<usize>
    ensures { MatchOption result ((k : ℕ) (p : Pair) → slice_get pairs.now k ≡ Some p → ¬ IsPairOf source read p)
        (λ place. (p : Pair) × (slice_get pairs.now place ≡ Some p) × IsPairOf source read p) }
{
    for (place, pair) in pairs.iter().enumerate() {
        if usize::from(pair.source) == source && usize::from(pair.read) == read {
            return Some(place);
        }
    }
    None
}

impl Between {
    ghost use Rattle.lit_rel.specs.Between.{ArePairsOf, Forbids};

    /// No forbidden triple, on `len` events, at most `EVENT_LIMIT`.
    pub fn new(len: usize) -> Self
        requires { len ≤ EVENT_LIMIT }
        ensures { result ≡ record { len = len; pairs = [] } }
    {
        Between {
            len,
            pairs: ArrayVec::new(),
        }
    }

    /// Makes it `new(len)`, in place.
    pub fn begin(&mut self, len: usize)
        requires { len ≤ EVENT_LIMIT }
        ensures { self.new ≡ record { len = len; pairs = [] } }
    {
        self.len = len;
        self.pairs.clear();
    }

    /// How many events there are.
    pub fn len(&self) -> usize
        ensures value { result ≡ self.now.len }
        ensures few { result ≤ EVENT_LIMIT }
    {
        self.len
    }

    /// The pairs, each source and read once, both numbers below `len()`. Between all others nothing is forbidden.
    pub fn pairs(&self) -> &[Pair]
        ensures value { result.now ≡ self.now.pairs }
        ensures once { ArePairsOf self.now.len self.now.pairs }
        ensures few { self.now.len ≤ EVENT_LIMIT }
    {
        self.pairs.as_slice()
    }

    /// Forbids further events to stand after w and before r, both numbers below `len()`: those of a set that are below
    /// `len()`. There is room for `BYTE_READ_LIMIT` pairs.
    pub fn forbid(&mut self, w: u8, r: u8, others: EventSet)
        requires source { w < self.old.len }
        requires read { r < self.old.len }
        requires room { length self.old.pairs < BYTE_READ_LIMIT }
        ensures len { self.new.len ≡ self.old.len }
        ensures count { length self.new.pairs ≤ length self.old.pairs + 1 }
        ensures triples { (x y v : ℕ) → Forbids self.new x y v
            ↔ (Forbids self.old x y v ⊎ ((x ≡ w) × (y ≡ r) × (v < self.old.len) × HasEvent others v)) }
    {
        match place_of(self.pairs.as_slice(), usize::from(w), usize::from(r)) {
            Some(place) => {
                let there = self.pairs[place].others;
                self.pairs[place].others = there.union(others);
            }
            None => self.pairs.push(Pair {
                source: w,
                read: r,
                others,
            }),
        }
    }

    /// Whether v may not stand after w and before r, all numbers below `len()`.
    pub fn forbids(&self, w: usize, r: usize, v: usize) -> bool
        requires source { w < self.now.len }
        requires read { r < self.now.len }
        requires other { v < self.now.len }
        ensures { IsTrue result ↔ Forbids self.now w r v }
    {
        match place_of(self.pairs.as_slice(), w, r) {
            Some(place) => self.pairs[place].others.contains(v),
            None => false,
        }
    }
}
