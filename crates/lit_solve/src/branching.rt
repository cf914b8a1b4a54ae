//! Variable ordering: which byte read the search branches on.

ghost use Rattle.std.specs.Prelude.{◌≡◌, ◌⊎◌, ◌↔◌, ℕ, ◌<◌, Some, IfNone, IfSome, IsFalse, IsTrue, length};
ghost use Rattle.lit_paths.specs.ByteReads.{byte_reads};
ghost use Rattle.lit_paths.specs.declared.limits.TheConstants.{BYTE_READ_LIMIT};
ghost use Rattle.lit_solve.specs.Fill.{HasEffect, IsIdle, IsLeaf};
ghost use Rattle.lit_solve.specs.Given.{HasAlone};
ghost use Rattle.lit_solve.specs.Box.{events_on};
ghost use Rattle.lit_solve.specs.Internal.Frames.{IsContained, box_of};

use crate::effect::has_effect;
use crate::frame::Frame;
use crate::problem::Problem;
use lit_rel::EventSet;

/// How many events a set has.
pub(crate) fn count(set: EventSet) -> u32 {
    let mut count = 0u32;
    let mut left = set;
    while let Some((_first, others)) = left.split_first() {
        count = count.saturating_add(1);
        left = others;
    }
    count
}

/// The byte read at a place, or the other one, where there is one and its domain is not larger (decision 26).
fn with_fewest(frame: &Frame, other: Option<usize>, place: usize) -> usize
    requires other { IfSome other (λ k. k < BYTE_READ_LIMIT) }
    requires place { place < BYTE_READ_LIMIT }
    ensures { (result ≡ place) ⊎ (other ≡ Some result) }
{
    if let Some(other) = other {
        if count(frame.domains[other]) <= count(frame.domains[place]) {
            return other;
        }
    }
    place
}

impl Problem<'_> {
    /// Whether a source can force anything if a read reads a byte from it. Both are event numbers.
    pub(crate) fn has_effect(&self, source: usize, read: usize) -> bool
        requires source { source < length (events_on self.now) }
        requires read { read < length (events_on self.now) }
        ensures { IsTrue result ↔ HasEffect (events_on self.now) source read }
    {
        has_effect(self.events(), &self.peers, source, read)
    }

    /// Whether the domain of the byte read at a place has several sources, one of which can force something.
    pub(crate) fn can_force(&self, frame: &Frame, place: usize) -> bool
        requires place { place < length (byte_reads (events_on self.now)) }
        requires contained { IsContained (box_of self.now frame.now) frame.now }
        ensures open { IsTrue result → (w : ℕ) → ¬ HasAlone (box_of self.now frame.now) place w }
        ensures leaf { IsFalse result → ((w : ℕ) × HasAlone (box_of self.now frame.now) place w)
            ⊎ IsIdle (box_of self.now frame.now) place }
    {
        // For the prover: the place is one of the array of domains.
        let _reads = self.reads();
        if self.given(frame, place).is_some() {
            return false;
        }
        let read = self.byte_read(place).read as usize;
        let mut left = frame.domains[place];
        while let Some((source, others)) = left.split_first() {
            if self.has_effect(source, read) {
                return true;
            }
            left = others;
        }
        false
    }

    /// A byte read with several sources, one of which can force something: of these one with the smallest domain, as decision 26 says.
    /// If it is `None`, the frame is a leaf.
    pub(crate) fn branch(&self, frame: &Frame) -> Option<usize>
        requires { IsContained (box_of self.now frame.now) frame.now }
        ensures known { IfSome result (λ place. place < length (byte_reads (events_on self.now))) }
        ensures open { IfSome result (λ place. (w : ℕ) → ¬ HasAlone (box_of self.now frame.now) place w) }
        ensures leaf { IfNone result (IsLeaf (box_of self.now frame.now)) }
    {
        let mut best = None;
        for place in 0..self.reads() {
            if self.can_force(frame, place) {
                best = Some(with_fewest(frame, best, place));
            }
        }
        best
    }
}
