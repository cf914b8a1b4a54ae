//! The ends of a range of choices on a combination.

ghost use Rattle.std.specs.Prelude.{◌≡◌, ◌↔◌, ℕ, ◌+◌, ◌<◌, IfSome, MatchOption, Some, List, length, slice_index};
ghost use Rattle.lit_paths.specs.declared.limits.TheConstants.{EVENT_LIMIT as EVENTS};
ghost use Rattle.lit_paths.specs.Plan.{choices_before};
ghost use Rattle.lit_rel.specs.EventSet.{HasEvent};
ghost use Rattle.lit_solve.specs.Boxes.{IsAbove, IsBelow};
ghost use Rattle.lit_solve.specs.Internal.Cut.{AreShared, IsHighEnd, IsLowEnd, IsSame, end_sources};

use lit_paths::{Combination, EVENT_LIMIT, Sources};
use lit_rel::EventSet;

/// An end of a range of choices on a combination: the sources of the choice there, if the combination's choices go on beyond it.
#[derive(Drop)]
pub(crate) struct End {
    sources: Option<Sources>,
}

impl End {
    /// The first choice is number `from`, if the combination's choices begin before it.
    pub(crate) fn low(combination: &Combination<'_>, from: u64) -> Self
        requires { from < choices_before combination.now.0 (combination.now.1 + 1) }
        ensures { IsLowEnd combination.now.0 combination.now.1 from (end_sources result) }
    {
        if combination.first() < from {
            End {
                sources: Some(combination.sources(from)),
            }
        } else {
            End { sources: None }
        }
    }

    /// The last choice is that before number `to`, if the combination's choices end behind it.
    pub(crate) fn high(combination: &Combination<'_>, to: u64) -> Self
        requires { choices_before combination.now.0 combination.now.1 < to }
        ensures { IsHighEnd combination.now.0 combination.now.1 to (end_sources result) }
    {
        if to < combination.end() {
            End {
                sources: Some(combination.sources(to - 1)),
            }
        } else {
            End { sources: None }
        }
    }

    /// The length of the common prefix with another end, which has as many sources; 0 where one of the two has none.
    pub(crate) fn shared(&self, other: &End) -> usize
        requires { (a b : List ℕ) → end_sources self.now ≡ Some a → end_sources other.now ≡ Some b → length a ≡ length b }
        ensures { AreShared (end_sources self.now) (end_sources other.now) result }
    {
        if let Some(sources) = &self.sources
            && let Some(others) = &other.sources
        {
            same_first(sources.as_slice(), others.as_slice())
        } else {
            0
        }
    }

    /// This number if there are sources, and 0 if not.
    pub(crate) fn count(&self, count: usize) -> usize
        ensures { MatchOption (end_sources self.now) (result ≡ 0) (λ _. result ≡ count) }
    {
        match self.sources {
            Some(_) => count,
            None => 0,
        }
    }

    /// The sources that a list may have at a place if it has these sources before the place `parting`, and a greater one there.
    pub(crate) fn above(&self, parting: usize, place: usize) -> EventSet
        requires { IfSome (end_sources self.now) (λ low. (place < length low) × (slice_index low place < EVENTS)) }
        ensures { (w : ℕ) → w < EVENTS → HasEvent result w ↔ IfSome (end_sources self.now) (λ low. IsAbove low parting place w) }
    {
        let all = EventSet::below(EVENT_LIMIT);
        let Some(low) = &self.sources else {
            return all;
        };
        let source = usize::from(low.as_slice()[place]);
        if place < parting {
            EventSet::new().with(source)
        } else if place == parting {
            all.difference(EventSet::below(source + 1))
        } else {
            all
        }
    }

    /// The sources that a list may have at a place if it has these sources before the place `parting`, and a lesser one there.
    pub(crate) fn below(&self, parting: usize, place: usize) -> EventSet
        requires { IfSome (end_sources self.now) (λ high. (place < length high) × (slice_index high place < EVENTS)) }
        ensures { (w : ℕ) → w < EVENTS → HasEvent result w ↔ IfSome (end_sources self.now) (λ high. IsBelow high parting place w) }
    {
        let all = EventSet::below(EVENT_LIMIT);
        let Some(high) = &self.sources else {
            return all;
        };
        let source = usize::from(high.as_slice()[place]);
        if place < parting {
            EventSet::new().with(source)
        } else if place == parting {
            EventSet::below(source)
        } else {
            all
        }
    }
}

/// The length of the common prefix of two lists of the same length.
fn same_first(a: &[u8], b: &[u8]) -> usize
    requires { length a.now ≡ length b.now }
    ensures { IsSame a.now b.now result }
{
    for (place, source) in a.iter().enumerate() {
        if *source != b[place] {
            return place;
        }
    }
    a.len()
}
