//! Sets of events.
#![tactic(auto, using(crate::proofs::SetLemmas::bits))]

ghost use Rattle.std.specs.Prelude.{◌≡◌, ◌⊎◌, ◌↔◌, ℕ, ◌<◌, ◌≤◌, IsTrue, MatchOption};
ghost use Rattle.lit_paths.specs.declared.limits.TheConstants.{EVENT_LIMIT};

/// A set of events, by their numbers: below `EVENT_LIMIT`.
#[derive(Clone, Copy, Debug, Default, PartialEq, Eq)]
pub struct EventSet {
    /// A bit for each number.
    bits: u64,
}

impl EventSet {
    ghost use Rattle.lit_rel.specs.EventSet.{HasEvent, IsSplit, no_events};

    /// The set of no event.
    pub fn new() -> Self
        ensures value { result ≡ no_events }
        ensures empty { (e : ℕ) → ¬ HasEvent result e }
    {
        EventSet { bits: 0 }
    }

    /// The set of the events with numbers below this one.
    pub fn below(len: usize) -> Self
        requires { len ≤ EVENT_LIMIT }
        ensures { (e : ℕ) → HasEvent result e ↔ (e < len) }
    {
        EventSet {
            bits: (1 << len) - 1,
        }
    }

    /// Whether an event is in it.
    pub fn contains(self, event: usize) -> bool
        requires { event < EVENT_LIMIT }
        ensures { IsTrue result ↔ HasEvent self event }
    {
        (self.bits >> event) & 1 == 1
    }

    /// The set with an event added.
    pub fn with(self, event: usize) -> Self
        requires { event < EVENT_LIMIT }
        ensures { (e : ℕ) → HasEvent result e ↔ (HasEvent self e ⊎ (e ≡ event)) }
    {
        EventSet {
            bits: self.bits | (1 << event),
        }
    }

    /// The events of both sets.
    pub fn union(self, other: Self) -> Self
        ensures { (e : ℕ) → HasEvent result e ↔ (HasEvent self e ⊎ HasEvent other e) }
    {
        EventSet {
            bits: self.bits | other.bits,
        }
    }

    /// The events that are in both sets.
    pub fn intersection(self, other: Self) -> Self
        ensures { (e : ℕ) → HasEvent result e ↔ (HasEvent self e × HasEvent other e) }
    {
        EventSet {
            bits: self.bits & other.bits,
        }
    }

    /// The events of it that are not in the other set.
    pub fn difference(self, other: Self) -> Self
        ensures { (e : ℕ) → HasEvent result e ↔ (HasEvent self e × ¬ HasEvent other e) }
    {
        EventSet {
            bits: self.bits ^ (self.bits & other.bits),
        }
    }

    /// The least event of it, and the set of the others.
    pub fn split_first(self) -> Option<(usize, Self)>
        ensures { MatchOption result ((e : ℕ) → ¬ HasEvent self e) (λ split. IsSplit self split.0 split.1) }
    {
        if self.bits == 0 {
            return None;
        }
        let event = self.bits.trailing_zeros() as usize;
        let others = EventSet {
            bits: self.bits ^ (1 << event),
        };
        Some((event, others))
    }

    /// Whether there is no event in it.
    pub fn is_empty(self) -> bool
        ensures { IsTrue result ↔ ((e : ℕ) → ¬ HasEvent self e) }
    {
        self.bits == 0
    }

    /// Whether each event of it is in the other set.
    pub fn is_within(self, other: Self) -> bool
        ensures { IsTrue result ↔ ((e : ℕ) → HasEvent self e → HasEvent other e) }
    {
        (self.bits | other.bits) == other.bits
    }
}
