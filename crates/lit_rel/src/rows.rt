//! A relation on the events of a candidate execution, as rows of sets. `given::relations` has the relations of clause 29.

pub(crate) mod closing;
pub(crate) mod two_way_rows;

ghost use Rattle.std.specs.Prelude.{◌≡◌, ◌⊎◌, ◌↔◌, ℕ, ◌<◌, ◌≤◌, IsTrue};
ghost use Rattle.lit_paths.specs.declared.limits.TheConstants.{EVENT_LIMIT};
ghost use Rattle.lit_rel.specs.EventSet.{AreWithin};

use crate::event_set::EventSet;
use lit_paths::EVENT_LIMIT;

/// A relation on the events with numbers below `len()`, at most `EVENT_LIMIT`.
#[derive(Clone, Copy)]
pub struct Rows {
    len: usize,
    /// For each event the set of the events that it leads to.
    sets: [EventSet; EVENT_LIMIT],
    ghost in_limit: { len ≤ EVENT_LIMIT },
    ghost within: { AreWithin len sets },
}

impl Rows {
    ghost use Rattle.lit_rel.specs.EventSet.{HasEvent};
    ghost use Rattle.lit_rel.specs.Rows.{Holds, IsLeastWith, IsTransitive, WithPair, rows_len};

    /// The empty relation on `len` events, at most `EVENT_LIMIT`.
    pub fn new(len: usize) -> Self
        requires { len ≤ EVENT_LIMIT }
        ensures len { rows_len result ≡ len }
        ensures empty { (a d : ℕ) → ¬ Holds result a d }
    {
        Rows {
            len,
            sets: [EventSet::new(); EVENT_LIMIT],
        }
    }

    /// How many events it is on.
    pub fn len(&self) -> usize
        ensures value { result ≡ rows_len self.now }
        ensures few { result ≤ EVENT_LIMIT }
    {
        self.len
    }

    /// Whether it holds of a pair of events, both numbers below `len()`.
    pub fn holds(&self, a: usize, d: usize) -> bool
        requires first { a < rows_len self.now }
        requires second { d < rows_len self.now }
        ensures { IsTrue result ↔ Holds self.now a d }
    {
        self.sets[a].contains(d)
    }

    /// Whether it holds of a pair of events. Of other numbers it does not.
    pub(crate) fn has_pair(&self, a: usize, d: usize) -> bool
        ensures { IsTrue result ↔ Holds self.now a d }
    {
        a < self.len && d < self.len && self.holds(a, d)
    }

    /// Lets event a lead to all events of a set, all numbers below `len()`.
    pub(crate) fn put_all(&mut self, a: usize, set: EventSet)
        requires first { a < rows_len self.old }
        requires second { (d : ℕ) → HasEvent set d → d < rows_len self.old }
        ensures len { rows_len self.new ≡ rows_len self.old }
        ensures pairs { (x y : ℕ) → Holds self.new x y ↔ (Holds self.old x y ⊎ ((x ≡ a) × HasEvent set y)) }
    {
        self.sets[a] = self.sets[a].union(set);
    }

    /// Adds a pair, both numbers below `len()`.
    pub fn put(&mut self, a: usize, d: usize)
        requires first { a < rows_len self.old }
        requires second { d < rows_len self.old }
        ensures len { rows_len self.new ≡ rows_len self.old }
        ensures pairs { (x y : ℕ) → Holds self.new x y ↔ (Holds self.old x y ⊎ ((x ≡ a) × (y ≡ d))) }
    {
        self.put_all(a, EventSet::new().with(d));
    }

    /// The events that an event leads to, whose number is below `len()`.
    pub fn successors(&self, event: usize) -> EventSet
        requires { event < rows_len self.now }
        ensures { (d : ℕ) → HasEvent result d ↔ Holds self.now event d }
    {
        self.sets[event]
    }

    /// Lets event a and each that leads to it lead to all events of a set, all numbers below `len()`.
    pub(crate) fn put_led(&mut self, a: usize, set: EventSet)
        requires first { a < rows_len self.old }
        requires second { (d : ℕ) → HasEvent set d → d < rows_len self.old }
        ensures len { rows_len self.new ≡ rows_len self.old }
        ensures pairs { (x y : ℕ) → Holds self.new x y ↔ (Holds self.old x y ⊎ ((Holds self.old x a ⊎ (x ≡ a)) × HasEvent set y)) }
    {
        for first in 0..self.len {
            if first == a || self.holds(first, a) {
                self.put_all(first, set);
            }
        }
    }

    /// Adds a pair, both numbers below `len()`, and closes over it: adds the pairs from a, and from each event that leads to a, to d, and
    /// to each event that d leads to. A transitive relation becomes the least transitive one that has it and the pair.
    pub fn close_with(&mut self, a: usize, d: usize)
        requires first { a < rows_len self.old }
        requires second { d < rows_len self.old }
        ensures len { rows_len self.new ≡ rows_len self.old }
        ensures pairs { (x y : ℕ) → Holds self.new x y ↔ WithPair (Holds self.old) a d x y }
        ensures transitive { IsTransitive (Holds self.old) → IsTransitive (Holds self.new) }
        ensures least { IsLeastWith (Holds self.old) a d (Holds self.new) }
    {
        self.put_led(a, self.successors(d).with(d));
    }

    /// Whether it holds of some event and itself.
    pub fn has_cycle(&self) -> bool
        ensures { IsTrue result ↔ ((e : ℕ) × Holds self.now e e) }
    {
        for event in 0..self.len {
            if self.holds(event, event) {
                return true;
            }
        }
        false
    }
}
