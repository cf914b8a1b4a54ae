//! A relation stored with its converse, so that the events before an event are at hand.

ghost use Rattle.std.specs.Prelude.{◌≡◌, ◌⊎◌, ◌↔◌, ℕ, ◌<◌};
ghost use Rattle.lit_rel.specs.EventSet.{HasEvent};
ghost use Rattle.lit_rel.specs.Rows.{rows_len, Holds};
ghost use Rattle.lit_rel.specs.Converse.{IsConverse};

use crate::event_set::EventSet;
use crate::rows::Rows;
use crate::rows::closing::close;

/// Lets each event of a set lead to all events of another, all numbers below `len()`.
fn put_each(rows: &mut Rows, firsts: EventSet, seconds: EventSet)
    requires first { (e : ℕ) → HasEvent firsts e → e < rows_len rows.old }
    requires second { (e : ℕ) → HasEvent seconds e → e < rows_len rows.old }
    ensures len { rows_len rows.new ≡ rows_len rows.old }
    ensures pairs { (a d : ℕ) → Holds rows.new a d ↔ (Holds rows.old a d ⊎ (HasEvent firsts a × HasEvent seconds d)) }
{
    let mut left = firsts;
    while let Some((first, others)) = left.split_first() {
        rows.put_all(first, seconds);
        left = others;
    }
}

/// The converse of a relation: it leads from each event to those that come before it.
pub fn converse_of(rows: &Rows) -> Rows
    ensures { IsConverse rows.now result }
{
    let mut converse = Rows::new(rows.len());
    for event in 0..rows.len() {
        put_each(
            &mut converse,
            rows.successors(event),
            EventSet::new().with(event),
        );
    }
    converse
}

/// A relation and its converse.
#[derive(Clone, Copy)]
pub struct TwoWayRows {
    pub rows: Rows,
    pub converse: Rows,
    ghost same: { IsConverse rows converse },
}

impl Default for TwoWayRows {
    /// The empty relation on no events, with its converse.
    fn default() -> Self
        ensures len { rows_len result.rows ≡ 0 }
        ensures empty { (a d : ℕ) → ¬ Holds result.rows a d }
    {
        TwoWayRows {
            rows: Rows::new(0),
            converse: Rows::new(0),
        }
    }
}

impl TwoWayRows {
    ghost use Rattle.std.specs.Prelude.{List};
    ghost use Rattle.lit_rel.specs.HappensBefore.{Chain};
    ghost use Rattle.lit_rel.specs.Rows.{IsTransitive, WithPair};

    /// The least transitive relation that contains this one, with its converse.
    pub fn closed(before: &Rows) -> Self
        ensures len { rows_len result.rows ≡ rows_len before.now }
        ensures pairs { (a d : ℕ) → Holds result.rows a d ↔ ((middles : List ℕ) × Chain (Holds before.now) a middles d) }
    {
        let mut rows = *before;
        close(&mut rows);
        let converse = converse_of(&rows);
        TwoWayRows { rows, converse }
    }

    /// Adds a pair, both numbers below the length, and closes over it as `Rows::close_with` does.
    pub fn close_with(&mut self, a: usize, d: usize)
        requires first { a < rows_len self.old.rows }
        requires second { d < rows_len self.old.rows }
        ensures len { rows_len self.new.rows ≡ rows_len self.old.rows }
        ensures pairs { (x y : ℕ) → Holds self.new.rows x y ↔ WithPair (Holds self.old.rows) a d x y }
        ensures transitive { IsTransitive (Holds self.old.rows) → IsTransitive (Holds self.new.rows) }
    {
        let ahead = self.converse.successors(a).with(a);
        let behind = self.rows.successors(d).with(d);
        put_each(&mut self.rows, ahead, behind);
        put_each(&mut self.converse, behind, ahead);
    }
}
