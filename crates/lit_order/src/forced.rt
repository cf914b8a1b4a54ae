//! Whether some order satisfies precedences between events and avoids forbidden triples.

ghost use Rattle.std.specs.Prelude.{◌≡◌, ◌↔◌, ℕ, ◌<◌, IsNone, IsTrue, IfSome};
ghost use Rattle.lit_rel.specs.Between.{Forbids};
ghost use Rattle.lit_rel.specs.Rows.{rows_len, Holds, IsTransitive};
ghost use Rattle.lit_order.specs.MemoryOrder.{HasOrder};

use crate::forcing::forced_precedence;
use crate::triple::undecided;
use lit_rel::{Between, Rows, close};

/// Whether some order respects a relation and avoids forbidden triples, both on the same events. Where propagation leaves
/// a triple undecided, the search branches on its two sides.
pub(crate) fn has_order(before: &Rows, between: &Between) -> bool
    requires { rows_len before.now ≡ between.now.len }
    ensures { IsTrue result ↔ HasOrder (rows_len before.now) (Holds before.now) (Forbids between.now) }
{
    // What is forced is added first, so that no branch closes a cycle (decision 18).
    let Some(forced) = forced_precedence(before, between) else {
        return false;
    };
    let Some(triple) = undecided(&forced, between) else {
        return true;
    };
    let mut after = forced;
    after.close_with(triple.read, triple.other);
    if has_order(&after, between) {
        return true;
    }
    let mut earlier = forced;
    earlier.close_with(triple.other, triple.source);
    has_order(&earlier, between)
}

/// Precedences between events, closed under chains, with the triples that orders must avoid. No event comes before itself.
#[derive(Clone, Copy)]
pub struct Forced<'a> {
    rows: Rows,
    between: &'a Between,
    ghost same: { rows_len rows ≡ between.now.len },
    ghost transitive: { IsTransitive (Holds rows) },
    ghost no_cycle: { (e : ℕ) → ¬ Holds rows e e },
}

impl<'a> Forced<'a> {
    ghost use Rattle.lit_order.specs.Forced.{AndPair, forced_len, IsBefore, IsMadeOf, Refuses};
    ghost use Rattle.lit_order.specs.Forcing.{HasChain, HasCycle};

    /// The precedences of a relation, with triples on the same events. `None` exactly where a chain of its pairs leads
    /// from an event to itself.
    pub fn open(before: &Rows, between: &'a Between) -> Option<Forced<'a>>
        requires { rows_len before.now ≡ between.now.len }
        ensures cycle { IsNone result ↔ HasCycle (Holds before.now) }
        ensures made { IfSome result (IsMadeOf (rows_len before.now) (HasChain (Holds before.now)) (Forbids between.now)) }
    {
        let mut rows = *before;
        close(&mut rows);
        if rows.has_cycle() {
            return None;
        }
        Some(Forced { rows, between })
    }

    /// The same, with event a before event d, both numbers below how many events there are. `None` exactly where a
    /// chain of pairs then leads from an event to itself.
    pub fn with(&self, a: usize, d: usize) -> Option<Forced<'a>>
        requires first { a < forced_len self.now }
        requires second { d < forced_len self.now }
        ensures cycle { IsNone result ↔ HasCycle (AndPair (IsBefore self.now) a d) }
        ensures made { IfSome result (IsMadeOf (forced_len self.now) (HasChain (AndPair (IsBefore self.now) a d)) (Refuses self.now)) }
    {
        if a == d || self.rows.holds(d, a) {
            return None;
        }
        let mut rows = self.rows;
        rows.close_with(a, d);
        Some(Forced {
            rows,
            between: self.between,
        })
    }

    /// Whether some order respects all given pairs and avoids the triples.
    pub fn extendable(&self) -> bool
        ensures { IsTrue result ↔ HasOrder (forced_len self.now) (IsBefore self.now) (Refuses self.now) }
    {
        has_order(&self.rows, self.between)
    }
}
