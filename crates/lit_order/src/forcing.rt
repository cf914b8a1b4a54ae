//! The forced relation: the pairs that every order has to respect, by a relation and forbidden triples.

ghost use Rattle.std.specs.Prelude.{◌≡◌, ◌↔◌, ℕ, IsNone, IsTrue, IfSome};
ghost use Rattle.lit_rel.specs.Between.{Forbids};
ghost use Rattle.lit_rel.specs.Rows.{rows_len, Holds, IsTransitive};
ghost use Rattle.lit_order.specs.Forcing.{HasForcedCycle, IsForced};

use crate::triple::next_forced;
use lit_rel::{Between, Rows, TwoWayRows};

/// Propagates: adds the pairs that a transitive relation and forbidden triples force, both on the same events. The answer
/// is false exactly where an event is forced before itself; then the relation may have some of the forced pairs.
pub fn force(forced: &mut TwoWayRows, between: &Between) -> bool
    requires len { rows_len forced.old.rows ≡ between.now.len }
    requires transitive { IsTransitive (Holds forced.old.rows) }
    ensures cycle { (¬ IsTrue result) ↔ HasForcedCycle (Holds forced.old.rows) (Forbids between.now) }
    ensures len { rows_len forced.new.rows ≡ rows_len forced.old.rows }
    ensures pairs { IsTrue result → (a d : ℕ) → Holds forced.new.rows a d ↔ IsForced (Holds forced.old.rows) (Forbids between.now) a d }
{
    if forced.rows.has_cycle() {
        return false;
    }
    'forcing: while let Some(next) = next_forced(forced, between) {
        if forced.rows.holds(next.second, next.first) {
            return false;
        }
        forced.close_with(next.first, next.second);
    }
    true
}

/// The pairs of events that a relation and forbidden triples force, or `None` exactly where an event is forced before
/// itself. Both are on the same events. Every order respects these pairs, and where there is `None`, there is no order.
pub fn forced_precedence(before: &Rows, between: &Between) -> Option<Rows>
    requires { rows_len before.now ≡ between.now.len }
    ensures cycle { IsNone result ↔ HasForcedCycle (Holds before.now) (Forbids between.now) }
    ensures len { IfSome result (λ forced. rows_len forced ≡ rows_len before.now) }
    ensures pairs { IfSome result (λ forced. (a d : ℕ) → Holds forced a d ↔ IsForced (Holds before.now) (Forbids between.now) a d) }
{
    let mut forced = TwoWayRows::closed(before);
    if force(&mut forced, between) {
        Some(forced.rows)
    } else {
        None
    }
}
