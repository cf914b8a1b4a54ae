//! Finds memory-orders with propagation of forced pairs.

ghost use Rattle.std.specs.Prelude.{◌≡◌, ◌⊎◌, ℕ, ◌<◌, ◌≤◌, ◌↔◌, IsTrue, IfNone, IfSome, List};
ghost use Rattle.arrayvec.specs.ArrayVec.{array_vec_len};
ghost use Rattle.lit_rel.specs.Between.{Forbids};
ghost use Rattle.lit_rel.specs.EventSet.{HasEvent};
ghost use Rattle.lit_rel.specs.Rows.{rows_len, Holds};
ghost use Rattle.lit_order.specs.Internal.Constrained.{BeginsNone, ComesBefore, IsBegun, IsLeastOf, MayNotStand, constrained_len};
ghost use Rattle.lit_order.specs.Internal.Restricted.{IsRestricted};
ghost use Rattle.lit_order.specs.MemoryOrder.{IsLeastOrderOf, IsOrderOf};

use crate::constraints::Constraints;
use crate::forced::has_order;
use crate::forcing::force;
use crate::order::{Order, OrderFinder};
use lit_rel::{Between, EventSet, Rows, TwoWayRows};

/// Propagates what is forced, and then places the least event that can stand next, again and again: so it seldom has to
/// search. Only where no event can stand next does it start again, and checks for each event that it places whether some
/// order has it there.
#[derive(Clone, Copy, Debug, Default, PartialEq, Eq)]
pub struct ForcedFinder;

impl OrderFinder for ForcedFinder {
    fn least_order(&self, before: &Rows, between: &Between) -> Option<Order> {
        let mut forced = TwoWayRows::closed(before);
        if !force(&mut forced, between) {
            return None;
        }
        least_of(&forced, between)
    }
}

/// The least order of a relation and forbidden triples, both on the same events, or `None` exactly where there is none. It
/// is quick where the relation has all that the triples force.
pub fn least_of(forced: &TwoWayRows, between: &Between) -> Option<Order>
    requires { rows_len forced.now.rows ≡ between.now.len }
    ensures found { IfSome result (λ order.
        IsLeastOrderOf (rows_len forced.now.rows) (Holds forced.now.rows) (Forbids between.now) order.items) }
    ensures none { IfNone result
        ((order : List ℕ) → ¬ IsOrderOf (rows_len forced.now.rows) (Holds forced.now.rows) (Forbids between.now) order) }
{
    let constraints = Constraints::new(forced, between);
    // The greedy extension is tried first: it needs no search, and it succeeds wherever it never runs into a dead end.
    let mut greedy = Order::new();
    if extend_greedily(&mut greedy, EventSet::new(), &constraints) {
        return Some(greedy);
    }
    let mut order = Order::new();
    if complete(&mut order, EventSet::new(), &forced.rows, &constraints) {
        Some(order)
    } else {
        None
    }
}

/// Extends the prefix of an order, whose events are those in `placed`, by the least event that can stand next, until none
/// can. Says whether all events are placed then: the order is the least one with that prefix.
fn extend_greedily(order: &mut Order, placed: EventSet, constraints: &Constraints<'_>) -> bool
    requires fits { array_vec_len order.old ≤ constrained_len constraints.now }
    requires begun { IsBegun constraints.now placed order.old.items }
    ensures { IsTrue result → IsLeastOf constraints.now order.old.items order.new.items }
{
    if order.len() == constraints.len() {
        return true;
    }
    let Some(event) = constraints.next_event(placed) else {
        return false;
    };
    order.push(event as u8);
    extend_greedily(order, placed.with(event), constraints)
}

/// Makes the prefix of an order, whose events are those in `placed`, the least order with that prefix, and says whether
/// there is one. The orders of `restriction` are those with the prefix.
fn complete(
    order: &mut Order,
    placed: EventSet,
    restriction: &Rows,
    constraints: &Constraints<'_>,
) -> bool
    requires fits { array_vec_len order.old ≤ constrained_len constraints.now }
    requires begun { IsBegun constraints.now placed order.old.items }
    requires len { rows_len restriction.now ≡ constrained_len constraints.now }
    requires restricted { IsRestricted (constrained_len constraints.now) (ComesBefore constraints.now) (MayNotStand constraints.now)
        (Holds restriction.now) order.old.items }
    ensures found { IsTrue result → IsLeastOf constraints.now order.old.items order.new.items }
    ensures none { ¬ IsTrue result → BeginsNone constraints.now order.old.items }
{
    if order.len() == constraints.len() {
        return true;
    }
    for event in 0..constraints.len() {
        if constraints.can_stand_next(event, placed) {
            let next = placed_next(restriction, event, placed.with(event));
            if has_order(&next, constraints.between()) {
                order.push(event as u8);
                return complete(order, placed.with(event), &next, constraints);
            }
        }
    }
    false
}

/// The relation with an event put before all events that are not placed.
fn placed_next(rows: &Rows, event: usize, placed: EventSet) -> Rows
    requires { event < rows_len rows.now }
    ensures len { rows_len result ≡ rows_len rows.now }
    ensures pairs { (a d : ℕ) → Holds result a d ↔ (Holds rows.now a d ⊎ ((a ≡ event) × (d < rows_len rows.now) × ¬ HasEvent placed d)) }
{
    let mut next = *rows;
    for other in 0..rows.len() {
        if !placed.contains(other) {
            next.put(event, other);
        }
    }
    next
}
