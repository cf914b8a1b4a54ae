//! Finds memory-orders by backtracking, event by event.

ghost use Rattle.std.specs.Prelude.{◌≡◌, ◌≤◌, IsTrue};
ghost use Rattle.arrayvec.specs.ArrayVec.{array_vec_len};
ghost use Rattle.lit_order.specs.Internal.Constrained.{BeginsNone, IsBegun, IsLeastOf, constrained_len};

use crate::constraints::Constraints;
use crate::order::{Order, OrderFinder};
use lit_rel::{Between, EventSet, Rows, TwoWayRows, converse_of};

/// Builds orders event by event, the least event that can stand next first, and backtracks where none can be completed.
#[derive(Clone, Copy, Debug, Default, PartialEq, Eq)]
pub struct PlainFinder;

impl OrderFinder for PlainFinder {
    fn least_order(&self, before: &Rows, between: &Between) -> Option<Order> {
        let converse = converse_of(before);
        let before = TwoWayRows {
            rows: *before,
            converse,
        };
        let constraints = Constraints::new(&before, between);
        let mut order = Order::new();
        if extend(&mut order, EventSet::new(), &constraints) {
            Some(order)
        } else {
            None
        }
    }
}

/// Makes the prefix of an order, whose events are those in `placed`, the least order with that prefix, and says whether
/// there is one. If not, the prefix is unchanged.
fn extend(order: &mut Order, placed: EventSet, constraints: &Constraints<'_>) -> bool
    requires fits { array_vec_len order.old ≤ constrained_len constraints.now }
    requires begun { IsBegun constraints.now placed order.old.items }
    ensures found { IsTrue result → IsLeastOf constraints.now order.old.items order.new.items }
    ensures none { ¬ IsTrue result → BeginsNone constraints.now order.old.items }
    ensures unchanged { ¬ IsTrue result → order.new.items ≡ order.old.items }
{
    if order.len() == constraints.len() {
        return true;
    }
    for event in 0..constraints.len() {
        if constraints.can_stand_next(event, placed) {
            order.push(event as u8);
            if extend(order, placed.with(event), constraints) {
                return true;
            }
            order.pop();
        }
    }
    false
}
