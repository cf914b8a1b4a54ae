//! The law of finders of memory-orders (ECMA-262, 2024, 29.7.4).

use arrayvec::ArrayVec;
use lit_paths::EVENT_LIMIT;
use lit_rel::{Between, Rows};

/// All events of a candidate execution, by number, each once, from the first to the last.
pub type Order = ArrayVec<u8, EVENT_LIMIT>;

/// A way to find the least memory-order.
pub trait OrderFinder {
    ghost use Rattle.std.specs.Prelude.{◌≡◌, List, ℕ, IfSome, IfNone};
    ghost use Rattle.lit_rel.specs.Between.{Forbids};
    ghost use Rattle.lit_rel.specs.Rows.{rows_len, Holds};
    ghost use Rattle.lit_order.specs.MemoryOrder.{IsOrderOf, IsLeastOrderOf};

    /// The least list of all events, each once, in which each pair of `before` stands in that order and no event that `between` forbids
    /// after a w and before an r stands there. `None` exactly where there is none. Both are on the same events.
    fn least_order(&self, before: &Rows, between: &Between) -> Option<Order>
        requires { rows_len before.now ≡ between.now.len }
        ensures found { IfSome result (λ order.
            IsLeastOrderOf (rows_len before.now) (Holds before.now) (Forbids between.now) order.items) }
        ensures none { IfNone result
            ((order : List ℕ) → ¬ IsOrderOf (rows_len before.now) (Holds before.now) (Forbids between.now) order) };
}
