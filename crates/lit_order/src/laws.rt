//! Laws of forced pairs and of chains. The functions do nothing: their contracts are theorems.

ghost use Rattle.std.specs.Prelude.{◌≡◌, ◌↔◌, ℕ, List};
ghost use Rattle.lit_rel.specs.declared.rows.Rows.{Rows};
ghost use Rattle.lit_rel.specs.Between.{BetweenModel, Forbids};
ghost use Rattle.lit_rel.specs.Rows.{rows_len, Holds};
ghost use Rattle.lit_order.specs.declared.forced.Forced.{Forced};
ghost use Rattle.lit_order.specs.Forced.{AndPair, IsBefore, Refuses, forced_len};
ghost use Rattle.lit_order.specs.Forcing.{HasChain, IsForced};
ghost use Rattle.lit_order.specs.MemoryOrder.{StandsBefore, HaveSameOrders, IsOrderOf};

/// Each order of a relation and forbidden triples respects what they force. So where an event is forced before itself, there is no
/// order.
pub fn orders_respect_what_is_forced()
    ensures { (before : Rows) (between : BetweenModel) → rows_len before ≡ between.len →
        (order : List ℕ) → IsOrderOf (rows_len before) (Holds before) (Forbids between) order →
        (a d : ℕ) → IsForced (Holds before) (Forbids between) a d → StandsBefore order a d }
{}

/// The orders of the forced relation, with the same triples, are those of the given relation.
pub fn forcing_preserves_orders()
    ensures { (before : Rows) (between : BetweenModel) → rows_len before ≡ between.len → (order : List ℕ) →
        IsOrderOf (rows_len before) (Holds before) (Forbids between) order
        ↔ IsOrderOf (rows_len before) (IsForced (Holds before) (Forbids between)) (Forbids between) order }
{}

/// The orders of chains, with the same triples, are those of the pairs that the chains are of: of a relation, as
/// `Forced::open` takes it, and of what is before in a `Forced` with one pair more, as `Forced::with` adds it.
pub fn chains_preserve_orders()
    ensures opened { (before : Rows) (between : BetweenModel)
        → HaveSameOrders (rows_len before) (Holds before) (HasChain (Holds before)) (Forbids between) }
    ensures extended { (forced : Forced) (a d : ℕ)
        → HaveSameOrders (forced_len forced) (AndPair (IsBefore forced) a d) (HasChain (AndPair (IsBefore forced) a d)) (Refuses forced) }
{}
