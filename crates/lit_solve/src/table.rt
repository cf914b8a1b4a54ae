//! The table of outcomes that a search fills. The search's caller owns it (decision 33).

use lit_order::Order;
use std::alloc::AllocError;

/// A table of outcomes, each with its example: the number of a choice and a memory-order. A clause sees it as a list of entries,
/// in the order in which they were recorded.
pub trait OutcomeTable {
    ghost use Rattle.std.specs.Prelude.{◌≡◌, ◌↔◌, ◌++◌, ◌∷◌, [], List, IsTrue, OnOk, OnErr};
    ghost use Rattle.lit_valid.specs.Entry.{Entry, HasOutcome};

    ghost entries: { Self → List Entry };

    /// Whether it has an outcome.
    fn has(&self, outcome: &[u32]) -> bool
        ensures { IsTrue result ↔ HasOutcome (entries self.now) outcome.now };

    /// Records one more outcome, with its example.
    fn record(&mut self, outcome: &[u32], choice: u64, order: Order) -> Result<(), AllocError>
        requires { ¬ HasOutcome (entries self.old) outcome.now }
        ensures ok { OnOk result (entries self.new
            ≡ entries self.old ++ (record { outcome = outcome.now; choice = choice; order = order.items } ∷ [])) }
        ensures err { OnErr result (entries self.new ≡ entries self.old) };
}
