//! The search of all choices by the thread that calls, given up after some steps, before workers share the choices: what ends sooner
//! mostly takes several workers longer, since each piece is searched for its outcomes anew (decision 63).

ghost use Rattle.std.specs.Prelude.{length, IfSome};
ghost use Rattle.lit_paths.specs.Choice.{choices_of};
ghost use Rattle.lit_search.specs.Report.{IsReport, in_range};

use lit_paths::Plan;
use lit_search::{Found, Heartbeat, search_range_with};
use std::alloc::{AllocError, Global};
use std::sync::atomic::{AtomicU64, Ordering};

/// How long the search may last, in steps of a product: some tens of milliseconds, since most of these record an outcome.
const FEW_STEPS: u64 = 96_000;

/// As how many of them a step counts that propagates.
const PROPAGATING: u64 = 16;

/// A heartbeat that ends a search after a few steps.
#[derive(Drop)]
struct FewSteps {
    made: AtomicU64,
}

impl FewSteps {
    /// Counts more steps.
    fn count(&self, steps: u64) -> Result<(), AllocError> {
        if self.made.fetch_add(steps, Ordering::SeqCst) < FEW_STEPS {
            Ok(())
        } else {
            Err(AllocError)
        }
    }
}

impl Heartbeat for FewSteps {
    fn beat(&self) -> Result<(), AllocError> {
        self.count(PROPAGATING)
    }

    fn product_beat(&self) -> Result<(), AllocError> {
        self.count(1)
    }
}

/// The report on all choices, if a few steps find it. Where memory is refused, the workers ask for it anew.
pub(crate) fn found_soon(alloc: Global, plan: &Plan<'_>) -> Option<Found>
    ensures { IfSome result (IsReport plan.now (in_range 0 (length (choices_of plan.now)))) }
{
    let steps = FewSteps {
        made: AtomicU64::new(0),
    };
    search_range_with(alloc, plan, &steps, 0, plan.total()).ok()
}
