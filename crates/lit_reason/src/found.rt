//! The report of a choice alone: its outcome with its least memory-order, where it has one.

ghost use Rattle.std.specs.Prelude.{◌<◌, ◌+◌, IfOk, length};
ghost use Rattle.lit_paths.specs.Choice.{choices_of};
ghost use Rattle.lit_search.specs.Report.{IsReport, in_range};

use lit_paths::Plan;
use lit_search::{Found, search_range};
use std::alloc::{AllocError, Global};

/// The report of a choice alone. It has no outcome where no valid execution has the choice.
pub(crate) fn found_of(alloc: Global, plan: &Plan<'_>, choice: u64) -> Result<Found, AllocError>
    requires { choice < length (choices_of plan.now) }
    ensures { IfOk result (IsReport plan.now (in_range choice (choice + 1))) }
{
    // Tells the prover that numbers of choices are small, so that one more fits.
    let _total = plan.total();
    match search_range(alloc, &*plan, choice, choice + 1) {
        Ok(found) => Ok(found),
        Err(_) => Err(AllocError),
    }
}
