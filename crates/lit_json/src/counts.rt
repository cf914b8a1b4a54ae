//! How large a test's executions are, where it has a plan.

ghost use Rattle.std.specs.Prelude.{◌≡◌, IfOk};
ghost use Rattle.serde_json.specs.View.{view};
ghost use Rattle.lit_json.specs.Told.{counts_data};

use lit_paths::Plan;
use serde_json::{Value, json};
use std::alloc::{AllocError, Global};

/// How many combinations of paths and how many choices there are.
pub(crate) fn counts_value(alloc: Global, plan: &Plan<'_>) -> Result<Value, AllocError>
    ensures { IfOk result (λ v. view v ≡ counts_data plan.now) }
{
    json!(in alloc; {"combinations": plan.combinations() as u64, "choices": plan.total()})
}
