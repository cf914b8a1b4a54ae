//! Laws of reports, and of schedules in them. The functions do nothing: their contracts are theorems.

ghost use Rattle.std.specs.Prelude.{◌≡◌, ℕ, ◌<◌, ◌≤◌, All, Bool, List, length};
ghost use Rattle.lit_syntax.specs.Syntax.{IsLitmus, Litmus};
ghost use Rattle.lit_paths.specs.Choice.{choices_of};
ghost use Rattle.lit_search.specs.Report.{IsReport, Report, in_range};
ghost use Rattle.lit_search.specs.Reported.{IsReported};

pub use lit_interleave::laws::{interleavings_are_valid, sequential_executions_are_valid};
use lit_valid::laws::laws_below;
pub use lit_valid::laws::{
    broken_parts_have_no_completion, choices_have_one_outcome, orders_of_completions_respect_parts,
    whole_parts_are_decided_by_orders,
};

/// A set of choices has one report at most.
pub fn reports_are_unique()
    ensures { (t : Litmus) (numbers : ℕ → Bool) (a b : Report) → IsReport t numbers a → IsReport t numbers b → a ≡ b }
{}

/// Sets with the same of a test's choices have the same report.
pub fn reports_go_by_choices()
    ensures { (t : Litmus) (some others : ℕ → Bool) (report : Report)
        → ((n : ℕ) → n < length (choices_of t) → some n ≡ others n) → IsReport t some report → IsReport t others report }
{}

/// The report of all choices of a test has the outcome of each schedule.
pub fn interleavings_are_reported()
    ensures { (t : Litmus) (schedule : List ℕ) (report : Report) → IsLitmus t → All (λ agent. agent < length t.agents) schedule
        → IsReport t (in_range 0 (length (choices_of t))) report → IsReported t schedule report }
{
    laws_below();
    interleavings_are_valid();
}

/// The report of all choices of a test has an entry.
pub fn reports_have_an_entry()
    ensures { (t : Litmus) (report : Report) → IsLitmus t → IsReport t (in_range 0 (length (choices_of t))) report
        → 1 ≤ length report.entries }
{
    interleavings_are_reported();
}
