//! Whether a test's condition holds of its outcomes.

ghost use Rattle.std.specs.Prelude.{◌≡◌, ℕ, ◌<◌, true, false, not, length};
ghost use Rattle.lit_paths.specs.Outcome.{names_of};
ghost use Rattle.lit_search.specs.Report.{entry_at};
ghost use Rattle.lit_report.specs.Verdict.{IsVerdict, verdict_of};
ghost use Rattle.lit_report.specs.Internal.Judging.{AllAnswer, SomeAnswers};

use lit_paths::Plan;
use lit_search::Found;

/// The verdict on a test: whether all, some or none of its outcomes meet its condition.
#[derive(Clone, Copy, Debug, PartialEq, Eq)]
pub enum Verdict {
    /// There is an outcome, and all meet the condition.
    Always,
    /// Some outcome meets it, and some does not.
    Sometimes,
    /// No outcome meets it.
    Never,
}

impl Verdict {
    ghost use Rattle.lit_report.specs.ReportText.{verdict_text};

    /// Its word in a report.
    pub fn as_str(self) -> &'static str
        ensures { result.now ≡ verdict_text self }
    {
        match self {
            Verdict::Always => "always",
            Verdict::Sometimes => "sometimes",
            Verdict::Never => "never",
        }
    }
}

/// Whether some outcome meets the condition, or, where `wanted` is false, whether some does not.
fn has_answer(plan: &Plan<'_>, found: &Found, wanted: bool) -> bool
    requires { (i : ℕ) → i < length found.now.entries → length (entry_at found.now i).outcome ≡ length (names_of plan.now) }
    ensures some { result ≡ true → SomeAnswers plan.now found.now (length found.now.entries) wanted }
    ensures none { result ≡ false → AllAnswer plan.now found.now (length found.now.entries) (not wanted) }
{
    for place in 0..found.len() {
        if plan.meets(found.outcome(place)) == wanted {
            return true;
        }
    }
    false
}

/// The verdict on a test, from all its outcomes.
pub fn verdict_on(plan: &Plan<'_>, found: &Found) -> Verdict
    requires { (i : ℕ) → i < length found.now.entries → length (entry_at found.now i).outcome ≡ length (names_of plan.now) }
    ensures { IsVerdict plan.now found.now result }
{
    let met = has_answer(plan, found, true);
    let unmet = has_answer(plan, found, false);
    verdict_from(met, unmet)
}

/// The verdict on a test, from whether some outcome meets its condition and whether some does not.
pub fn verdict_from(met: bool, unmet: bool) -> Verdict
    ensures { result ≡ verdict_of met unmet }
{
    if !met {
        return Verdict::Never;
    }
    if !unmet {
        return Verdict::Always;
    }
    Verdict::Sometimes
}
