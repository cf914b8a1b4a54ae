//! Laws on the answers of a run. The functions compute nothing: their contracts are theorems.

ghost use Rattle.std.specs.Prelude.{◌≡◌, ◌≤◌, ℕ, Bool, false, List, length};
ghost use Rattle.lit_syntax.specs.Syntax.{Litmus};
ghost use Rattle.lit_paths.specs.Choice.{choices_of};
ghost use Rattle.lit_search.specs.Report.{Entry, Report, HasEntry, IsReport, in_range};
ghost use Rattle.lit_valid.specs.declared.class.Class.{Class};
ghost use Rattle.jslit.specs.Answer.{IsAnswerOn, IsComplete};
ghost use Rattle.jslit.specs.InterleavingAnswer.{IsInterleavingOn, IsOfEntry};
ghost use Rattle.jslit.specs.QuickAnswer.{IsFirstEntry};

use lit_paths::laws::{candidate_executions_have_choices, choices_are_listed};
use lit_read::laws::{spells_one_test, spells_within_limits};
use lit_search::laws::{interleavings_are_reported, reports_are_unique, reports_have_an_entry};

/// The report on all choices of a test has the outcome of each of its valid executions.
pub fn reports_are_complete()
    ensures { (t : Litmus) (report : Report) → IsReport t (in_range 0 (length (choices_of t))) report → IsComplete t report }
{
    candidate_executions_have_choices();
    choices_are_listed();
}

/// A text has at most one report and one quick report: the bytes of its answer are a function of the text.
pub fn answers_are_unique()
    ensures { (quick : Bool) (text answer other : List ℕ) → IsAnswerOn quick text answer → IsAnswerOn quick text other → answer ≡ other }
{
    spells_one_test();
    reports_are_unique();
}

/// What a quick report says of a class is what the whole report says of this outcome.
pub fn quick_answers_are_reported()
    ensures { (t : Litmus) (class : Class) (entry : Entry) (report : Report) → IsFirstEntry t class entry
        → IsReport t (in_range 0 (length (choices_of t))) report → HasEntry report.entries entry }
{}

/// The answer for a schedule on a text is that of an outcome in the text's report, and no report is empty.
pub fn schedules_are_reported()
    ensures reported { (schedule text answer whole : List ℕ) → IsInterleavingOn schedule text answer → (on : IsAnswerOn false text whole)
        → IsOfEntry on.test on.of_test.report answer }
    ensures some { (text whole : List ℕ) → (on : IsAnswerOn false text whole) → 1 ≤ length on.of_test.report.entries }
{
    spells_one_test();
    spells_within_limits();
    interleavings_are_reported();
    reports_have_an_entry();
}
