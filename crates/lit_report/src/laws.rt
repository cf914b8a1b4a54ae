//! A law on the text of a report. The function computes nothing: its contract is a theorem.

ghost use Rattle.std.specs.Prelude.{◌≡◌};
ghost use Rattle.lit_syntax.specs.Syntax.{Litmus};
ghost use Rattle.lit_paths.specs.Execution.{Execution, execution_choice, execution_events, IsCandidateExecution};
ghost use Rattle.lit_report.specs.ChoiceEvents.{choice_events};

use lit_paths::laws::{candidate_executions_have_choices, combinations_are_listed};

/// The events of a choice, which a report names, are those of each candidate execution that has the choice.
pub fn choices_have_the_events_of_their_executions()
    ensures { (t : Litmus) (x : Execution) → IsCandidateExecution t x → choice_events t (execution_choice x) ≡ execution_events t x }
{
    candidate_executions_have_choices();
    combinations_are_listed();
}
