//! Laws on derivations, refusals and attempts. The functions compute nothing: their contracts are theorems.

ghost use Rattle.std.specs.Prelude.{◌≡◌, ◌≢◌, ◌↔◌, ℕ, ◌<◌, List, Some, length, slice_get};
ghost use Rattle.lit_order.specs.Forcing.{HasForcedCycle};
ghost use Rattle.lit_order.specs.MemoryOrder.{IsMemoryOrder};
ghost use Rattle.lit_paths.specs.Choice.{choices_of};
ghost use Rattle.lit_paths.specs.Members.{AreSources};
ghost use Rattle.lit_paths.specs.Execution.{Execution, execution_choice};
ghost use Rattle.lit_paths.specs.Plan.{HasSources, IsOfCombination};
ghost use Rattle.lit_paths.specs.declared.event.Event.{Event as ExecutionEvent};
ghost use Rattle.lit_syntax.specs.Syntax.{IsLitmus, Litmus};
ghost use Rattle.lit_rel.specs.DataRace.{HasDataRace};
ghost use Rattle.lit_rel.specs.Forbidden.{IsForbidden};
ghost use Rattle.lit_rel.specs.HappensBefore.{HappensBefore};
ghost use Rattle.lit_rel.specs.Part.{IsComplete, PartModel, part_events};
ghost use Rattle.lit_valid.specs.Completion.{HasCompletion, IsOnCombination};
ghost use Rattle.lit_valid.specs.Class.{GivesClass};
ghost use Rattle.lit_valid.specs.Gives.{Gives, GivesRace};
ghost use Rattle.lit_valid.specs.ValidExecution.{IsValidExecution};
ghost use Rattle.lit_valid.specs.declared.class.Class.{Class};
ghost use Rattle.lit_solve.specs.declared.goal.Goal.TheVariants.{OfClass, Race};
ghost use Rattle.lit_why.specs.Attempts.{AreFirstAttempts, AreOneAttempt, TriesClass};
ghost use Rattle.lit_why.specs.LeastMixing.{HasNoneOn, IsShown};
ghost use Rattle.lit_why.specs.Refutation.{IsRefutedAttempt};
ghost use Rattle.lit_why.specs.declared.attempt.Attempt.{Attempt as ClassAttempt};
ghost use Rattle.lit_why.specs.declared.cases.covering.Case.{Case as RefutedCase};
ghost use Rattle.lit_why.specs.declared.refusals.causes.Refusal.{Refusal as PartRefusal};
ghost use Rattle.lit_why.specs.Refusal.{IsRefusal};
ghost use Rattle.lit_why.specs.declared.derivations.lines.DerivationLine.{DerivationLine as LineOfDerivation};
ghost use Rattle.lit_why.specs.Derivation.{IsDerivation};

use lit_rel::laws::byte_reads_are_of_events;
use lit_valid::laws::{
    broken_parts_have_no_completion, laws_below, whole_parts_are_decided_by_orders,
};

/// Where there is a derivation, an event is forced before itself. So `derivation` gives one exactly there.
pub fn derivations_end_in_forced_cycles()
    ensures { (events : List ExecutionEvent) (sources : List ℕ) (lines : List LineOfDerivation) → IsDerivation events sources lines
        → HasForcedCycle (HappensBefore events sources) (IsForbidden events sources) }
{}

/// No valid execution has the paths and sources of a complete part with a refusal. So `refusal` gives one exactly for such parts.
pub fn refused_parts_have_no_completion()
    ensures { (part : PartModel) (refusal : PartRefusal) → IsOnCombination part → AreSources (part_events part) part.sources
        → IsRefusal part refusal → ¬ HasCompletion part }
{
    broken_parts_have_no_completion();
    whole_parts_are_decided_by_orders();
}

/// Where one choice of an attempt tries a class, all choices of the attempt do.
pub fn choices_of_an_attempt_try_together()
    ensures { (t : Litmus) (class : Class) (m n : ℕ) → AreOneAttempt t m n → TriesClass t class m → TriesClass t class n }
{
    laws_below();
}

/// Where there is a derivation, no memory-order has the part's happens-before and avoids its forbidden triples. The converse does not hold.
pub fn derivations_leave_no_order()
    ensures { (part : PartModel) (lines : List LineOfDerivation) (order : List ℕ) → AreSources (part_events part) part.sources
        → IsDerivation (part_events part) part.sources lines → ¬ IsMemoryOrder (part_events part) part.sources order }
{
    byte_reads_are_of_events();
}

/// No choice of a refuted attempt has a valid execution.
pub fn refuted_attempts_have_no_execution()
    ensures { (t : Litmus) (m n : ℕ) (cases : List RefutedCase) (x : Execution) → IsRefutedAttempt t m cases → AreOneAttempt t m n
        → IsValidExecution t x → slice_get (choices_of t) n ≢ Some (execution_choice x) }
{
    laws_below();
}

/// A choice with a valid execution whose outcome is in a class tries the class, so it is of an attempt.
pub fn executions_try_their_class()
    ensures { (t : Litmus) (class : Class) (n : ℕ) → IsLitmus t → GivesClass t class n → TriesClass t class n }
{
    laws_below();
}

/// Where each attempt at a class is refuted, or there is none, no valid execution has an outcome in the class: the verdict of `Met` is then
/// never, and that of `Unmet` always.
pub fn refuted_attempts_decide_the_verdict()
    ensures { (t : Litmus) (class : Class) (most : ℕ) (attempts : List ClassAttempt) → IsLitmus t → AreFirstAttempts t class most attempts
        → length attempts < most
        → ((i : ℕ) (a : ClassAttempt) → slice_get attempts i ≡ Some a → (cases : List RefutedCase) × IsRefutedAttempt t a.choice cases)
        → (n : ℕ) → ¬ GivesClass t class n }
{
    laws_below();
}

/// Choices that differ only in bytes that are not asked about are of one attempt, and of no other: that two choices are of one attempt is
/// an equivalence of the choices that try a class.
pub fn attempts_part_the_choices()
    ensures itself { (t : Litmus) (class : Class) (n : ℕ) → TriesClass t class n → AreOneAttempt t n n }
    ensures back { (t : Litmus) (m n : ℕ) → AreOneAttempt t m n → AreOneAttempt t n m }
    ensures through { (t : Litmus) (l m n : ℕ) → AreOneAttempt t l m → AreOneAttempt t m n → AreOneAttempt t l n }
{
    laws_below();
}

/// Some valid execution with the choice that is shown meets the goal; where none is shown, no valid execution does.
pub fn shown_choices_meet_their_goal()
    ensures class { (t : Litmus) (class : Class) (n : ℕ) (sources order : List ℕ) → IsShown t (OfClass class) n sources order
        → GivesClass t class n }
    ensures no_class { (t : Litmus) (class : Class) → ((c : ℕ) → HasNoneOn t (OfClass class) c) → (n : ℕ) → ¬ GivesClass t class n }
    ensures race { (t : Litmus) (n : ℕ) (sources order : List ℕ) → IsShown t Race n sources order → GivesRace t n }
    ensures no_race { (t : Litmus) → ((c : ℕ) → HasNoneOn t Race c) → (n : ℕ) → ¬ GivesRace t n }
{
    laws_below();
}

/// A complete part has a completion exactly where some valid execution has its choice, and a data race where that has one.
pub fn complete_parts_are_choices()
    ensures outcome { (part : PartModel) (n : ℕ) → IsOfCombination part.test n part.combination → HasSources part.test n part.sources
        → IsComplete part → HasCompletion part ↔ ((outcome : List ℕ) × Gives part.test n outcome) }
    ensures race { (part : PartModel) (n : ℕ) → IsOfCombination part.test n part.combination → HasSources part.test n part.sources
        → IsComplete part → GivesRace part.test n → HasDataRace (part_events part) part.sources }
{
    laws_below();
}
