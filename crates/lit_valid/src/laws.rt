//! Laws of valid executions, and of the completions of a part. The functions do nothing: their contracts are theorems.

ghost use Rattle.std.specs.Prelude.{◌≡◌, ◌↔◌, ℕ, List};
ghost use Rattle.lit_syntax.specs.Syntax.{IsLitmus, Litmus};
ghost use Rattle.lit_paths.specs.Members.{AreSources};
ghost use Rattle.lit_paths.specs.Execution.{Execution, execution_events};
ghost use Rattle.lit_rel.specs.Broken.{IsBroken};
ghost use Rattle.lit_rel.specs.Part.{PartModel, part_events};
ghost use Rattle.lit_order.specs.MemoryOrder.{IsMemoryOrder};
ghost use Rattle.lit_valid.specs.Completion.{Completes, HasCompletion, IsOnCombination};
ghost use Rattle.lit_valid.specs.Gives.{Gives};
ghost use Rattle.lit_valid.specs.Laws.{Laws};

use lit_paths::laws::{
    candidate_executions_have_choices, choices_are_listed, choices_are_on_combinations,
    choices_have_numbers, combinations_are_listed, combinations_are_walked, paths_tell_their_runs,
    runs_choose_for_each_read,
};
use lit_rel::laws::{byte_reads_are_of_events, relations_grow_with_bytes, values_stay};

/// The laws of the crates below that proofs cite together.
pub fn laws_below()
    ensures { Laws }
{
    combinations_are_walked();
    paths_tell_their_runs();
    runs_choose_for_each_read();
    combinations_are_listed();
    choices_are_listed();
    candidate_executions_have_choices();
    choices_have_numbers();
    choices_are_on_combinations();
    relations_grow_with_bytes();
    values_stay();
    byte_reads_are_of_events();
}

/// A choice of a test that a text can say has one outcome at most.
pub fn choices_have_one_outcome()
    ensures { (t : Litmus) (n : ℕ) (some other : List ℕ) → IsLitmus t → Gives t n some → Gives t n other → some ≡ other }
{
    laws_below();
}

/// A broken part has no completion.
pub fn broken_parts_have_no_completion()
    ensures { (part : PartModel) (x : Execution) → IsOnCombination part → IsBroken part → ¬ Completes part x }
{
    laws_below();
}

/// Each memory-order of a completion is one of its part: it respects the part's happens-before, and no event stands between a source and
/// its read that the part forbids there.
pub fn orders_of_completions_respect_parts()
    ensures { (part : PartModel) (x : Execution) (order : List ℕ) → Completes part x
        → IsMemoryOrder (execution_events part.test x) x.sources order → IsMemoryOrder (part_events part) part.sources order }
{
    laws_below();
}

/// A part that is not broken, and in which each byte read has a source, has a completion exactly if some order respects its happens-before
/// and avoids what it forbids.
pub fn whole_parts_are_decided_by_orders()
    ensures { (part : PartModel) → IsOnCombination part → AreSources (part_events part) part.sources → ¬ IsBroken part
        → HasCompletion part ↔ ((order : List ℕ) × IsMemoryOrder (part_events part) part.sources order) }
{
    laws_below();
}
