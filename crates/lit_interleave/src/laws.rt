//! Laws of sequential executions and of schedules. The functions do nothing: their contracts are theorems.

ghost use Rattle.std.specs.Prelude.{ℕ, ◌<◌, All, List, length};
ghost use Rattle.lit_syntax.specs.Syntax.{IsLitmus, Litmus};
ghost use Rattle.lit_paths.specs.Execution.{Execution, IsCandidateExecution, execution_events};
ghost use Rattle.lit_order.specs.MemoryOrder.{IsMemoryOrder};
ghost use Rattle.lit_valid.specs.ValidExecution.{HasValidChosenReads, IsValidExecution};
ghost use Rattle.lit_interleave.specs.InTurn.{HasExecution};
ghost use Rattle.lit_interleave.specs.Sequential.{IsSequential};

use lit_rel::laws::byte_reads_are_of_events;

/// A candidate execution with valid chosen reads, in which each read takes what was written last in one order of all
/// events, is valid, and that order is a memory-order of it.
pub fn sequential_executions_are_valid()
    ensures { (t : Litmus) (x : Execution) (order : List ℕ) → IsCandidateExecution t x → HasValidChosenReads t x
        → IsSequential (execution_events t x) x.sources order
        → IsValidExecution t x × IsMemoryOrder (execution_events t x) x.sources order }
{
    byte_reads_are_of_events();
}

/// The outcome of a schedule is that of a valid execution. Each of its reads takes what was written last before it in
/// the order of the turns, and that order is a memory-order of it.
pub fn interleavings_are_valid()
    ensures { (t : Litmus) (schedule : List ℕ) → IsLitmus t → All (λ agent. agent < length t.agents) schedule → HasExecution t schedule }
{
    byte_reads_are_of_events();
    sequential_executions_are_valid();
}
