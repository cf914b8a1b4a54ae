//! Laws of boxes and their completions. The functions do nothing: their contracts are theorems.

ghost use Rattle.std.specs.Prelude.{◌≡◌, ◌↔◌, ℕ, ◌<◌, List, None, Some, length, slice_get};
ghost use Rattle.lit_paths.specs.ByteReads.{byte_reads};
ghost use Rattle.lit_paths.specs.Execution.{Execution, execution_events};
ghost use Rattle.lit_paths.specs.Plan.{AreEventsIn};
ghost use Rattle.lit_rel.specs.Broken.{HasFalseGuardOn};
ghost use Rattle.lit_rel.specs.DataRace.{HasDataRace};
ghost use Rattle.lit_order.specs.MemoryOrder.{HasOrder, IsMemoryOrder, IsOrderOf, StandsBefore};
ghost use Rattle.lit_solve.specs.Box.{Box, HasEmptyDomain, IsBox, IsWithin, box_events};
ghost use Rattle.lit_solve.specs.Completion.{HasSolution, IsCompletion};
ghost use Rattle.lit_solve.specs.DataRace.{CanRaceIn, MayRaceIn};
ghost use Rattle.lit_solve.specs.Fill.{AreCoherentSources, AreSourcesIn, CanFill, IsFilled, IsLeaf};
ghost use Rattle.lit_solve.specs.Given.{GivenIn, HappensBeforeIn, IsForbiddenIn, IsForcedIn};
ghost use Rattle.lit_solve.specs.declared.goal.Goal.TheVariants.{Any, Race};
ghost use Rattle.lit_solve.specs.Prunable.{IsPrunable, IsRefuted};

use lit_rel::laws::{byte_reads_are_of_events, refused_bytes_make_guards_false};
use lit_valid::laws::laws_below;

/// Propagation is monotonic: where domains shrink and none is empty, the given sources, their relations and the forced pairs grow.
pub fn relations_grow_as_domains_shrink()
    ensures given { (inner outer : Box) → IsWithin inner outer → ¬ HasEmptyDomain inner → (r b w : ℕ) → GivenIn outer r b w
        → GivenIn inner r b w }
    ensures happens_before { (inner outer : Box) → IsWithin inner outer → ¬ HasEmptyDomain inner → (a d : ℕ)
        → HappensBeforeIn outer a d → HappensBeforeIn inner a d }
    ensures forbidden { (inner outer : Box) → IsWithin inner outer → ¬ HasEmptyDomain inner → (w r v : ℕ)
        → IsForbiddenIn outer w r v → IsForbiddenIn inner w r v }
    ensures forced { (inner outer : Box) → IsWithin inner outer → ¬ HasEmptyDomain inner → (a d : ℕ) → IsForcedIn outer a d
        → IsForcedIn inner a d }
{}

/// Each memory-order of a completion respects what the box forces.
pub fn completions_respect_what_is_forced()
    ensures { (box : Box) (x : Execution) (order : List ℕ) → IsBox box → IsCompletion box x
        → IsMemoryOrder (execution_events box.test x) x.sources order → (a d : ℕ) → IsForcedIn box a d → StandsBefore order a d }
{
    byte_reads_are_of_events();
}

/// Pruning is sound: no completion has a source that can be pruned.
pub fn completions_have_no_prunable_source()
    ensures { (box : Box) (x : Execution) (k r b w : ℕ) → IsBox box → AreEventsIn box.test.bytes (box_events box) → IsCompletion box x
        → slice_get (byte_reads (box_events box)) k ≡ Some (r, b) → slice_get x.sources k ≡ Some w → ¬ IsPrunable box r b w }
{
    laws_below();
    refused_bytes_make_guards_false();
}

/// A refuted box is infeasible.
pub fn refuted_boxes_have_no_completion()
    ensures { (box : Box) (x : Execution) → IsBox box → IsRefuted box → ¬ IsCompletion box x }
{
    laws_below();
}

/// A completion fills each read, so a box with a read that can't be filled is infeasible.
pub fn completions_fill_each_read()
    ensures { (box : Box) (x : Execution) (r : ℕ) → IsBox box → IsCompletion box x → r < length (box_events box) → CanFill box r }
{
    laws_below();
}

/// Take a leaf whose sources are coherent and whose happens-before is acyclic. Sources that lie in it are those of a completion exactly if
/// they fill each read, no guard on a register that was not written is false, and there is an order of what is given.
pub fn leaves_are_filled_read_by_read()
    ensures { (box : Box) (sources : List ℕ) → IsBox box → IsLeaf box → AreCoherentSources box → ((e : ℕ) → ¬ HappensBeforeIn box e e)
        → AreSourcesIn box sources → ((x : Execution) × IsCompletion box x × (x.sources ≡ sources))
        ↔ (((r : ℕ) → r < length (box_events box) → IsFilled box r sources) × (¬ HasFalseGuardOn box.test box.combination None 0)
        × HasOrder (length (box_events box)) (HappensBeforeIn box) (IsForbiddenIn box)) }
{
    laws_below();
}

/// The memory-orders of a completion of a leaf are the orders of what the leaf gives.
pub fn leaves_have_one_order()
    ensures { (box : Box) (x : Execution) (order : List ℕ) → IsBox box → IsLeaf box → IsCompletion box x
        → IsMemoryOrder (execution_events box.test x) x.sources order
        ↔ IsOrderOf (length (box_events box)) (HappensBeforeIn box) (IsForbiddenIn box) order }
{
    laws_below();
}

/// If each read of a box can be filled, some sources fill all of them at once.
pub fn reads_are_filled_together()
    ensures { (box : Box) → ((r : ℕ) → r < length (box_events box) → CanFill box r)
        → (sources : List ℕ) × AreSourcesIn box sources × ((r : ℕ) → r < length (box_events box) → IsFilled box r sources) }
{
    laws_below();
}

/// The possible data races of a box over-approximate those of its completions: where a read may read from each source with which it can be
/// filled, by what is given; and where it may read from each source in the domains of its bytes, by what all sources order.
pub fn boxes_bound_races()
    ensures filled { (box : Box) (x : Execution) → IsBox box → IsCompletion box x
        → HasDataRace (execution_events box.test x) x.sources → CanRaceIn box }
    ensures may { (box : Box) (x : Execution) → IsBox box → IsCompletion box x
        → HasDataRace (execution_events box.test x) x.sources → MayRaceIn box }
{
    laws_below();
}

/// A leaf whose sources are coherent, and that has a completion, has one with a data race exactly if what it gives has one: of two writes,
/// or of a read and a source with which it can be filled.
pub fn leaves_race_as_reads_are_filled()
    ensures { (box : Box) → IsBox box → IsLeaf box → AreCoherentSources box → HasSolution box Any → HasSolution box Race ↔ CanRaceIn box }
{
    laws_below();
}
