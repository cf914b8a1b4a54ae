//! Guards of paths that are false of the values read.

ghost use Rattle.std.specs.Prelude.{◌≡◌, ◌↔◌, ℕ, ◌<◌, ◌≤◌, None, Some, false, IsTrue, length, slice_get};
ghost use Rattle.lit_paths.specs.declared.byte_reads.ByteRead.{ByteRead as Read};
ghost use Rattle.lit_paths.specs.Plan.{IsWalkIn, events_in, walk_in};
ghost use Rattle.lit_paths.specs.Run.{compares};
ghost use Rattle.lit_rel.specs.Broken.{HasFalseGuard, HasFalseGuardOn, number_on};
ghost use Rattle.lit_rel.specs.Internal.Given.{part_of};
ghost use Rattle.lit_rel.specs.Internal.FalseGuards.{HasFalse};

use crate::given::Given;
use lit_paths::{ByteRead, Combination, Tested};

/// The number of the read whose value a guard tests, on a path whose first event has number `first`; `None` for a register
/// that was not written.
pub fn tested_read(test: Tested, first: u8) -> Option<usize>
    ensures { result ≡ number_on first test.on }
{
    test.on.map(|place| usize::from(first) + usize::from(place))
}

/// Whether a guard is false of a value.
fn is_false(test: Tested, value: u32) -> bool
    ensures { IsTrue result ↔ (compares test.equal value test.value ≡ false) }
{
    (value == test.value) != test.equal
}

/// Whether some guard asks about an event, or about a register that was not written, and is false of a value.
fn has_false(tests: &[Tested], first: u8, asked: Option<usize>, value: u32) -> bool
    ensures { IsTrue result ↔ HasFalse tests.now first asked value }
{
    for test in tests {
        if tested_read(*test, first) == asked && is_false(*test, value) {
            return true;
        }
    }
    false
}

/// Whether some guard of a path of the combination asks about an event, or about a register that was not written, and is
/// false of a value.
pub fn has_false_guard(combination: &Combination<'_>, asked: Option<usize>, value: u32) -> bool
    ensures value { IsTrue result ↔ HasFalseGuardOn combination.now.0 combination.now.1 asked value }
    ensures walks { ¬ IsTrue result → (agent : ℕ) → agent < length combination.now.0.agents
        → IsWalkIn combination.now.0 combination.now.1 agent (walk_in combination.now.0 combination.now.1 agent) }
{
    for agent in 0..combination.test().agents() {
        let tests = combination.path(agent).tests();
        if has_false(tests, combination.first_event(agent), asked, value) {
            return true;
        }
    }
    false
}

/// Whether the first `count` byte reads have all bytes of a read: later byte reads are of other reads.
fn is_given_whole(reads: &[ByteRead], count: usize, read: usize) -> bool
    ensures { IsTrue result
        ↔ ((place : ℕ) (later : Read) → count ≤ place → slice_get reads.now place ≡ Some later → ¬ (later.read ≡ read)) }
{
    for place in count..reads.len() {
        if usize::from(reads[place].read) == read {
            return false;
        }
    }
    true
}

/// Whether a guard of a path is false: of 0 in a register that was not written, or of the value of a read all of whose bytes
/// have a source. The events are those of the combination.
pub(crate) fn contradicts_guard(combination: &Combination<'_>, given: &Given<'_>) -> bool
    requires { given.now.events.now ≡ events_in combination.now.0 combination.now.1 }
    ensures { IsTrue result ↔ HasFalseGuard (part_of combination.now.0 combination.now.1 given.now.bytes.now) }
{
    if has_false_guard(combination, None, 0) {
        return true;
    }
    let reads = combination.byte_reads();
    for read in 0..combination.events().len() {
        if is_given_whole(reads, given.bytes.len(), read)
            && has_false_guard(combination, Some(read), given.value(read))
        {
            return true;
        }
    }
    false
}
