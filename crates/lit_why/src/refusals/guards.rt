//! The first guard of a path that is false of the value read.

ghost use Rattle.std.specs.Prelude.{◌≡◌, ◌↔◌, ℕ, ◌<◌, Some, IsTrue, MatchOption, slice_get};
ghost use Rattle.lit_paths.specs.declared.path.Tested.{Tested as PathGuard};
ghost use Rattle.lit_valid.specs.PartOutcome.{observed_value};
ghost use Rattle.lit_why.specs.Internal.Refusing.{IsFirstFalse, IsLeastFalse};
ghost use Rattle.lit_why.specs.Refusal.{HasNoFalse, IsFalseIn};

use lit_paths::Tested;
use lit_rel::{Part, tested_read};

/// The value of a read by the part's sources, or 0 where there is none.
fn value_asked(part: &Part<'_>, asked: Option<usize>) -> u32
    ensures { result ≡ observed_value part.now asked }
{
    let Some(read) = asked else {
        return 0;
    };
    if read < part.combination().events().len() {
        part.value(read as u8)
    } else {
        0
    }
}

/// Whether a guard, on a path whose first event has this number, is false.
fn is_false(part: &Part<'_>, first: u8, guard: Tested) -> bool
    ensures { IsTrue result ↔ IsFalseIn part.now first guard }
{
    let value = value_asked(part, tested_read(guard, first));
    (value == guard.value) != guard.equal
}

/// The place of the first of these guards that is false.
fn false_among(part: &Part<'_>, first: u8, guards: &[Tested]) -> Option<usize>
    ensures { MatchOption result ((k : ℕ) (guard : PathGuard) → slice_get guards.now k ≡ Some guard → ¬ IsFalseIn part.now first guard)
        (IsFirstFalse part.now first guards.now) }
{
    for (place, guard) in guards.iter().enumerate() {
        if is_false(part, first, *guard) {
            return Some(place);
        }
    }
    None
}

/// The agent and the place of the first guard that is false.
pub(crate) fn false_guard(part: &Part<'_>) -> Option<(usize, usize)>
    ensures { MatchOption result (HasNoFalse part.now) (λ found. IsLeastFalse part.now found.0 found.1) }
{
    let combination = part.combination();
    for agent in 0..combination.test().agents() {
        let guards = combination.path(agent).tests();
        if let Some(place) = false_among(part, combination.first_event(agent), guards) {
            return Some((agent, place));
        }
    }
    None
}
