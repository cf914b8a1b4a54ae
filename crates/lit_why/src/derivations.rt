//! Derivations: proofs that there is no memory-order (ECMA-262, 2024, 29.7.4), line by line.

mod following;
pub(crate) mod lines;
mod searching;
mod used_lines;

ghost use Rattle.std.specs.Prelude.{◌≡◌, ℕ, ◌<◌, IfOk, MatchOption};
ghost use Rattle.lit_order.specs.Forcing.{HasForcedCycle};
ghost use Rattle.lit_rel.specs.Between.{Forbids};
ghost use Rattle.lit_rel.specs.Rows.{Holds, rows_len};
ghost use Rattle.lit_why.specs.Derivation.{IsDerivationBy};

use crate::derivations::lines::{DerivationLine, Reason};
use crate::derivations::searching::lines_to_cycle;
use crate::derivations::used_lines::only_used;
use lit_rel::{Between, Rows};
use std::alloc::{AllocError, Global};

/// The least event that a relation has before itself.
pub(crate) fn first_before_itself(before: &Rows) -> Option<usize>
    ensures { MatchOption result ((e : ℕ) → ¬ Holds before.now e e)
        (λ event. Holds before.now event event × ((e : ℕ) → e < event → ¬ Holds before.now e e)) }
{
    for event in 0..before.len() {
        if before.holds(event, event) {
            return Some(event);
        }
    }
    None
}

/// A derivation that no order respects a relation, as happens-before, and avoids triples of as many events: precedences that every such
/// order would have to respect. Each line follows from the relation, from two earlier lines, or from an earlier line and a triple; the last
/// has an event before itself. Each line but the last is cited by a later one. `None` exactly where no event is forced before itself, so
/// that there is no derivation; there may be no order all the same. Fails only where memory is refused.
pub fn derivation(
    alloc: Global,
    before: &Rows,
    between: &Between,
) -> Result<Option<Vec<DerivationLine>>, AllocError>
    requires { rows_len before.now ≡ between.now.len }
    ensures { IfOk result (λ found. MatchOption found (¬ HasForcedCycle (Holds before.now) (Forbids between.now))
        (λ lines. IsDerivationBy (Holds before.now) (Forbids between.now) lines.items)) }
{
    // `lines_to_cycle` needs a relation without a cycle.
    if let Some(event) = first_before_itself(before) {
        let mut lines = Vec::new(alloc);
        lines.push(DerivationLine {
            before: event as u8,
            after: event as u8,
            reason: Reason::HappensBefore,
        })?;
        return Ok(Some(lines));
    }
    match lines_to_cycle(alloc, before, between)? {
        Some(lines) => Ok(Some(only_used(alloc, lines.as_slice())?)),
        None => Ok(None),
    }
}
