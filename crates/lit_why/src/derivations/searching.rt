//! Forward chaining: adds lines to a derivation, iteration by iteration, until one is a cycle.

ghost use Rattle.std.specs.Prelude.{◌≡◌, ◌⊎◌, ℕ, ◌<◌, IfOk, MatchOption, OnOk};
ghost use Rattle.lit_order.specs.Forcing.{HasForcedCycle};
ghost use Rattle.lit_rel.specs.Between.{Forbids};
ghost use Rattle.lit_rel.specs.Rows.{Holds, rows_len};
ghost use Rattle.lit_why.specs.Derivation.{AreOnce, EachFollows, EndsInCycle};
ghost use Rattle.lit_why.specs.Internal.Deriving.{AreGiven, HasLine, HasLines};

use crate::derivations::following::next_line;
use crate::derivations::lines::{DerivationLine, Reason};
use lit_rel::{Between, Rows};
use std::alloc::{AllocError, Global};

/// Adds a line for each pair of a relation whose first event this is.
fn push_given(
    lines: &mut Vec<DerivationLine>,
    before: &Rows,
    first: usize,
) -> Result<(), AllocError>
    requires { first < rows_len before.now }
    ensures given { OnOk result (AreGiven (Holds before.now) lines.old.items → AreGiven (Holds before.now) lines.new.items) }
    ensures retained { OnOk result ((e d : ℕ) → HasLine lines.old.items e d → HasLine lines.new.items e d) }
    ensures all { OnOk result ((d : ℕ) → Holds before.now first d → HasLine lines.new.items first d) }
    ensures once { OnOk result (AreOnce lines.old.items → ((d : ℕ) → ¬ HasLine lines.old.items first d) → AreOnce lines.new.items) }
    ensures only { OnOk result ((e d : ℕ) → HasLine lines.new.items e d → HasLine lines.old.items e d ⊎ (e ≡ first)) }
{
    for second in 0..before.len() {
        if before.holds(first, second) {
            lines.push(DerivationLine {
                before: first as u8,
                after: second as u8,
                reason: Reason::HappensBefore,
            })?;
        }
    }
    Ok(())
}

/// A line for each pair of a relation.
fn given_lines(alloc: Global, before: &Rows) -> Result<Vec<DerivationLine>, AllocError>
    ensures { IfOk result (λ lines. AreGiven (Holds before.now) lines.items × HasLines lines.items (Holds before.now)
        × AreOnce lines.items) }
{
    let mut lines = Vec::new(alloc);
    for first in 0..before.len() {
        push_given(&mut lines, before, first)?;
    }
    Ok(lines)
}

/// Lines of which each follows from earlier ones and the last one is a cycle, or `None` exactly where no event is forced before
/// itself. The relation has no event before itself. An iteration adds what follows from the lines of earlier iterations, and the first
/// cycle ends the derivation (decision 39).
pub(crate) fn lines_to_cycle(
    alloc: Global,
    before: &Rows,
    between: &Between,
) -> Result<Option<Vec<DerivationLine>>, AllocError>
    requires len { rows_len before.now ≡ between.now.len }
    requires no_cycle { (e : ℕ) → ¬ Holds before.now e e }
    ensures { IfOk result (λ found. MatchOption found (¬ HasForcedCycle (Holds before.now) (Forbids between.now))
        (λ lines. EachFollows (Holds before.now) (Forbids between.now) lines.items × EndsInCycle lines.items
        × AreOnce lines.items)) }
{
    let mut lines = given_lines(alloc, before)?;
    // The pairs of earlier iterations, and all pairs so far.
    let (mut old, mut known) = (*before, *before);
    let mut grown = false;
    'iterations: loop {
        match next_line(lines.as_slice(), &old, &known, between) {
            Some(line) => {
                lines.push(line)?;
                if line.before == line.after {
                    return Ok(Some(lines));
                }
                known.put(usize::from(line.before), usize::from(line.after));
                grown = true;
            }
            None => {
                if !grown {
                    return Ok(None);
                }
                old = known;
                grown = false;
            }
        }
    }
}
