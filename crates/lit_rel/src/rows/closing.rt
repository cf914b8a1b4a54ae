//! The transitive closure of a relation.

ghost use Rattle.std.specs.Prelude.{◌≡◌, ◌↔◌, ℕ, List};
ghost use Rattle.lit_rel.specs.HappensBefore.{Chain};
ghost use Rattle.lit_rel.specs.Rows.{Holds, rows_len};

use crate::rows::Rows;

/// Makes a relation the least transitive one that contains it, by Warshall's algorithm (decision 17).
pub fn close(rows: &mut Rows)
    ensures len { rows_len rows.new ≡ rows_len rows.old }
    ensures pairs { (e d : ℕ) → Holds rows.new e d ↔ ((middles : List ℕ) × Chain (Holds rows.old) e middles d) }
{
    // Each event that leads to the middle one is let lead to all events that the middle one leads to.
    for middle in 0..rows.len() {
        rows.put_led(middle, rows.successors(middle));
    }
}
