//! The next access of an agent, behind the `if`s that its registers decide.

ghost use Rattle.std.specs.Prelude.{◌≡◌, ℕ, true, IfOk, MatchOption, length};
ghost use Rattle.lit_syntax.specs.declared.limits.TheConstants.{REGISTERS};
ghost use Rattle.lit_syntax.specs.Litmus.{statement_of, statements_of};
ghost use Rattle.lit_syntax.specs.Syntax.{AreStatementsIn, IsStatementIn, End};
ghost use Rattle.lit_interleave.specs.Internal.Runners.{ChoosesPart, IsNextAccessOrNone, is_access, joined_all};

use lit_syntax::Stmt;
use std::alloc::AllocError;

/// The part of an `if` that the registers choose, or `None` of an access.
fn chosen_part<'t>(registers: &[u32], statement: &'t Stmt) -> Option<&'t [Stmt]>
    requires said { (bytes : ℕ) × IsStatementIn bytes (statement_of statement.now) }
    requires all { length registers.now ≡ REGISTERS }
    ensures { MatchOption result (is_access (statement_of statement.now) ≡ true)
        (λ part. ChoosesPart registers.now (statement_of statement.now) (statements_of part.now)) }
{
    match statement {
        Stmt::If {
            reg,
            equal,
            value,
            body,
            other,
        } => {
            if (registers[usize::from(*reg)] == *value) == *equal {
                Some(body)
            } else {
                Some(other)
            }
        }
        Stmt::Load { .. }
        | Stmt::Store { .. }
        | Stmt::Exchange { .. }
        | Stmt::CompareExchange { .. } => None,
    }
}

/// Takes the next access off what is left, and decides each `if` before it. `None` where no access is left.
pub(crate) fn next_access<'t>(
    left: &mut Vec<&'t [Stmt]>,
    registers: &[u32],
) -> Result<Option<&'t Stmt>, AllocError>
    requires said { (bytes : ℕ) × AreStatementsIn bytes (joined_all left.old.items End) }
    requires all { length registers.now ≡ REGISTERS }
    ensures { IfOk result (λ next. IsNextAccessOrNone registers.now (joined_all left.old.items End) next (joined_all left.new.items End)) }
{
    'deciding: while let Some(list) = left.pop() {
        if let Some((first, others)) = list.split_first() {
            left.push(others)?;
            match chosen_part(registers, first) {
                Some(part) => left.push(part)?,
                None => return Ok(Some(first)),
            }
        }
    }
    Ok(None)
}
