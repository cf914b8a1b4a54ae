//! Which registers statements write.

ghost use Rattle.std.specs.Prelude.{◌≡◌};
ghost use Rattle.lit_syntax.specs.Syntax.{statement_writes, writes};
ghost use Rattle.lit_syntax.specs.Litmus.{statement_of, statements_of};

use crate::syntax::Stmt;

/// Whether a statement writes the register.
#[cycle(writing)]
fn statement_writes(stmt: &Stmt, reg: u8) -> bool
    ensures { result ≡ statement_writes (statement_of stmt.now) reg }
{
    match stmt {
        Stmt::Load { reg: written, .. }
        | Stmt::Exchange { reg: written, .. }
        | Stmt::CompareExchange { reg: written, .. } => *written == reg,
        Stmt::Store { .. } => false,
        Stmt::If { body, other, .. } => writes(body, reg) || writes(other, reg),
    }
}

/// Whether some statement, also in a part of an `if`, writes a register, by its number.
#[cycle(writing)]
pub fn writes(body: &[Stmt], reg: u8) -> bool
    ensures { result ≡ writes (statements_of body.now) reg }
{
    for stmt in body {
        if statement_writes(stmt, reg) {
            return true;
        }
    }
    false
}
