//! How many statements there are.

ghost use Rattle.std.specs.Prelude.{◌≡◌, ◌-◌, ◌^◌, min};
ghost use Rattle.lit_syntax.specs.Litmus.{statement_of, statements_of};
ghost use Rattle.lit_syntax.specs.StatementOrder.{count_with_parts, statement_count};

use crate::syntax::Stmt;

/// How many statements a statement is, with those of its parts: capped at `usize::MAX`.
#[cycle(counting)]
pub fn count_with_parts(stmt: &Stmt) -> usize
    ensures { result ≡ min (count_with_parts (statement_of stmt.now)) (2 ^ 64 - 1) }
{
    match stmt {
        Stmt::If { body, other, .. } => statement_count(body)
            .saturating_add(statement_count(other))
            .saturating_add(1),
        Stmt::Load { .. }
        | Stmt::Store { .. }
        | Stmt::Exchange { .. }
        | Stmt::CompareExchange { .. } => 1,
    }
}

/// How many statements there are, also in the parts of an `if`, which is one itself: capped at `usize::MAX`.
#[cycle(counting)]
pub fn statement_count(body: &[Stmt]) -> usize
    ensures { result ≡ min (statement_count (statements_of body.now)) (2 ^ 64 - 1) }
{
    let mut count: usize = 0;
    for stmt in body {
        count = count.saturating_add(count_with_parts(stmt));
    }
    count
}
