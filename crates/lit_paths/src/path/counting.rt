//! The walks through the statements of an agent: how many there are, and how many accesses one has at the most.

ghost use Rattle.std.specs.Prelude.{◌≡◌, length, min};
ghost use Rattle.lit_syntax.specs.Litmus.{statement_of, statements_of};
ghost use Rattle.lit_paths.specs.declared.limits.TheConstants.{ACCESS_LIMIT, COMBINATION_LIMIT};
ghost use Rattle.lit_paths.specs.Path.{walks_of, statement_walks};
ghost use Rattle.lit_paths.specs.Internal.Walks.{longest, statement_longest, many_walks, many_accesses};

use crate::limits::{ACCESS_LIMIT, COMBINATION_LIMIT};
use lit_syntax::Stmt;

/// How many walks lead through statements, capped at one more than there may be combinations: a count of all could wrap
/// (decision 10).
#[cycle(walk_counts)]
pub(crate) fn walk_count(body: &[Stmt]) -> usize
    ensures { result ≡ min (length (walks_of (statements_of body.now))) many_walks }
{
    let mut count = 1;
    for statement in body {
        count = (count * statement_walk_count(statement)).min(COMBINATION_LIMIT + 1);
    }
    count
}

/// How many walks lead through a statement, capped likewise.
#[cycle(walk_counts)]
pub(crate) fn statement_walk_count(statement: &Stmt) -> usize
    ensures { result ≡ min (length (statement_walks (statement_of statement.now))) many_walks }
{
    match statement {
        Stmt::CompareExchange { .. } => 2,
        Stmt::If { body, other, .. } => {
            (walk_count(body) + walk_count(other)).min(COMBINATION_LIMIT + 1)
        }
        Stmt::Load { .. } | Stmt::Store { .. } | Stmt::Exchange { .. } => 1,
    }
}

/// How many accesses the longest walk through statements has, capped at one more than there may be.
#[cycle(longest_walks)]
pub(crate) fn longest_walk(body: &[Stmt]) -> usize
    ensures { result ≡ min (longest (statements_of body.now)) many_accesses }
{
    let mut count = 0;
    for statement in body {
        count = (count + longest_statement_walk(statement)).min(ACCESS_LIMIT + 1);
    }
    count
}

/// How many accesses the longest walk through a statement has, capped likewise.
#[cycle(longest_walks)]
fn longest_statement_walk(statement: &Stmt) -> usize
    ensures { result ≡ min (statement_longest (statement_of statement.now)) many_accesses }
{
    match statement {
        Stmt::If { body, other, .. } => longest_walk(body).max(longest_walk(other)),
        Stmt::Load { .. }
        | Stmt::Store { .. }
        | Stmt::Exchange { .. }
        | Stmt::CompareExchange { .. } => 1,
    }
}
