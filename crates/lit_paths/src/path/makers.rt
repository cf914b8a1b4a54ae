//! The statements that make the events of a path, by their numbers.

ghost use Rattle.std.specs.Prelude.{◌≡◌, ◌+◌, ◌≤◌, ◌<◌, ◌++◌, ◌^◌, length};
ghost use Rattle.lit_syntax.specs.Litmus.{statement_of, statements_of};
ghost use Rattle.lit_syntax.specs.StatementOrder.{count_with_parts, statement_count};
ghost use Rattle.lit_paths.specs.declared.limits.TheConstants.{ACCESS_LIMIT as ACCESSES};
ghost use Rattle.lit_paths.specs.Internal.Makers.{asks_equal, guards_behind, holds_where, makers_by_guards, statement_makers};
ghost use Rattle.lit_paths.specs.Internal.Walks.{longest, statement_longest};

use crate::limits::ACCESS_LIMIT;
use crate::path::Tested;
use arrayvec::ArrayVec;
use lit_syntax::{Stmt, count_with_parts, statement_count};

/// The number of the statement that makes each event of a path, by the event's place: from 0, in the order in which the
/// agent's statements are written. An `if` has one number; those of its then-part follow, and then those of its
/// else-part.
pub type Makers = ArrayVec<usize, ACCESS_LIMIT>;

/// Whether the first guard asks that the value equals the number; false where there is no guard.
fn asks_equal(guards: &[Tested]) -> bool
    ensures { result ≡ asks_equal guards.now }
{
    match guards {
        [test, ..] => test.equal,
        [] => false,
    }
}

/// The guards after the first one.
fn guards_behind(guards: &[Tested]) -> &[Tested]
    ensures { result.now ≡ guards_behind guards.now }
{
    match guards {
        [_, rest @ ..] => rest,
        [] => guards,
    }
}

/// Whether the comparison of an `if` holds where its guard asks that the value equals the number, or that it differs.
fn holds_where(equal: bool, asked: bool) -> bool
    ensures { result ≡ holds_where equal asked }
{
    if equal { asked } else { !asked }
}

/// Adds the makers of the events on the way through statements, the first of which has number `first`, by the guards of a
/// path, and returns the guards after those of these statements.
#[cycle(finding)]
pub(crate) fn find_makers<'t>(
    makers: &mut Makers,
    first: usize,
    body: &[Stmt],
    guards: &'t [Tested],
) -> &'t [Tested]
    requires room { length makers.old.items + longest (statements_of body.now) ≤ ACCESSES }
    requires fits { first + statement_count (statements_of body.now) < 2 ^ 64 }
    ensures makers { makers.new.items ≡ makers.old.items ++ (makers_by_guards first (statements_of body.now) guards.now).0 }
    ensures left { result.now ≡ (makers_by_guards first (statements_of body.now) guards.now).1 }
{
    let mut number = first;
    let mut left = guards;
    for statement in body {
        left = find_makers_at(makers, number, statement, left);
        number += count_with_parts(statement);
    }
    left
}

/// Adds the makers of the events on the way through the statement with a number, by the guards of a path, and returns the
/// guards after those of this statement.
#[cycle(finding)]
fn find_makers_at<'t>(
    makers: &mut Makers,
    number: usize,
    statement: &Stmt,
    guards: &'t [Tested],
) -> &'t [Tested]
    requires room { length makers.old.items + statement_longest (statement_of statement.now) ≤ ACCESSES }
    requires fits { number + count_with_parts (statement_of statement.now) < 2 ^ 64 }
    ensures makers { makers.new.items ≡ makers.old.items ++ (statement_makers number (statement_of statement.now) guards.now).0 }
    ensures left { result.now ≡ (statement_makers number (statement_of statement.now) guards.now).1 }
{
    match statement {
        Stmt::Load { .. } | Stmt::Store { .. } | Stmt::Exchange { .. } => {
            makers.push(number);
            guards
        }
        Stmt::CompareExchange { .. } => {
            makers.push(number);
            guards_behind(guards)
        }
        Stmt::If {
            equal,
            body,
            other,
            ..
        } => {
            let left = guards_behind(guards);
            if holds_where(*equal, asks_equal(guards)) {
                find_makers(makers, number + 1, body, left)
            } else {
                find_makers(makers, number + 1 + statement_count(body), other, left)
            }
        }
    }
}
