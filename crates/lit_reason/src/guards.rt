//! The statements whose guards decide a path: each `if`, and each compareExchange, which asks whether it stores.

use lit_paths::{Combination, Tested};
use lit_syntax::{Stmt, count_with_parts, statement_count};
use std::alloc::{AllocError, Global};

/// The guards after the next one.
fn guards_behind(guards: &[Tested]) -> &[Tested] {
    match guards {
        [_, rest @ ..] => rest,
        [] => guards,
    }
}

/// Whether the next guard asks that the value equals the number.
fn asks_equal(guards: &[Tested]) -> bool {
    match guards {
        [guard, ..] => guard.equal,
        [] => false,
    }
}

/// Adds the number of the statement of each guard on a path through statements, the first of which has number `first`. Gives the guards
/// behind them.
#[cycle(guarding)]
fn push_guards<'t>(
    numbers: &mut Vec<usize>,
    first: usize,
    body: &[Stmt],
    guards: &'t [Tested],
) -> Result<&'t [Tested], AllocError> {
    let mut number = first;
    let mut left = guards;
    for statement in body {
        left = push_guards_at(numbers, number, statement, left)?;
        number = number.saturating_add(count_with_parts(statement));
    }
    Ok(left)
}

/// Adds the numbers on a path through the statement with a number. Gives the guards behind it.
#[cycle(guarding)]
fn push_guards_at<'t>(
    numbers: &mut Vec<usize>,
    number: usize,
    statement: &Stmt,
    guards: &'t [Tested],
) -> Result<&'t [Tested], AllocError> {
    let left = guards_behind(guards);
    match statement {
        Stmt::Load { .. } | Stmt::Store { .. } | Stmt::Exchange { .. } => Ok(guards),
        Stmt::CompareExchange { .. } => {
            numbers.push(number)?;
            Ok(left)
        }
        Stmt::If {
            equal,
            body,
            other,
            ..
        } => {
            numbers.push(number)?;
            let then = number.saturating_add(1);
            // The path goes through the then-part where its guard compares as the `if` does.
            if *equal == asks_equal(guards) {
                push_guards(numbers, then, body, left)
            } else {
                push_guards(
                    numbers,
                    then.saturating_add(statement_count(body)),
                    other,
                    left,
                )
            }
        }
    }
}

/// The number of the statement of each guard on an agent's path, in order: from 0, in the order in which the agent's statements are
/// written.
pub(crate) fn guards_of(
    alloc: Global,
    combination: &Combination<'_>,
    agent: usize,
) -> Result<Vec<usize>, AllocError> {
    let mut numbers = Vec::new(alloc);
    if agent < combination.test().agents() {
        let body = combination.test().body(agent);
        push_guards(&mut numbers, 0, body, combination.path(agent).tests())?;
    }
    Ok(numbers)
}
