//! Walking through the statements of an agent, by the number of a walk.

ghost use Rattle.std.specs.Prelude.{◌≡◌, ◌+◌, ◌<◌, ◌≤◌, length, IfOk};
ghost use Rattle.lit_syntax.specs.declared.limits.TheConstants.{REGISTERS};
ghost use Rattle.lit_syntax.specs.Litmus.{window_of, statement_of, statements_of};
ghost use Rattle.lit_paths.specs.declared.limits.TheConstants.{ACCESS_LIMIT, COMBINATION_LIMIT};
ghost use Rattle.lit_paths.specs.Path.{LoadMet, StoreMet, ExchangeMet, CompareExchangeMet, walks_of, statement_walks};
ghost use Rattle.lit_paths.specs.Internal.PathSteps.{with_step, with_steps};
ghost use Rattle.lit_paths.specs.Internal.Walks.{IsAccess, IsSaid, AreSaid, longest, statement_longest, walk_at, statement_walk_at};

use crate::event::Kind;
use crate::event::access::{Access, event_of};
use crate::path::Path;
use crate::path::counting::{statement_walk_count, walk_count};
use lit_syntax::Stmt;
use std::alloc::AllocError;

/// The place of the next access on a path.
fn next_place(path: &Path) -> u8
    requires { length path.now.events ≤ ACCESS_LIMIT }
    ensures { result ≡ length path.now.events }
{
    path.events().len() as u8
}

/// Adds a load.
fn load(path: &mut Path, access: Access, reg: u8, atomic: bool)
    requires room { length path.old.events < ACCESS_LIMIT }
    requires register { reg < REGISTERS }
    requires block { IsAccess (window_of access.view) access.index }
    ensures { path.new ≡ with_step access.owner path.old (LoadMet reg (window_of access.view) access.index atomic) }
{
    let event = event_of(access, next_place(path), Kind::Read, atomic, 0);
    path.add_into_register(reg, event);
}

/// Adds a store.
fn store(path: &mut Path, access: Access, value: u32, atomic: bool)
    requires room { length path.old.events < ACCESS_LIMIT }
    requires block { IsAccess (window_of access.view) access.index }
    ensures { path.new ≡ with_step access.owner path.old (StoreMet (window_of access.view) access.index value atomic) }
{
    let event = event_of(access, next_place(path), Kind::Write, atomic, value);
    path.add_without_register(event);
}

/// Adds an exchange.
fn exchange(path: &mut Path, access: Access, reg: u8, value: u32)
    requires room { length path.old.events < ACCESS_LIMIT }
    requires register { reg < REGISTERS }
    requires block { IsAccess (window_of access.view) access.index }
    ensures { path.new ≡ with_step access.owner path.old (ExchangeMet reg (window_of access.view) access.index value) }
{
    let event = event_of(access, next_place(path), Kind::Modify, true, value);
    path.add_into_register(reg, event);
}

/// Adds a compareExchange that succeeds, or fails.
fn compare_exchange(
    path: &mut Path,
    access: Access,
    reg: u8,
    expected: u32,
    value: u32,
    succeeds: bool,
) -> Result<(), AllocError>
    requires room { length path.old.events < ACCESS_LIMIT }
    requires register { reg < REGISTERS }
    requires block { IsAccess (window_of access.view) access.index }
    ensures { IfOk result
        (λ _. path.new ≡ with_step access.owner path.old
        (CompareExchangeMet reg (window_of access.view) access.index expected value succeeds)) }
{
    let place = next_place(path);
    // A compareExchange that fails only reads.
    let met = if succeeds {
        event_of(access, place, Kind::Modify, true, value)
    } else {
        event_of(access, place, Kind::Read, true, 0)
    };
    path.add_into_register(reg, met);
    path.add_guard(Some(place), succeeds, expected)
}

/// Extends a path through statements, by the walk with this number, from 0.
#[cycle(walks)]
pub(crate) fn walk(
    path: &mut Path,
    owner: u8,
    body: &[Stmt],
    number: usize,
) -> Result<(), AllocError>
    requires said { AreSaid (statements_of body.now) }
    requires few { length (walks_of (statements_of body.now)) ≤ COMBINATION_LIMIT }
    requires known { number < length (walks_of (statements_of body.now)) }
    requires room { length path.old.events + longest (statements_of body.now) ≤ ACCESS_LIMIT }
    ensures walked { IfOk result (λ _. path.new ≡ with_steps owner path.old (walk_at (statements_of body.now) number)) }
    ensures short { IfOk result (λ _. length path.new.events ≤ length path.old.events + longest (statements_of body.now)) }
{
    let mut later = walk_count(body);
    let mut left = number;
    for statement in body {
        later /= statement_walk_count(statement);
        meet(path, owner, statement, left / later)?;
        left %= later;
    }
    Ok(())
}

/// Extends a path through a statement, by the walk with this number.
#[cycle(walks)]
fn meet(path: &mut Path, owner: u8, statement: &Stmt, number: usize) -> Result<(), AllocError>
    requires said { IsSaid (statement_of statement.now) }
    requires few { length (statement_walks (statement_of statement.now)) ≤ COMBINATION_LIMIT }
    requires known { number < length (statement_walks (statement_of statement.now)) }
    requires room { length path.old.events + statement_longest (statement_of statement.now) ≤ ACCESS_LIMIT }
    ensures walked { IfOk result (λ _. path.new ≡ with_steps owner path.old (statement_walk_at (statement_of statement.now) number)) }
    ensures short { IfOk result (λ _. length path.new.events ≤ length path.old.events + statement_longest (statement_of statement.now)) }
{
    match statement {
        Stmt::Load {
            reg,
            view,
            index,
            atomic,
        } => {
            let access = Access {
                owner,
                view: *view,
                index: *index,
            };
            load(path, access, *reg, *atomic);
            Ok(())
        }
        Stmt::Store {
            view,
            index,
            value,
            atomic,
        } => {
            let access = Access {
                owner,
                view: *view,
                index: *index,
            };
            store(path, access, *value, *atomic);
            Ok(())
        }
        Stmt::Exchange {
            reg,
            view,
            index,
            value,
        } => {
            let access = Access {
                owner,
                view: *view,
                index: *index,
            };
            exchange(path, access, *reg, *value);
            Ok(())
        }
        Stmt::CompareExchange {
            reg,
            view,
            index,
            expected,
            value,
        } => {
            let access = Access {
                owner,
                view: *view,
                index: *index,
            };
            // Walks are numbered by rising decisions, and success is decision 0.
            compare_exchange(path, access, *reg, *expected, *value, number == 0)
        }
        Stmt::If {
            reg,
            equal,
            value,
            body,
            other,
        } => {
            let on = path.last(*reg);
            // The walks through the then-part have the lower numbers.
            let first_else = walk_count(body);
            if number < first_else {
                path.add_guard(on, *equal, *value)?;
                walk(path, owner, body, number)
            } else {
                path.add_guard(on, !*equal, *value)?;
                walk(path, owner, other, number - first_else)
            }
        }
    }
}
