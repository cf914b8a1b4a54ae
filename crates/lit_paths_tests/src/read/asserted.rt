//! What tests assert of a text that is read.
//!
//! Each call that ensures much stands in a function of its own, which ensures nothing: what `read` and a test's calls
//! ensure would else be known to each goal behind them, and a test would take minutes to prove.

use lit_read::read;
use lit_syntax::{Cond, Stmt, Test, View};
use std::alloc::AllocGlobal;
use std::process::Abort;

/// An access: its register, view, index, expected number, written number, and whether it is atomic.
pub(super) type Access = (Option<u8>, View, u8, Option<u32>, Option<u32>, bool);

/// A comparison: its agent, its register, whether both are to be equal, and its number.
pub(super) type Comparison = (u8, u8, bool, u32);

/// The test that a text spells.
pub(super) fn test_of(rt: &(impl Abort + AllocGlobal), text: &[u8]) -> Test {
    read(rt.alloc(), text).expect(rt, "a test")
}

/// Asserts that a test has this name, this number of bytes and these agents.
pub(super) fn has_head(rt: &impl Abort, test: &Test, name: &str, bytes: u8, agents: &[&str]) {
    assert!(rt; test.name() == name);
    assert_eq!(rt; test.bytes(), bytes);
    assert_eq!(rt; test.agents(), agents.len());
    for (agent, wanted) in agents.iter().enumerate() {
        is_named(rt, test, agent, wanted);
    }
}

fn is_named(rt: &impl Abort, test: &Test, agent: usize, name: &str) {
    assert!(rt; agent < test.agents());
    assert!(rt; test.agent_name(agent) == name);
}

/// The statements of an agent, which the test has to have.
pub(super) fn body_of<'t>(rt: &impl Abort, test: &'t Test, agent: usize) -> &'t [Stmt] {
    assert!(rt; agent < test.agents());
    test.body(agent)
}

/// Asserts that an agent has these accesses and nothing else.
pub(super) fn has_body(rt: &impl Abort, test: &Test, agent: usize, wanted: &[Access]) {
    let body = body_of(rt, test, agent);
    assert_eq!(rt; body.len(), wanted.len());
    begins_with(rt, body, wanted);
}

/// Asserts that statements begin with these accesses.
pub(super) fn begins_with(rt: &impl Abort, body: &[Stmt], wanted: &[Access]) {
    assert!(rt; body.len() >= wanted.len());
    for (stmt, access) in body.iter().zip(wanted.iter()) {
        is_access(rt, stmt, access);
    }
}

fn is_access(rt: &impl Abort, stmt: &Stmt, access: &Access) {
    let (reg, view, index, expected, value, atomic) = access_of(rt, stmt);
    assert!(rt; reg == access.0);
    assert!(rt; view == access.1);
    assert_eq!(rt; index, access.2);
    assert!(rt; expected == access.3);
    assert!(rt; value == access.4);
    assert!(rt; atomic == access.5);
}

fn access_of(rt: &impl Abort, stmt: &Stmt) -> Access {
    match stmt {
        Stmt::Load {
            reg,
            view,
            index,
            atomic,
        } => (Some(*reg), *view, *index, None, None, *atomic),
        Stmt::Store {
            view,
            index,
            value,
            atomic,
        } => (None, *view, *index, None, Some(*value), *atomic),
        Stmt::Exchange {
            reg,
            view,
            index,
            value,
        } => (Some(*reg), *view, *index, None, Some(*value), true),
        Stmt::CompareExchange {
            reg,
            view,
            index,
            expected,
            value,
        } => (
            Some(*reg),
            *view,
            *index,
            Some(*expected),
            Some(*value),
            true,
        ),
        Stmt::If { .. } => panic!(rt; "an access"),
    }
}

/// Asserts that a statement is an `if` with this register, whether it asks for the number, this number, and this many
/// statements in each part.
pub(super) fn is_if(rt: &impl Abort, stmt: &Stmt, on: (u8, bool, u32), parts: (usize, usize)) {
    match stmt {
        Stmt::If {
            reg,
            equal,
            value,
            body,
            other,
        } => {
            assert_eq!(rt; *reg, on.0);
            assert!(rt; *equal == on.1);
            assert_eq!(rt; *value, on.2);
            assert_eq!(rt; body.len(), parts.0);
            assert_eq!(rt; other.len(), parts.1);
        }
        _ => panic!(rt; "an if"),
    }
}

pub(super) fn is_comparison(rt: &impl Abort, cond: &Cond, wanted: Comparison) {
    let (agent, reg, equal, value) = comparison_of(rt, cond);
    assert_eq!(rt; agent, wanted.0);
    assert_eq!(rt; reg, wanted.1);
    assert!(rt; equal == wanted.2);
    assert_eq!(rt; value, wanted.3);
}

fn comparison_of(rt: &impl Abort, cond: &Cond) -> Comparison {
    match cond {
        Cond::Is {
            agent,
            reg,
            equal,
            value,
        } => (*agent, *reg, *equal, *value),
        _ => panic!(rt; "one comparison"),
    }
}

/// The two conditions of which one has to hold.
pub(super) fn either_of<'c>(rt: &impl Abort, cond: &'c Cond) -> (&'c Cond, &'c Cond) {
    match cond {
        Cond::Any(members) => two_of(rt, members.as_slice()),
        _ => panic!(rt; "an any"),
    }
}

/// The two conditions that both have to hold.
pub(super) fn both_of<'c>(rt: &impl Abort, cond: &'c Cond) -> (&'c Cond, &'c Cond) {
    match cond {
        Cond::All(members) => two_of(rt, members.as_slice()),
        _ => panic!(rt; "an all"),
    }
}

fn two_of<'c>(rt: &impl Abort, members: &'c [Cond]) -> (&'c Cond, &'c Cond) {
    assert_eq!(rt; members.len(), 2);
    (&members[0], &members[1])
}

/// The condition that must not hold.
pub(super) fn denied<'c>(rt: &impl Abort, cond: &'c Cond) -> &'c Cond {
    match cond {
        Cond::Not(inner) => {
            let inner: &Cond = inner;
            inner
        }
        _ => panic!(rt; "a not"),
    }
}
