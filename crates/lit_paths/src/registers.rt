//! The registers of an outcome, and the value of a condition on them.

ghost use Rattle.std.specs.Prelude.{◌≡◌, ◌+◌, ◌<◌, ◌≤◌, ◌++◌, All, [], length};
ghost use Rattle.std.specs.List.{zip};
ghost use Rattle.arrayvec.specs.ArrayVec.{array_vec_len};
ghost use Rattle.lit_syntax.specs.Litmus.{statements_of, condition_of};
ghost use Rattle.lit_syntax.specs.declared.limits.TheConstants.{REGISTERS};
ghost use Rattle.lit_paths.specs.declared.limits.TheConstants.{NAME_LIMIT};
ghost use Rattle.lit_paths.specs.Outcome.{names_in, names_of, asks as asks_of, value_in as value_among, holds as holds_of, meets as is_met};

use crate::limits::NAME_LIMIT;
use arrayvec::ArrayVec;
use lit_syntax::{Cond, REGISTERS, Stmt, Test, writes};

/// The registers of an outcome, as agent and register.
pub type OutcomeRegisters = ArrayVec<(u8, u8), NAME_LIMIT>;

/// Adds the registers that an agent writes.
fn push_names(names: &mut OutcomeRegisters, agent: u8, body: &[Stmt])
    requires { array_vec_len names.old + REGISTERS ≤ NAME_LIMIT }
    ensures value { names.new.items ≡ names.old.items ++ names_in agent (record { name = []; body = statements_of body.now }) }
    ensures few { array_vec_len names.new ≤ array_vec_len names.old + REGISTERS }
{
    for register in 0..REGISTERS as u8 {
        if writes(body, register) {
            names.push((agent, register));
        }
    }
}

/// Each register that is written anywhere in its agent's text: agents in order, registers rising.
pub fn written_names(test: &Test) -> OutcomeRegisters
    ensures value { result.items ≡ names_of test.now }
    ensures known { All (λ name. (name.0 < length test.now.agents) × (name.1 < REGISTERS)) result.items }
{
    let mut names = OutcomeRegisters::new();
    for agent in 0..test.agents() {
        push_names(&mut names, agent as u8, test.body(agent));
    }
    names
}

/// The value of a register in an outcome, or 0 where the outcome has no such register.
fn value_in(names: &[(u8, u8)], outcome: &[u32], agent: u8, register: u8) -> u32
    requires { length outcome.now ≡ length names.now }
    ensures { result ≡ value_among (zip names.now outcome.now) agent register }
{
    for (place, name) in names.iter().enumerate() {
        if name.0 == agent && name.1 == register {
            return outcome[place];
        }
    }
    0
}

/// Whether a condition holds of an outcome.
pub(crate) fn holds(names: &[(u8, u8)], outcome: &[u32], condition: &Cond) -> bool
    requires { length outcome.now ≡ length names.now }
    ensures { result ≡ holds_of (zip names.now outcome.now) (condition_of condition.now) }
{
    match condition {
        Cond::Any(members) => {
            'any: for member in members {
                if holds(names, outcome, member) {
                    return true;
                }
            }
            false
        }
        Cond::All(members) => {
            'all: for member in members {
                if !holds(names, outcome, member) {
                    return false;
                }
            }
            true
        }
        Cond::Not(member) => !holds(names, outcome, member),
        Cond::Is {
            agent,
            reg,
            equal,
            value,
        } => (value_in(names, outcome, *agent, *reg) == *value) == *equal,
    }
}

/// Whether an outcome, with as many values as `written_names` has members, meets the test's condition.
pub fn meets(test: &Test, outcome: &[u32]) -> bool
    requires { length outcome.now ≡ length (names_of test.now) }
    ensures { result ≡ is_met test.now outcome.now }
{
    holds(written_names(test).as_slice(), outcome, test.check())
}

/// Whether a condition looks at a register of an agent.
pub(crate) fn asks(condition: &Cond, agent: u8, register: u8) -> bool
    ensures { result ≡ asks_of (condition_of condition.now) agent register }
{
    match condition {
        Cond::Any(members) | Cond::All(members) => {
            'members: for member in members {
                if asks(member, agent, register) {
                    return true;
                }
            }
            false
        }
        Cond::Not(member) => asks(member, agent, register),
        Cond::Is {
            agent: of,
            reg,
            equal: _,
            value: _,
        } => *of == agent && *reg == register,
    }
}
