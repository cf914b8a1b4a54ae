//! A test: its name, its block, its agents and its condition.

ghost use Rattle.std.specs.Prelude.{◌≡◌, ◌<◌, IfOk, OnOk, drop, length};
ghost use Rattle.serde_json.specs.Data.{array};
ghost use Rattle.serde_json.specs.View.{view};
ghost use Rattle.lit_syntax.specs.StatementOrder.{statement_count};
ghost use Rattle.lit_syntax.specs.Syntax.{agent_of};
ghost use Rattle.lit_json.specs.StatementData.{agent_data, agents_data, registers_data};
ghost use Rattle.lit_json.specs.Told.{test_data};

use crate::conditions::condition_value;
use crate::statements::{Lines, statements_value};
use lit_syntax::{REGISTERS, Test, writes};
use serde_json::{Value, json};
use std::alloc::{AllocError, Global};

/// The registers that an agent writes, by their numbers, rising.
fn registers_value(alloc: Global, test: &Test, agent: usize) -> Result<Value, AllocError>
    requires { agent < length test.now.agents }
    ensures { IfOk result (λ v. view v ≡ registers_data (agent_of test.now agent).body) }
{
    let body = test.body(agent);
    let mut list = Vec::new(alloc);
    for reg in 0..REGISTERS {
        let reg = reg as u8;
        if writes(body, reg) {
            list.push(Value::from(reg))?;
        }
    }
    Ok(Value::Array(list))
}

/// An agent, by its number, the next of whose statements begins on the next line.
fn agent_value(
    alloc: Global,
    lines: &mut Lines<'_>,
    test: &Test,
    agent: usize,
) -> Result<Value, AllocError>
    requires { agent < length test.now.agents }
    ensures value { IfOk result (λ v. view v ≡ agent_data lines.old.left.now (agent_of test.now agent)) }
    ensures left { OnOk result (lines.new.left.now ≡ drop (statement_count (agent_of test.now agent).body) lines.old.left.now) }
{
    let statements = statements_value(alloc, lines, test.body(agent))?;
    let registers = registers_value(alloc, test, agent)?;
    json!(in alloc; {
        "name": test.agent_name(agent), "registers": registers, "statements": statements
    })
}

/// The agents of a test, in the order of the text.
fn agents_value(alloc: Global, lines: &[usize], test: &Test) -> Result<Value, AllocError>
    ensures { IfOk result (λ v. view v ≡ array (agents_data lines.now test.now.agents)) }
{
    let mut lines = Lines::new(lines);
    let mut list = Vec::new(alloc);
    for agent in 0..test.agents() {
        list.push(agent_value(alloc, &mut lines, test, agent)?)?;
    }
    Ok(Value::Array(list))
}

/// A test, of a text whose statements begin on these lines.
pub(crate) fn test_value(alloc: Global, lines: &[usize], test: &Test) -> Result<Value, AllocError>
    ensures { IfOk result (λ v. view v ≡ test_data lines.now test.now) }
{
    let agents = agents_value(alloc, lines, test)?;
    let condition = condition_value(alloc, test, test.check())?;
    json!(in alloc; {
        "name": test.name(), "bytes": test.bytes(), "agents": agents, "condition": condition
    })
}
