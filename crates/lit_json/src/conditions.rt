//! A condition as a tree.

ghost use Rattle.std.specs.Prelude.{◌≡◌, IfOk};
ghost use Rattle.serde_json.specs.Data.{array};
ghost use Rattle.serde_json.specs.View.{view};
ghost use Rattle.lit_syntax.specs.Litmus.{condition_of, conditions_view};
ghost use Rattle.lit_syntax.specs.Syntax.{agent_of};
ghost use Rattle.lit_json.specs.Told.{condition_data, conditions_data};

use lit_syntax::{Cond, Test};
use serde_json::{Value, json};
use std::alloc::{AllocError, Global};

/// The name of an agent of a condition, by its number.
fn agent_name(test: &Test, agent: u8) -> &str
    ensures { result.now ≡ (agent_of test.now agent).name }
{
    if usize::from(agent) < test.agents() {
        test.agent_name(usize::from(agent))
    } else {
        ""
    }
}

/// A condition: `any`, `all` or `not` of others, or the comparison of a register with a number.
#[cycle(conditions)]
pub(crate) fn condition_value(alloc: Global, test: &Test, cond: &Cond) -> Result<Value, AllocError>
    ensures { IfOk result (λ v. view v ≡ condition_data test.now (condition_of cond.now)) }
{
    match cond {
        Cond::Any(members) => {
            let members = members_value(alloc, test, members)?;
            json!(in alloc; {"any": members})
        }
        Cond::All(members) => {
            let members = members_value(alloc, test, members)?;
            json!(in alloc; {"all": members})
        }
        Cond::Not(inner) => {
            let inner = condition_value(alloc, test, inner)?;
            json!(in alloc; {"not": inner})
        }
        Cond::Is {
            agent,
            reg,
            equal,
            value,
        } => json!(in alloc; {
            "agent": agent_name(test, *agent), "register": *reg, "equal": *equal, "number": *value
        }),
    }
}

/// Conditions, in their order.
#[cycle(conditions)]
fn members_value(alloc: Global, test: &Test, members: &[Cond]) -> Result<Value, AllocError>
    ensures { IfOk result (λ v. view v ≡ array (conditions_data test.now (conditions_view members.now))) }
{
    let mut list = Vec::new(alloc);
    for member in members {
        list.push(condition_value(alloc, test, member)?)?;
    }
    Ok(Value::Array(list))
}
