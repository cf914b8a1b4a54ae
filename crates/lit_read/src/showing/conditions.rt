//! The canonical text of conditions.

ghost use Rattle.std.specs.Prelude.{◌≡◌, ◌<◌, ◌≤◌, ◌++◌, [], nat_lt, if◌then◌else◌, OnOk, length, string_bytes};
ghost use Rattle.lit_syntax.specs.Syntax.{IsConditionOn, AreConditionsOn};
ghost use Rattle.lit_syntax.specs.Litmus.{condition_of, conditions_view};
ghost use Rattle.lit_syntax.specs.Parentheses.{named, operand_of, conjunction_of, all_written, any_written, written_of};
ghost use Rattle.lit_read.specs.CanonicalText.{comparison_text, operand_text, conjunction_text, written_text};

use crate::showing::statements::relation;
use lit_syntax::{Cond, Test};
use std::alloc::AllocError;

/// Writes a comparison, with the agent's name.
fn put_comparison(
    out: &mut String,
    test: &Test,
    agent: u8,
    reg: u8,
    equal: bool,
    value: u32,
) -> Result<(), AllocError>
    requires { agent < length test.now.agents }
    ensures { OnOk result (string_bytes out.new ≡ string_bytes out.old ++ comparison_text (named test.now.agents agent reg equal value)) }
{
    write!(
        out,
        "{}.r{reg}{}{value}",
        test.agent_name(agent as usize),
        relation(equal)
    )
}

/// Writes what stands before the member at a place: nothing before the first.
fn put_between(out: &mut String, place: usize, sign: &str) -> Result<(), AllocError>
    ensures { OnOk result (string_bytes out.new ≡ string_bytes out.old ++ (if nat_lt 0 place then sign.now else [])) }
{
    if place > 0 {
        out.push_str(sign)?;
    }
    Ok(())
}

/// Writes a condition under a `!`, or as a member of an All.
#[cycle(conditions)]
fn put_operand(out: &mut String, test: &Test, cond: &Cond) -> Result<(), AllocError>
    requires { IsConditionOn test.now (condition_of cond.now) }
    ensures { OnOk result
        (string_bytes out.new ≡ string_bytes out.old ++ operand_text (operand_of test.now.agents (condition_of cond.now))) }
{
    match cond {
        Cond::Is {
            agent,
            reg,
            equal,
            value,
        } => put_comparison(out, test, *agent, *reg, *equal, *value),
        Cond::Not(member) => {
            out.push_str("!")?;
            put_operand(out, test, member)
        }
        Cond::All(members) => {
            out.push_str("(")?;
            put_all(out, test, members)?;
            out.push_str(")")
        }
        Cond::Any(members) => {
            out.push_str("(")?;
            put_any(out, test, members)?;
            out.push_str(")")
        }
    }
}

/// Writes a condition as a member of an Any.
#[cycle(conditions)]
fn put_conjunction(out: &mut String, test: &Test, cond: &Cond) -> Result<(), AllocError>
    requires { IsConditionOn test.now (condition_of cond.now) }
    ensures { OnOk result
        (string_bytes out.new ≡ string_bytes out.old ++ conjunction_text (conjunction_of test.now.agents (condition_of cond.now))) }
{
    match cond {
        Cond::All(members) => put_all(out, test, members),
        _ => put_operand(out, test, cond),
    }
}

/// Writes the members of an All.
#[cycle(conditions)]
fn put_all(out: &mut String, test: &Test, members: &[Cond]) -> Result<(), AllocError>
    requires some { 1 ≤ length members.now }
    requires on { AreConditionsOn test.now (conditions_view members.now) }
    ensures { OnOk result
        (string_bytes out.new ≡ string_bytes out.old ++ conjunction_text (all_written test.now.agents (conditions_view members.now))) }
{
    for (place, member) in members.iter().enumerate() {
        put_between(out, place, " && ")?;
        put_operand(out, test, member)?;
    }
    Ok(())
}

/// Writes the members of an Any.
#[cycle(conditions)]
fn put_any(out: &mut String, test: &Test, members: &[Cond]) -> Result<(), AllocError>
    requires some { 1 ≤ length members.now }
    requires on { AreConditionsOn test.now (conditions_view members.now) }
    ensures { OnOk result
        (string_bytes out.new ≡ string_bytes out.old ++ written_text (any_written test.now.agents (conditions_view members.now))) }
{
    for (place, member) in members.iter().enumerate() {
        put_between(out, place, " || ")?;
        put_conjunction(out, test, member)?;
    }
    Ok(())
}

/// Writes a whole condition.
pub fn put_condition(out: &mut String, test: &Test, cond: &Cond) -> Result<(), AllocError>
    requires { IsConditionOn test.now (condition_of cond.now) }
    ensures { OnOk result
        (string_bytes out.new ≡ string_bytes out.old ++ written_text (written_of test.now.agents (condition_of cond.now))) }
{
    match cond {
        Cond::Any(members) => put_any(out, test, members),
        _ => put_conjunction(out, test, cond),
    }
}
