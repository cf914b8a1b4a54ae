//! The answer as one line of JSON. `docs/schemas/why.json` has the form.

ghost use Rattle.std.specs.Prelude.{◌<◌, length};
ghost use Rattle.lit_paths.specs.Choice.{choices_of};

use crate::attempts::{Tally, Told};
use crate::classes::verdict_without;
use crate::cores::put_core;
use crate::execution::execution_value;
use crate::found::found_of;
use crate::scene::Scene;
use crate::statements::Statements;
use lit_command_line::VERSION;
use lit_paths::Plan;
use lit_search::Class;
use lit_solve::Goal;
use lit_why::{attempts, least_mixing};
use serde_json::{Map, Value, json};
use std::alloc::{AllocError, Global};

/// The number of the form of the JSON. It grows where a reader of the form before may go wrong.
const FORM: u64 = 1;

/// The members of an answer.
type Members = Map<String, Value>;

/// Puts a member.
fn put(alloc: Global, members: &mut Members, name: &str, value: Value) -> Result<(), AllocError> {
    members.insert(String::from_str(alloc, name)?, value)?;
    Ok(())
}

/// The members that each answer has: the form of the JSON, the version and the test's name.
fn head(alloc: Global, plan: &Plan<'_>) -> Result<Members, AllocError> {
    let mut members = Map::new(alloc);
    let version = VERSION.lines().next().unwrap_or("");
    put(alloc, &mut members, "form", Value::from(FORM))?;
    put(alloc, &mut members, "jslit", json!(in alloc; version)?)?;
    put(
        alloc,
        &mut members,
        "test",
        json!(in alloc; plan.test().name())?,
    )?;
    Ok(members)
}

/// Puts a choice, with its least memory-order where it has one.
fn put_choice(
    alloc: Global,
    members: &mut Members,
    plan: &Plan<'_>,
    statements: &Statements,
    choice: u64,
) -> Result<(), AllocError>
    requires { choice < length (choices_of plan.now) }
{
    let found = found_of(alloc, plan, choice)?;
    let scene = Scene::new(&*plan, statements, choice);
    let order = if found.len() == 0 {
        None
    } else {
        Some(found.example(0).order.as_slice())
    };
    let execution = execution_value(alloc, &scene, order)?;
    put(alloc, members, "choice", Value::from(choice))?;
    put(alloc, members, "execution", execution)
}

/// A clause that refuses attempts, with the first that it refuses.
fn clause_value(
    alloc: Global,
    plan: &Plan<'_>,
    statements: &Statements,
    count: u64,
    told: &Told,
) -> Result<Value, AllocError>
    requires { told.now.attempt.choice < length (choices_of plan.now) }
{
    let scene = told.scene(plan, statements);
    let execution = execution_value(alloc, &scene, None)?;
    json!(in alloc; {
        "clause": told.clause.name(), "section": told.clause.section(), "attempts": count, "choices": told.attempt.choices,
        "cases": told.cases, "whole": told.whole, "choice": told.attempt.choice, "execution": execution
    })
}

/// The clauses that refuse attempts, in the order in which they are checked.
fn clauses_value(
    alloc: Global,
    plan: &Plan<'_>,
    statements: &Statements,
    tally: &Tally,
) -> Result<Value, AllocError> {
    let mut list = Vec::new(alloc);
    for counted in tally.counts() {
        let Some(told) = counted.first else {
            continue;
        };
        if told.attempt.choice < plan.total() {
            list.push(clause_value(alloc, plan, statements, counted.count, &told)?)?;
        }
    }
    Ok(Value::Array(list))
}

/// The least part of a condition, or of its negation, that no path can make true.
fn core_value(alloc: Global, plan: &Plan<'_>, class: Class) -> Result<Value, AllocError> {
    let mut core = Vec::new(alloc);
    // Writing into it fails only where memory for its growth is refused.
    match put_core(alloc, &mut core, plan, class == Class::Met) {
        Ok(()) => Ok(Value::String(String::from_utf8_lossy(alloc, &core)?)),
        Err(_) => Err(AllocError),
    }
}

/// Puts how many attempts at a class there are, and what refuses them.
fn put_attempts(
    alloc: Global,
    members: &mut Members,
    plan: &Plan<'_>,
    statements: &Statements,
    class: Class,
    most: usize,
) -> Result<(), AllocError> {
    let attempts = attempts(alloc, plan, class, most.saturating_add(1))?;
    let tally = Tally::count_all(alloc, plan, statements, &attempts, most)?;
    let count = attempts.len().min(most);
    let verdict = json!(in alloc; verdict_without(class))?;
    put(alloc, members, "verdict", verdict)?;
    put(alloc, members, "attempts", Value::from(count))?;
    put(alloc, members, "whole", Value::from(attempts.len() <= most))?;
    if attempts.is_empty() {
        put(
            alloc,
            members,
            "no_path_can_make",
            core_value(alloc, plan, class)?,
        )?;
    }
    let clauses = clauses_value(alloc, plan, statements, &tally)?;
    put(alloc, members, "clauses", clauses)
}

/// An example of a class, or why there is none.
pub(crate) fn class_value(
    alloc: Global,
    plan: &Plan<'_>,
    statements: &Statements,
    class: Class,
    most: usize,
) -> Result<Value, AllocError> {
    let mut members = head(alloc, plan)?;
    put(
        alloc,
        &mut members,
        "condition",
        Value::from(class == Class::Met),
    )?;
    match least_mixing(plan, Goal::OfClass(class)) {
        Some(example) => put_choice(alloc, &mut members, plan, statements, example.choice)?,
        None => put_attempts(alloc, &mut members, plan, statements, class, most)?,
    }
    Ok(Value::Object(members))
}

/// An execution with a data race, or that there is none.
pub(crate) fn race_value(
    alloc: Global,
    plan: &Plan<'_>,
    statements: &Statements,
) -> Result<Value, AllocError> {
    let mut members = head(alloc, plan)?;
    let race = least_mixing(plan, Goal::Race);
    put(
        alloc,
        &mut members,
        "data_race",
        Value::from(race.is_some()),
    )?;
    if let Some(example) = race {
        put_choice(alloc, &mut members, plan, statements, example.choice)?;
    }
    Ok(Value::Object(members))
}

/// A choice, by its number.
pub(crate) fn choice_value(
    alloc: Global,
    plan: &Plan<'_>,
    statements: &Statements,
    choice: u64,
) -> Result<Value, AllocError>
    requires { choice < length (choices_of plan.now) }
{
    let mut members = head(alloc, plan)?;
    put_choice(alloc, &mut members, plan, statements, choice)?;
    Ok(Value::Object(members))
}

/// That no choice is the one that the words ask for.
pub(crate) fn no_choice_value(alloc: Global, plan: &Plan<'_>) -> Result<Value, AllocError> {
    let mut members = head(alloc, plan)?;
    put(alloc, &mut members, "choice", Value::Null)?;
    Ok(Value::Object(members))
}
