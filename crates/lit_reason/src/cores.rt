//! Unsatisfiable cores: a least part of a condition that no values of reads make true, by refinement with counterexamples (decision 114).

ghost use Rattle.std.specs.Prelude.{◌≡◌, ◌++◌, ℕ, IfOk, List, codes};
ghost use Rattle.lit_read.specs.CanonicalText.{canonical};
ghost use Rattle.lit_reason.specs.OtherCondition.{IsBeforeLastLine};

use crate::selection::final_value;
use lit_paths::{Plan, PlanFault, plan};
use lit_read::{ReadKind, read, show};
use lit_rel::Part;
use lit_search::Class;
use lit_syntax::{Cond, Test};
use lit_why::{attempts, part_of};
use std::alloc::{AllocError, Global};
use std::io;
use std::io::Write;

/// A member of a conjunction: a condition that is to hold, or not to hold.
#[derive(Clone, Copy, Debug)]
struct Member<'c> {
    condition: &'c Cond,
    holds: bool,
    /// Whether it is of the core.
    is_chosen: bool,
}

/// Adds the members of the conjunction that a condition is, or its negation.
#[cycle(members)]
fn push_members<'c>(
    members: &mut Vec<Member<'c>>,
    condition: &'c Cond,
    holds: bool,
) -> Result<(), AllocError> {
    match condition {
        Cond::Not(inner) => push_members(members, inner, !holds),
        Cond::All(inner) if holds => push_each(members, inner, holds),
        Cond::Any(inner) if !holds => push_each(members, inner, holds),
        _ => {
            members.push(Member {
                condition,
                holds,
                is_chosen: false,
            })?;
            Ok(())
        }
    }
}

/// Adds the members of each of some conditions.
#[cycle(members)]
fn push_each<'c>(
    members: &mut Vec<Member<'c>>,
    conditions: &'c [Cond],
    holds: bool,
) -> Result<(), AllocError> {
    for condition in conditions {
        push_members(members, condition, holds)?;
    }
    Ok(())
}

/// Puts conditions, or their negations, with a sign between them, in parentheses.
#[cycle(conditions)]
fn put_joined(
    buffer: &mut Vec<u8>,
    test: &Test,
    conditions: &[Cond],
    holds: bool,
    sign: &str,
) -> io::Result<()> {
    buffer.write_all(b"(")?;
    for (place, condition) in conditions.iter().enumerate() {
        if place > 0 {
            buffer.write_all(sign.as_bytes())?;
        }
        put_condition(buffer, test, condition, holds)?;
    }
    buffer.write_all(b")")
}

/// Puts a condition, or its negation, without a `!`.
#[cycle(conditions)]
fn put_condition(
    buffer: &mut Vec<u8>,
    test: &Test,
    condition: &Cond,
    holds: bool,
) -> io::Result<()> {
    match condition {
        Cond::Not(inner) => put_condition(buffer, test, inner, !holds),
        Cond::All(inner) => put_joined(
            buffer,
            test,
            inner,
            holds,
            if holds { " && " } else { " || " },
        ),
        Cond::Any(inner) => put_joined(
            buffer,
            test,
            inner,
            holds,
            if holds { " || " } else { " && " },
        ),
        Cond::Is {
            agent,
            reg,
            equal,
            value,
        } => {
            if usize::from(*agent) < test.agents() {
                buffer.write_all(test.agent_name(usize::from(*agent)).as_bytes())?;
            }
            let sign = if *equal == holds { "==" } else { "!=" };
            write!(buffer, ".r{reg} {sign} {value}")
        }
    }
}

/// Puts the conjunction of the members that are chosen.
fn put_chosen(buffer: &mut Vec<u8>, test: &Test, members: &[Member<'_>]) -> io::Result<()> {
    let mut first = true;
    for member in members.iter().filter(|member| member.is_chosen) {
        if !first {
            buffer.write_all(b" && ")?;
        }
        first = false;
        put_condition(buffer, test, member.condition, member.holds)?;
    }
    Ok(())
}

/// Whether the values that registers have at the end of a part meet a condition.
#[cycle(evaluation)]
fn is_met(part: &Part<'_>, condition: &Cond) -> bool {
    match condition {
        Cond::Not(inner) => !is_met(part, inner),
        Cond::All(inner) => !some_is(part, inner, false),
        Cond::Any(inner) => some_is(part, inner, true),
        Cond::Is {
            agent,
            reg,
            equal,
            value,
        } => (final_value(part, usize::from(*agent), *reg) == *value) == *equal,
    }
}

/// Whether some condition is met, or, if not `met`, isn't.
#[cycle(evaluation)]
fn some_is(part: &Part<'_>, conditions: &[Cond], met: bool) -> bool {
    for condition in conditions {
        if is_met(part, condition) == met {
            return true;
        }
    }
    false
}

/// The place of the last member that isn't chosen; 0 where each is.
fn last_left(members: &[Member<'_>]) -> usize {
    let mut last = 0;
    for (place, member) in members.iter().enumerate() {
        if !member.is_chosen {
            last = place;
        }
    }
    last
}

/// The place of the last member that isn't chosen and that the values of a part don't meet; where they meet all of these, of the last that
/// isn't chosen.
fn last_unmet(part: &Part<'_>, members: &[Member<'_>]) -> usize {
    let mut refused = None;
    for (place, member) in members.iter().enumerate() {
        if !member.is_chosen && is_met(part, member.condition) != member.holds {
            refused = Some(place);
        }
    }
    refused.unwrap_or(last_left(members))
}

/// A member that the first attempt at those chosen doesn't meet, by its place; `None` where there is no attempt. Of a text that is
/// refused, which a condition can make too deep, this says that there is one.
fn unmet_by_attempt(
    alloc: Global,
    test: &Test,
    members: &[Member<'_>],
) -> io::Result<Option<usize>> {
    let mut text = text_before_condition(alloc, test)?;
    put_chosen(&mut text, test, members)?;
    text.write_all(b"\n")?;
    let test = match read(alloc, &text) {
        Ok(test) => test,
        Err(fault) if fault.kind == ReadKind::OutOfMemory => {
            return Err(io::Error::from(io::ErrorKind::OutOfMemory));
        }
        Err(_) => return Ok(Some(last_left(members))),
    };
    let plan = match plan(alloc, &test) {
        Ok(plan) => plan,
        Err(PlanFault::OutOfMemory) => return Err(io::Error::from(io::ErrorKind::OutOfMemory)),
        Err(_) => return Ok(Some(last_left(members))),
    };
    let found = attempts(alloc, &plan, Class::Met, 1)?;
    match found.first() {
        None => Ok(None),
        Some(attempt) if attempt.choice < plan.total() => {
            let part = part_of(&plan, attempt.choice);
            Ok(Some(last_unmet(&part, members)))
        }
        Some(_) => Ok(Some(last_left(members))),
    }
}

/// Removes the last line of a text, and the byte 10 that ends it.
fn pop_line(text: &mut Vec<u8>)
    ensures { IsBeforeLastLine text.old.items text.new.items }
{
    text.pop();
    'bytes: while !text.is_empty() && text[text.len() - 1] != b'\n' {
        text.pop();
    }
}

/// The canonical text of a test up to its condition.
pub(crate) fn text_before_condition(alloc: Global, test: &Test) -> io::Result<Vec<u8>>
    ensures { IfOk result (λ text. (front : List ℕ) × IsBeforeLastLine (canonical test.now) front
        × (text.items ≡ front ++ codes "check ")) }
{
    let Ok(mut text) = show(alloc, test) else {
        return Err(io::Error::from(io::ErrorKind::OutOfMemory));
    };
    pop_line(&mut text);
    text.write_all(b"check ")?;
    Ok(text)
}

/// Chooses members until there is no attempt at those chosen: each is one that the last attempt doesn't meet. So one search alone goes
/// through all, and the others end at what they find.
fn choose(alloc: Global, plan: &Plan<'_>, members: &mut [Member<'_>]) -> io::Result<()> {
    let mut next = Some(if plan.total() > 0 {
        last_unmet(&part_of(&*plan, 0), members)
    } else {
        last_left(members)
    });
    for _ in 0..members.len() {
        match next {
            Some(place) if place < members.len() => members[place].is_chosen = true,
            _ => return Ok(()),
        }
        next = unmet_by_attempt(alloc, plan.test(), members)?;
    }
    Ok(())
}

/// Puts members back, one after the other: each without which there is still no attempt at the others.
fn put_needless_back(alloc: Global, test: &Test, members: &mut [Member<'_>]) -> io::Result<()> {
    let mut count = members.iter().filter(|member| member.is_chosen).count();
    for place in 0..members.len() {
        if count > 1 && members[place].is_chosen {
            members[place].is_chosen = false;
            if unmet_by_attempt(alloc, test, members)?.is_none() {
                count -= 1;
            } else {
                members[place].is_chosen = true;
            }
        }
    }
    Ok(())
}

/// Puts a least conjunction of members of a test's condition, or of its negation, at which there is no attempt. There is to be none
/// at the whole of it.
pub(crate) fn put_core(
    alloc: Global,
    buffer: &mut Vec<u8>,
    plan: &Plan<'_>,
    holds: bool,
) -> io::Result<()> {
    let test = plan.test();
    let mut members = Vec::new(alloc);
    push_members(&mut members, test.check(), holds)?;
    choose(alloc, plan, &mut members)?;
    put_needless_back(alloc, test, &mut members)?;
    put_chosen(buffer, test, &members)
}
