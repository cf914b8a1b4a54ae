//! Why no valid execution has an outcome of a class, or an example where one has.

ghost use Rattle.std.specs.Prelude.{◌≡◌, ◌++◌, IfOk, OnOk, codes};
ghost use Rattle.lit_reason.specs.AnswerText.{IsClassText, verdict_without as verdict_of};

use crate::attempts::Tally;
use crate::cores::put_core;
use crate::example::example_text;
use crate::reasons::put_reason;
use crate::statements::Statements;
use lit_paths::Plan;
use lit_search::Class;
use lit_solve::Goal;
use lit_why::laws::shown_choices_meet_their_goal;
use lit_why::{attempts, least_mixing};
use std::alloc::Global;
use std::io;
use std::io::Write;

/// The verdict on a class that no valid execution has.
pub(crate) fn verdict_without(class: Class) -> &'static str
    ensures { result.now ≡ verdict_of class }
{
    match class {
        Class::Met => "never",
        Class::Unmet => "always",
    }
}

/// Puts the verdict on a class that no valid execution has.
fn put_verdict(text: &mut Vec<u8>, class: Class) -> io::Result<()>
    ensures { OnOk result (text.new.items ≡ text.old.items ++ verdict_of class ++ codes ": ") }
{
    write!(text, "{}: ", verdict_without(class))
}

/// The text of the answer about a class behind its first line: an example, or why there is none. At most so many attempts are looked at.
pub(crate) fn class_text(
    alloc: Global,
    plan: &Plan<'_>,
    statements: &Statements,
    class: Class,
    most: usize,
) -> io::Result<Vec<u8>>
    ensures { IfOk result (λ text. IsClassText plan.now class text.items) }
{
    // The law says that what is shown has an outcome in the class, and that there is none where nothing is shown.
    shown_choices_meet_their_goal();
    if let Some(example) = least_mixing(plan, Goal::OfClass(class)) {
        return Ok(example_text(alloc, plan, example.choice)?);
    }
    let mut why = Vec::new(alloc);
    put_attempts(alloc, &mut why, plan, statements, class, most)?;
    let mut text = Vec::new(alloc);
    put_verdict(&mut text, class)?;
    text.write_all(&why)?;
    Ok(text)
}

/// Puts how many attempts there are, and by which clauses their first cases are refused.
fn put_attempts(
    alloc: Global,
    buffer: &mut Vec<u8>,
    plan: &Plan<'_>,
    statements: &Statements,
    class: Class,
    most: usize,
) -> io::Result<()> {
    let attempts = attempts(alloc, plan, class, most.saturating_add(1))?;
    match attempts.len() {
        0 => {
            buffer.write_all(b"no attempt, since no values that the reads can take come to it\n")?;
            buffer.write_all(b"  no path can make ")?;
            put_core(alloc, buffer, plan, class == Class::Met)?;
            return buffer.write_all(b" true\n");
        }
        1 => buffer.write_all(b"1 attempt\n")?,
        count if count > most => writeln!(
            buffer,
            "more than {most} attempts; of the first {most}:"
        )?,
        count => writeln!(buffer, "{count} attempts")?,
    }
    let tally = Tally::count_all(alloc, plan, statements, &attempts, most)?;
    put_tally(alloc, buffer, plan, statements, &tally)
}

/// Puts each clause that refuses an attempt, how many it refuses, and the first of them with the reason in its first case (decision 142).
fn put_tally(
    alloc: Global,
    buffer: &mut Vec<u8>,
    plan: &Plan<'_>,
    statements: &Statements,
    tally: &Tally,
) -> io::Result<()> {
    for counted in tally.counts() {
        let Some(told) = counted.first else {
            continue;
        };
        writeln!(
            buffer,
            "{} {} ({})",
            told.clause.name(),
            counted.count,
            told.clause.section()
        )?;
        if told.attempt.choice < plan.total() {
            told.put_cases(buffer)?;
            let scene = told.scene(&*plan, statements);
            scene.put_sources(buffer)?;
            put_reason(alloc, buffer, &scene)?;
        }
    }
    Ok(())
}
