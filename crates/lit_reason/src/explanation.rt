//! The answer to a question on a litmus text.

ghost use Rattle.std.specs.Prelude.{◌≡◌, ◌++◌, false, IfErr, IfOk, OnOk};
ghost use Rattle.lit_reason.specs.AnswerText.{IsTextOn, no_choice_line, test_line};
ghost use Rattle.lit_reason.specs.Explained.{HasAnswerOn, IsFaultOn, IsFoundOn, IsWithinLimits};
ghost use Rattle.lit_reason.specs.OtherCondition.{IsTextWith};
ghost use Rattle.lit_reason.specs.Internal.Subjects.{IsKnown, IsSubjectOf, IsSubjectText, IsTestFault, is_found};

use crate::choices::choice_text;
use crate::classes::class_text;
use crate::cores::text_before_condition;
use crate::fault::ReasonFault;
use crate::json::{choice_value, class_value, no_choice_value, race_value};
use crate::question::{Asked, Question};
use crate::races::race_text;
use crate::selection::select;
use crate::statements::Statements;
use lit_paths::{Plan, plan};
use lit_read::{ReadKind, read};
use lit_search::Class;
use lit_syntax::Test;
use serde_json::Value;
use std::alloc::{AllocError, Global};
use std::io;
use std::io::Write;

/// The answer to a question.
#[derive(Drop, Debug)]
pub struct Answer {
    /// Its text, or its line of JSON.
    pub text: Vec<u8>,
    /// Whether there is a choice as it is asked for; true where none is.
    pub found: bool,
}

/// What an answer is about.
#[derive(Clone, Copy, Debug)]
enum Subject {
    /// An outcome in a class.
    InClass(Class),
    /// The first data race.
    Race,
    /// A choice, by its number.
    OfChoice(u64),
    /// A choice with a number that none has.
    OfNoNumber,
    /// A choice with sources that none has.
    OfNoSources,
}

impl Subject {
    /// Whether it is a choice as it is asked for, where it is about one.
    fn is_found(self) -> bool
        ensures { result ≡ is_found self }
    {
        match self {
            Subject::InClass(_) | Subject::Race | Subject::OfChoice(_) => true,
            Subject::OfNoNumber | Subject::OfNoSources => false,
        }
    }
}

/// What a question is about on a test.
fn subject_of(
    alloc: Global,
    plan: &Plan<'_>,
    statements: &Statements,
    question: Question<'_>,
) -> io::Result<Subject>
    ensures of { IfOk result (IsSubjectOf plan.now question.entry) }
    ensures known { IfOk result (IsKnown plan.now) }
{
    Ok(match question {
        Question::InClass(class) => Subject::InClass(class),
        Question::Race => Subject::Race,
        Question::OfChoice(choice) if choice < plan.total() => Subject::OfChoice(choice),
        Question::OfChoice(_) => Subject::OfNoNumber,
        Question::OfSources(words) => match select(alloc, plan, statements, words)? {
            Some(choice) => Subject::OfChoice(choice),
            None => Subject::OfNoSources,
        },
    })
}

/// A text behind the line that answers begin with.
fn with_test_line(alloc: Global, plan: &Plan<'_>, rest: &[u8]) -> io::Result<Vec<u8>>
    ensures { IfOk result (λ text. text.items ≡ test_line plan.now ++ rest.now) }
{
    let mut text = Vec::new(alloc);
    writeln!(text, "test {}", plan.test().name())?;
    text.write_all(rest)?;
    Ok(text)
}

/// The line that says which numbers choices have.
fn no_choice_text(alloc: Global, plan: &Plan<'_>) -> io::Result<Vec<u8>>
    ensures { IfOk result (λ text. text.items ≡ no_choice_line plan.now) }
{
    let mut text = Vec::new(alloc);
    writeln!(text, "no such choice: they are 0 to {}", plan.total() - 1)?;
    Ok(text)
}

/// The answer about a subject as text.
fn text_of(
    alloc: Global,
    plan: &Plan<'_>,
    statements: &Statements,
    subject: Subject,
    most: usize,
) -> io::Result<Vec<u8>>
    requires { IsKnown plan.now subject }
    ensures { IfOk result (λ text. IsSubjectText plan.now subject text.items) }
{
    match subject {
        Subject::InClass(class) => {
            let rest = class_text(alloc, plan, statements, class, most)?;
            with_test_line(alloc, plan, &rest)
        }
        Subject::Race => {
            let rest = race_text(alloc, plan, statements)?;
            with_test_line(alloc, plan, &rest)
        }
        Subject::OfChoice(choice) => {
            let rest = choice_text(alloc, plan, statements, choice)?;
            with_test_line(alloc, plan, &rest)
        }
        Subject::OfNoNumber => no_choice_text(alloc, plan),
        Subject::OfNoSources => {
            let mut text = Vec::new(alloc);
            text.write_all(b"no choice has these sources\n")?;
            Ok(text)
        }
    }
}

/// The answer about a subject as JSON.
fn json_of(
    alloc: Global,
    plan: &Plan<'_>,
    statements: &Statements,
    subject: Subject,
    most: usize,
) -> Result<Value, AllocError>
    requires { IsKnown plan.now subject }
{
    match subject {
        Subject::InClass(class) => class_value(alloc, plan, statements, class, most),
        Subject::Race => race_value(alloc, plan, statements),
        Subject::OfChoice(choice) => choice_value(alloc, plan, statements, choice),
        Subject::OfNoNumber | Subject::OfNoSources => no_choice_value(alloc, plan),
    }
}

/// The answer about a subject as a line of JSON.
fn json_line(
    alloc: Global,
    plan: &Plan<'_>,
    statements: &Statements,
    subject: Subject,
    most: usize,
) -> io::Result<Vec<u8>>
    requires { IsKnown plan.now subject }
{
    let value = json_of(alloc, plan, statements, subject, most)?;
    let mut text = value.to_vec(alloc)?;
    text.write_all(b"\n")?;
    Ok(text)
}

/// The answer to a question on a test.
fn answer_of(
    alloc: Global,
    plan: &Plan<'_>,
    statements: &Statements,
    asked: &Asked<'_>,
) -> io::Result<Answer>
    ensures found { IfOk result (λ answer. IsFoundOn plan.now asked.now.question answer.found) }
    ensures text { asked.now.json ≡ false → IfOk result (λ answer. IsTextOn plan.now asked.now.question answer.text.items) }
{
    let subject = subject_of(alloc, plan, statements, asked.question)?;
    let text = if asked.json {
        json_line(alloc, plan, statements, subject, asked.most)?
    } else {
        text_of(alloc, plan, statements, subject, asked.most)?
    };
    Ok(Answer {
        text,
        found: subject.is_found(),
    })
}

/// The text of a test with another condition.
fn text_with(alloc: Global, test: &Test, condition: &str) -> io::Result<Vec<u8>>
    ensures { IfOk result (λ text. IsTextWith test.now condition.now text.items) }
{
    let mut text = text_before_condition(alloc, test)?;
    text.write_all(condition.as_bytes())?;
    text.write_all(b"\n")?;
    Ok(text)
}

/// The answer to a question on a test, whose statements have these lines.
fn explain_test(
    alloc: Global,
    test: &Test,
    statements: &Statements,
    asked: &Asked<'_>,
) -> Result<Answer, ReasonFault>
    ensures planned { OnOk result (IsWithinLimits test.now) }
    ensures found { IfOk result (λ answer. IsFoundOn test.now asked.now.question answer.found) }
    ensures text { asked.now.json ≡ false → IfOk result (λ answer. IsTextOn test.now asked.now.question answer.text.items) }
    ensures fault { IfErr result (IsTestFault test.now) }
{
    let plan = plan(alloc, test)?;
    // Writing into a text fails only where memory for its growth is refused.
    match answer_of(alloc, &plan, statements, asked) {
        Ok(answer) => Ok(answer),
        Err(_) => Err(ReasonFault::OutOfMemory),
    }
}

/// The answer to a question on a litmus text. Answers `ReasonFault::Read` with the first fault of a text that spells no test,
/// `ReasonFault::Plan` with the limit that a test exceeds, `ReasonFault::Condition` where the condition that is asked about is none of
/// the test, and `ReasonFault::OutOfMemory` where a growth was refused.
pub fn explain(alloc: Global, text: &[u8], asked: &Asked<'_>) -> Result<Answer, ReasonFault>
    ensures answered { IfOk result (HasAnswerOn text.now asked.now) }
    ensures fault { IfErr result (IsFaultOn text.now asked.now) }
{
    let test = read(alloc, text)?;
    let statements = Statements::of(alloc, text)?;
    let Some(condition) = asked.condition else {
        return explain_test(alloc, &test, &statements, asked);
    };
    // Writing into the text fails only where memory for its growth is refused.
    let Ok(other) = text_with(alloc, &test, condition) else {
        return Err(ReasonFault::OutOfMemory);
    };
    match read(alloc, &other) {
        Ok(test) => explain_test(alloc, &test, &statements, asked),
        Err(fault) if fault.kind == ReadKind::OutOfMemory => Err(ReasonFault::OutOfMemory),
        Err(_) => Err(ReasonFault::Condition),
    }
}
