//! The explanation of a choice: its entry, or its refusal.

ghost use Rattle.std.specs.Prelude.{◌≡◌, ◌⊎◌, ◌<◌, ◌++◌, IfOk, OnOk, length};
ghost use Rattle.lit_paths.specs.Choice.{choices_of};
ghost use Rattle.lit_reason.specs.AnswerText.{IsChoiceText, IsPartOf, IsRefusedText, IsValidText, refused_line};
ghost use Rattle.lit_reason.specs.Example.{HasNoOutcome};
ghost use Rattle.lit_why.specs.Refusal.{IsRefusal};

use crate::clauses::Clause;
use crate::example::{example_text, sources_text};
use crate::reasons::put_reason;
use crate::scene::Scene;
use crate::statements::Statements;
use lit_paths::Plan;
use lit_why::Refusal;
use lit_why::laws::{complete_parts_are_choices, refused_parts_have_no_completion};
use std::alloc::Global;
use std::io;
use std::io::Write;

/// Puts the line of the clause that refuses a choice.
fn put_refused(text: &mut Vec<u8>, clause: Clause) -> io::Result<()>
    ensures { OnOk result (text.new.items ≡ text.old.items ++ refused_line clause) }
{
    writeln!(text, "refused by {} ({})", clause.name(), clause.section())
}

/// The text of a choice that is refused: the clause, its sources, and why.
fn refused_text(
    alloc: Global,
    scene: &Scene<'_>,
    choice: u64,
    refusal: Refusal,
) -> io::Result<Vec<u8>>
    requires known { choice < length (choices_of scene.now.plan.now) }
    requires none { HasNoOutcome scene.now.plan.now choice }
    requires part { IsPartOf scene.now.plan.now choice scene.now.part }
    requires refusal { IsRefusal scene.now.part refusal }
    ensures { IfOk result (λ text. IsRefusedText scene.now.plan.now choice text.items) }
{
    let sources = sources_text(alloc, scene.plan, choice)?;
    let mut why = Vec::new(alloc);
    put_reason(alloc, &mut why, scene)?;
    let mut text = Vec::new(alloc);
    put_refused(&mut text, Clause::of(refusal))?;
    text.write_all(&sources)?;
    text.write_all(&why)?;
    Ok(text)
}

/// The text of a choice behind its line.
fn valid_or_refused_text(
    alloc: Global,
    plan: &Plan<'_>,
    statements: &Statements,
    choice: u64,
) -> io::Result<Vec<u8>>
    requires { choice < length (choices_of plan.now) }
    ensures { IfOk result (λ text. IsValidText plan.now choice text.items ⊎ IsRefusedText plan.now choice text.items) }
{
    // The laws say that a choice has an outcome exactly where no clause refuses it.
    refused_parts_have_no_completion();
    complete_parts_are_choices();
    // Tells the prover that the test is one that a text can spell.
    let _test = plan.test();
    let scene = Scene::new(&*plan, statements, choice);
    if let Some(refusal) = scene.refusal {
        return refused_text(alloc, &scene, choice, refusal);
    }
    let mut text = Vec::new(alloc);
    text.write_all(b"valid\n")?;
    text.write_all(&example_text(alloc, plan, choice)?)?;
    Ok(text)
}

/// The text of the answer about a choice behind its first line.
pub(crate) fn choice_text(
    alloc: Global,
    plan: &Plan<'_>,
    statements: &Statements,
    choice: u64,
) -> io::Result<Vec<u8>>
    requires { choice < length (choices_of plan.now) }
    ensures { IfOk result (λ text. IsChoiceText plan.now choice text.items) }
{
    // Tells the prover that numbers of choices are small.
    let total = plan.total();
    let mut text = Vec::new(alloc);
    writeln!(text, "choice {choice} of 0 to {}", total - 1)?;
    text.write_all(&valid_or_refused_text(alloc, plan, statements, choice)?)?;
    Ok(text)
}
