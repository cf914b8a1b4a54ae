//! Where the data race is: the least racing pair of the execution with one that mixes sources least.

ghost use Rattle.std.specs.Prelude.{◌<◌, IfOk, length};
ghost use Rattle.lit_paths.specs.Choice.{choices_of};
ghost use Rattle.lit_valid.specs.Gives.{GivesRace};
ghost use Rattle.lit_solve.specs.declared.goal.Goal.TheVariants.{Race};
ghost use Rattle.lit_reason.specs.AnswerText.{IsRaceText, IsShownText};

use crate::example::example_text;
use crate::scene::Scene;
use crate::statements::Statements;
use crate::wording::{put_accessed, put_atomicity};
use lit_paths::Plan;
use lit_solve::Goal;
use lit_why::laws::{complete_parts_are_choices, shown_choices_meet_their_goal};
use lit_why::{RacingPair, least_mixing, racing_pair};
use std::alloc::Global;
use std::io;
use std::io::Write;

/// The text of the answer about data races behind its first line: the one that is shown, or that there is none.
pub(crate) fn race_text(
    alloc: Global,
    plan: &Plan<'_>,
    statements: &Statements,
) -> io::Result<Vec<u8>>
    ensures { IfOk result (λ text. IsRaceText plan.now text.items) }
{
    // The law says that what is shown has a data race, and that there is none where nothing is shown.
    shown_choices_meet_their_goal();
    let Some(shown) = least_mixing(plan, Goal::Race) else {
        let mut text = Vec::new(alloc);
        text.write_all(b"data race no\n")?;
        return Ok(text);
    };
    let example = example_text(alloc, plan, shown.choice)?;
    pair_text(alloc, plan, statements, shown.choice, &example)
}

/// The text of the least pair of a choice that is in a data race, with the choice's entry.
fn pair_text(
    alloc: Global,
    plan: &Plan<'_>,
    statements: &Statements,
    choice: u64,
    example: &[u8],
) -> io::Result<Vec<u8>>
    requires known { choice < length (choices_of plan.now) }
    requires races { GivesRace plan.now choice }
    requires shown { IsShownText plan.now Race choice example.now }
    ensures { IfOk result (λ text. IsRaceText plan.now text.items) }
{
    // The law says that the choice's part has a data race, so there is a pair.
    complete_parts_are_choices();
    let scene = Scene::new(plan, statements, choice);
    let mut text = Vec::new(alloc);
    if let Some(pair) = racing_pair(&scene.part) {
        text.write_all(b"data race ")?;
        scene.put_placed(&mut text, pair.first)?;
        text.write_all(b" and ")?;
        scene.put_placed(&mut text, pair.second)?;
        text.write_all(&deeds_text(alloc, &scene, pair)?)?;
    }
    text.write_all(example)?;
    Ok(text)
}

/// What two events do, and why they are in a data race.
fn deeds_text(alloc: Global, scene: &Scene<'_>, pair: RacingPair) -> io::Result<Vec<u8>> {
    let mut text = Vec::new(alloc);
    text.write_all(b"\n")?;
    put_accessed(&mut text, scene, pair.first)?;
    put_accessed(&mut text, scene, pair.second)?;
    text.write_all(b"  neither happens before the other\n")?;
    put_atomicity(&mut text, scene, pair)?;
    Ok(text)
}
