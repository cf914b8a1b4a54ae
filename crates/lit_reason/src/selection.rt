//! The choice that words select: by the sources of its reads, and by final values of registers.

ghost use Rattle.std.specs.Prelude.{◌<◌, IfOk, IfSome, length};
ghost use Rattle.lit_paths.specs.Choice.{choices_of};

use crate::scene::{EventName, Scene};
use crate::statements::Statements;
use lit_paths::{Combination, Event, Plan};
use lit_rel::Part;
use lit_syntax::{REGISTERS, Test};
use lit_why::Refusal;
use std::alloc::{AllocError, Global};

/// Both sides of each word, `EVENT=SOURCE,..` or `AGENT.rN=VALUE`; words are parted by blanks. A word without a `=` has an empty side.
fn sides(word: &str) -> (&str, &str) {
    word.split_once("=").unwrap_or((word, ""))
}

/// Whether words are those that can select a choice: each has two sides, and there is one.
pub fn are_words(words: &str) -> bool {
    let mut some = false;
    for word in words.split_whitespace() {
        let (name, given) = sides(word);
        if name.is_empty() || given.is_empty() {
            return false;
        }
        some = true;
    }
    some
}

/// The agent and the register that a word names: none where it names an event.
fn register_of<'w>(name: &'w str) -> Option<(&'w str, &'w str)> {
    let (agent, place) = name.split_once(".")?;
    let register = place.strip_prefix("r")?;
    Some((agent, register))
}

/// How many words name events.
fn count_events(words: &str) -> usize {
    let mut count: usize = 0;
    for word in words.split_whitespace() {
        if register_of(sides(word).0).is_none() {
            count = count.saturating_add(1);
        }
    }
    count
}

/// Whether an event has a name.
fn is_named(alloc: Global, test: &Test, event: &Event, name: &str) -> Result<bool, AllocError> {
    let own = format!(in alloc; "{}", EventName { test, event })?;
    Ok(own.as_str() == name)
}

/// The sources that the words give an event, where they are as many as it has bytes.
fn sources_given<'w>(
    alloc: Global,
    test: &Test,
    event: &Event,
    words: &'w str,
) -> Result<Option<&'w str>, AllocError> {
    for word in words.split_whitespace() {
        let (name, given) = sides(word);
        if is_named(alloc, test, event, name)? {
            let enough = given.split(",").count() == usize::from(event.size);
            return Ok(if enough { Some(given) } else { None });
        }
    }
    Ok(None)
}

/// The place of an event with a name among candidates.
fn place_of(
    alloc: Global,
    combination: &Combination<'_>,
    candidates: &[u8],
    name: &str,
) -> Result<Option<usize>, AllocError> {
    for (place, candidate) in candidates.iter().enumerate() {
        if let Some(event) = combination.events().get(usize::from(*candidate)) {
            if is_named(alloc, combination.test(), event, name)? {
                return Ok(Some(place));
            }
        }
    }
    Ok(None)
}

/// The choice of a combination whose reads are those that the words name, with these sources.
fn choice_on(
    alloc: Global,
    combination: &Combination<'_>,
    words: &str,
) -> Result<Option<u64>, AllocError> {
    let (events, test) = (combination.events(), combination.test());
    let reads = events.iter().filter(|event| event.kind.does_read()).count();
    if reads != count_events(words) {
        return Ok(None);
    }
    let mut choice = combination.first();
    for (place, at) in combination.byte_reads().iter().enumerate() {
        let Some(event) = events.get(usize::from(at.read)) else {
            return Ok(None);
        };
        let Some(given) = sources_given(alloc, test, event, words)? else {
            return Ok(None);
        };
        let byte = usize::from(at.byte.saturating_sub(event.first));
        let name = given.split(",").nth(byte).unwrap_or("");
        let Some(digit) = place_of(alloc, combination, combination.candidates(place), name)? else {
            return Ok(None);
        };
        let ways = (digit as u64).saturating_mul(combination.ways_after(place));
        choice = choice.saturating_add(ways);
    }
    Ok(Some(choice))
}

/// The final value of an agent's register on the paths of a part that has all sources.
pub(crate) fn final_value(part: &Part<'_>, agent: usize, register: u8) -> u32 {
    let combination = part.combination();
    if agent >= combination.test().agents() || usize::from(register) >= REGISTERS {
        return 0;
    }
    match combination.path(agent).last(register) {
        None => 0,
        Some(place) => part.value(combination.first_event(agent).saturating_add(place)),
    }
}

/// Whether a register has the final value that a word gives it.
fn has_value(part: &Part<'_>, agent: &str, register: &str, value: &str) -> bool {
    let test = part.combination().test();
    let (Ok(register), Ok(value)) = (register.parse::<u8>(), value.parse::<u32>()) else {
        return false;
    };
    for place in 0..test.agents() {
        if test.agent_name(place) == agent {
            return usize::from(register) < REGISTERS && final_value(part, place, register) == value;
        }
    }
    false
}

/// Whether registers have the final values that words give them.
fn has_values(part: &Part<'_>, words: &str) -> bool {
    for word in words.split_whitespace() {
        let (name, given) = sides(word);
        if let Some((agent, register)) = register_of(name) {
            if !has_value(part, agent, register, given) {
                return false;
            }
        }
    }
    true
}

/// The least choice that the words select and that a valid execution has; where none has one, the least selected choice whose guards allow
/// the values read (decision 113).
pub(crate) fn select(
    alloc: Global,
    plan: &Plan<'_>,
    statements: &Statements,
    words: &str,
) -> Result<Option<u64>, AllocError>
    ensures { IfOk result (λ found. IfSome found (λ choice. choice < length (choices_of plan.now))) }
{
    let mut allowed = None;
    for number in 0..plan.combinations() {
        let Some(choice) = choice_on(alloc, &plan.enter(number), words)? else {
            continue;
        };
        if choice >= plan.total() {
            continue;
        }
        let scene = Scene::new(&*plan, statements, choice);
        if !has_values(&scene.part, words) {
            continue;
        }
        match scene.refusal {
            None => return Ok(Some(choice)),
            Some(Refusal::FalseGuard { .. }) => (),
            Some(_) => allowed = allowed.or(Some(choice)),
        }
    }
    Ok(allowed)
}
