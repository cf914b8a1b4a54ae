//! The text of a derivation: first the forced precedences, and then the cycle, step by step.

use crate::reasons::{put_chain, put_conclusion};
use crate::scene::Scene;
use lit_why::{DerivationLine, Reason};
use std::alloc::Global;
use std::io;
use std::io::Write;

/// A bound on the loop over the lines of one step: more lines than a derivation can have.
const MOST: usize = 10_000;

/// The places of the lines of which the line at a place is composed, in the order of their events. None of these is composed itself.
fn steps_of(alloc: Global, lines: &[DerivationLine], place: usize) -> io::Result<Vec<usize>> {
    let mut steps = Vec::new(alloc);
    let mut waiting = Vec::new(alloc);
    waiting.push(place)?;
    for _ in 0..MOST {
        let Some(place) = waiting.pop() else {
            break;
        };
        match lines.get(place) {
            Some(
                DerivationLine {
                    reason: Reason::Joined { first, second },
                    ..
                },
            ) => {
                waiting.push(*second)?;
                waiting.push(*first)?;
            }
            _ => steps.push(place)?,
        }
    }
    Ok(steps)
}

/// Puts why one event comes before another.
fn put_forced(
    buffer: &mut Vec<u8>,
    scene: &Scene<'_>,
    line: &DerivationLine,
    middle: u8,
    source: u8,
    read: u8,
) -> io::Result<()> {
    buffer.write_all(b"  ")?;
    scene.put_placed(buffer, line.before)?;
    buffer.write_all(b" before ")?;
    scene.put_placed(buffer, line.after)?;
    buffer.write_all(b": ")?;
    scene.put_event(buffer, middle)?;
    buffer.write_all(b" may not stand between ")?;
    scene.put_event(buffer, source)?;
    buffer.write_all(b" and ")?;
    scene.put_event(buffer, read)?;
    buffer.write_all(b"\n")
}

/// Puts one line of a derivation that is not composed of others.
fn put_step(buffer: &mut Vec<u8>, scene: &Scene<'_>, line: &DerivationLine) -> io::Result<()> {
    match line.reason {
        Reason::AfterRead { source, .. } => put_forced(
            buffer,
            scene,
            line,
            line.after,
            source,
            line.before,
        ),
        Reason::BeforeSource { read, .. } => put_forced(
            buffer,
            scene,
            line,
            line.before,
            line.after,
            read,
        ),
        Reason::HappensBefore | Reason::Joined { .. } => put_chain(
            buffer,
            scene,
            line.before,
            line.after,
        ),
    }
}

/// The place of the line that a forced line cites.
fn earlier_of(line: &DerivationLine) -> Option<usize> {
    match line.reason {
        Reason::AfterRead { earlier, .. } | Reason::BeforeSource { earlier, .. } => Some(earlier),
        Reason::HappensBefore | Reason::Joined { .. } => None,
    }
}

/// Whether a line is of happens-before.
fn is_given(lines: &[DerivationLine], place: usize) -> bool {
    match lines.get(place) {
        Some(line) => line.reason == Reason::HappensBefore,
        None => true,
    }
}

/// Puts the steps that lead to the line that a forced line cites, unless that is of happens-before.
fn put_premise(
    alloc: Global,
    buffer: &mut Vec<u8>,
    scene: &Scene<'_>,
    lines: &[DerivationLine],
    line: &DerivationLine,
) -> io::Result<()> {
    let Some(earlier) = earlier_of(line) else {
        return Ok(());
    };
    if is_given(lines, earlier) {
        return Ok(());
    }
    let steps = steps_of(alloc, lines, earlier)?;
    put_steps(buffer, scene, lines, &steps)
}

/// Where the step stands that begins with the least event, and that event.
fn first_step(lines: &[DerivationLine], steps: &[usize]) -> (usize, u8) {
    let mut first = (0, u8::MAX);
    for (place, step) in steps.iter().enumerate() {
        if let Some(line) = lines.get(*step) {
            if line.before < first.1 {
                first = (place, line.before);
            }
        }
    }
    first
}

/// Puts steps, one after the other.
fn put_steps(
    buffer: &mut Vec<u8>,
    scene: &Scene<'_>,
    lines: &[DerivationLine],
    steps: &[usize],
) -> io::Result<()> {
    for place in steps {
        if let Some(step) = lines.get(*place) {
            put_step(buffer, scene, step)?;
        }
    }
    Ok(())
}

/// Puts a derivation: first the steps to the lines that its forced lines cite, and then the steps of the cycle, from its least event on.
pub(crate) fn put_cycle(
    alloc: Global,
    buffer: &mut Vec<u8>,
    scene: &Scene<'_>,
    lines: &[DerivationLine],
) -> io::Result<()> {
    for line in lines {
        put_premise(alloc, buffer, scene, lines, line)?;
    }
    let steps = steps_of(alloc, lines, lines.len().saturating_sub(1))?;
    let (place, event) = first_step(lines, &steps);
    let (before, after) = steps.split_at(place.min(steps.len()));
    put_steps(buffer, scene, lines, after)?;
    put_steps(buffer, scene, lines, before)?;
    put_conclusion(buffer, scene, event)
}
