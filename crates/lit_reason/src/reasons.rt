//! Why a clause refuses a choice.

use crate::cycles::put_cycle;
use crate::scene::Scene;
use lit_why::{Incoherence, Refusal, StepKind};
use std::alloc::Global;
use std::io;
use std::io::Write;

/// What a step of happens-before is called.
fn step_name(kind: StepKind) -> &'static str {
    match kind {
        StepKind::AgentOrder => "agent-order",
        StepKind::SynchronizesWith => "synchronizes-with",
        StepKind::MadeBefore => "makes its byte",
    }
}

/// Puts a shortest chain of happens-before, a line for each step.
pub(crate) fn put_chain(
    buffer: &mut Vec<u8>,
    scene: &Scene<'_>,
    from: u8,
    to: u8,
) -> io::Result<()> {
    let Some(chain) = scene.chain_between(from, to) else {
        return Ok(());
    };
    let mut from = from;
    for link in chain.links.as_slice() {
        buffer.write_all(b"  ")?;
        scene.put_placed(buffer, from)?;
        buffer.write_all(b" before ")?;
        scene.put_placed(buffer, link.to)?;
        writeln!(buffer, ": {}", step_name(link.kind))?;
        from = link.to;
    }
    Ok(())
}

/// Puts that an event would have to come before itself.
pub(crate) fn put_conclusion(buffer: &mut Vec<u8>, scene: &Scene<'_>, event: u8) -> io::Result<()> {
    buffer.write_all(b"  so ")?;
    scene.put_event(buffer, event)?;
    buffer.write_all(b" before itself\n")
}

/// Puts that a byte of a read is not coherent: the read happens before its source, or an event hides it.
fn put_incoherent(
    buffer: &mut Vec<u8>,
    scene: &Scene<'_>,
    read: u8,
    byte: u8,
    source: u8,
    cause: Incoherence,
) -> io::Result<()> {
    buffer.write_all(b"  ")?;
    scene.put_placed(buffer, read)?;
    write!(buffer, " reads byte {byte} from ")?;
    scene.put_placed(buffer, source)?;
    match cause {
        Incoherence::ReadFirst => {
            buffer.write_all(b", which comes after it\n")?;
            put_chain(buffer, scene, read, source)
        }
        Incoherence::HiddenBy(other) => {
            buffer.write_all(b", which ")?;
            scene.put_placed(buffer, other)?;
            buffer.write_all(b" writes over before the read\n")?;
            put_chain(buffer, scene, source, other)?;
            put_chain(buffer, scene, other, read)
        }
    }
}

/// Puts that a read would be whole from two events.
fn put_torn(
    buffer: &mut Vec<u8>,
    scene: &Scene<'_>,
    read: u8,
    source: u8,
    other: u8,
) -> io::Result<()> {
    buffer.write_all(b"  ")?;
    scene.put_placed(buffer, read)?;
    buffer.write_all(b" reads bytes of ")?;
    scene.put_placed(buffer, source)?;
    buffer.write_all(b" and of ")?;
    scene.put_placed(buffer, other)?;
    buffer.write_all(b", which have its range; none of the three may tear\n")
}

/// Puts why there is no memory-order.
fn put_no_order(alloc: Global, buffer: &mut Vec<u8>, scene: &Scene<'_>) -> io::Result<()> {
    match scene.cycle(alloc)? {
        Some(lines) => put_cycle(alloc, buffer, scene, &lines),
        None => buffer.write_all(
            b"  each order of the events breaks a rule; no pair of events alone shows it\n",
        ),
    }
}

/// Puts that a guard of an agent's path is false: the path is for another value than the read has.
fn put_false_guard(
    alloc: Global,
    buffer: &mut Vec<u8>,
    scene: &Scene<'_>,
    agent: usize,
    place: usize,
) -> io::Result<()> {
    let combination = scene.part.combination();
    if agent >= combination.test().agents() {
        return Ok(());
    }
    let Some(guard) = combination.path(agent).tests().get(place) else {
        return Ok(());
    };
    buffer.write_all(b"  the path")?;
    if let Some(line) = scene.line_of_guard(alloc, agent, place)? {
        write!(buffer, " from line {line}")?;
    }
    let other = if guard.equal {
        ""
    } else {
        "another value than "
    };
    write!(buffer, " is for {other}{}, and ", guard.value)?;
    match guard.on {
        None => buffer.write_all(b"the register has its first value, 0\n"),
        Some(read) => {
            let event = combination.first_event(agent).saturating_add(read);
            scene.put_placed(buffer, event)?;
            writeln!(buffer, " reads {}", scene.part.value(event))
        }
    }
}

/// Puts the first clause that refuses a choice, with its witness.
pub(crate) fn put_reason(alloc: Global, buffer: &mut Vec<u8>, scene: &Scene<'_>) -> io::Result<()> {
    match scene.refusal {
        None => Ok(()),
        Some(Refusal::FalseGuard { agent, place }) => put_false_guard(
            alloc, buffer, scene, agent, place,
        ),
        Some(Refusal::BeforeItself { event }) => {
            put_chain(buffer, scene, event, event)?;
            put_conclusion(buffer, scene, event)
        }
        Some(
            Refusal::Incoherent {
                read,
                byte,
                source,
                cause,
            },
        ) => { put_incoherent(buffer, scene, read, byte, source, cause) }
        Some(
            Refusal::Torn {
                read,
                source,
                other,
            },
        ) => put_torn(buffer, scene, read, source, other),
        Some(Refusal::NoOrder) => put_no_order(alloc, buffer, scene),
    }
}
