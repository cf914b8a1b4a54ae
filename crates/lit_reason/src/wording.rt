//! Words for what an event does, and for what two events are to each other.

use crate::scene::Scene;
use lit_paths::{Event, Kind, Order3};
use lit_why::RacingPair;
use std::io;
use std::io::Write;

/// What an event does to its bytes.
fn deed(event: &Event) -> &'static str {
    match event.kind {
        Kind::Read => "reads",
        Kind::Write => "writes",
        Kind::Modify => "reads and writes",
    }
}

/// Puts the bytes of an event's range.
fn put_range(buffer: &mut Vec<u8>, event: &Event) -> io::Result<()> {
    match event.size {
        1 => write!(buffer, "byte {}", event.first),
        size => write!(
            buffer,
            "bytes {} to {}",
            event.first,
            (u32::from(event.first) + u32::from(size)).saturating_sub(1)
        ),
    }
}

/// Puts the line that says what an event does, to which bytes.
pub(crate) fn put_accessed(buffer: &mut Vec<u8>, scene: &Scene<'_>, event: u8) -> io::Result<()> {
    buffer.write_all(b"  ")?;
    scene.put_event(buffer, event)?;
    if let Some(event) = scene.part.combination().events().get(usize::from(event)) {
        write!(buffer, " {} ", deed(event))?;
        put_range(buffer, event)?;
    }
    buffer.write_all(b"\n")
}

/// Whether an event is sequentially consistent.
fn is_seq_cst(scene: &Scene<'_>, event: u8) -> bool {
    match scene.part.combination().events().get(usize::from(event)) {
        Some(event) => event.order == Order3::SeqCst,
        None => false,
    }
}

/// Puts the line that says why a race of two events is a data race.
pub(crate) fn put_atomicity(
    buffer: &mut Vec<u8>,
    scene: &Scene<'_>,
    pair: RacingPair,
) -> io::Result<()> {
    buffer.write_all(b"  ")?;
    match (
        is_seq_cst(scene, pair.first),
        is_seq_cst(scene, pair.second),
    ) {
        (true, true) => return buffer.write_all(
            b"both are sequentially consistent, and their ranges overlap without being equal\n",
        ),
        (false, false) => buffer.write_all(b"neither")?,
        (true, false) => scene.put_event(buffer, pair.second)?,
        (false, true) => scene.put_event(buffer, pair.first)?,
    }
    let verb = if is_seq_cst(scene, pair.first) == is_seq_cst(scene, pair.second) {
        " is"
    } else {
        " is not"
    };
    buffer.write_all(verb.as_bytes())?;
    buffer.write_all(b" sequentially consistent\n")
}
