//! An execution as JSON: its events with their lines, sources and values, its relations, what refuses it, and its data races.

use crate::refusals::refusal_value;
use crate::scene::Scene;
use lit_paths::{Event, Kind, Order3};
use lit_rel::Rows;
use lit_why::is_data_race;
use serde_json::{Value, json};
use std::alloc::{AllocError, Global};

/// The name of an event.
pub(crate) fn name_value(alloc: Global, scene: &Scene<'_>, event: u8) -> Result<Value, AllocError> {
    Ok(Value::String(scene.name_of(alloc, event)?))
}

/// The names of two events.
pub(crate) fn pair_value(
    alloc: Global,
    scene: &Scene<'_>,
    first: u8,
    second: u8,
) -> Result<Value, AllocError> {
    let (first, second) = (
        name_value(alloc, scene, first)?,
        name_value(alloc, scene, second)?,
    );
    json!(in alloc; [first, second])
}

/// The kind of an event.
fn kind_of(event: &Event) -> &'static str {
    match event.kind {
        Kind::Read => "read",
        Kind::Write => "write",
        Kind::Modify => "read-modify-write",
    }
}

/// The order of an event, as the standard names it.
fn order_of(event: &Event) -> &'static str {
    match event.order {
        Order3::SeqCst => "seq-cst",
        Order3::Unordered => "unordered",
        Order3::Init => "init",
    }
}

/// An event, by its number. What it reads is null also where the sources of a byte store several values.
fn event_value(
    alloc: Global,
    scene: &Scene<'_>,
    number: u8,
    event: &Event,
) -> Result<Value, AllocError> {
    let name = name_value(alloc, scene, number)?;
    let reads = if event.kind.does_read() {
        scene.value(number)
    } else {
        None
    };
    let writes = if event.kind.does_write() {
        Some(u32::from_le_bytes(event.payload))
    } else {
        None
    };
    json!(in alloc; {
        "name": name, "line": scene.line_of(number), "kind": kind_of(event), "order": order_of(event), "no_tear": event.no_tear,
        "first": event.first, "size": event.size, "reads": reads, "writes": writes
    })
}

/// All events, in the order of their numbers.
fn events_value(alloc: Global, scene: &Scene<'_>) -> Result<Value, AllocError> {
    let mut list = Vec::new(alloc);
    for (number, event) in scene.part.combination().events().iter().enumerate() {
        list.push(event_value(alloc, scene, number as u8, event)?)?;
    }
    Ok(Value::Array(list))
}

/// The source of each byte that is read, of a case of each that is given.
fn sources_value(alloc: Global, scene: &Scene<'_>) -> Result<Value, AllocError> {
    let mut list = Vec::new(alloc);
    for (place, byte) in scene.part.combination().byte_reads().iter().enumerate() {
        if let Some(source) = scene.source_at(place) {
            let read = name_value(alloc, scene, byte.read)?;
            let source = name_value(alloc, scene, source)?;
            list.push(json!(in alloc; {"read": read, "byte": byte.byte, "source": source})?)?;
        }
    }
    Ok(Value::Array(list))
}

/// The pairs of a relation.
fn rows_value(alloc: Global, scene: &Scene<'_>, rows: &Rows) -> Result<Value, AllocError> {
    let mut list = Vec::new(alloc);
    for a in 0..rows.len() {
        for d in 0..rows.len() {
            if rows.holds(a, d) {
                list.push(pair_value(alloc, scene, a as u8, d as u8)?)?;
            }
        }
    }
    Ok(Value::Array(list))
}

/// What may not stand between each source and its read.
fn forbidden_value(alloc: Global, scene: &Scene<'_>) -> Result<Value, AllocError> {
    let between = &scene.between;
    let mut list = Vec::new(alloc);
    for pair in between.pairs() {
        for other in 0..between.len() {
            if pair.others.contains(other) {
                let source = name_value(alloc, scene, pair.source)?;
                let read = name_value(alloc, scene, pair.read)?;
                let other = name_value(alloc, scene, other as u8)?;
                list.push(json!(in alloc; {"source": source, "read": read, "other": other})?)?;
            }
        }
    }
    Ok(Value::Array(list))
}

/// The pairs of events that are in a data race, the lesser number first; of a case none.
fn races_value(alloc: Global, scene: &Scene<'_>) -> Result<Value, AllocError> {
    let count = scene.part.combination().events().len();
    let mut list = Vec::new(alloc);
    for a in 0..count {
        for d in a..count {
            if !scene.is_case() && is_data_race(&scene.part, a as u8, d as u8) {
                list.push(pair_value(alloc, scene, a as u8, d as u8)?)?;
            }
        }
    }
    Ok(Value::Array(list))
}

/// A memory-order, or null where there is none.
fn order_value(
    alloc: Global,
    scene: &Scene<'_>,
    order: Option<&[u8]>,
) -> Result<Value, AllocError> {
    let Some(order) = order else {
        return Ok(Value::Null);
    };
    let mut list = Vec::new(alloc);
    for event in order {
        list.push(name_value(alloc, scene, *event)?)?;
    }
    Ok(Value::Array(list))
}

/// A choice, with a memory-order where it has one.
pub(crate) fn execution_value(
    alloc: Global,
    scene: &Scene<'_>,
    order: Option<&[u8]>,
) -> Result<Value, AllocError> {
    let events = events_value(alloc, scene)?;
    let sources = sources_value(alloc, scene)?;
    let synchronizes = rows_value(alloc, scene, &scene.synchronizes)?;
    let before = rows_value(alloc, scene, &scene.before)?;
    let forbidden = forbidden_value(alloc, scene)?;
    let order = order_value(alloc, scene, order)?;
    let refusal = refusal_value(alloc, scene)?;
    let races = races_value(alloc, scene)?;
    json!(in alloc; {
        "events": events, "from": sources, "synchronizes_with": synchronizes, "happens_before": before, "forbidden": forbidden,
        "order": order, "refusal": refusal, "races": races
    })
}
