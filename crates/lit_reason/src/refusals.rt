//! What refuses a choice, as JSON: the clause with its witness.

use crate::clauses::Clause;
use crate::execution::{name_value, pair_value};
use crate::scene::Scene;
use lit_why::{DerivationLine, Incoherence, Reason, Refusal, StepKind};
use serde_json::{Value, json};
use std::alloc::{AllocError, Global};

/// A kind of step of happens-before.
fn step_of(kind: StepKind) -> &'static str {
    match kind {
        StepKind::AgentOrder => "agent-order",
        StepKind::SynchronizesWith => "synchronizes-with",
        StepKind::MadeBefore => "made-before",
    }
}

/// A shortest chain of happens-before from one event to another; an empty list where there is none.
fn chain_value(alloc: Global, scene: &Scene<'_>, from: u8, to: u8) -> Result<Value, AllocError> {
    let mut list = Vec::new(alloc);
    if let Some(chain) = scene.chain_between(from, to) {
        let mut from = from;
        for link in chain.links.as_slice() {
            let before = name_value(alloc, scene, from)?;
            let after = name_value(alloc, scene, link.to)?;
            list.push(
                json!(in alloc; {"before": before, "after": after, "step": step_of(link.kind)})?,
            )?;
            from = link.to;
        }
    }
    Ok(Value::Array(list))
}

/// A line of a derivation.
fn line_value(
    alloc: Global,
    scene: &Scene<'_>,
    line: &DerivationLine,
) -> Result<Value, AllocError> {
    let before = name_value(alloc, scene, line.before)?;
    let after = name_value(alloc, scene, line.after)?;
    match line.reason {
        Reason::HappensBefore => {
            let chain = chain_value(alloc, scene, line.before, line.after)?;
            json!(in alloc; {"before": before, "after": after, "reason": "happens-before", "chain": chain})
        }
        Reason::Joined { first, second } => json!(in alloc; {
            "before": before, "after": after, "reason": "joined", "lines": [first, second]
        }),
        Reason::BeforeSource { read, earlier } => {
            let read = name_value(alloc, scene, read)?;
            json!(in alloc; {
                "before": before, "after": after, "reason": "before-source", "read": read, "lines": [earlier]
            })
        }
        Reason::AfterRead { source, earlier } => {
            let source = name_value(alloc, scene, source)?;
            json!(in alloc; {
                "before": before, "after": after, "reason": "after-read", "source": source, "lines": [earlier]
            })
        }
    }
}

/// A derivation, or null where there is none.
fn derivation_value(alloc: Global, scene: &Scene<'_>) -> Result<Value, AllocError> {
    let Some(lines) = scene.cycle(alloc)? else {
        return Ok(Value::Null);
    };
    let mut list = Vec::new(alloc);
    for line in lines.iter() {
        list.push(line_value(alloc, scene, line)?)?;
    }
    Ok(Value::Array(list))
}

/// Why a byte is not coherent: the read happens before its source, or an event hides it.
fn incoherent_value(
    alloc: Global,
    scene: &Scene<'_>,
    clause: &str,
    (read, byte, source): (u8, u8, u8),
    cause: Incoherence,
) -> Result<Value, AllocError> {
    let mut chains = Vec::new(alloc);
    let hidden = match cause {
        Incoherence::ReadFirst => {
            chains.push(chain_value(alloc, scene, read, source)?)?;
            Value::Null
        }
        Incoherence::HiddenBy(other) => {
            chains.push(chain_value(alloc, scene, source, other)?)?;
            chains.push(chain_value(alloc, scene, other, read)?)?;
            name_value(alloc, scene, other)?
        }
    };
    let read = name_value(alloc, scene, read)?;
    let source = name_value(alloc, scene, source)?;
    json!(in alloc; {
        "clause": clause, "read": read, "byte": byte, "source": source, "hidden_by": hidden, "chains": chains
    })
}

/// What refuses a choice, or null.
pub(crate) fn refusal_value(alloc: Global, scene: &Scene<'_>) -> Result<Value, AllocError> {
    let Some(refusal) = scene.refusal else {
        return Ok(Value::Null);
    };
    let clause = Clause::of(refusal).name();
    match refusal {
        Refusal::FalseGuard { agent, place } => {
            let line = scene.line_of_guard(alloc, agent, place)?;
            json!(in alloc; {"clause": clause, "agent": agent, "guard": place, "line": line})
        }
        Refusal::BeforeItself { event } => {
            let chain = chain_value(alloc, scene, event, event)?;
            let event = name_value(alloc, scene, event)?;
            json!(in alloc; {"clause": clause, "event": event, "chains": [chain]})
        }
        Refusal::Incoherent {
            read,
            byte,
            source,
            cause,
        } => incoherent_value(alloc, scene, clause, (read, byte, source), cause),
        Refusal::Torn {
            read,
            source,
            other,
        } => {
            let read = name_value(alloc, scene, read)?;
            let sources = pair_value(alloc, scene, source, other)?;
            json!(in alloc; {"clause": clause, "read": read, "sources": sources})
        }
        Refusal::NoOrder => {
            let derivation = derivation_value(alloc, scene)?;
            json!(in alloc; {"clause": clause, "derivation": derivation})
        }
    }
}
