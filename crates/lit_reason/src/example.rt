//! The example of a choice, as a report prints it: its outcome with its sources and least memory-order; and its sources alone.

ghost use Rattle.std.specs.Prelude.{◌≡◌, ◌<◌, IfOk, length};
ghost use Rattle.lit_paths.specs.Choice.{choices_of};
ghost use Rattle.lit_report.specs.EntryText.{choice_lines};
ghost use Rattle.lit_reason.specs.Example.{IsExampleText};

use crate::found::found_of;
use lit_paths::Plan;
use lit_report::{Buffer, Counted, EntryCache, put_choice_lines, put_entry};
use std::alloc::{AllocError, Global};

/// The text of a choice's entry in a report, empty where no valid execution has the choice. Fails only where memory is refused.
pub(crate) fn example_text(
    alloc: Global,
    plan: &Plan<'_>,
    choice: u64,
) -> Result<Vec<u8>, AllocError>
    requires { choice < length (choices_of plan.now) }
    ensures { IfOk result (λ text. IsExampleText plan.now choice text.items) }
{
    let found = found_of(alloc, plan, choice)?;
    if found.len() == 0 {
        return Ok(Vec::new(alloc));
    }
    // Tells the prover that there is a combination to enter.
    let _some = plan.combinations();
    let mut combination = plan.enter(0);
    let mut output = Counted::new(Vec::new(alloc));
    let mut buffer = Buffer::new();
    put_entry(
        &mut buffer,
        &mut output,
        plan,
        &mut combination,
        found.outcome(0),
        choice,
        found.example(0).order.as_slice(),
        &mut EntryCache::new(),
    );
    match buffer.finish(&mut output) {
        Ok(()) => Ok(output.into_inner()),
        Err(_) => Err(AllocError),
    }
}

/// The lines of a choice's sources. Fails only where memory is refused.
pub(crate) fn sources_text(
    alloc: Global,
    plan: &Plan<'_>,
    choice: u64,
) -> Result<Vec<u8>, AllocError>
    requires { choice < length (choices_of plan.now) }
    ensures { IfOk result (λ text. text.items ≡ choice_lines plan.now choice) }
{
    let mut output = Counted::new(Vec::new(alloc));
    let mut buffer = Buffer::new();
    put_choice_lines(&mut buffer, &mut output, plan, choice);
    match buffer.finish(&mut output) {
        Ok(()) => Ok(output.into_inner()),
        Err(_) => Err(AllocError),
    }
}
