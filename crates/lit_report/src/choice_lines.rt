//! Prints the lines of a choice's sources without its outcome: no valid execution need have the choice.

ghost use Rattle.std.specs.Prelude.{◌<◌, length};
ghost use Rattle.lit_paths.specs.Choice.{choices_of};
ghost use Rattle.lit_report.specs.EntryText.{choice_lines};
ghost use Rattle.lit_report.specs.Writing.{HasPutOn};

use crate::buffer::Buffer;
use crate::counted::Counted;
use crate::source_lines::{CachedLines, put_lines};
use lit_paths::Plan;
use lit_paths::laws::combinations_are_listed;
use std::io::Write;

/// Puts the lines of a choice's reads with their sources, by the choice's number: those of its entry, where it has one.
pub fn put_choice_lines<W: Write>(
    buffer: &mut Buffer,
    output: &mut Counted<W>,
    plan: &Plan<'_>,
    choice: u64,
)
    requires { choice < length (choices_of plan.now) }
    ensures { HasPutOn W.contents output.old output.new buffer.old buffer.new (choice_lines plan.now choice) }
{
    // The law says that the list of combinations has each one once, so the entered combination is that of the choice.
    combinations_are_listed();
    let combination = plan.enter(plan.combination(choice));
    let sources = combination.sources(choice);
    put_lines(
        buffer,
        output,
        plan.test(),
        combination.events(),
        sources.as_slice(),
        &mut CachedLines::new(),
    );
}
