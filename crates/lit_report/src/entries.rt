//! The entries of a report from one place up to another, put one by one in their order.

ghost use Rattle.std.specs.Prelude.{◌≡◌, ◌<◌, ◌≤◌, length};
ghost use Rattle.lit_paths.specs.Choice.{choices_of};
ghost use Rattle.lit_search.specs.Report.{IsReport, entry_at, in_range};
ghost use Rattle.lit_report.specs.Writing.{HasPutOn};
ghost use Rattle.lit_report.specs.Internal.Pages.{page_text};

use crate::buffer::Buffer;
use crate::counted::Counted;
use crate::entry_cache::{EntryCache, put_entry};
use lit_paths::Plan;
use lit_search::Found;
use std::io::Write;

/// The choice and the order of the example with a place in a report, or none behind the last.
fn example_at(found: &Found, place: usize) -> (u64, &[u8])
    ensures { place < length found.now.entries
        → (result.0 ≡ (entry_at found.now place).choice) × (result.1.now ≡ (entry_at found.now place).order) }
{
    if place < found.len() {
        let example = found.example(place);
        (example.choice, example.order.as_slice())
    } else {
        (0, &[])
    }
}

/// Puts an outcome and its example for each entry from one place up to another. Examples are scattered in memory, so the loop reads from
/// the next example before it puts the current entry: a prefetch.
pub(crate) fn put_entries<W: Write>(
    buffer: &mut Buffer,
    output: &mut Counted<W>,
    plan: &Plan<'_>,
    found: &Found,
    first: usize,
    end: usize,
)
    requires report { IsReport plan.now (in_range 0 (length (choices_of plan.now))) found.now }
    requires known { end ≤ length found.now.entries }
    ensures { HasPutOn W.contents output.old output.new buffer.old buffer.new
        (page_text plan.now found.now first end) }
{
    // Tells the prover that there is a combination to enter.
    let _some = plan.combinations();
    let mut combination = plan.enter(0);
    let mut cache = EntryCache::new();
    let (mut choice, mut order) = example_at(found, first);
    for place in first..end {
        let (next_choice, next_order) = example_at(found, place + 1);
        put_entry(
            buffer,
            output,
            &*plan,
            &mut combination,
            found.outcome(place),
            choice,
            order,
            &mut cache,
        );
        choice = next_choice;
        order = next_order;
    }
}
