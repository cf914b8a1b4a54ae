//! How many choices give the reads of a combination that are asked about the same values.

ghost use Rattle.std.specs.Prelude.{◌≡◌, ℕ, ◌<◌, Some, filter, length, slice_get};
ghost use Rattle.lit_paths.specs.Choice.{sources_of};
ghost use Rattle.lit_paths.specs.Members.{AreSources};
ghost use Rattle.lit_solve.specs.Box.{events_on};
ghost use Rattle.lit_why.specs.Attempts.{agree, give_same_values};

use crate::asking::{asks, do_agree};
use lit_paths::laws::choices_have_numbers;
use lit_paths::{Combination, Event, Plan};

/// How many of the events `among` make no difference to a source of a byte, where its read is asked about or is not.
fn count_agreeing(events: &[Event], among: &[u8], asked: bool, byte: u8, source: usize) -> u64
    requires known { (k w : ℕ) → slice_get among.now k ≡ Some w → w < length events.now }
    requires source { source < length events.now }
    ensures { result ≡ length (filter (agree asked events.now byte source) among.now) }
{
    let mut count = 0u64;
    for event in among {
        if do_agree(events, asked, byte, source, usize::from(*event)) {
            count += 1;
        }
    }
    count
}

/// How many choices on a combination give each read that is asked about the value that these sources do, one for each byte read. The
/// combination is one of the plan's test.
pub(crate) fn count_same_values(
    plan: &Plan<'_>,
    combination: &Combination<'_>,
    sources: &[u8],
) -> u64
    requires plan { plan.now ≡ combination.now.0 }
    requires sourced { AreSources (events_on combination.now) sources.now }
    ensures { result ≡ length (filter (give_same_values combination.now.0 combination.now.1 sources.now)
        (sources_of (events_on combination.now))) }
{
    // The law says that the choices that begin with given sources are as many as the product of the other byte reads' numbers of
    // candidates. `end` and `first` tell the prover that there are few choices, and that the combination is one of the test's.
    choices_have_numbers();
    let _first = combination.first();
    let _end = combination.end();
    let events = combination.events();
    let mut count = 1u64;
    // From the last byte read back: the invariant counts by the byte reads from a place on.
    for place in (0..sources.len()).rev() {
        let at = combination.byte_reads()[place];
        let asked = asks(plan, combination, usize::from(at.read));
        let among = combination.candidates(place);
        let source = usize::from(sources[place]);
        count = count_agreeing(events, among, asked, at.byte, source) * count;
    }
    count
}
