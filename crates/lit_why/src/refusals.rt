//! Refusals: the first clause of a valid execution (ECMA-262, 2024, 29.7) that a complete part breaks, with a witness.

pub(crate) mod causes;
mod guards;
pub(crate) mod incoherence;
pub(crate) mod tearing;

ghost use Rattle.std.specs.Prelude.{◌≡◌, ◌↔◌, ◌<◌, IsTrue, MatchOption, length};
ghost use Rattle.lit_order.specs.MemoryOrder.{HasOrder};
ghost use Rattle.lit_paths.specs.Choice.{combinations_of};
ghost use Rattle.lit_rel.specs.Between.{Forbids};
ghost use Rattle.lit_rel.specs.Part.{IsComplete};
ghost use Rattle.lit_rel.specs.Rows.{Holds, rows_len};
ghost use Rattle.lit_valid.specs.Completion.{HasCompletion};
ghost use Rattle.lit_why.specs.Refusal.{IsRefusal};

use crate::derivations::first_before_itself;
use crate::refusals::causes::Refusal;
use crate::refusals::guards::false_guard;
use crate::refusals::incoherence::first_incoherent;
use crate::refusals::tearing::first_torn;
use lit_order::{ForcedFinder, OrderFinder};
use lit_rel::{Between, Part, Rows};
use lit_valid::laws::whole_parts_are_decided_by_orders;

/// Whether some order respects a relation and avoids forbidden triples, both on the same events.
pub(crate) fn has_order(before: &Rows, between: &Between) -> bool
    requires { rows_len before.now ≡ between.now.len }
    ensures { IsTrue result ↔ HasOrder (rows_len before.now) (Holds before.now) (Forbids between.now) }
{
    match ForcedFinder.least_order(before, between) {
        Some(_) => true,
        None => false,
    }
}

/// The refusal of a complete part on a combination of a test: the first clause of a valid execution that the part breaks, in the order of
/// `Refusal`, with its least witness (decision 38). `None` exactly where a valid execution has the part's paths and sources. The caller
/// passes the sources beside the part, which does not lend them (decision 40).
pub fn refusal(part: &Part<'_>, sources: &[u8]) -> Option<Refusal>
    requires known { part.now.combination < length (combinations_of part.now.test) }
    requires complete { IsComplete part.now }
    requires sources { sources.now ≡ part.now.sources }
    ensures { MatchOption result (HasCompletion part.now) (IsRefusal part.now) }
{
    if let Some((agent, place)) = false_guard(part) {
        return Some(Refusal::FalseGuard { agent, place });
    }
    let before = part.happens_before();
    if let Some(event) = first_before_itself(&before) {
        return Some(Refusal::BeforeItself { event: event as u8 });
    }
    let combination = part.combination();
    let events = combination.events();
    // Tells the prover that the part's sources are events of the combination.
    let _len = part.len();
    if let Some(found) = first_incoherent(events, &before, combination.byte_reads(), sources) {
        return Some(Refusal::Incoherent {
            read: found.read,
            byte: found.byte,
            source: found.source,
            cause: found.cause,
        });
    }
    let reads = part.reads_from();
    if let Some(found) = first_torn(events, &reads) {
        return Some(Refusal::Torn {
            read: found.read as u8,
            source: found.source as u8,
            other: found.other as u8,
        });
    }
    // The law says that a complete part that is not broken has a valid execution exactly where it has a memory-order.
    whole_parts_are_decided_by_orders();
    // Tells the prover that the test is one that a text can spell.
    let _agents = combination.test().agents();
    if has_order(&before, &part.between()) {
        None
    } else {
        Some(Refusal::NoOrder)
    }
}
